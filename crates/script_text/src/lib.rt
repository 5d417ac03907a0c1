//! The lines of a script and their readings.
//!
//! A script is of version 1, or of version 2, which has more commands ([`Version`]). A line is blank, a
//! comment (`#` and any bytes), or one of these commands, in which `?` follows the parts that may be left
//! out:
//!
//! ```text
//! view NAME (in NAME)?
//! tree TEXT
//! drop NAME
//! metric NAME -? NUMBER
//! window NUMBER NUMBER
//! vfl NAME (align ALIGNMENT)? FORMAT
//! constrain NAME EXPRESSION RELATION EXPRESSION (@ PRIORITY)? (weight WHOLE)?
//! remove NAME
//! suggest NAME.ATTRIBUTE -? NUMBER (@ PRIORITY)?
//! release NAME.ATTRIBUTE
//! undo
//! budget WHOLE
//! frames
//! rows
//! diagnose
//! certify
//! ```
//!
//! In version 2 a line may also be one of these:
//!
//! ```text
//! direction (ltr | rtl)
//! size NAME NUMBER NUMBER (hug PRIORITY)? (resist PRIORITY)?
//! unsize NAME
//! keep NAME
//! sweep width NUMBER NUMBER
//! why CHANGE
//! ```
//!
//! A [`Change`] is a command down to `release` in the first list, or down to `keep` in the second: it asks
//! for another scene. Every other command is [`Plain`]. `why` may precede a change, and no other command. The
//! change is written as it is alone ([`Reading`]).
//!
//! [`read_line_in`] gives the one reading of a line of a version, whose names are slices of the line, or the
//! offset at which the line leaves the grammar:
//!
//! ```
//! read_line_in(alloc, b"metric gap 8", Version::One)?
//!     // Reading::Command(Command::Change(Change::Update(Updating::Metric { name: "gap", value: 8 })))
//! read_line_in(alloc, b"metric gap", Version::One)
//!     // Stop::Refused(SyntaxAt(10)): all 10 bytes begin some line
//! ```
//!
//! An expression is a sum of terms with `+` and `-` between them and perhaps `-` in front. A term is a
//! number, or a variable with perhaps `NUMBER *` or `RATIO *` in front. A variable is `NAME.ATTRIBUTE` or the
//! name of a metric. A relation is `==`, `<=` or `>=`, and a priority is a name or a number. An alignment is
//! `left`, `right`, `top`, `bottom`, `centerX` or `centerY`.
//!
//! A name is a letter or `_` and then letters, digits and `_`. A number has 1 to 6 digits and perhaps a point
//! and 1 to 3 digits. A whole number has 1 to 19 digits. A ratio is two whole numbers of 1 to 4 digits, the
//! second not 0, with `/` between them. Each is as long as it can be and has no space inside, and neither has
//! `NAME.ATTRIBUTE`. Between all others there may be spaces and tabs. There must be some if a letter, a digit
//! or `_` would follow another, and after the first word if more follows. The text of a tree begins at the
//! first byte after these and is all that follows, whatever its bytes. It isn't read here.
//!
//! A script of version 2 begins with the words `layout` and `2` in a line of their own, which
//! [`is_version_line`] knows. That line is in neither grammar.
//!
//! The law of [`read_line_in`]: a line has a reading or a place where it leaves the grammar
//! ([`line_reads_or_leaves`]), and only one of these ([`reading_is_unique`], [`offset_is_unique`]).
//!
//! In reading order: `words` (the words of the grammar), `command` (the meaning of a line), `fractions`
//! (numbers and ratios as fractions), `terms` and `sums` (expressions), `constraint`, `formats`,
//! `suggestions`, `directions` and `sizes` (the lines of `constrain`, `vfl`, `suggest`, `release`,
//! `direction` and `size`), `lines` (all others, and [`read_line_in`]), `versions` (how a script of version 2
//! begins), `laws`.
#![tactic(auto)]

mod command;
mod constraint;
mod directions;
mod formats;
mod fractions;
mod laws;
mod lines;
mod sizes;
mod suggestions;
mod sums;
mod terms;
mod versions;
mod words;

pub use command::{
    Change, Coming, Command, ExprTerm, Leaving, Linear, Operand, Plain, Reading, Updating,
};
pub use fractions::signed_number;
pub use laws::{line_reads_or_leaves, offset_is_unique, reading_is_unique};
pub use lines::read_line_in;
pub use versions::is_version_line;
pub use words::{Align, AttrWord, Direction, Version};
