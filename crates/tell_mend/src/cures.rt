// The usual mistakes in the grammar of a line, and their cures: three texts, whose lines are rows. The proof
// of a function with a table of constants takes the square of the table's length, but a text costs the same
// however long it is.
//
// A row is BEFORE~THERE~EDIT~WORDS. BEFORE and THERE are the texts to the left and to the right of the place
// where the line leaves the grammar; both are removed. EDIT is the change, made by `mending`, and WORDS
// describe it. A row without words has those of the row above.
//
// An edit is CONDITION=TEXT, or =TEXT without a condition: put the text there. Or it is a word:
// - `rest`: remove the rest of the line.
// - `unit`: remove the unit after a number, if it is a name of points.
// - `wrap`: put the text up to the next sign in parentheses.
// - `group`: put a group's name after the first word.
// - `hyphens`: put `_` for each `-` of the group's name.
// - `relation`: put a command and a group's name in front.
// - `times` and a text: move the number after the sign in front of the attribute, after the text.

use crate::bytes::parted;

/// A mistake and its cure.
#[derive(Clone, Copy)]
pub struct Cure {
    pub before: &'static [u8],
    pub there: &'static [u8],
    pub edit: &'static [u8],
    pub words: &'static [u8],
}

impl Cure {
    /// The cure in a row. `above` are the words of the row above it.
    pub fn of(row: &'static [u8], above: &'static [u8]) -> Cure {
        let (before, rest) = parted(row, b'~');
        let (there, rest) = parted(rest, b'~');
        let (edit, words) = parted(rest, b'~');
        let words = if words.is_empty() { above } else { words };
        Cure {
            before,
            there,
            edit,
            words,
        }
    }
}

/// Mistakes tried before similar words: of alignments, sizes and commands.
pub const FIRST_CURES: &str = "\
center~ H~=centerY H~views beside each other are centred by `centerY`, views below each other by `centerX`
center~ V~=centerX V~
center~ [~=centerY [~
center~ |~=centerY |~
cent~re H~=centerY H~
cent~re V~=centerX V~
~middle H~=centerY H~
~middle V~=centerX V~
]~,[~=]-[~a `-` stands on both sides of a space between two views
]~, [~=]-[~
s~et ~=metric ~a number with a name is a `metric`
~let ~=metric ~
~add ~=~no word stands in front of the command's own
~.width~=~in a format a view's name alone stands for its size
~.height~=~";

/// The first of two cures that cure as much is taken. In order: mistakes of groups and relations, and of
/// numbers; signs that look like another one; quotes and invisible signs; comments, signs that are never
/// right and decimal points; mistakes of attributes, of names and priorities, of formats and spaces; missing
/// signs.
pub const CURES: &str = "\
~\u{feff}~=~the file begins with a byte order mark: save it without
~~group~a group's name of your choice stands behind the first word
=~~===~a relation is `==`, `<=` or `>=`
<~~=<=~
>~~=>=~
=~<~=<=~
=~>~=>=~
==~=~===~
~\u{2264}~=<=~
~\u{2265}~=>=~
~= ~other=~no `=` stands there
~=~other=~
weight~=~=weight ~
~== ~other=~no relation stands there
== ~== ~=== ~one relation stands there
~~hyphens~a name has letters from a to z, digits and `_` alone
~is ~=== ~a relation is `==`, `<=` or `>=`
~~=== ~a relation is missing: `==`, `<=` or `>=`
~~relation~a relation is a line `constrain`, with a group's name of your choice
~: ~= in ~what a view is in stands behind `in`
~~unit~numbers have no unit: all are points
~x~numbers= ~a blank stands between the width and the height
~*~numbers= ~
~by ~=~
~to ~=~the number stands there at once
~+~=~no `+` stands in front of a number
+ ~+~=+ ~one sign stands between two terms
+ ~-~=- ~
~$~=~no `$` stands in front of a name
~*~times~a multiplier stands in front of its attribute, with `*` between them
~/~times1/~to divide, put `1/2*` and the like in front of the attribute
~~=*~a multiplier stands in front of its attribute, with `*` between them
~\u{d7}~=*~take the sign that the keyboard has in place of this one
~\u{b7}~=*~
~\u{2010}~=-~
~\u{2011}~=-~
~\u{2013}~=-~
~\u{2014}~=-~
~\u{2212}~=-~
~\u{a0}~= ~this blank is one that doesn't break: type it anew
~\u{2009}~= ~this blank is another one than the keyboard's: type it anew
~\u{202f}~= ~
~\u{2028}~= ~
~\u{bd}~=1/2~take the sign that the keyboard has in place of this one
~\u{200b}~=~a blank of no width stands there: take it away
~\u{201c}~=~names and numbers stand without quotes
~\u{201d}~=~
~\u{2018}~=~
~\u{2019}~=~
~\"~=~
~'~=~
~\r~=~two carriage returns end the line: save the file with plain ends
~#~rest~a comment has a line of its own, which begins with `#`
~//~rest~
~--~rest~
~;~=~nothing ends a line but its end
~,~=.~a decimal point is a `.`
~, ~= ~a blank stands between two words, no `,`
~,~= ~
~:~=~no `:` stands there
.~~number=~a digit stands behind a decimal point
~.~=0.~a digit stands in front of a decimal point
.~x~=.left~the edges are `left`, `top`, `width`, `height`, `right` and `bottom`
.~y~=.top~
.w~~=.width~
.h~~=.height~
.~start~=.leading~the sides in the direction of reading are `leading` and `trailing`
.~end~=.trailing~
center~.x~=centerX~the middles are `centerX` and `centerY`, as one word
center~.y~=centerY~
center~_x~=centerX~
center~_y~=centerY~
~-~name=_~a name has letters from a to z, digits and `_` alone
-~~name=_~
~.~name=_~
-~>~=.~a point stands between a view and its attribute, and no blank
view~s ~=view ~a line makes one view
~priority ~=@~a priority stands behind `@`
@~@~=@~
~H:~=vfl g H:~a format is a line `vfl`, with a group's name of your choice
~V:~=vfl g V:~
~[~=vfl g [~
~|~=vfl g |~
~(~=[~a view stands in `[` and `]`
~)~=]~
:~~=:[~
~)~=~no `)` stands there
~, ~=]-[~a `-` stands on both sides of a space between two views
~,~=]-[~
-~-~=-~one `-` stands on each side of a space
- ~-~=-~
|~-~=|~nothing stands behind the last `|`
~~format=align ~an alignment stands behind `align`
~of ~=in ~what a view is in stands behind `in`
in~side~=in~
~ ~=.~a point stands between a view and its attribute, and no blank
 ~~letter=.~
~~= ~a blank is missing
~[~=-[~a `-` stands on both sides of a space between two views
]~~=]-~
~~wrap~a size stands in parentheses behind its view
~~=:~a `:` is missing
~~=]~a `]` is missing
~~=)~a `)` is missing
 ~~= @~a priority stands behind `@`";

/// Mistakes that only the line's author can mend. The third column is a condition.
pub const ADVICE: &str = "\
remove ~*~~one group is removed by a line: write a line for each
tree~~~a tree is JSON, as {\"name\":\"card\",\"children\":[{\"name\":\"title\"}]}
b~aseline~~no view has a baseline: `constrain` tops, each plus a metric
~align~~an alignment stands in front of the format, behind the group
/0~*~~what a fraction divides by isn't 0
~-~behind~a range is two sizes, as (>=100,<=200)
min~(~~the least of two is two lines, with `<=` each
max~(~~the greatest of two is two lines, with `>=` each
~(~~an expression has no parentheses: multiply it out
~~share~a share is a factor in front of an attribute, as 0.5*a.width
~!=~~what a layout has to avoid can't be said: `<=` or `>=` is on one side of it
~\u{2260}~~
.~.~~a range is two sizes, as (>=100,<=200)
.~min~~a least size is said by `>=`, a greatest one by `<=`
.~max~~
~-~~no number below 0 may stand there
~R:~~to go from right to left is said by `direction rtl`, a line of version 2
~rtl~~
~<~~a line has one relation: write a line for each
~>~~
~=~~
~,~~a line says one thing: write a line for each
~*~~one multiplier stands in front of an attribute; a format has none
*~~~behind `*` stands an attribute or a metric, and no other factor
~/~~one fraction, of four digits at most on each side, stands in front of an attribute
~~fraction~a fraction stands in front of `*` alone; a number has a point, as 0.5
~@~~a priority stands once, in front of `weight`; in a format as [a(100@500)]
~^~~a number has no exponent: write it out
~_~~a number has digits alone, and maybe a point
~\r~~a carriage return ends no line: save the file with other line ends
~~digits~a number has at most six digits, and three behind its point
~~exponent~a number has no exponent and no unit: write out how many points it is
~~foreign~letters are those from a to z, and signs those of a plain keyboard: this is none";
