//! Findings: one refused line, with its place, its cause and its cures, as a JSON object or as text for
//! people. It needs the line and the words of the reply, and no session.
//!
//! ```
//! let line = b"vfl g align left H:[a][b]";
//! let cause = cause_of("kind align");              // `why`: the alignment runs along the format
//! let mut finding = Finding::new(alloc);
//! finding.set_count("line", 3);
//! finding.set_text("text", line);
//! finding.set_text("reply", b"refused 5 kind align");
//! finding.set_text("why", cause.why.as_bytes());
//! finding.set_place(line, cause_place(line, "kind align", cause.mark));
//! finding.set_cure(align_cure(line).as_bytes());
//! put_people(&mut reader, &mut out, &finding.value());
//! // line 3, column 13: refused 5 kind align
//! //     vfl g align left H:[a][b]
//! //                 ^~~~
//! //     why: the alignment runs along the format: take one across, as centerY for H:
//! //     cure: behind H: that is `top`, `bottom` or `centerY`; the others are for V:
//! ```
//!
//! The crate is only tested.
//!
//! In reading order: `chars` (characters of a text), `finding` ([`Finding`]: the object), `causes` (what
//! causes mean, and the forms of commands), `marks` (where a cause shows), `trees` (what is wrong with a
//! tree's text), `pins` (lines that pin an attribute), `carets` (a line with a caret) and `people` (the text
//! of a finding).
#![tactic(auto)]

mod carets;
mod causes;
mod chars;
mod finding;
mod marks;
mod people;
mod pins;
mod trees;

pub use causes::{Cause, cause_of, form_of};
pub use finding::{Finding, put_json, text_of};
pub use marks::{align_cure, cause_place, long_place, own_place, taken_place, unknown_place};
pub use people::put_people;
pub use pins::{digits_behind, put_pin};
pub use trees::{Fault, json_fault, shape_fault};
