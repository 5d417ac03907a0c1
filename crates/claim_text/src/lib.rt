//! The reader of claims, and the cut of a check's input into a problem and a claim.
//!
//! A session's claims about a scene can be kept, sent and checked by another program. `claim_writing` defines
//! the form of such texts, and writes them. The reader takes exactly the texts of that form. For any other
//! text the answer is the number of the first line outside the form.
//!
//! ```
//! // of the text `row 1 1000 1 >= 1 5 1:1`, `stay 1 0`, and then `value 1 5`, `best`, `level s1 1`,
//! // `by 1 row 1`, `by -1 row s1`, each on a line
//! let input = cut_input(text);                     // two lines of a problem, five of a claim
//! let problem = read_problem(alloc, input.problem)?;
//! let claim = read_claim(alloc, input.claim)?;     // Claim::IsBest; BadLine(3) for a level without scale
//! ```
//!
//! [`cut_input`] cuts such an input in two, and [`read_claim`] reads the claim. `read_problem` is in
//! `problem_reading`. The laws say that the lines that are read as a claim are exactly that claim's lines,
//! and that the line at which the reader stops is the first outside the form.
//!
//! Invariant (`IsDraft`): while a claim is read, its parts so far have the order in which a claim is written:
//! values by rising attribute, levels and rows each once and in the order of `claim::order`.
//!
//! Modules in reading order: `claim::fields`, `claim::path_lines` and `claim::lines` (the content of a line),
//! `claim::order` and `claim::seen` (the stays named so far), `claim::path_draft` and `claim::draft` (a claim
//! while it is read), `claim::reader`. `cut` (the input of a check); `form_laws`.
#![tactic(auto)]

mod claim;
mod cut;
mod form_laws;

pub use claim::reader::read_claim;
pub use cut::{CheckInput, cut_input};
pub use form_laws::{claims_are_the_form, some_lines_are_outside};
