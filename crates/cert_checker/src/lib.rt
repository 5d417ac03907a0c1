//! A checker of claims on layout problems that stands apart from any solver: it uses the words of problems
//! and claims alone, and reads no text.
//!
//! [`check_conflict`] judges multipliers that are to show that the required rows have no solution,
//! [`check_best`] a certificate that values are best. The verdict is exact: yes, the number of the first
//! clause that fails, or the first row at which there is no room for the sums.
//!
//! ```
//! check_conflict(alloc, &problem, &conflict)?   // Verdict::Yes: there is no solution
//! check_best(alloc, &problem, &values, &best)?  // Verdict::No(2): a required row doesn't hold
//! ```
//!
//! Linear programming's words: the multipliers of a conflict are Farkas multipliers. A certificate is a dual
//! solution, level by level. From it each mark, a slack or surplus variable, has a column of reduced costs,
//! the strongest level first, and the first of these that isn't 0 is its front. That no front is below 0 is
//! dual feasibility, and that the columns of the sides that the values use are all 0 is complementary
//! slackness.
//!
//! What holds on the way (`AreFronts` in `specs/Fronts.antt`): after each level that is read, the checker has
//! of each column the first number that isn't 0 among the levels read so far.
//!
//! In reading order: `verdict`; `arithmetic` (in 128 bits), `sums` (of lines by attribute), `places` (of
//! lines), `refuting` (conflicts); `valued` (whose values they are, their room, the required rows), `leveled`
//! (the levels of a certificate), `fronts`, `judging` (certificates); `laws`.
#![tactic(auto)]

mod arithmetic;
mod fronts;
mod judging;
mod laws;
mod leveled;
mod places;
mod refuting;
mod sums;
mod valued;
mod verdict;

pub use judging::check_best;
pub use laws::values_are_given;
pub use refuting::check_conflict;
pub use verdict::{
    BALANCE_CLAUSE, CANCEL_CLAUSE, COLUMNS_CLAUSE, FREE_CLAUSE, GIVEN_CLAUSE, REQUIRED_CLAUSE,
    SIGNS_CLAUSE, SUM_CLAUSE, Verdict, constants_are_as_said,
};
