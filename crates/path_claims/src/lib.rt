//! The check of a path: the clauses, corner by corner, and the verdict.
//!
//! [`check_path`] judges a path of exchanges between corners. The path is shown with a quantity that does not
//! fit at its last corner, or with none. The answer is a `PathVerdict`: the path is lawful, or the number of
//! the first clause that fails, or the number of exchanges of the route after which a quantity that counts
//! does not fit.
//!
//! ```
//! check_path(alloc, &problem, &path, Some(Quantity::Plain(What::Attr(7))))?     // PathVerdict::Yes
//! ```
//!
//! The route is made once, and all clauses are judged along it. A corner on it is a `Station`: the lines
//! (`path_lines`) and the rows of the levels (`path_levels`) of the corner before it, and the exchange that
//! leads to it.
//!
//! Linear programming's words: a corner is a basic solution, the marks inside are its basis, and an exchange
//! is a pivot of the tableau. The lines are the tableau's rows, and the levels' rows are its objective rows.
//! Each corner of a path must be feasible, on a dual path dual feasible. An end is an optimal corner, or one
//! that shows that there is no feasible corner. An exchange is called for if the pricing, or the dual ratio
//! test, may choose it.
//!
//! A station's table fits, number by number. So do all numbers at a route's corners except the last, whose
//! numbers may be what the path is to show. There `path_fits` computes only the quantity in question.
//!
//! The laws, each the contract of a function that does nothing, say that the clauses of a path together are
//! the path, and that the definitions of the clauses hold of some paths and fail of others.
//!
//! In reading order: `verdict` (the answer, and the clauses by number), `check` (which clause fails first),
//! `way` (what ends a route), `route` (which mark is brought in, and corners that come twice, by
//! `numbering`), `journey` and `along` (the route, by `stations`), `start` (a path that is the corner where
//! the route begins, by `begins`, `orders`), `laws`.
#![tactic(auto)]

mod along;
mod begins;
mod check;
mod journey;
mod laws;
mod numbering;
mod orders;
mod route;
mod start;
mod stations;
mod verdict;
mod way;

pub use check::check_path;
pub use laws::{path_is_its_clauses, some_paths_hold, yes_is_path};
pub use verdict::{
    APART_CLAUSE, CALLED_CLAUSE, CORNER_CLAUSE, EXCHANGES_CLAUSE, PathVerdict, SOUND_CLAUSE,
    UNFIT_CLAUSE, constants_are_as_said,
};
