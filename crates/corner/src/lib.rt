//! A layout problem at one of its corners, kept as rows of whole numbers that an exchange changes in place.
//!
//! A [`Corner`] is a problem with the marks inside at a corner: as many marks as rows, which the outside
//! ones fix. It answers what stands there: the values of attributes and marks, the writing of each by the
//! outside marks ([`Corner::movers`], [`Corner::coefficient`], [`Corner::denominator`]), and what each
//! level costs and what it would cost to let a mark grow ([`Corner::front`], [`Corner::fronts`],
//! [`Corner::reduced`], [`Corner::multiplier`]). [`Corner::swap`] goes to a neighbouring corner,
//! [`Corner::swap_settled`] to one without negative columns, for which no line is listed;
//! [`Corner::add_attr`] and [`Corner::add_rows`] go to that of a larger problem, [`Corner::drop_row`] and
//! [`Corner::drop_attr`] to that of a smaller one; [`Corner::stand`] makes the values the targets of the
//! stays, and [`Corner::put_first`] puts some of these before all others.
//!
//! [`Corner::mark`] keeps the corner of now as an earlier one, and [`Corner::back`] returns to the newest
//! of these. Neither wants memory. Where memory is wanting, or new rows do not fit, the corner is that of
//! the newest mark again, with no line listed; where a swap does not fit, all is as before.
//!
//! A contract sees a `CornerView`: the problem, the marks inside in order, the scenes of the earlier marks,
//! the lines that are listed as those that may have a negative column, and the attributes and lines in the
//! order in which they came. All else follows from the problem and the marks. What each corner keeps
//! ([`Corner::show_corner`]): the problem is whole, the marks are a corner's, each outside mark can grow
//! alone, each quantity has a writing that fits, and each outside mark with a negative column is listed.
//!
//! ```
//! let mut corner = Corner::new(alloc)?;
//! corner.mark();
//! corner.add_attr(1, Frac::zero())?;            // at 0, which its stay asks for
//! corner.add_rows(&rows)?;                      // a row 7: attribute 1 is 30
//! corner.marks()?;                              // the under mark of row 7: the attribute is 30 too small
//! let enter = Mark { row: RowName::Stay(1), side: Side::Over };
//! let leave = Mark { row: RowName::Held(7), side: Side::Under };
//! corner.swap(enter, leave)?;
//! corner.attr_value(1);                         // 30
//! corner.back();                                // no attribute and no row
//! ```
//!
//! What the type keeps (`IsConsistent`): each attribute, line and priority level has a slot, which is a row
//! and a column of one sparse matrix; what is taken out leaves a slot of nothing, and slots of what left are
//! used again where there are more of them than of something. The row and the value of an attribute or an
//! inside line are its equation by the outside lines in lowest terms, and those of a level are its cost; so
//! are those at each earlier mark.
//!
//! Linear programming's words: the marks inside are the basis, and the values there its basic solution; a
//! mark is the slack or the surplus variable of its line. A writing is a row of the tableau in lowest terms;
//! [`Corner::movers`] counts the entries of a mark's column. [`Corner::multiplier`] is a simplex multiplier,
//! [`Corner::reduced`] a reduced cost at one level, and [`Corner::front`] the first of a mark's that isn't
//! 0. [`Corner::swap`] is a pivot, for which the caller makes the ratio test.
//!
//! The lists are a `Table` of `corner_table`, of which `corner_writings` reads. Each change has a crate below
//! this one: `corner_exchange` goes to the next corner, `corner_joins` to that of a larger problem,
//! `corner_leaving` to that of a smaller one, `corner_shifts` to that with another constant or other targets,
//! and `corner_orders` to that with another order of stays. `corner_packing` takes slots of nothing out.
//!
//! To read: `known` keeps what need not be looked up again: with `safe` the lines that are known to be safe
//! to turn, and the stays that may not be at their targets. These are still known after changed constants,
//! exchanges and joins, but not where something leaves, after another order or a return to a mark. `lows`
//! finds a line's mark with a negative value; and `corner` is what callers use.
#![tactic(auto)]

mod corner;
mod known;
mod lows;
mod safe;

pub use corner::Corner;
