//! The lists in which a layout problem is kept at one of its corners, and what is read of them.
//!
//! A [`Table`] has a problem's rows and stays, and a slot for each attribute, line and priority level: a row
//! and a column of one sparse matrix of whole numbers. [`new_table`] is that of no row and no stay. What a
//! quantity is worth is the value in its slot ([`value_at`]); a line's slot says which of its marks is inside
//! ([`side_at`]), and [`marks_with`] names all of these. A slot whose attribute or line left is of nothing,
//! and there are never more than [`MOST_SLOTS`] slots: [`is_crowded`] tells when those of nothing have to go.
//! Each list has as many earlier versions: [`mark`], [`back`], [`forget`] and [`rewind`] keep them alike.
//! [`moved_attrs`] lists the attributes whose values are others than at the newest mark.
//!
//! ```
//! let mut table = new_table(alloc)?;            // the slots of the priority levels, and nothing else
//! mark(&mut table);
//! let slot = Slot { owner: Owner::Attr(1), home: LEVELS, rank: 0, weight: 1, scale: 1, rel: Rel::Eq };
//! push_slot(&mut table, slot, None, Frac::zero(), row)?;
//! value_at(&table, LEVELS);                     // 0
//! back(&mut table);                             // the slots of the levels alone
//! ```
//!
//! [`Listed`] is a list of slots, each once: those of the lines that may have a negative column.
//!
//! A contract sees the `Lists` of now and of each mark (`lists_of`, `lists_before`). What they keep where an
//! operation is done is `IsKept` (`specs/Kept.antt`): each attribute and line of the problem has a slot, and
//! a row and a value there are its equation by the outside lines in lowest terms; those of a level are its
//! cost. `IsConsistent` (`specs/Invariants.antt`) says it of the earlier versions too. The words for what is
//! seen of a corner (`specs/Views.antt`) are here, since the lists are read by them.
//!
//! To read: `table` has the lists, each with its earlier versions; `slots` finds in them by name; `listing`
//! lists lines; `marking` names the marks inside and lists the lines of a row; `moved` compares with
//! the newest mark; `sums` adds.
#![tactic(auto)]

mod listing;
mod marking;
mod moved;
mod slots;
mod sums;
mod table;

pub use listing::Listed;
pub use marking::{list_row, marks_with, path_stop};
pub use moved::moved_attrs;
pub use slots::{
    attr_slot, cost_share, costs, is_level, is_stay, level_of, level_slot, line_slot, name_at,
    other, own_of, own_of_level, priority_at, priority_level, row_place, share, side_at, side_in,
    sign, slot_at, unit_of, value_at, what_at, what_slot,
};
pub use sums::{product, sum};
pub use table::{
    LEVELS, MOST_SLOTS, OWN_RANK, Priority, SPARE_SLOTS, Slot, Standing, Table, back, forget,
    is_crowded, mark, new_table, next_slot, push_slot, rewind,
};
