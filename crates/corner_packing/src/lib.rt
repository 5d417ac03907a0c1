//! Slots that are of nothing go, so that those of what left are used again.
//!
//! What leaves a corner leaves slots of nothing in its lists. [`pack`] takes them out: the others move to the
//! places before, in their order, and with them the columns of all rows. The problem, the marks inside and
//! the listed lines stay. It costs as much as there is in the lists, so `corner` calls it where as many slots
//! are of nothing as of something.
//!
//! ```
//! // slots of a, its stay, nothing, and a row, past those of the levels
//! pack(&mut table, &mut listed)?;
//! // slots of a, its stay, and the row
//! ```
//!
//! To read: `places` gives each slot its place, `moving` puts slots, standings, rows and numbers there.
#![tactic(auto)]

ghost use Rattle.std.specs.Prelude.{◌≡◌, ◌≤◌, ◌+◌, length, OnOk};
ghost use Rattle.corner_table.specs.declared.table.TheConstants.{LEVELS};
ghost use Rattle.corner_table.specs.Histories.{AreAlike, lists_before};
ghost use Rattle.corner_table.specs.Invariants.{IsConsistent, names_of};
ghost use Rattle.corner_table.specs.Kept.{taken_slots};
ghost use Rattle.corner_table.specs.Tables.{lists_of, marks_at, problem_of};

mod moving;
mod places;

use corner_table::{Listed, Table};
use frac_core::OutOfMemory;
use moving::move_all;
use places::places_of;

/// Takes out the slots that are of nothing. After want of memory the lists are to be rewound.
pub fn pack(table: &mut Table, listed: &mut Listed) -> Result<(), OutOfMemory>
    requires { IsConsistent table.old listed.old }
    ensures consistent { OnOk result (IsConsistent table.new listed.new) }
    ensures problem { OnOk result (problem_of (lists_of table.new) ≡ problem_of (lists_of table.old)) }
    ensures marks { OnOk result (marks_at (lists_of table.new) ≡ marks_at (lists_of table.old)) }
    ensures names { OnOk result (names_of (lists_of table.new) listed.new
        ≡ names_of (lists_of table.old) listed.old) }
    ensures packed { OnOk result (length table.new.slots.items ≤ LEVELS + taken_slots (lists_of table.new)) }
    ensures before { lists_before table.new ≡ lists_before table.old }
    ensures alike { AreAlike table.new }
{
    let places = places_of(table)?;
    move_all(table, &places)?;
    listed.rename(&places.of, table.alloc)
}
