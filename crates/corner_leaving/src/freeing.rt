// Slots that are of nothing.
ghost use Rattle.std.specs.Prelude.{◌≡◌, ◌<◌, length, OnOk};
ghost use Rattle.corner_leaving.specs.Dropping.{freed};
ghost use Rattle.corner_table.specs.Histories.{AreAlike, lists_before};
ghost use Rattle.corner_table.specs.Tables.{lists_of};

use corner_table::{Slot, Standing, Table};
use corner_view::Owner;
use frac_core::{Frac, OutOfMemory};
use problem_core::Rel;
use row_core::IntRow;

/// Makes a slot one of nothing.
pub(crate) fn free_slot(table: &mut Table, w: u32) -> Result<(), OutOfMemory>
    requires slot { w < length table.old.slots.items }
    requires standing { w < length table.old.standings.items }
    requires row { w < length table.old.matrix.rows }
    ensures ok { OnOk result (lists_of table.new ≡ freed (lists_of table.old) w) }
    ensures before { lists_before table.new ≡ lists_before table.old }
    ensures alike { AreAlike table.old → AreAlike table.new }
{
    let none = IntRow::empty(table.alloc);
    table.matrix.put(w, none)?;
    let value = Frac::zero();
    table
        .standings
        .put(w as usize, Standing { side: None, value })?;
    let slot = Slot {
        owner: Owner::Level,
        home: 0,
        rank: 0,
        weight: 1,
        scale: 1,
        rel: Rel::Eq,
    };
    table.slots.put(w as usize, slot)
}
