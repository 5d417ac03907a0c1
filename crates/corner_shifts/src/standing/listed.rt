// The stays' targets where it is known which lines may have moved.
ghost use Rattle.std.specs.Prelude.{◌≡◌, ◌<◌, ◌⊎◌, ℕ, pos, true, length, slice_index_or};
ghost use Rattle.std.specs.Prelude.{All, Contains, IfNone, IfOk, IfSome, OnOk};
ghost use Rattle.std.specs.List.Sorted.{IsStrictlyIncreasing};
ghost use Rattle.problem_core.specs.declared.parts.RowName.TheVariants as row_names;
ghost use Rattle.problem_core.specs.declared.parts.Stay as stay_type;
ghost use Rattle.corner_shifts.specs.Astray.{AreAstray};
ghost use Rattle.corner_shifts.specs.Stood.{AreFirstStood, IsAtRest, stay_slot};
ghost use Rattle.corner_view.specs.declared.types.Owner.TheVariants as owner_type;
ghost use Rattle.corner_table.specs.Histories.{HasSameHistory};
ghost use Rattle.corner_table.specs.Kept.{AreSlots, IsKept, IsStayOwner};
ghost use Rattle.corner_table.specs.Tables as tables;
ghost use Rattle.corner_table.specs.Tables.{lists_of, standing_at};

use crate::standing::{stand_stay, stand_stays};
use corner_table::{Listed, Table, slot_at, value_at};
use corner_view::Owner;
use frac_core::OutOfMemory;
use problem_core::RowName;

// The attribute whose stay's line this is.
fn stay_of(owner: Owner) -> Option<u32>
    ensures some { IfSome result (λ attr. owner ≡ owner_type.Line (row_names.Stay attr)) }
    ensures none { IfNone result (IsStayOwner owner → ⊥) }
{
    match owner {
        Owner::Line(RowName::Stay(attr)) => Some(attr),
        _ => None,
    }
}

// The attribute whose stay's line has this slot, if there is one that has moved.
fn moved_attr(table: &Table, w: u32) -> Option<u32>
    requires { AreSlots (lists_of table.now) }
    ensures some { IfSome result (λ attr. (tables.slot_at (lists_of table.now) w).owner
        ≡ owner_type.Line (row_names.Stay attr)) }
    ensures none { IfNone result (All (λ s. stay_slot (lists_of table.now) s.attr ≡ w
        → (standing_at (lists_of table.now) w).value.num ≡ pos 0) table.now.stays.items) }
{
    if w as usize >= table.slots.len() || value_at(table, w).num() == 0 {
        return None;
    }
    stay_of(slot_at(table, w).owner)
}

// The place of an attribute's stay. It is found where the stays stand by rising attribute.
fn place_of(table: &Table, attr: u32) -> Option<usize>
    ensures within { IfSome result (λ i. i < length table.now.stays.items) }
    ensures attr { IfSome result (λ i. (s : stay_type.Stay)
        → (slice_index_or table.now.stays.items i s).attr ≡ attr) }
{
    let mut low = 0;
    let mut high = table.stays.len();
    while low < high {
        let middle = low + (high - low) / 2;
        let found = table.stays.get(middle).attr;
        if found == attr {
            return Some(middle);
        }
        if found < attr {
            low = middle + 1;
        } else {
            high = middle;
        }
    }
    None
}

// Adds the place of the stay whose line has this slot, if there is one that has moved. Not true where there
// is one whose place was not found.
fn add_place(table: &Table, w: u32, places: &mut Vec<usize>) -> Result<bool, OutOfMemory>
    requires { AreSlots (lists_of table.now) }
    ensures within { All (λ i. i < length table.now.stays.items) places.old.items
        → All (λ i. i < length table.now.stays.items) places.new.items }
    ensures keeps { (i : ℕ) → Contains places.old.items i → Contains places.new.items i }
    ensures has { IfOk result (λ found. found ≡ true → (i : ℕ) (s : stay_type.Stay)
        → i < length table.now.stays.items
        → stay_slot (lists_of table.now) (slice_index_or table.now.stays.items i s).attr ≡ w
        → IsAtRest (lists_of table.now) i ⊎ Contains places.new.items i) }
{
    let Some(attr) = moved_attr(table, w) else {
        return Ok(true);
    };
    let Some(place) = place_of(table, attr) else {
        return Ok(false);
    };
    places.push(place)?;
    Ok(true)
}

// The places of the stays of listed lines that have moved, if each was found.
fn moved_places(table: &Table, lines: &Listed) -> Result<Option<Vec<usize>>, OutOfMemory>
    requires slots { AreSlots (lists_of table.now) }
    requires lines { AreAstray (lists_of table.now) lines.now }
    ensures within { IfOk result (λ found. IfSome found
        (λ places. All (λ i. i < length table.now.stays.items) places.items)) }
    ensures has { IfOk result (λ found. IfSome found (λ places. (i : ℕ) → i < length table.now.stays.items
        → IsAtRest (lists_of table.now) i ⊎ Contains places.items i)) }
{
    let mut places = Vec::with_capacity(table.alloc, lines.len())?;
    for k in 0..lines.len() {
        if !add_place(table, lines.slot(k), &mut places)? {
            return Ok(None);
        }
    }
    Ok(Some(places))
}

// Gives the stays in these places, which rise, their attributes' values as targets.
fn stand_at(table: &mut Table, places: &[usize]) -> Result<(), OutOfMemory>
    requires kept { IsKept (lists_of table.old) }
    requires rising { IsStrictlyIncreasing places.now }
    requires within { All (λ i. i < length table.old.stays.items) places.now }
    requires has { (i : ℕ) → i < length table.old.stays.items
        → IsAtRest (lists_of table.old) i ⊎ Contains places.now i }
    ensures past { HasSameHistory table.old table.new }
    ensures lists { OnOk result (AreFirstStood (length table.old.stays.items) (lists_of table.old)
        (lists_of table.new)) }
{
    for k in 0..places.len() {
        stand_stay(table, places[k])?;
    }
    Ok(())
}

/// Gives each stay that has moved its attribute's value as target, where only stays of lines with these slots
/// may have. It looks at these slots alone, if the stays stand by rising attribute.
pub(crate) fn stand_listed(table: &mut Table, lines: &Listed) -> Result<(), OutOfMemory>
    requires kept { IsKept (lists_of table.old) }
    requires lines { AreAstray (lists_of table.old) lines.now }
    ensures past { HasSameHistory table.old table.new }
    ensures lists { OnOk result (AreFirstStood (length table.old.stays.items) (lists_of table.old)
        (lists_of table.new)) }
{
    let Some(mut places) = moved_places(table, lines)? else {
        return stand_stays(table);
    };
    places.sort_unstable();
    places.dedup();
    stand_at(table, &places)
}
