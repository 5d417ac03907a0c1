// The inside mark that leaves, of the lines whose values may be negative.
ghost use Rattle.std.specs.Prelude.{◌≡◌, ◌⊎◌, ◌<◌, ◌≤◌, ◌+◌, length, Some, true, IfSome, IfNone};
ghost use Rattle.std.specs.Prelude.{IsSome, OnOk};
ghost use Rattle.std.specs.List.Sorted.{IsPermutation};
ghost use Rattle.problem_core.specs.Corners as corners;
ghost use Rattle.problem_core.specs.Corners.{IsIn, NoNegativeValue};
ghost use Rattle.corner_laws.specs.Runs.{other_mark};
ghost use Rattle.corner_view.specs.Seen.{IsNamed};
ghost use Rattle.dual_run.specs.Leaving.{AreLowLines, HasNoLow, IsLow, ListsSwapped};
ghost use Rattle.dual_run.specs.Turning.{IsLeave, MayTurn};
ghost use Rattle.dual_run.specs.FoundLows.{IsFoundLow, IsTwice};

use crate::entering::{is_dear, turns};
use corner_view::{Corner, Tableau};
use frac_core::{Frac, OutOfMemory};
use problem_core::{Mark, RowName, Side};
use std::cmp::Ordering;

/// The same line's mark on the other side.
pub(crate) fn other(mark: Mark) -> Mark
    ensures { result ≡ other_mark mark }
{
    let side = match mark.side {
        Side::Under => Side::Over,
        Side::Over => Side::Under,
    };
    Mark {
        row: mark.row,
        side,
    }
}

/// The mark of the line whose value is negative.
pub fn low_of<T: Tableau>(c: &Corner<T>, row: RowName) -> Option<Mark>
    requires { IsNamed c.now.problem row }
    ensures some { IfSome result (IsLow c.now.problem c.now.marks) }
    ensures row { IfSome result (λ mark. mark.row ≡ row) }
    ensures none { IfNone result (HasNoLow c.now.problem c.now.marks row) }
{
    c.show_corner(); // for the proof: what a corner keeps
    c.low_mark(row)
}

// The rank of a row, and 0 of a stay.
fn rank_of<T: Tableau>(c: &Corner<T>, name: RowName) -> u16 {
    match name {
        RowName::Held(id) => {
            let rows = c.rows();
            let at = rows.partition_point(|row| row.id() < id);
            match rows.get(at) {
                Some(row) => row.rank(),
                None => 0,
            }
        }
        RowName::Stay(_) => 0,
    }
}

// A mark with a negative value, and its line's rank.
#[derive(Clone, Copy)]
struct Low {
    mark: Mark,
    rank: u16,
    value: Frac,
}

// The line's mark with a negative value, and what decides whether it leaves first.
fn low_at<T: Tableau>(c: &Corner<T>, name: RowName) -> Option<Low>
    requires { IsNamed c.now.problem name }
    ensures some { IfSome result (IsFoundLow c.now.problem c.now.marks) }
    ensures none { IfNone result (HasNoLow c.now.problem c.now.marks name) }
{
    c.show_corner(); // for the proof: what a corner keeps
    let mark = low_of(c, name)?;
    Some(Low {
        mark,
        rank: rank_of(c, name),
        value: c.value(mark),
    })
}

// Whether the first one leaves before the other: it has the higher rank, or the same rank and a lower value.
fn leaves_before(a: Low, b: Low) -> bool {
    a.rank > b.rank || a.rank == b.rank && a.value.compare(&b.value) == Ordering::Less
}

// The one of the two that leaves.
fn first_of_two(best: Low, found: Low) -> Option<Low>
    ensures { (result ≡ Some found) ⊎ (result ≡ Some best) }
{
    let before = leaves_before(found, best);
    Some(if before { found } else { best })
}

// The one that leaves, of the one so far and another.
fn first_of(best: Option<Low>, found: Low) -> Option<Low>
    ensures is { (result ≡ Some found) ⊎ (result ≡ best) }
    ensures some { IsSome result }
{
    match best {
        Some(old) => first_of_two(old, found),
        None => Some(found),
    }
}

// Whether the line before the one at a place is the same.
fn is_twice(low: &[RowName], at: usize) -> bool
    requires { at < length low.now }
    ensures { result ≡ true → IsTwice low.now at }
{
    if at == 0 {
        return false;
    }
    low[at - 1] == low[at]
}

// The one that leaves, of the one so far and the listed line at a place. A line is taken off the list if it
// has no negative value or is listed once more.
fn look_at<T: Tableau>(
    c: &Corner<T>,
    low: &mut Vec<RowName>,
    at: usize,
    best: Option<Low>,
) -> Option<Low>
    requires low { AreLowLines c.now.problem c.now.marks low.old.items }
    requires within { at < length low.old.items }
    requires some { IfSome best (IsFoundLow c.now.problem c.now.marks) }
    requires none { IfNone best (length low.old.items ≡ at + 1) }
    ensures low { AreLowLines c.now.problem c.now.marks low.new.items }
    ensures within { at ≤ length low.new.items }
    ensures some { IfSome result (IsFoundLow c.now.problem c.now.marks) }
    ensures none { IfNone result (length low.new.items ≡ at) }
{
    let name = low[at];
    if is_twice(low, at) {
        low.swap_remove(at);
        return best;
    }
    match low_at(c, name) {
        Some(found) => first_of(best, found),
        None => {
            low.swap_remove(at);
            best
        }
    }
}

// A number for each line: equal ones are of one line.
fn key_of(name: RowName) -> u64 {
    match name {
        RowName::Held(id) => 2 * u64::from(id),
        RowName::Stay(attr) => 2 * u64::from(attr) + 1,
    }
}

// Puts each line next to its repetitions.
fn sort(low: &mut Vec<RowName>)
    ensures { IsPermutation low.old.items low.new.items }
{
    low.sort_unstable_by_key(|name| key_of(*name));
}

// Among the marks with negative values one of the strongest row, stays last, and of these the one with the
// lowest value. Lines without a negative value are taken off the list.
fn strongest<T: Tableau>(c: &Corner<T>, low: &mut Vec<RowName>) -> Option<Mark>
    requires { AreLowLines c.now.problem c.now.marks low.old.items }
    ensures low { AreLowLines c.now.problem c.now.marks low.new.items }
    ensures some { IfSome result (IsLow c.now.problem c.now.marks) }
    ensures none { IfNone result (NoNegativeValue c.now.problem c.now.marks) }
{
    c.show_corner(); // for the proof: what a corner keeps
    sort(low);
    let mut best: Option<Low> = None;
    let mut at = low.len();
    while at > 0 {
        at -= 1;
        best = look_at(c, low, at, best);
    }
    match best {
        Some(found) => Some(found.mark),
        None => None,
    }
}

/// A mark that leaves, and whether its line turns: then its other mark enters.
#[derive(Clone, Copy)]
pub(crate) struct Leave {
    pub mark: Mark,
    pub turns: bool,
}

// Whether the required rows alone decide that the mark's line turns.
fn is_turn<T: Tableau>(c: &Corner<T>, leave: Mark) -> bool
    requires { IsIn (corners.place leave) c.now.marks }
    ensures { result ≡ true → MayTurn c.now.problem c.now.marks leave }
{
    c.show_corner(); // for the proof: what a corner keeps
    let own = other(leave);
    let is_free = !is_dear(c, own);
    turns(c, leave, is_free)
}

// The mark of the listed line at a place, if the line turns. A line without a negative value is taken off the
// list.
fn turn_at<T: Tableau>(c: &Corner<T>, low: &mut Vec<RowName>, at: usize) -> Option<Leave>
    requires low { AreLowLines c.now.problem c.now.marks low.old.items }
    requires within { at < length low.old.items }
    ensures low { AreLowLines c.now.problem c.now.marks low.new.items }
    ensures within { at ≤ length low.new.items }
    ensures some { IfSome result (IsLeave c.now.problem c.now.marks) }
{
    let name = low[at];
    match low_of(c, name) {
        Some(mark) => {
            let turns = is_turn(c, mark);
            if turns {
                Some(Leave { mark, turns })
            } else {
                None
            }
        }
        None => {
            low.swap_remove(at);
            None
        }
    }
}

// The last line that turns of the first lines on the list, and how many of these are left to look at. This
// line is left too: it is taken off at the next look.
fn turning<T: Tableau>(
    c: &Corner<T>,
    low: &mut Vec<RowName>,
    fresh: usize,
) -> (Option<Leave>, usize)
    requires low { AreLowLines c.now.problem c.now.marks low.old.items }
    requires within { fresh ≤ length low.old.items }
    ensures low { AreLowLines c.now.problem c.now.marks low.new.items }
    ensures some { IfSome result.0 (IsLeave c.now.problem c.now.marks) }
{
    let mut at = fresh;
    while at > 0 {
        let found = turn_at(c, low, at - 1);
        if found.is_some() {
            return (found, at);
        }
        at -= 1;
    }
    (None, 0)
}

// The lesser number.
fn at_most(left: usize, count: usize) -> usize
    ensures { result ≤ count }
{
    if left > count { count } else { left }
}

// The strongest mark. Where its line turns, others may turn too, so all are left to look at.
fn strongest_leave<T: Tableau>(
    c: &Corner<T>,
    low: &mut Vec<RowName>,
    left: &mut usize,
) -> Option<Leave>
    requires { AreLowLines c.now.problem c.now.marks low.old.items }
    ensures low { AreLowLines c.now.problem c.now.marks low.new.items }
    ensures some { IfSome result (IsLeave c.now.problem c.now.marks) }
    ensures none { IfNone result (NoNegativeValue c.now.problem c.now.marks) }
{
    let mark = strongest(c, low)?;
    let turns = is_turn(c, mark);
    if turns {
        *left = low.len();
    }
    Some(Leave { mark, turns })
}

/// The mark that leaves: that of the last line which turns, of the `left` first ones on the list, and where
/// none turns the strongest one. Lines without a negative value are taken off the list. After an exchange the
/// lines aren't looked at for turns, since hardly any turns then, until the strongest one does.
pub(crate) fn leaving<T: Tableau>(
    c: &Corner<T>,
    low: &mut Vec<RowName>,
    left: &mut usize,
) -> Option<Leave>
    requires { AreLowLines c.now.problem c.now.marks low.old.items }
    ensures low { AreLowLines c.now.problem c.now.marks low.new.items }
    ensures some { IfSome result (IsLeave c.now.problem c.now.marks) }
    ensures none { IfNone result (NoNegativeValue c.now.problem c.now.marks) }
{
    let fresh = at_most(*left, low.len());
    let (found, still) = turning(c, low, fresh);
    *left = still;
    match found {
        Some(leave) => Some(leave),
        None => strongest_leave(c, low, left),
    }
}

/// Lists the lines whose values are negative after the one mark has entered for the other: the entering
/// one's, and those of the inside marks that move with the leaving one. Where both are of one line no other
/// value has changed.
pub(crate) fn list_swapped<T: Tableau>(
    c: &Corner<T>,
    low: &mut Vec<RowName>,
    enter: RowName,
    leave: RowName,
) -> Result<(), OutOfMemory>
    requires enter { IsNamed c.now.problem enter }
    requires leave { IsNamed c.now.problem leave }
    ensures { OnOk result (ListsSwapped c.now.problem c.now.marks enter leave low.old.items low.new.items) }
{
    if enter == leave {
        return Ok(());
    }
    c.list_low(enter, low)?;
    c.list_low(leave, low)?;
    Ok(())
}
