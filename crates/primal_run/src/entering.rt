// The mark with a negative column that enters.
ghost use Rattle.std.specs.Prelude.{◌≡◌, ◌⊎◌, ◌<◌, ◌-◌, ◌<ℤ◌, [], pos, length, true};
ghost use Rattle.std.specs.Prelude.{false, IfSome, IfNone, Some, None};
ghost use Rattle.problem_core.specs.Corners.{HasNegativeColumn};
ghost use Rattle.corner_view.specs.Fronts.{IsFoundOf, IsFrontOf};
ghost use Rattle.corner_view.specs.Seen.{HasNoNegative, IsLevelOf, IsMarkOf, IsNamed};
ghost use Rattle.corner_ends.specs.Columns.{IsNegative};
ghost use Rattle.primal_run.specs.Entering.{IsChoice};

use corner_ends::is_below;
use corner_view::{Corner, Front, Tableau};
use problem_core::{Level, Mark, RowName, Side};

/// An outside mark, and the level at which its column is negative, with its reduced cost there.
#[derive(Clone, Copy, Debug)]
pub(crate) struct Choice {
    pub mark: Mark,
    pub front: Front,
}

// The mark's front, where its column is negative.
fn negative_front<T: Tableau>(c: &Corner<T>, mark: Mark, found: Option<Front>) -> Option<Front>
    requires mark { IsMarkOf c.now.problem mark }
    requires found { IsFoundOf c.now.problem c.now.marks mark found }
    ensures some { IfSome result (λ _. IsNegative c.now.problem c.now.marks mark) }
    ensures front { IfSome result (IsFrontOf c.now.problem c.now.marks mark) }
    ensures below { IfSome result (λ front. front.reduced <ℤ pos 0) }
    ensures none { IfNone result (HasNegativeColumn c.now.problem c.now.marks mark → ⊥) }
{
    c.show_corner(); // for the proof: what a corner keeps
    let front = found?;
    if is_below(front.reduced) {
        Some(front)
    } else {
        None
    }
}

/// The mark of a line on a side.
pub(crate) fn mark_at(row: RowName, side: Side) -> Mark
    ensures { result ≡ record { row = row; side = side } }
{
    Mark { row, side }
}

// The mark of the line whose column is negative.
fn negative_of<T: Tableau>(c: &Corner<T>, row: RowName) -> Option<Choice>
    requires { IsNamed c.now.problem row }
    ensures some { IfSome result (IsChoice c.now.problem c.now.marks) }
    ensures none { IfNone result (HasNoNegative c.now.problem c.now.marks row) }
{
    let (under, over) = (mark_at(row, Side::Under), mark_at(row, Side::Over));
    let fronts = c.fronts(row);
    match negative_front(c, under, fronts.under) {
        Some(front) => Some(Choice { mark: under, front }),
        None => {
            let front = negative_front(c, over, fronts.over)?;
            Some(Choice { mark: over, front })
        }
    }
}

// The rank of a row.
fn rank_of<T: Tableau>(c: &Corner<T>, id: u32) -> u16 {
    let rows = c.rows();
    let at = rows.partition_point(|row| row.id() < id);
    match rows.get(at) {
        Some(row) => row.rank(),
        None => 0,
    }
}

// Whether the first row is weaker: of the lower rank, and of equal ones the later one.
fn is_lower<T: Tableau>(c: &Corner<T>, a: u32, b: u32) -> bool {
    let (first, second) = (rank_of(c, a), rank_of(c, b));
    first < second || first == second && a > b
}

/// Whether the first line is weaker.
pub(crate) fn is_weaker<T: Tableau>(c: &Corner<T>, a: RowName, b: RowName) -> bool
    requires a { IsNamed c.now.problem a }
    requires b { IsNamed c.now.problem b }
{
    match (a, b) {
        (RowName::Held(x), RowName::Held(y)) => is_lower(c, x, y),
        (RowName::Stay(x), RowName::Stay(y)) => c.is_stronger(Level::Stay(y), Level::Stay(x)),
        (RowName::Stay(_), RowName::Held(_)) => true,
        (RowName::Held(_), RowName::Stay(_)) => false,
    }
}

// Whether the first level is stronger. Only of two stays are the places looked up.
fn is_stronger<T: Tableau>(c: &Corner<T>, a: Level, b: Level) -> bool
    requires a { IsLevelOf c.now.problem a }
    requires b { IsLevelOf c.now.problem b }
{
    match (a, b) {
        (Level::Priority(x), Level::Priority(y)) => x > y,
        (Level::Stay(_), Level::Stay(_)) => c.is_stronger(a, b),
        (Level::Priority(_), Level::Stay(_)) => true,
        (Level::Stay(_), Level::Priority(_)) => false,
    }
}

// Whether the first one enters before the other: the stronger level first, there the lower reduced cost, and
// of equal ones the weaker line.
fn enters_before<T: Tableau>(c: &Corner<T>, a: Choice, b: Choice) -> bool
    requires a { IsChoice c.now.problem c.now.marks a }
    requires b { IsChoice c.now.problem c.now.marks b }
{
    if a.front.level == b.front.level {
        a.front.reduced < b.front.reduced
            || a.front.reduced == b.front.reduced && is_weaker(c, a.mark.row, b.mark.row)
    } else {
        is_stronger(c, a.front.level, b.front.level)
    }
}

// The one of the two that enters before the other.
fn better<T: Tableau>(c: &Corner<T>, choice: Choice, found: Option<Choice>) -> Choice
    requires choice { IsChoice c.now.problem c.now.marks choice }
    requires found { IfSome found (IsChoice c.now.problem c.now.marks) }
    ensures { (result ≡ choice) ⊎ (found ≡ Some result) }
{
    match found {
        Some(other) => {
            if enters_before(c, choice, other) {
                choice
            } else {
                other
            }
        }
        None => choice,
    }
}

// What is found so far, and the place of the next candidate.
#[derive(Drop)]
struct Seen {
    found: Option<Choice>,
    next: usize,
}

// Looks at a candidate, and unlists it where neither of its marks has a negative column.
fn see<T: Tableau>(c: &mut Corner<T>, found: Option<Choice>, i: usize) -> Seen
    requires within { i < length c.old.candidates }
    requires found { IfSome found (IsChoice c.old.problem c.old.marks) }
    ensures problem { c.new.problem ≡ c.old.problem }
    ensures marks { c.new.marks ≡ c.old.marks }
    ensures before { c.new.before ≡ c.old.before }
    ensures found { IfSome result.found (IsChoice c.old.problem c.old.marks) }
    ensures none { IfNone result.found ((found ≡ None) × (result.next ≡ i)) }
    ensures nearer { length c.new.candidates - result.next < length c.old.candidates - i }
{
    c.show_corner(); // for the proof: what a corner keeps
    let _count = c.candidates(); // for the proof: so many fit in a usize
    let row = c.candidate(i);
    match negative_of(c, row) {
        Some(choice) => Seen {
            found: Some(better(c, choice, found)),
            next: i + 1,
        },
        None => {
            c.unlist(i);
            Seen { found, next: i }
        }
    }
}

/// A mark with a negative column, if one is listed: of those that are listed the one that enters before all
/// others. No clause says which of several. Lines without one are unlisted.
pub(crate) fn pick<T: Tableau>(c: &mut Corner<T>) -> Option<Choice>
    ensures problem { c.new.problem ≡ c.old.problem }
    ensures marks { c.new.marks ≡ c.old.marks }
    ensures before { c.new.before ≡ c.old.before }
    ensures some { IfSome result (IsChoice c.old.problem c.old.marks) }
    ensures none { IfNone result (c.new.candidates ≡ []) }
{
    let mut found = None;
    let mut i = 0;
    while i < c.candidates() {
        let seen = see(c, found, i);
        found = seen.found;
        i = seen.next;
    }
    found
}
