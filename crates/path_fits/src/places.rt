// The place of a level among the levels of a problem.
ghost use Rattle.std.specs.Prelude.{◌≡◌, ◌≢◌, ◌<◌, length, All, IfSome, IfNone};
ghost use Rattle.std.specs.List.{HoldsAt};
ghost use Rattle.problem_core.specs.Layout.{Problem};
ghost use Rattle.problem_core.specs.Levels.{IsLevelAt};
ghost use Rattle.problem_core.specs.declared.parts.Level.TheVariants as kinds;
ghost use Rattle.path_fits.specs.Attrs.{IsEmptyLevel};
ghost use Rattle.path_levels.specs.Outlines.{IsOutline, IsSizedOutline, number_at};

use path_levels::{LevelFacts, LineFacts, Outline};
use problem_core::{Level, REQUIRED, RowName};

// The place of the level with this number.
fn place_of_number(levels: &[LevelFacts], number: u32) -> Option<usize>
    ensures within { IfSome result (λ k. k < length levels.now) }
    ensures found { IfSome result (HoldsAt (λ f. f.number ≡ number) levels.now) }
    ensures none { IfNone result (All (λ f. f.number ≢ number) levels.now) }
{
    levels.iter().position(|f| f.number == number)
}

// The place of the level of this rank.
fn place_of_rank(outline: &Outline, rank: u16) -> Option<usize>
    ensures within { IfSome result (λ k. k < length outline.now.levels.items) }
    ensures found { IfSome result (λ k. (p : Problem) → IsOutline p outline.now
        → IsLevelAt p (kinds.Priority rank) (number_at outline.now.levels.items k)) }
    ensures none { IfNone result ((p : Problem) → IsOutline p outline.now
        → IsEmptyLevel p (kinds.Priority rank)) }
{
    if rank > REQUIRED {
        return None;
    }
    place_of_number(&outline.levels, u32::from(REQUIRED - rank))
}

// The place of the line with this name.
fn line_named(lines: &[LineFacts], name: RowName) -> Option<usize>
    ensures within { IfSome result (λ k. k < length lines.now) }
    ensures found { IfSome result (HoldsAt (λ f. f.name ≡ name) lines.now) }
    ensures none { IfNone result (All (λ f. f.name ≢ name) lines.now) }
{
    lines.iter().position(|f| f.name == name)
}

// The place of the level of the attribute's stay.
fn level_of_stay(outline: &Outline, attr: u32) -> Option<usize>
    requires { IsSizedOutline outline.now }
    ensures within { IfSome result (λ k. k < length outline.now.levels.items) }
    ensures found { IfSome result (λ k. (p : Problem) → IsOutline p outline.now
        → IsLevelAt p (kinds.Stay attr) (number_at outline.now.levels.items k)) }
    ensures none { IfNone result ((p : Problem) → IsOutline p outline.now
        → IsEmptyLevel p (kinds.Stay attr)) }
{
    let i = line_named(&outline.lines, RowName::Stay(attr))?;
    Some(outline.lines[i].level)
}

/// The place of the level, unless no line has it.
pub(crate) fn place_of_level(outline: &Outline, level: Level) -> Option<usize>
    requires { IsSizedOutline outline.now }
    ensures within { IfSome result (λ k. k < length outline.now.levels.items) }
    ensures found { IfSome result (λ k. (p : Problem) → IsOutline p outline.now
        → IsLevelAt p level (number_at outline.now.levels.items k)) }
    ensures none { IfNone result ((p : Problem) → IsOutline p outline.now → IsEmptyLevel p level) }
{
    match level {
        Level::Priority(rank) => place_of_rank(outline, rank),
        Level::Stay(attr) => level_of_stay(outline, attr),
    }
}
