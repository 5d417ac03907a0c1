// The lines of the parts.
ghost use Rattle.std.specs.Prelude.{◌≡◌, ◌<◌, ◌++◌, IfOk, string_bytes};
ghost use Rattle.make_script.specs.Script.{line_of, view_line, size_line, stack_line};
ghost use Rattle.make_script.specs.Script.{width_line, suggestion_line};
ghost use Rattle.make_script.specs.Constants.{ConstantsAreAsSaid};

use crate::draws::{draw, next_state};
use crate::part::Part;
use frac_core::OutOfMemory;

// What is drawn is a least number, 0 where none is said, and one below a bound more.

// How far a view is from the left.
const LEFT_BOUND: u64 = 50;

// The width of a view.
const LEAST_WIDTH: u64 = 10;

const WIDTH_BOUND: u64 = 200;

// The height of a view.
const LEAST_HEIGHT: u64 = 10;

const HEIGHT_BOUND: u64 = 90;

// By how much a view is wider than the one before.
const MORE_BOUND: u64 = 20;

// The priority of a line.
const LEAST_PRIORITY: u64 = 100;

const PRIORITY_BOUND: u64 = 800;

// The width that is suggested of a view.
const LEAST_SUGGESTION: u64 = 50;

const SUGGESTION_BOUND: u64 = 100;

#[tactic(auto, unfolding(crate::specs::Script::view_line))]
fn put_view(text: &mut String, i: u64) -> Result<(), OutOfMemory>
    ensures { IfOk result (λ _. string_bytes text.new ≡ string_bytes text.old ++ view_line i) }
{
    writeln!(text, "view v{i}")?;
    Ok(())
}

#[tactic(auto, unfolding(crate::specs::Script::size_line))]
fn put_size(text: &mut String, i: u64, x: u64, width: u64, priority: u64) -> Result<(), OutOfMemory>
    ensures { IfOk result (λ _.
        string_bytes text.new ≡ string_bytes text.old ++ size_line i x width priority) }
{
    writeln!(text, "vfl h{i} H:|-{x}-[v{i}({width}@{priority})]")?;
    Ok(())
}

#[tactic(auto, unfolding(crate::specs::Script::stack_line))]
fn put_stack(text: &mut String, i: u64, height: u64) -> Result<(), OutOfMemory>
    requires { 0 < i }
    ensures { IfOk result (λ _. string_bytes text.new ≡ string_bytes text.old ++ stack_line i height) }
{
    let above = i - 1;
    writeln!(text, "vfl t{i} V:[v{above}({height})]-8-[v{i}]")?;
    Ok(())
}

#[tactic(auto, unfolding(crate::specs::Script::width_line))]
fn put_width(text: &mut String, i: u64, more: u64, priority: u64) -> Result<(), OutOfMemory>
    requires { 0 < i }
    ensures { IfOk result (λ _. string_bytes text.new ≡ string_bytes text.old ++ width_line i more priority) }
{
    let before = i - 1;
    writeln!(
        text,
        "constrain e{i} v{i}.width >= v{before}.width + {more} @{priority}"
    )?;
    Ok(())
}

#[tactic(auto, unfolding(crate::specs::Script::suggestion_line))]
fn put_suggestion(text: &mut String, i: u64, width: u64) -> Result<(), OutOfMemory>
    ensures { IfOk result (λ _. string_bytes text.new ≡ string_bytes text.old ++ suggestion_line i width) }
{
    writeln!(text, "suggest v{i}.width {width}")?;
    Ok(())
}

/// Appends the line of a part for the view of this number, drawn from the state.
pub(crate) fn put_line(text: &mut String, part: Part, i: u64, state: u64) -> Result<(), OutOfMemory>
    requires { 0 < i }
    ensures { IfOk result (λ _. string_bytes text.new ≡ string_bytes text.old ++ line_of part i state) }
{
    let first = next_state(state);
    let second = next_state(first);
    let third = next_state(second);
    match part {
        Part::Views => put_view(text, i),
        Part::Sizes => put_size(
            text,
            i,
            draw(LEFT_BOUND, first),
            LEAST_WIDTH + draw(WIDTH_BOUND, second),
            LEAST_PRIORITY + draw(PRIORITY_BOUND, third),
        ),
        Part::Stacks => put_stack(text, i, LEAST_HEIGHT + draw(HEIGHT_BOUND, first)),
        Part::Widths => put_width(
            text,
            i,
            draw(MORE_BOUND, first),
            LEAST_PRIORITY + draw(PRIORITY_BOUND, second),
        ),
        Part::Suggestions => put_suggestion(
            text,
            i,
            LEAST_SUGGESTION + draw(SUGGESTION_BOUND, first),
        ),
    }
}

/// The constants that definitions and clauses cite by name are these numbers.
pub fn constants_are_as_said()
    ensures { ConstantsAreAsSaid }
{}
