// The problem that the path of a refusal speaks of, cut and joined as text:
//
// - of the step, that of the step; of a quantity `shifts J`, that in which only the first J changed constants
//   are the new ones;
// - while rows are still held, the held problem without those rows alone that have gone;
// - of a probe, the held problem with the row of its wish;
// - of a trial, the rows of the step that are named as held, with each stay at 0;
// - of a sweep, the problem of the step with the width that is told. No script has another row in front that
//   says that the window's width is so much.
use crate::lines::{
    Named, Taken, is_named, push_stays, push_taken, push_whole, row_number, row_of,
};
use crate::stops::Stop;
use crate::wishes::{push_wished, wish_of};
use frac_core::OutOfMemory;

// The line as which the row of this line is held, if it is held as another.
fn line_before<'a>(held: &'a str, line: &str) -> Option<&'a str> {
    match row_of(held, row_number(line)?) {
        Some(before) if before != line => Some(before),
        _ => None,
    }
}

// Appends the step's problem in which only the first changed constants are the new ones.
fn push_shifted(
    problem: &mut String,
    step: &str,
    held: &str,
    first: u32,
) -> Result<(), OutOfMemory> {
    let mut left = first;
    for line in step.lines() {
        let before = line_before(held, line);
        let shown = if left == 0 {
            before.unwrap_or(line)
        } else {
            line
        };
        push_whole(problem, shown)?;
        if before.is_some() {
            left = left.saturating_sub(1);
        }
    }
    Ok(())
}

// The lines of the held problem but for the rows that have gone.
#[derive(Clone, Copy)]
struct Left<'a> {
    step: &'a str,
    place: &'a str,
}

impl Taken for Left<'_> {
    fn has(&self, line: &str) -> bool {
        match row_number(line) {
            Some(number) => {
                row_of(self.step, number).is_some() || is_named(self.place, "still ", number)
            }
            None => true,
        }
    }
}

// Appends the rows of the step that are named as held, with each stay at 0.
fn push_trial(problem: &mut String, step: &str, place: &str) -> Result<(), OutOfMemory> {
    let rows = Named {
        lines: place,
        word: "held ",
        but: "",
    };
    push_taken(problem, step, &rows)?;
    push_stays(problem, step, "stay ", Some("0"))
}

// What stands before the constant in a row's line that says how wide the window is.
fn width_front(line: &str) -> Option<&str> {
    let (front, _) = line.strip_suffix(" 3:1")?.rsplit_once(" ")?;
    if front.ends_with(" 1000 1 == 1") {
        Some(front)
    } else {
        None
    }
}

// Appends a row's line that says that the window is so wide.
fn push_width(problem: &mut String, front: &str, width: &str) -> Result<(), OutOfMemory> {
    Ok(writeln!(problem, "{front} {width} 3:1")?)
}

// Appends the step's problem with this width of the window.
fn push_swept(problem: &mut String, step: &str, width: &str) -> Result<(), OutOfMemory> {
    let mut is_said = false;
    for line in step.lines() {
        match width_front(line) {
            Some(front) if !is_said => {
                push_width(problem, front, width)?;
                is_said = true;
            }
            _ => push_whole(problem, line)?,
        }
    }
    Ok(())
}

// Appends the problem of the step, by how many of its changed constants are the new ones.
fn push_stepped(
    problem: &mut String,
    stop: Stop<'_>,
    step: &str,
    held: &str,
) -> Result<(), OutOfMemory> {
    match stop.shifts() {
        Some(first) => push_shifted(problem, step, held, first),
        None => Ok(problem.push_str(step)?),
    }
}

// Appends the problem of a trial, of a sweep, or with rows still held.
fn push_placed(
    problem: &mut String,
    place: &str,
    step: &str,
    held: &str,
) -> Result<(), OutOfMemory> {
    if place.starts_with("held ") {
        push_trial(problem, step, place)
    } else if let Some(width) = place.strip_prefix("sweep ") {
        push_swept(problem, step, width)
    } else {
        push_taken(problem, held, &Left { step, place })
    }
}

/// Appends the problem that the path of a refusal speaks of, where these are the problem of the step and that
/// which is held, and the reply to `rows`, which tells the numbers of attributes.
pub fn push_posed(
    problem: &mut String,
    stop: Stop<'_>,
    step: &str,
    held: &str,
    names: &str,
) -> Result<(), OutOfMemory> {
    if let Some(wish) = wish_of(names, held, stop.place) {
        push_wished(problem, held, wish)
    } else if stop.place.is_empty() {
        push_stepped(problem, stop, step, held)
    } else {
        push_placed(problem, stop.place, step, held)
    }
}
