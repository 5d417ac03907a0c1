// The wish of a probe, and the problem with its row, as text.
use crate::lines::{parts, push_whole};
use frac_core::OutOfMemory;

// The number of the attribute of this name.
fn attr_of<'a>(names: &'a str, name: &str) -> Option<&'a str> {
    for line in names.lines() {
        match parts(line, "# ") {
            Some((number, named)) if named == name => return Some(number),
            _ => (),
        }
    }
    None
}

// What this attribute is drawn to.
fn target_of<'a>(problem: &'a str, attr: &str) -> Option<&'a str> {
    for line in problem.lines() {
        match parts(line, "stay ") {
            Some((of, target)) if of == attr => return Some(target),
            _ => (),
        }
    }
    None
}

/// The wish of a probe: that this attribute be a point above what it is drawn to, or below.
#[derive(Clone, Copy)]
pub struct Wish<'a> {
    attr: &'a str,
    target: &'a str,
    is_up: bool,
}

/// The wish of the probe that the line names.
pub fn wish_of<'a>(names: &'a str, held: &'a str, place: &str) -> Option<Wish<'a>> {
    let (name, way) = parts(place, "probe ")?;
    let attr = attr_of(names, name)?;
    let target = target_of(held, attr)?;
    let is_up = way == "up";
    Some(Wish {
        attr,
        target,
        is_up,
    })
}

// A number above that of the last row.
fn next_number(rows: &str) -> u32 {
    let Some((_, last)) = rows.rsplit_once("\nrow ") else {
        return 0;
    };
    let (number, _) = last.split_once(" ").unwrap_or((last, ""));
    number.parse::<u32>().unwrap_or(0).wrapping_add(1)
}

impl Wish<'_> {
    // The numerator of the value that is wished.
    fn num(self, num: &str, den: &str) -> i64 {
        let num = num.parse::<i64>().unwrap_or(0);
        let step = den.parse::<i64>().unwrap_or(1);
        if self.is_up {
            num.wrapping_add(step)
        } else {
            num.wrapping_sub(step)
        }
    }

    // Appends the row of the wish.
    fn push_row(self, problem: &mut String, number: u32) -> Result<(), OutOfMemory> {
        let (attr, target) = (self.attr, self.target);
        let (num, den) = target.split_once("/").unwrap_or((target, "1"));
        let wished = self.num(num, den);
        let behind = target.strip_prefix(num).unwrap_or("");
        Ok(writeln!(problem, "row {number} 0 1 == 1 {wished}{behind} {attr}:1")?)
    }
}

/// Appends a problem with the row of a wish behind its rows.
pub fn push_wished(problem: &mut String, held: &str, wish: Wish<'_>) -> Result<(), OutOfMemory> {
    let Some((rows, stays)) = held.split_once("\nstay ") else {
        return Ok(());
    };
    push_whole(problem, rows)?;
    wish.push_row(problem, next_number(rows))?;
    Ok(write!(problem, "stay {stays}")?)
}
