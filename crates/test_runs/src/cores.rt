// What the checker says of a core, whose parts are cut out of the reply, and of the rows of its problem, as
// text:
//
// - of its multipliers, as a conflict of its rows alone;
// - for each of its rows, of the values without it: where each attribute is to stay at its own value, these
//   are the best for the other rows exactly where they satisfy them.
use crate::lines::{Fronted, Named, push_stays, push_taken};
use crate::tested::Checker;
use crate::verdicts::{Claimed, put_verdict_of};
use frac_core::OutOfMemory;
use std::alloc::Global;

// A core, as the problem of its step and the reply tell it.
#[derive(Clone, Copy)]
struct Core<'a> {
    step: &'a str,
    reply: &'a str,
}

impl Core<'_> {
    // Appends its rows, but for one.
    fn push_rows(self, text: &mut String, but: &str) -> Result<(), OutOfMemory> {
        let rows = Named {
            lines: self.reply,
            word: "core ",
            but,
        };
        push_taken(text, self.step, &rows)
    }
}

// Its multipliers claim that its rows are a conflict.
impl Claimed for Core<'_> {
    fn push(&self, text: &mut String) -> Result<(), OutOfMemory> {
        self.push_rows(text, "")?;
        push_stays(text, self.step, "stay ", Some("0"))?;
        text.push_str("conflict\n")?;
        push_taken(text, self.reply, &Fronted("by "))
    }
}

// A core without the row of a number, and the values that satisfy it.
#[derive(Clone, Copy)]
struct Without<'a> {
    core: Core<'a>,
    number: &'a str,
    values: &'a str,
}

// The values claim to be the best.
impl Claimed for Without<'_> {
    fn push(&self, text: &mut String) -> Result<(), OutOfMemory> {
        self.core.push_rows(text, self.number)?;
        push_stays(text, self.values, "value ", None)?;
        push_taken(text, self.values, &Fronted("value "))?;
        Ok(text.push_str("best\n")?)
    }
}

// Appends what the checker says of the values without a row.
fn put_without<P: Checker>(
    alloc: Global,
    out: &mut String,
    core: Core<'_>,
    part: &str,
) -> Result<(), OutOfMemory> {
    let (number, values) = part.split_once("\n").unwrap_or((part, ""));
    write!(out, "without {number} ")?;
    let without = Without {
        core,
        number,
        values,
    };
    put_verdict_of::<P, _>(alloc, out, &without)
}

// Appends what the checker says of each part.
fn put_withouts<P: Checker>(
    alloc: Global,
    out: &mut String,
    core: Core<'_>,
    rest: &str,
) -> Result<(), OutOfMemory> {
    for part in rest.split("\nwithout ") {
        put_without::<P>(alloc, out, core, part)?;
    }
    Ok(())
}

/// Appends what the checker says of a core, where this is the problem of the step, if the reply tells one.
pub fn put_core<P: Checker>(
    alloc: Global,
    out: &mut String,
    step: &str,
    reply: &str,
) -> Result<(), OutOfMemory> {
    match reply.split_once("\nwithout ") {
        Some((_, rest)) => {
            let core = Core { step, reply };
            out.push_str("core ")?;
            put_verdict_of::<P, _>(alloc, out, &core)?;
            put_withouts::<P>(alloc, out, core, rest)
        }
        None => Ok(()),
    }
}
