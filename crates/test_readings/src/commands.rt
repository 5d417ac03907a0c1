// Lines of a script: their readings, part by part.
use crate::formats::{put_stop, put_written};
use frac_core::{Frac, OutOfMemory};
use script_text::{
    Align, AttrWord, Change, Coming, Command, Direction, ExprTerm, Leaving, Linear, Operand, Plain,
    Reading, Updating, Version, is_version_line, read_line_in,
};
use span_text::{Object, UNIT};
use std::alloc::Global;
use test_text::put_text;
use vfl_text::Format;

fn align_name(align: Align) -> &'static str {
    match align {
        Align::Left => "left",
        Align::Right => "right",
        Align::Top => "top",
        Align::Bottom => "bottom",
        Align::CenterX => "centerX",
        Align::CenterY => "centerY",
    }
}

fn put_fraction(out: &mut String, f: Frac) -> Result<(), OutOfMemory> {
    let num = f.num();
    let den = f.den();
    Ok(write!(out, " {num}/{den}")?)
}

fn put_attr(out: &mut String, view: &str, word: AttrWord) -> Result<(), OutOfMemory> {
    let word = word.text();
    Ok(write!(out, " of {view}.{word}")?)
}

fn put_term(out: &mut String, term: &ExprTerm<'_>) -> Result<(), OutOfMemory> {
    put_fraction(out, term.by)?;
    match term.of {
        Operand::Attr { view, word } => put_attr(out, view, word),
        Operand::Metric { name } => Ok(write!(out, " of {name}")?),
        Operand::One => Ok(()),
    }
}

fn put_terms(out: &mut String, terms: &[ExprTerm<'_>]) -> Result<(), OutOfMemory> {
    for term in terms {
        put_term(out, term)?;
    }
    Ok(())
}

// Appends the priority, if one is written.
fn put_priority(out: &mut String, priority: Option<Object<'_>>) -> Result<(), OutOfMemory> {
    match priority {
        None => Ok(()),
        Some(Object::Name { text }) => Ok(write!(out, " @ {text}")?),
        Some(Object::Number { thousandths }) => Ok(write!(out, " @ {thousandths}/{UNIT}")?),
    }
}

// Appends the two sides of a line, and how they stand to each other.
fn put_sides(out: &mut String, line: &Linear<'_>) -> Result<(), OutOfMemory> {
    put_terms(out, line.left())?;
    let rel = line.rel.word();
    write!(out, " {rel}")?;
    put_terms(out, line.right())
}

fn put_linear(out: &mut String, line: &Linear<'_>) -> Result<(), OutOfMemory> {
    put_sides(out, line)?;
    put_priority(out, line.priority)?;
    let weight = line.weight;
    Ok(writeln!(out, " weight {weight}")?)
}

fn put_view(out: &mut String, name: &str, parent: Option<&str>) -> Result<(), OutOfMemory> {
    match parent {
        Some(parent) => Ok(writeln!(out, "view {name} in {parent}")?),
        None => Ok(writeln!(out, "view {name}")?),
    }
}

// Appends the text of a tree, whose end is marked where it has no line's end.
fn put_tree(out: &mut String, text: &[u8], start: usize) -> Result<(), OutOfMemory> {
    write!(out, "tree at {start}: ")?;
    put_text(out, text)
}

// Appends the alignment, if one is written.
fn put_align(out: &mut String, align: Option<Align>) -> Result<(), OutOfMemory> {
    match align {
        Some(align) => {
            let name = align_name(align);
            Ok(write!(out, "align {name} ")?)
        }
        None => Ok(()),
    }
}

// Appends two numbers behind a word.
fn put_numbers(out: &mut String, word: &str, one: Frac, two: Frac) -> Result<(), OutOfMemory> {
    write!(out, "{word}")?;
    put_fraction(out, one)?;
    put_fraction(out, two)?;
    Ok(writeln!(out)?)
}

fn put_metric(out: &mut String, name: &str, value: Frac) -> Result<(), OutOfMemory> {
    write!(out, "metric {name}")?;
    put_fraction(out, value)?;
    Ok(writeln!(out)?)
}

fn put_suggestion(
    out: &mut String,
    view: &str,
    word: AttrWord,
    value: Frac,
    priority: Option<Object<'_>>,
) -> Result<(), OutOfMemory> {
    let word = word.text();
    write!(out, "suggest {view}.{word}")?;
    put_fraction(out, value)?;
    put_priority(out, priority)?;
    Ok(writeln!(out)?)
}

fn put_release(out: &mut String, view: &str, word: AttrWord) -> Result<(), OutOfMemory> {
    let word = word.text();
    Ok(writeln!(out, "release {view}.{word}")?)
}

// Appends a word and a name.
fn put_named(out: &mut String, word: &str, name: &str) -> Result<(), OutOfMemory> {
    Ok(writeln!(out, "{word} {name}")?)
}

fn put_budget(out: &mut String, exchanges: u64) -> Result<(), OutOfMemory> {
    Ok(writeln!(out, "budget {exchanges}")?)
}

fn put_sweep(out: &mut String, from: Frac, to: Frac) -> Result<(), OutOfMemory> {
    put_numbers(out, "sweep width", from, to)
}

// Appends a format behind its group and its alignment.
fn put_vfl(
    alloc: Global,
    out: &mut String,
    group: &str,
    align: Option<Align>,
    format: &Format<'_>,
) -> Result<(), OutOfMemory> {
    write!(out, "vfl {group} ")?;
    put_align(out, align)?;
    put_written(alloc, out, format)
}

fn put_constraint(out: &mut String, group: &str, line: &Linear<'_>) -> Result<(), OutOfMemory> {
    write!(out, "constrain {group}")?;
    put_linear(out, line)
}

fn direction_name(direction: Direction) -> &'static str {
    match direction {
        Direction::Ltr => "ltr",
        Direction::Rtl => "rtl",
    }
}

// Appends a view with the width and the height that it would like.
fn put_wish(out: &mut String, name: &str, width: Frac, height: Frac) -> Result<(), OutOfMemory> {
    write!(out, "size {name}")?;
    put_fraction(out, width)?;
    put_fraction(out, height)
}

// Appends the priority behind its word, if one is written.
fn put_pull(out: &mut String, word: &str, priority: Option<Object<'_>>) -> Result<(), OutOfMemory> {
    if priority.is_some() {
        write!(out, " {word}")?;
    }
    put_priority(out, priority)
}

// Appends how hard a view hugs its size and how hard it resists, each if it is written.
fn put_pulls(
    out: &mut String,
    hug: Option<Object<'_>>,
    resist: Option<Object<'_>>,
) -> Result<(), OutOfMemory> {
    put_pull(out, "hug", hug)?;
    put_pull(out, "resist", resist)?;
    Ok(writeln!(out)?)
}

fn put_lone(out: &mut String, word: &str) -> Result<(), OutOfMemory> {
    Ok(writeln!(out, "{word}")?)
}

fn put_coming(out: &mut String, new: &Coming<'_>) -> Result<(), OutOfMemory> {
    match new {
        Coming::View { name, parent } => put_view(out, name, *parent),
        Coming::Tree { text, start } => put_tree(out, text, *start),
    }
}

fn put_updating(alloc: Global, out: &mut String, new: &Updating<'_>) -> Result<(), OutOfMemory> {
    match new {
        Updating::Metric { name, value } => put_metric(out, name, *value),
        Updating::Window { width, height } => put_numbers(out, "window", *width, *height),
        Updating::Vfl {
            group,
            align,
            format,
        } => put_vfl(alloc, out, group, *align, format),
        Updating::Constrain { group, line } => put_constraint(out, group, line),
        Updating::Suggest {
            view,
            word,
            value,
            priority,
        } => put_suggestion(out, view, *word, *value, *priority),
        Updating::Size {
            name,
            width,
            height,
            hug,
            resist,
        } => {
            put_wish(out, name, *width, *height)?;
            put_pulls(out, *hug, *resist)
        }
    }
}

fn put_leaving(out: &mut String, gone: &Leaving<'_>) -> Result<(), OutOfMemory> {
    match gone {
        Leaving::Drop { name } => put_named(out, "drop", name),
        Leaving::Remove { group } => put_named(out, "remove", group),
        Leaving::Release { view, word } => put_release(out, view, *word),
        Leaving::Unsize { name } => put_named(out, "unsize", name),
    }
}

fn put_change(alloc: Global, out: &mut String, change: &Change<'_>) -> Result<(), OutOfMemory> {
    match change {
        Change::Views(new) => put_coming(out, new),
        Change::Update(new) => put_updating(alloc, out, new),
        Change::Leave(gone) => put_leaving(out, gone),
        Change::Turn { to } => put_named(out, "direction", direction_name(*to)),
        Change::Keep { name } => put_named(out, "keep", name),
    }
}

fn put_plain(out: &mut String, command: &Plain) -> Result<(), OutOfMemory> {
    match command {
        Plain::Undo => put_lone(out, "undo"),
        Plain::Budget { exchanges } => put_budget(out, *exchanges),
        Plain::Frames => put_lone(out, "frames"),
        Plain::Rows => put_lone(out, "rows"),
        Plain::Diagnose => put_lone(out, "diagnose"),
        Plain::Certify => put_lone(out, "certify"),
        Plain::Sweep { from, to } => put_sweep(out, *from, *to),
    }
}

fn put_command(alloc: Global, out: &mut String, command: &Command<'_>) -> Result<(), OutOfMemory> {
    match command {
        Command::Change(change) => put_change(alloc, out, change),
        Command::Plain(command) => put_plain(out, command),
    }
}

// Appends the reading of a line: nothing, a command, or a question about a change.
fn put_reading(alloc: Global, out: &mut String, reading: &Reading<'_>) -> Result<(), OutOfMemory> {
    match reading {
        Reading::Nothing => put_lone(out, "nothing"),
        Reading::Command(command) => put_command(alloc, out, command),
        Reading::Why(change) => {
            write!(out, "why ")?;
            put_change(alloc, out, change)
        }
    }
}

/// Appends the reading of a line of a script of this version, or where it leaves the grammar.
pub fn put_line(
    alloc: Global,
    out: &mut String,
    line: &[u8],
    version: Version,
) -> Result<(), OutOfMemory> {
    match read_line_in(alloc, line, version) {
        Ok(reading) => put_reading(alloc, out, &reading),
        Err(stop) => put_stop(out, stop),
    }
}

/// Appends whether a script of version 2 begins with this line.
pub fn put_begins(out: &mut String, line: &[u8]) -> Result<(), OutOfMemory> {
    let word = if is_version_line(line) { "yes" } else { "no" };
    put_lone(out, word)
}
