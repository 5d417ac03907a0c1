// What the lines of the input lead to.
use crate::setting::Setting;
use crate::text::{put_row, put_stop};
use compile_parts::CompileStop;
use constraint_compile::{Compiled, compile_line};
use format_compile::{compile_format, format_row_count};
use frac_core::{Frac, OutOfMemory, Stop};
use name_tables::LimitWord;
use problem_core::Row;
use script_text::{
    Align, Change, Coming, Command, Direction, Linear, Reading, Updating, Version, read_line_in,
};
use span_text::SyntaxAt;
use std::alloc::Global;
use vfl_text::Format;

// Appends rows, and says how many there are.
fn put_list(out: &mut String, rows: &[Row]) -> Result<usize, OutOfMemory> {
    for row in rows {
        put_row(out, row)?;
    }
    Ok(rows.len())
}

// Appends a refusal, for which there are no rows.
fn put_none(out: &mut String, stop: &CompileStop) -> Result<usize, OutOfMemory> {
    put_stop(out, stop)?;
    Ok(0)
}

// Appends the rows, and says how many there are.
fn put_rows(
    alloc: Global,
    out: &mut String,
    setting: &Setting,
    compiled: &Compiled,
) -> Result<usize, OutOfMemory> {
    match compiled.rows_now(alloc, &setting.metrics) {
        Ok(rows) => put_list(out, &rows),
        Err(Stop::Refused(_)) => put_none(out, &CompileStop::Limit(LimitWord::Constant)),
        Err(Stop::OutOfMemory) => Err(OutOfMemory),
    }
}

// Appends the rows of a format, and how many were counted before, where there are more or fewer.
fn put_compiled(
    alloc: Global,
    out: &mut String,
    setting: &Setting,
    compiled: &Compiled,
    counted: usize,
) -> Result<usize, OutOfMemory> {
    let count = put_rows(alloc, out, setting, compiled)?;
    if count != counted {
        writeln!(out, "{counted} rows counted")?;
    }
    Ok(count)
}

// Appends the rows of a format, and says how many there are.
fn put_format(
    alloc: Global,
    out: &mut String,
    setting: &Setting,
    align: Option<Align>,
    format: &Format<'_>,
) -> Result<usize, OutOfMemory> {
    let counted = format_row_count(alloc, format, align, setting.direction)?;
    let Setting { tree, metrics, .. } = setting;
    let made = compile_format(
        alloc,
        tree,
        metrics,
        format,
        align,
        setting.number.max(1),
        setting.direction,
    );
    match &made {
        Ok(compiled) => put_compiled(alloc, out, setting, compiled, counted),
        Err(stop) => put_none(out, stop),
    }
}

// Appends the row of a linear line, and says how many there are.
fn put_linear(
    alloc: Global,
    out: &mut String,
    setting: &Setting,
    line: &Linear<'_>,
) -> Result<usize, OutOfMemory> {
    let Setting { tree, metrics, .. } = setting;
    let made = compile_line(
        alloc,
        tree,
        metrics,
        line,
        setting.number.max(1),
        setting.direction,
    );
    match &made {
        Ok(compiled) => put_rows(alloc, out, setting, compiled),
        Err(stop) => put_none(out, stop),
    }
}

// Makes a view, and appends a line where it can't be made.
fn put_view(
    out: &mut String,
    setting: &mut Setting,
    name: &str,
    parent: Option<&str>,
) -> Result<usize, OutOfMemory> {
    if !setting.add_view(name, parent)? {
        writeln!(out, "no view {name}")?;
    }
    Ok(0)
}

// Makes a metric, and appends a line where it can't be made.
fn put_metric(
    out: &mut String,
    setting: &mut Setting,
    name: &str,
    value: Frac,
) -> Result<usize, OutOfMemory> {
    if !setting.define(name, value)? {
        writeln!(out, "no metric {name}")?;
    }
    Ok(0)
}

// The lines that follow are meant in this direction.
fn turn(setting: &mut Setting, to: Direction) -> usize {
    setting.direction = to;
    0
}

fn put_another(out: &mut String) -> Result<usize, OutOfMemory> {
    writeln!(out, "another line")?;
    Ok(0)
}

// What such a change leads to: a metric, or the rows of a line, of which it says how many there are.
fn put_updating(
    alloc: Global,
    out: &mut String,
    setting: &mut Setting,
    new: &Updating<'_>,
) -> Result<usize, OutOfMemory> {
    match new {
        Updating::Metric { name, value } => put_metric(out, setting, name, *value),
        Updating::Vfl {
            group: _,
            align,
            format,
        } => put_format(alloc, out, setting, *align, format),
        Updating::Constrain { group: _, line } => put_linear(alloc, out, setting, line),
        _ => put_another(out),
    }
}

// What a change leads to: a view, a direction, or what an update leads to.
fn put_change(
    alloc: Global,
    out: &mut String,
    setting: &mut Setting,
    change: &Change<'_>,
) -> Result<usize, OutOfMemory> {
    match change {
        Change::Views(Coming::View { name, parent }) => put_view(out, setting, name, *parent),
        Change::Update(new) => put_updating(alloc, out, setting, new),
        Change::Turn { to } => Ok(turn(setting, *to)),
        _ => put_another(out),
    }
}

fn put_outside(out: &mut String, at: usize) -> Result<usize, OutOfMemory> {
    writeln!(out, "syntax {at}")?;
    Ok(0)
}

// What a line of a script leads to. Of a line that isn't read the offset is told without what was put before
// it.
fn put_line(
    alloc: Global,
    out: &mut String,
    setting: &mut Setting,
    line: &[u8],
    before: usize,
) -> Result<usize, OutOfMemory> {
    match read_line_in(alloc, line, Version::Two) {
        Ok(Reading::Command(Command::Change(change))) => put_change(alloc, out, setting, &change),
        Ok(_) => put_another(out),
        Err(Stop::Refused(SyntaxAt(at))) => put_outside(out, at.saturating_sub(before)),
        Err(Stop::OutOfMemory) => Err(OutOfMemory),
    }
}

// The number from which the words begin anew, if they do.
fn first_number(words: &str) -> Option<u32> {
    words.strip_prefix("from ")?.parse::<u32>().ok()
}

// Begins anew where the line asks for it, and says whether it does.
fn begin(alloc: Global, setting: &mut Setting, line: &str) -> Result<bool, OutOfMemory> {
    let words = line.strip_prefix("on ").unwrap_or(line);
    let Some(number) = first_number(words) else {
        return Ok(false);
    };
    *setting = Setting::new(alloc, number, words.len() < line.len())?;
    Ok(true)
}

// Appends the line and the rows of a format, and says how many there are.
fn put_vfl(
    alloc: Global,
    out: &mut String,
    setting: &mut Setting,
    format: &str,
) -> Result<usize, OutOfMemory> {
    writeln!(out, "format {format}")?;
    let script = format!(in alloc; "vfl g {format}")?;
    put_line(alloc, out, setting, script.as_bytes(), 6)
}

// Appends the line and the rows of a line of a script, and says how many there are.
fn put_script(
    alloc: Global,
    out: &mut String,
    setting: &mut Setting,
    script: &str,
) -> Result<usize, OutOfMemory> {
    writeln!(out, "line {script}")?;
    put_line(alloc, out, setting, script.as_bytes(), 0)
}

// Appends what a line leads to, below the line itself where it asks for rows, and says how many there are.
fn put_stored(
    alloc: Global,
    out: &mut String,
    setting: &mut Setting,
    line: &str,
) -> Result<usize, OutOfMemory> {
    match line.split_once(" ") {
        Some(("format", format)) => put_vfl(alloc, out, setting, format),
        Some(("line", script)) => put_script(alloc, out, setting, script),
        _ => put_line(alloc, out, setting, line.as_bytes(), 0),
    }
}

// Appends what the lines lead to.
fn put_lines(
    alloc: Global,
    out: &mut String,
    setting: &mut Setting,
    text: &str,
) -> Result<(), OutOfMemory> {
    for line in text.lines() {
        if !begin(alloc, setting, line)? {
            let count = put_stored(alloc, out, setting, line)?;
            setting.count_rows(count);
        }
    }
    Ok(())
}

// Appends what the lines lead to, where there is the window alone before them.
fn put_text(alloc: Global, out: &mut String, text: &str) -> Result<(), OutOfMemory> {
    let mut setting = Setting::new(alloc, 1, false)?;
    put_lines(alloc, out, &mut setting, text)
}

/// What the program prints.
pub fn printed(alloc: Global, text: &str) -> Result<String, OutOfMemory> {
    let mut out = String::new(alloc);
    put_text(alloc, &mut out, text)?;
    Ok(out)
}
