// Calls on names and metrics.
use crate::words::number_of;
use frac_core::{Frac, OutOfMemory};
use name_tables::{Metrics, NameStop, Names, OwnedName};
use std::alloc::Global;
use test_text::put_shown;

// Each call alone: nothing here needs a clause of it.
fn added(names: &mut Names, name: &str) -> Result<u32, NameStop> {
    names.add(name)
}

fn put_added(out: &mut String, names: &mut Names, name: &str) -> Result<(), OutOfMemory> {
    put_shown(out, &added(names, name))
}

fn put_name_at(out: &mut String, names: &Names, word: &str) -> Result<(), OutOfMemory> {
    let place = u32::try_from(number_of(word)).unwrap_or(u32::MAX);
    put_shown(out, &names.at(place))
}

// A copy in the place of the names.
fn copy_names(names: &mut Names) -> Result<(), OutOfMemory> {
    *names = names.copy()?;
    Ok(())
}

// What a call with a word leads to.
fn put_with_word(
    out: &mut String,
    names: &mut Names,
    call: &str,
    word: &str,
) -> Result<(), OutOfMemory> {
    match call {
        "add" => put_added(out, names, word),
        "find" => put_shown(out, &names.find(word)),
        "at" => put_name_at(out, names, word),
        _ => put_shown(out, &names.len()),
    }
}

fn put_name_call(out: &mut String, names: &mut Names, call: &str) -> Result<(), OutOfMemory> {
    match call.split_once(" ") {
        Some((call, word)) => put_with_word(out, names, call, word),
        None if call == "copy" => copy_names(names),
        None => put_shown(out, &names.len()),
    }
}

fn put_name_calls(out: &mut String, names: &mut Names, calls: &str) -> Result<(), OutOfMemory> {
    for call in calls.lines() {
        writeln!(out, "{call}")?;
        put_name_call(out, names, call)?;
    }
    Ok(())
}

/// Appends what the calls on names answer, of which there may be so many.
pub fn put_names(
    alloc: Global,
    out: &mut String,
    limit: &str,
    calls: &str,
) -> Result<(), OutOfMemory> {
    let mut names = Names::new(alloc, limit.parse::<u32>().unwrap_or(0))?;
    put_name_calls(out, &mut names, calls)
}

// The name and the whole number that follow a call.
fn name_and_value(words: &str) -> (&str, Option<Frac>) {
    let (name, number) = words.split_once(" ").unwrap_or((words, ""));
    let value = Frac::of(number.parse::<i128>().unwrap_or(0), 1);
    (name, value.ok())
}

fn defined(metrics: &mut Metrics, words: &str) -> Result<(), NameStop> {
    match name_and_value(words) {
        (name, Some(value)) => metrics.define(name, value),
        _ => Ok(()),
    }
}

fn changed(metrics: &mut Metrics, words: &str) -> Result<(), NameStop> {
    match name_and_value(words) {
        (name, Some(value)) => metrics.change(name, value),
        _ => Ok(()),
    }
}

fn put_value(out: &mut String, value: Option<Frac>) -> Result<(), OutOfMemory> {
    match value {
        Some(value) => {
            let (num, den) = (value.num(), value.den());
            Ok(writeln!(out, "{num}/{den}")?)
        }
        None => Ok(writeln!(out, "None")?),
    }
}

fn value_at(metrics: &Metrics, word: &str) -> Option<Frac> {
    match metrics.at(number_of(word)) {
        Some(metric) => Some(metric.value),
        None => None,
    }
}

fn copy_metrics(metrics: &mut Metrics) -> Result<(), OutOfMemory> {
    *metrics = metrics.copy()?;
    Ok(())
}

// What a call with a word asks of the metrics.
fn put_asked(
    out: &mut String,
    metrics: &Metrics,
    call: &str,
    word: &str,
) -> Result<(), OutOfMemory> {
    match call {
        "get" => put_value(out, metrics.get(word)),
        "at" => put_value(out, value_at(metrics, word)),
        _ => put_shown(out, &metrics.len()),
    }
}

// What a call with words leads to.
fn put_worded(
    out: &mut String,
    metrics: &mut Metrics,
    call: &str,
    words: &str,
) -> Result<(), OutOfMemory> {
    match call {
        "define" => put_shown(out, &defined(metrics, words)),
        "change" => put_shown(out, &changed(metrics, words)),
        _ => put_asked(out, metrics, call, words),
    }
}

fn put_metric_call(out: &mut String, metrics: &mut Metrics, call: &str) -> Result<(), OutOfMemory> {
    match call.split_once(" ") {
        Some((word, words)) => put_worded(out, metrics, word, words),
        None if call == "copy" => copy_metrics(metrics),
        None => put_shown(out, &metrics.len()),
    }
}

fn put_metric_calls(
    out: &mut String,
    metrics: &mut Metrics,
    calls: &str,
) -> Result<(), OutOfMemory> {
    for call in calls.lines() {
        writeln!(out, "{call}")?;
        put_metric_call(out, metrics, call)?;
    }
    Ok(())
}

/// Appends what the calls on metrics answer.
pub fn put_metrics(alloc: Global, out: &mut String, calls: &str) -> Result<(), OutOfMemory> {
    let mut metrics = Metrics::new(alloc)?;
    put_metric_calls(out, &mut metrics, calls)
}

fn put_own_name(out: &mut String, name: &OwnedName) -> Result<(), OutOfMemory> {
    let text = std::str::from_utf8(name.bytes()).unwrap_or("");
    Ok(writeln!(out, "{text}")?)
}

/// Appends each line as a name of its own.
pub fn put_own_names(alloc: Global, out: &mut String, calls: &str) -> Result<(), OutOfMemory> {
    for call in calls.lines() {
        let name = OwnedName::of(alloc, call.as_bytes())?;
        put_own_name(out, &name)?;
    }
    Ok(())
}
