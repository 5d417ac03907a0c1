// Calls on the tree of views, each told by what it gives.
//
// What a function owns ends at each of its ways out, and that makes proofs long: trees, metrics and texts are
// made by one function and lent to another.
use frac_core::{Frac, OutOfMemory};
use name_tables::Metrics;
use std::alloc::Global;
use test_text::put_shown;
use view_tree::{Tree, TreeStop, ViewId, ViewStop};

// The number that a word says, and 0 where it says none.
fn number_of(word: &str) -> u32 {
    word.parse::<u32>().unwrap_or(0)
}

// The call alone: nothing here needs a clause of it.
fn added(tree: &mut Tree, name: &str, parent: u32) -> Result<ViewId, ViewStop> {
    tree.add(name, ViewId(parent))
}

fn put_added(out: &mut String, tree: &mut Tree, words: &str) -> Result<(), OutOfMemory> {
    let (name, parent) = words.split_once(" ").unwrap_or((words, ""));
    put_shown(out, &added(tree, name, number_of(parent)))
}

// Defines the one metric, which is called `gap`.
fn define_gap(metrics: &mut Metrics) -> Result<(), OutOfMemory> {
    let Ok(eight) = Frac::of(8, 1) else {
        return Ok(());
    };
    match metrics.define("gap", eight) {
        Ok(()) => Ok(()),
        Err(_) => Err(OutOfMemory),
    }
}

// The call alone: nothing here needs a clause of it.
fn grown(tree: &mut Tree, text: &str, metrics: &Metrics) -> Result<u32, TreeStop> {
    tree.add_json(text.as_bytes(), metrics)
}

// Appends what a tree written as JSON gives, where there is one metric.
fn put_grown_by(
    out: &mut String,
    tree: &mut Tree,
    text: &str,
    metrics: &mut Metrics,
) -> Result<(), OutOfMemory> {
    define_gap(metrics)?;
    put_shown(out, &grown(tree, text, metrics))
}

fn put_grown(
    alloc: Global,
    out: &mut String,
    tree: &mut Tree,
    text: &str,
) -> Result<(), OutOfMemory> {
    let mut metrics = Metrics::new(alloc)?;
    put_grown_by(out, tree, text, &mut metrics)
}

// Appends the name of a place behind a front.
fn push_named(text: &mut String, front: &str, place: u32) -> Result<(), OutOfMemory> {
    text.push_str(front)?;
    Ok(write!(text, "{place}\"")?)
}

// Appends a tree of so many objects, each but the last with the next one in it.
fn push_nested(text: &mut String, count: u32) -> Result<(), OutOfMemory> {
    for place in 0..count {
        text.push_str(if place > 0 { ",\"children\":[" } else { "" })?;
        push_named(text, "{\"name\":\"n", place)?;
    }
    for place in 0..count {
        text.push_str(if place > 0 { "]}" } else { "}" })?;
    }
    Ok(())
}

fn put_nested(
    alloc: Global,
    out: &mut String,
    tree: &mut Tree,
    count: &str,
) -> Result<(), OutOfMemory> {
    let mut text = String::new(alloc);
    push_nested(&mut text, number_of(count))?;
    put_grown(alloc, out, tree, &text)
}

// Appends so many objects, with commas between them.
fn push_leaves(text: &mut String, count: u32) -> Result<(), OutOfMemory> {
    for place in 0..count {
        text.push_str(if place > 0 { "}," } else { "" })?;
        push_named(text, "{\"name\":\"b", place)?;
    }
    Ok(text.push_str(if count > 0 { "}" } else { "" })?)
}

// Appends a tree of one object with so many in it.
fn push_broad(text: &mut String, count: u32) -> Result<(), OutOfMemory> {
    text.push_str("{\"name\":\"b\",\"children\":[")?;
    push_leaves(text, count)?;
    Ok(text.push_str("]}")?)
}

fn put_broad(
    alloc: Global,
    out: &mut String,
    tree: &mut Tree,
    count: &str,
) -> Result<(), OutOfMemory> {
    let mut text = String::new(alloc);
    push_broad(&mut text, number_of(count))?;
    put_grown(alloc, out, tree, &text)
}

// Appends the name of the view at a place, or that there is none.
fn put_name(out: &mut String, tree: &Tree, place: &str) -> Result<(), OutOfMemory> {
    let name = match tree.at(number_of(place) as usize) {
        Some(view) => view.name,
        None => "None",
    };
    Ok(writeln!(out, "{name}")?)
}

fn put_parent(out: &mut String, tree: &Tree, place: &str) -> Result<(), OutOfMemory> {
    put_shown(out, &tree.parent(ViewId(number_of(place))))
}

fn copy_tree(tree: &mut Tree) -> Result<(), OutOfMemory> {
    *tree = tree.copy()?;
    Ok(())
}

// What a call with words asks of the tree.
fn put_asked(out: &mut String, tree: &Tree, call: &str, words: &str) -> Result<(), OutOfMemory> {
    match call {
        "find" => put_shown(out, &tree.find(words)),
        "parent" => put_parent(out, tree, words),
        "at" => put_name(out, tree, words),
        _ => put_shown(out, &tree.len()),
    }
}

// What a call with words leads to.
fn put_worded(
    alloc: Global,
    out: &mut String,
    tree: &mut Tree,
    call: &str,
    words: &str,
) -> Result<(), OutOfMemory> {
    match call {
        "add" => put_added(out, tree, words),
        "json" => put_grown(alloc, out, tree, words),
        "nest" => put_nested(alloc, out, tree, words),
        "broad" => put_broad(alloc, out, tree, words),
        _ => put_asked(out, tree, call, words),
    }
}

fn put_call(
    alloc: Global,
    out: &mut String,
    tree: &mut Tree,
    call: &str,
) -> Result<(), OutOfMemory> {
    match call.split_once(" ") {
        Some((word, words)) => put_worded(alloc, out, tree, word, words),
        None if call == "copy" => copy_tree(tree),
        None => put_shown(out, &tree.len()),
    }
}

// Appends each call and what it answers.
fn put_calls(
    alloc: Global,
    out: &mut String,
    tree: &mut Tree,
    calls: &str,
) -> Result<(), OutOfMemory> {
    for call in calls.lines() {
        writeln!(out, "{call}")?;
        put_call(alloc, out, tree, call)?;
    }
    Ok(())
}

/// Appends what the calls on views answer.
pub fn put_views(alloc: Global, out: &mut String, calls: &str) -> Result<(), OutOfMemory> {
    let mut tree = Tree::new(alloc)?;
    put_calls(alloc, out, &mut tree, calls)
}
