// Attributes by their names.
use tell_mend::Reader;
use view_tree::{Attributes, Tree};

// The attributes of the view at this place.
fn attributes_at(tree: &Tree, place: usize) -> Option<Attributes> {
    let _ = tree.len(); // for the proof: each view's number is below the limit
    let view = tree.at(place)?;
    Some(view.id.attributes())
}

// The word of an attribute; empty unless it is one of these.
fn word_of(of: Attributes, attr: u32) -> &'static str {
    if attr == of.left {
        "left"
    } else if attr == of.top {
        "top"
    } else if attr == of.width {
        "width"
    } else if attr == of.height {
        "height"
    } else {
        ""
    }
}

// The number of the attribute of this word; 0 if it is no word of these.
fn number_of(of: Attributes, word: &str) -> u32 {
    match word {
        "left" => of.left,
        "top" => of.top,
        "width" => of.width,
        "height" => of.height,
        _ => 0,
    }
}

// The name of the view at this place; empty if there is none.
fn name_at(tree: &Tree, place: usize) -> &str {
    match tree.at(place) {
        Some(view) => view.name,
        None => "",
    }
}

// The word of an attribute, if it is one of the view at this place; else empty.
fn word_at(tree: &Tree, place: usize, attr: u32) -> &'static str {
    match attributes_at(tree, place) {
        Some(of) => word_of(of, attr),
        None => "",
    }
}

// The number of the attribute of this word of the view at this place; 0 if there is none.
fn number_at(tree: &Tree, place: usize, word: &str) -> u32 {
    match attributes_at(tree, place) {
        Some(of) => number_of(of, word),
        None => 0,
    }
}

/// Appends the name of an attribute.
pub(crate) fn put_attr(reader: &mut Reader, out: &mut Vec<u8>, tree: &Tree, attr: u32) {
    for place in 0..tree.len() {
        let word = word_at(tree, place, attr);
        if !word.is_empty() {
            reader.put(out, name_at(tree, place).as_bytes());
            reader.put(out, b".");
            reader.put(out, word.as_bytes());
        }
    }
}

/// The number of the attribute of this word; 0 if there is no such attribute. No attribute has the number 0.
pub(crate) fn attr_of(tree: &Tree, view: &str, word: &str) -> u32 {
    for place in 0..tree.len() {
        if name_at(tree, place) == view {
            return number_at(tree, place, word);
        }
    }
    0
}
