// Faults of a tree's text: it is no JSON, or JSON of another shape.
use crate::causes::json_cure;
use crate::finding::items_of;
use crate::marks::{argument_place, quoted_place};
use serde_json::{Map, Value};
use span_text::pieces::{begins_with_letter, word_len};
use tell_mend::{Reader, cut};

const OBJECT: &str = "a view is an object there, as `{\"name\":\"card\"}`";

const KEY: &str =
    "an object has `name`, maybe `children`, and the outermost one maybe `in`: no other key";

const NO_NAME: &str = "each object has a `name`";

const TEXT: &str = "a name is a text, in `\"`";

const NAME: &str = "a name has letters from a to z, digits and `_` alone, and no digit in front";

const LIST: &str = "`children` is a list of objects, in `[` and `]`";

const INNER: &str = "`in` stands in the outermost object alone";

// More objects than a line has room for.
const OBJECTS: usize = 4096;

/// A fault of a tree: where it is in the line, and its cure.
#[derive(Clone, Copy)]
pub struct Fault {
    pub at: usize,
    pub cure: &'static str,
}

// The cure of a wrong value, and the text in quotes that shows where it is; empty if no text does.
#[derive(Clone, Copy)]
struct Flaw<'v> {
    cure: &'static str,
    sign: &'v str,
}

// This flaw.
fn wrong<'v>(cure: &'static str, sign: &'v str) -> Option<Flaw<'v>> {
    Some(Flaw { cure, sign })
}

// The flaw of a key, if it has one.
fn key_flaw(key: &str, is_outermost: bool) -> Option<Flaw<'_>> {
    match key {
        "name" | "children" => None,
        "in" if is_outermost => None,
        "in" => wrong(INNER, key),
        _ => wrong(KEY, key),
    }
}

// The first flaw of the keys.
fn keys_flaw(members: &Map<String, Value>, is_outermost: bool) -> Option<Flaw<'_>> {
    for (key, _) in members.iter() {
        let found = key_flaw(key.as_str(), is_outermost);
        if found.is_some() {
            return found;
        }
    }
    None
}

// The flaw of the name under this key.
fn name_flaw<'v>(value: &'v Value, key: &'v str) -> Option<Flaw<'v>> {
    let Some(name) = value.as_str() else {
        return wrong(TEXT, key);
    };
    let bytes = name.as_bytes();
    if begins_with_letter(bytes) && word_len(bytes) == bytes.len() {
        None
    } else {
        wrong(NAME, if name.is_empty() { key } else { name })
    }
}

// The first flaw of an object's names: the name after `in`, and its own.
fn names_flaw(value: &Value) -> Option<Flaw<'_>> {
    let place = match value.get("in") {
        Some(place) => name_flaw(place, "in"),
        None => None,
    };
    let name = match value.get("name") {
        Some(name) => name_flaw(name, "name"),
        None => wrong(NO_NAME, ""),
    };
    place.or(name)
}

// The flaw of the children: they are no list.
fn list_flaw(value: &Value) -> Option<Flaw<'_>> {
    match value.get("children") {
        Some(Value::Array(_)) | None => None,
        Some(_) => wrong(LIST, "children"),
    }
}

// The first flaw of a view's value, without its children's.
fn flaw_of(value: &Value, is_outermost: bool) -> Option<Flaw<'_>> {
    match value.as_object() {
        Some(members) => keys_flaw(members, is_outermost)
            .or(names_flaw(value))
            .or(list_flaw(value)),
        None => wrong(OBJECT, value.as_str().unwrap_or("")),
    }
}

// The first flaw of these values and their descendants, in the order of the text.
fn first_flaw<'v>(reader: &mut Reader, left: &mut Vec<&'v Value>) -> Option<Flaw<'v>> {
    for place in 0..OBJECTS {
        let value = left.pop()?;
        let found = flaw_of(value, place == 0);
        if found.is_some() {
            return found;
        }
        for child in items_of(value, "children").iter().rev() {
            reader.fail_if(left.push(child).is_err());
        }
    }
    None
}

// The text from this place on.
fn text_from(line: &[u8], start: usize) -> &str {
    std::str::from_utf8(cut(line, start).1).unwrap_or("")
}

// The first fault of the tree that begins at this place.
fn value_fault(reader: &mut Reader, value: &Value, line: &[u8], start: usize) -> Option<Fault> {
    let mut left = Vec::new(reader.alloc());
    reader.fail_if(left.push(value).is_err());
    let found = first_flaw(reader, &mut left);
    drop(left);
    let Flaw { cure, sign } = found?;
    let at = quoted_place(line, start, sign.as_bytes());
    Some(Fault { at, cure })
}

/// Where the line's tree has another shape than a tree's, and the cure; none if its text is no JSON.
pub fn shape_fault(reader: &mut Reader, line: &[u8]) -> Option<Fault> {
    let start = argument_place(line);
    match Value::from_str(reader.alloc(), text_from(line, start)) {
        Ok(value) => {
            let found = value_fault(reader, &value, line, start);
            drop(value);
            found
        }
        Err(stop) => {
            reader.fail_if(stop.is_memory());
            None
        }
    }
}

/// Where the text that begins at `start` is no JSON, and the cure; none if it is JSON.
pub fn json_fault(reader: &mut Reader, line: &[u8], start: usize) -> Option<Fault> {
    match Value::from_str(reader.alloc(), text_from(line, start)) {
        Ok(value) => {
            drop(value);
            None
        }
        Err(stop) => {
            reader.fail_if(stop.is_memory());
            let far = stop.column().saturating_sub(!stop.is_eof() as usize);
            let at = start.saturating_add(far);
            let cure = json_cure(text_from(line, at));
            Some(Fault { at, cure })
        }
    }
}
