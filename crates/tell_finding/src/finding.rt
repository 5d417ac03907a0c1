// A finding: one refused line, as a JSON object.
use crate::chars::{char_count, first_piece};
use serde_json::{Map, Value, push, put};
use span_text::lines;
use std::alloc::Global;
use tell_mend::{Reader, cut};

/// An object and its members by name. If memory runs out, `is_short` is set and the object must not be used.
#[derive(Drop)]
pub struct Finding {
    alloc: Global,
    members: Map<String, Value>,
    pub is_short: bool,
}

impl Finding {
    /// An object without members.
    pub fn new(alloc: Global) -> Finding {
        Finding {
            alloc,
            members: Map::new(alloc),
            is_short: false,
        }
    }

    // Sets a member.
    fn set(&mut self, key: &str, value: Value) {
        self.is_short |= put(&mut self.members, self.alloc, key, value).is_err();
    }

    /// Sets a member to a number.
    pub fn set_number(&mut self, key: &str, number: i64) {
        self.set(key, Value::from(number));
    }

    /// Sets a member to a count.
    pub fn set_count(&mut self, key: &str, count: usize) {
        self.set(key, Value::from(count));
    }

    /// Sets a member to a text. Bytes that aren't UTF-8 are replaced.
    pub fn set_text(&mut self, key: &str, text: &[u8]) {
        match String::from_utf8_lossy(self.alloc, text) {
            Ok(text) => self.set(key, Value::from(text)),
            Err(_) => self.is_short = true,
        }
    }

    /// Sets a member to the list of a text's lines, if there are any.
    pub fn set_lines(&mut self, key: &str, text: &[u8]) {
        let mut items = Vec::new(self.alloc);
        for line in lines(text) {
            match String::from_utf8_lossy(self.alloc, line.bytes) {
                Ok(text) => self.is_short |= push(&mut items, Value::from(text)).is_err(),
                Err(_) => self.is_short = true,
            }
        }
        self.set_items(key, items);
    }

    /// Sets the cures, one on each line of the text.
    pub fn set_cure(&mut self, cure: &[u8]) {
        self.set_lines("cure", cure);
    }

    /// Sets where in the line the cause shows. Column and width count characters, columns from 1. The offset
    /// counts bytes from 0.
    pub fn set_place(&mut self, line: &[u8], at: usize) {
        let (front, rest) = cut(line, at);
        self.set_count("offset", at);
        self.set_count("column", char_count(front).saturating_add(1));
        self.set_count("width", char_count(first_piece(rest)).max(1));
    }

    /// Appends an object to a list.
    pub fn push_item(&mut self, items: &mut Vec<Value>, item: Finding) {
        self.is_short |= item.is_short;
        self.is_short |= push(items, item.value()).is_err();
    }

    /// Sets a member to a list, unless it is empty.
    pub fn set_items(&mut self, key: &str, items: Vec<Value>) {
        if !items.is_empty() {
            self.set(key, Value::from(items));
        }
    }

    /// The object.
    pub fn value(self) -> Value {
        Value::from(self.members)
    }
}

/// A member that is a text; empty if there is none.
pub fn text_of<'v>(object: &'v Value, key: &str) -> &'v str {
    match object.get(key) {
        Some(Value::String(text)) => text,
        _ => "",
    }
}

/// A member that is a number; 0 if there is none.
pub(crate) fn number_of(object: &Value, key: &str) -> i64 {
    match object.get(key) {
        Some(value) => value.as_i64().unwrap_or(0),
        None => 0,
    }
}

/// A member that is a list; empty if there is none.
pub(crate) fn items_of<'v>(object: &'v Value, key: &str) -> &'v [Value] {
    match object.get(key) {
        Some(Value::Array(items)) => items,
        _ => &[],
    }
}

/// Appends the object as JSON on a line.
pub fn put_json(reader: &mut Reader, out: &mut Vec<u8>, object: &Value) {
    match object.to_string(reader.alloc()) {
        Ok(text) => reader.put_all(out, &[text.as_bytes(), b"\n"]),
        Err(_) => reader.fail_if(true),
    }
}
