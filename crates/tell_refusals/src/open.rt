// The attributes that `diagnose` found ambiguous, and lines that pin them.
use crate::attributes::attr_of;
use crate::parts::Parts;
use crate::telling::Telling;
use frac_core::{Frac, Wide};
use serde_json::Value;
use span_text::lines;
use tell_finding::{Finding, put_pin};
use tell_mend::Reader;

// The present value of an attribute; 0 if there is no such attribute.
fn value_of(parts: Parts<'_>, attr: &str) -> Frac {
    let (view, word) = attr.split_once('.').unwrap_or((attr, ""));
    let number = attr_of(parts.tree, view, word);
    for (own, value) in parts.values {
        if *own == number {
            return *value;
        }
    }
    Frac::zero()
}

// The object of an ambiguous attribute.
fn item_of(reader: &mut Reader, parts: Parts<'_>, attr: &str, reach: &str) -> Finding {
    let mut item = Finding::new(reader.alloc());
    let mut text = Vec::new(reader.alloc());
    let value = value_of(parts, attr);
    item.set_text("attribute", attr.as_bytes());
    item.set_text("reach", reach.as_bytes());
    reader.put_frac(&mut text, Wide::from(value));
    item.set_text("value", &text);
    text.clear();
    put_pin(reader, &mut text, attr, value);
    item.set_text("pin", &text);
    drop(text);
    item
}

impl Telling<'_> {
    // Appends the object of the attribute in a reply's line `ambiguous ATTRIBUTE VALUE`.
    fn push_open(&mut self, items: &mut Vec<Value>, line: &[u8]) {
        let line = std::str::from_utf8(line).unwrap_or("");
        if let Some(rest) = line.strip_prefix("ambiguous ") {
            let (attr, reach) = rest.split_once(' ').unwrap_or((rest, ""));
            let item = item_of(&mut self.reader, self.parts, attr, reach);
            self.finding.push_item(items, item);
        }
    }

    // Appends the objects of all ambiguous attributes.
    fn push_all_open(&mut self, items: &mut Vec<Value>) {
        for line in lines(self.reply) {
            self.push_open(items, line.bytes);
        }
    }

    // Sets the line, its number, and words in place of a refusal.
    fn set_open_head(&mut self) {
        self.finding.set_count("line", self.number);
        self.finding.set_number("column", 1);
        self.finding.set_text("text", self.line);
        self.finding.set_text("reply", b"what no line decides");
    }

    /// Sets the ambiguous attributes of a reply to `diagnose`, each with its value, another one, and a line
    /// that pins it.
    pub(crate) fn set_open(&mut self) {
        let mut items = Vec::new(self.alloc());
        self.push_all_open(&mut items);
        if !items.is_empty() {
            self.set_open_head();
        }
        self.finding.set_items("open", items);
    }
}
