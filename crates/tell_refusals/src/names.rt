// The explanation of a name that is taken.
use crate::parts::Parts;
use crate::telling::Telling;
use tell_finding::taken_place;

const TWICE: &[u8] =
    b"this tree has the name twice; names are one space, whatever the views are in";

/// The kind of thing that has the name; empty if none has.
pub(crate) fn holder_of(parts: Parts<'_>, name: &str) -> &'static str {
    if parts.tree.find(name).is_some() {
        "a view"
    } else if parts.metrics.get(name).is_some() {
        "a metric"
    } else {
        ""
    }
}

impl Telling<'_> {
    // Says which view has the name: that of the last accepted line for such a view, or the window.
    fn set_view_line(&mut self, name: &[u8]) {
        let found = self.owners.view_line(name);
        if found == 0 {
            return self.finding.set_cure(b"it is the window's");
        }
        let mut cure = Vec::new(self.alloc());
        self.reader.put(&mut cure, b"line ");
        self.reader.put_count(&mut cure, found);
        self.reader.put(&mut cure, b" makes a view of this name");
        self.finding.set_cure(&cure);
        drop(cure);
    }

    /// Explains a name that is taken.
    pub(crate) fn set_taken(&mut self, name: &str) {
        let holder = holder_of(self.parts, name);
        match holder {
            "a view" => self.set_view_line(name.as_bytes()),
            "a metric" => self.finding.set_cure(b"a metric has this name"),
            _ => self.finding.set_cure(TWICE),
        }
        let at = taken_place(self.line, name.as_bytes(), holder.is_empty());
        self.finding.set_place(self.line, at);
    }
}
