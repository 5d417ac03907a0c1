// The explanation of an unknown name.
use crate::names::holder_of;
use crate::telling::Telling;
use name_tables::Metrics;
use tell_finding::unknown_place;
use tell_mend::{Near, Reader, Wanted, cut, is_attribute, rank_for, wanted_at};
use view_tree::Tree;

const PRIORITY: &[u8] =
    b"a priority is a number from 1 to 1000, or a metric's name; 750 is a strong wish, 250 a weak one";

const ATTRIBUTE: &[u8] = b"an attribute stands behind its view's name and a point, as in `a.width`";

const GONE: &[u8] = b" was to make it: it was refused, or what it made has gone since";

const ITSELF: &[u8] = b" makes it, which is this one: before, nothing has the name";

const LATER: &[u8] = b" makes it: put that line in front of this one";

// An unknown name, where it is in the line, and the kind of thing wanted there.
#[derive(Clone, Copy)]
struct Lost<'a> {
    at: usize,
    name: &'a str,
    wanted: Wanted,
}

// Takes the names of views.
fn take_views<'a>(reader: &mut Reader, near: &mut Near<'a>, tree: &'a Tree) {
    for place in 0..tree.len() {
        if let Some(view) = tree.at(place) {
            near.take(reader, view.name);
        }
    }
}

// Takes the names of metrics.
fn take_metrics<'a>(reader: &mut Reader, near: &mut Near<'a>, metrics: &'a Metrics) {
    for place in 0..metrics.len() {
        if let Some(metric) = metrics.at(place) {
            near.take(reader, metric.name);
        }
    }
}

// Takes the names of groups.
fn take_groups<'a>(reader: &mut Reader, near: &mut Near<'a>, groups: &'a [&'a [u8]]) {
    for group in groups {
        near.take(reader, std::str::from_utf8(*group).unwrap_or(""));
    }
}

impl<'a> Telling<'a> {
    // The most similar name of the kind wanted; empty if none is similar.
    fn nearest(&mut self, lost: Lost<'a>) -> &'a str {
        let mut near = Near::new(lost.name);
        if lost.wanted.is_view() {
            take_views(&mut self.reader, &mut near, self.parts.tree);
        }
        if lost.wanted.is_metric() {
            take_metrics(&mut self.reader, &mut near, self.parts.metrics);
        }
        if let Wanted::Group = lost.wanted {
            take_groups(&mut self.reader, &mut near, self.parts.groups);
        }
        near.name()
    }

    // Says which name is most similar, if one is, and returns it.
    fn put_nearest(&mut self, cure: &mut Vec<u8>, lost: Lost<'a>) -> &'a str {
        let near = self.nearest(lost);
        if !near.is_empty() {
            let texts = [b"there is `", near.as_bytes(), b"`"];
            self.reader.put_all(cure, &texts);
        }
        near
    }

    // Explains a name after `@`, and returns its replacement.
    fn put_priority(&mut self, cure: &mut Vec<u8>, lost: Lost<'a>) -> &'a str {
        let rank = rank_for(lost.name);
        let near = if rank.is_empty() {
            self.put_nearest(cure, lost)
        } else {
            rank
        };
        if cure.is_empty() {
            self.reader.put(cure, PRIORITY);
        }
        near
    }

    // Says that the line of this number makes such a thing, and why there is none.
    fn put_maker(&mut self, cure: &mut Vec<u8>, number: usize) {
        self.reader.put(cure, b"line ");
        self.reader.put_count(cure, number);
        if number < self.number {
            self.reader.put(cure, GONE);
        } else if number == self.number {
            self.reader.put(cure, ITSELF);
        } else {
            self.reader.put(cure, LATER);
        }
    }

    // Says how such a thing is made, or that the name is an attribute's and a number is wanted.
    fn put_how(&mut self, cure: &mut Vec<u8>, lost: Lost<'a>) {
        if lost.wanted.is_number() && is_attribute(&mut self.reader, lost.name) {
            return self.reader.put(cure, ATTRIBUTE);
        }
        let (before, behind) = lost.wanted.how();
        self.reader.put(cure, before.as_bytes());
        self.reader.put(cure, lost.name.as_bytes());
        self.reader.put(cure, behind.as_bytes());
    }

    // Says that the name belongs to another kind of thing.
    fn put_other(&mut self, cure: &mut Vec<u8>, lost: Lost<'a>, kind: &str) {
        self.reader
            .put_all(cure, &[b"`", lost.name.as_bytes(), b"` is "]);
        self.reader.put(cure, kind.as_bytes());
        self.reader.put(cure, b", and ");
        self.reader.put(cure, lost.wanted.word().as_bytes());
        self.reader.put(cure, b" must stand there");
    }

    // Explains the name, and returns its replacement; empty if there is none.
    fn put_advice(&mut self, cure: &mut Vec<u8>, lost: Lost<'a>) -> &'a str {
        if let Wanted::Priority = lost.wanted {
            return self.put_priority(cure, lost);
        }
        let kind = holder_of(self.parts, lost.name);
        let number = self.owners.maker(lost.wanted, lost.name.as_bytes());
        if !kind.is_empty() {
            self.put_other(cure, lost, kind);
            ""
        } else if number > 0 {
            self.put_maker(cure, number);
            ""
        } else {
            let near = self.put_nearest(cure, lost);
            if near.is_empty() {
                self.put_how(cure, lost);
            }
            near
        }
    }

    // Suggests the line with this word in place of the name.
    fn set_named(&mut self, lost: Lost<'a>, word: &str) {
        let (front, rest) = cut(self.line, lost.at);
        let texts = [front, word.as_bytes(), cut(rest, lost.name.len()).1];
        let mut line = Vec::new(self.alloc());
        self.reader.put_all(&mut line, &texts);
        self.set_so(&line);
        drop(line);
    }

    /// Explains an unknown name.
    pub(crate) fn set_unknown(&mut self, name: &'a str) {
        let at = unknown_place(self.line, name.as_bytes());
        let wanted = wanted_at(self.line, at, name.as_bytes());
        let lost = Lost { at, name, wanted };
        let mut cure = Vec::new(self.alloc());
        let word = self.put_advice(&mut cure, lost);
        self.finding.set_place(self.line, at);
        self.finding.set_cure(&cure);
        if !word.is_empty() {
            self.set_named(lost, word);
        }
        drop(cure);
    }
}
