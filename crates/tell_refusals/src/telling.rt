// The explanation of a refused line.
use crate::limits::put_why;
use crate::owners::Owners;
use crate::parts::Parts;
use crate::problem::is_own;
use std::alloc::Global;
use tell_finding::{
    Finding, align_cure, cause_of, form_of, put_json, put_people, shape_fault, text_of,
};
use tell_mend::{Reader, before_sign, cut, parted};

const SUGGESTED: &[u8] = b"its priority is the first one's; `release` it first for another";

/// A line of a script with its reply, parts of the session that answered it, the lines that rows are from, and
/// the finding, which has no members yet.
#[derive(Drop)]
pub struct Telling<'a> {
    pub reader: Reader,
    pub finding: Finding,
    pub parts: Parts<'a>,
    pub owners: &'a Owners<'a>,
    pub script: &'a [u8],
    /// The line's number, counted from 1.
    pub number: usize,
    pub line: &'a [u8],
    pub reply: &'a [u8],
    /// The line that is suggested; empty so far.
    pub so: &'a mut Vec<u8>,
}

// The first line of a reply.
fn head_of(reply: &[u8]) -> &str {
    std::str::from_utf8(parted(reply, b'\n').0).unwrap_or("")
}

// The words after `refused` and the number.
fn cause_words(head: &str) -> &str {
    let (_, words) = parted(parted(head.as_bytes(), b' ').1, b' ');
    std::str::from_utf8(words).unwrap_or("")
}

/// Says that the suggested line would get this reply, a refusal.
pub fn set_then(finding: &mut Finding, reply: &[u8]) {
    finding.set_text("then", head_of(reply).as_bytes());
}

/// Appends the finding as JSON or as text, unless there is nothing to say.
pub fn put_finding(reader: &mut Reader, out: &mut Vec<u8>, finding: Finding, is_json: bool) {
    reader.fail_if(finding.is_short);
    let value = finding.value();
    match is_json {
        _ if text_of(&value, "reply").is_empty() => (),
        true => put_json(reader, out, &value),
        false => put_people(reader, out, &value),
    }
    drop(value);
}

impl<'a> Telling<'a> {
    // The allocator of texts.
    pub(crate) fn alloc(&self) -> Global {
        self.reader.alloc()
    }

    /// Explains the line. Nothing is said of an accepted line, except the ambiguous attributes after
    /// `diagnose`. The line in `so` may be refused in turn.
    pub fn explain(mut self) -> Finding {
        self.set_all();
        let mut finding = self.finding;
        finding.is_short |= self.reader.done().is_err();
        finding
    }

    /// Suggests a line.
    pub(crate) fn set_so(&mut self, text: &[u8]) {
        self.finding.set_text("mended", text);
        self.reader.put(self.so, text);
    }

    // Sets what the cause means, and where it shows.
    fn set_cause(&mut self, words: &str) {
        let cause = cause_of(words);
        let mut why = Vec::new(self.alloc());
        let most = self.parts.most;
        put_why(&mut self.reader, &mut why, words, cause.why, most);
        self.finding.set_text("why", &why);
        drop(why);
        let at = self.cause_place(words, cause.mark);
        self.finding.set_place(self.line, at);
    }

    // Says how to print the problem of a run that stopped, if it can be printed.
    fn set_stopped(&mut self) {
        if is_own(self.reply) {
            let mut cure = Vec::new(self.alloc());
            self.reader.put(&mut cure, b"`layout_tell problem ");
            self.reader.put_count(&mut cure, self.number);
            let rest = b"` prints its problem and path, for `layout check`";
            self.reader.put(&mut cure, rest);
            self.finding.set_cure(&cure);
            drop(cure);
        }
    }

    // Suggests a later suggestion without its priority.
    fn set_suggested(&mut self) {
        self.finding.set_cure(SUGGESTED);
        let line = self.line;
        let front = cut(line, before_sign(line, b"@")).0;
        if front.len() < line.len() {
            self.set_so(front.trim_ascii_end());
        }
    }

    // Sets where the tree has another shape than a tree's, and the cure.
    fn set_shape(&mut self) {
        if let Some(found) = shape_fault(&mut self.reader, self.line) {
            self.finding.set_place(self.line, found.at);
            self.finding.set_cure(found.cure.as_bytes());
        }
    }

    // Explains a wrong use further.
    fn set_misuse(&mut self, word: &str) {
        match word {
            "align" => self.finding.set_cure(align_cure(self.line).as_bytes()),
            "suggested" => self.set_suggested(),
            "tree" => self.set_shape(),
            _ => (),
        }
    }

    // Sets what only a refusal for this cause has.
    fn set_more(&mut self, cause: &str, rest: &'a str) {
        match cause {
            "syntax" => self.set_syntax(rest.parse::<usize>().unwrap_or(0)),
            "unknown" => self.set_unknown(rest),
            "taken" => self.set_taken(rest),
            "kind" => self.set_misuse(rest),
            "conflict" => self.set_conflict(),
            "overflow" | "spent" => self.set_stopped(),
            _ => (),
        }
    }

    // Sets the line, its number, the first line of its reply, and its command's form.
    fn set_head(&mut self, head: &str) {
        self.finding.set_count("line", self.number);
        self.finding.set_text("text", self.line);
        self.finding.set_text("reply", head.as_bytes());
        if !self.line.trim_ascii_start().is_empty() && !head.starts_with("refused 6") {
            self.finding.set_text("form", form_of(self.line).as_bytes());
        }
    }

    // Sets the finding's members by the reply. The first line of a refusal is `refused`, a number, and the
    // words for the cause.
    fn set_all(&mut self) {
        let head = head_of(self.reply);
        if !head.starts_with("refused ") {
            return self.set_open();
        }
        self.set_head(head);
        let words = cause_words(head);
        self.set_cause(words);
        let (cause, rest) = words.split_once(' ').unwrap_or((words, ""));
        self.set_more(cause, rest);
    }
}
