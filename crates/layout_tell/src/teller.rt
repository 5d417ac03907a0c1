// Answers the lines of a script, and explains those that are refused.
ghost use Rattle.std.specs.Prelude.{⊤};

use crate::asked::Asked;
use crate::lent::{Lent, Needs, groups_of, need_of, parts_of};
use crate::posing::{put_early, step_problem};
use edge_io::{LINE_LIMIT, Piece, Sink, StdSource, put_all};
use frac_core::OutOfMemory;
use layout_cli::{Responder, Status};
use line_by_line::{AnswerStop, Answerer, ScriptStop, answer_script};
use name_tables::LimitWord;
use reply_texts::reply_text;
use script_text::Version;
use session_undo::Refusal;
use std::alloc::Global;
use tell_finding::Finding;
use tell_mend::{Reader, line_at};
use tell_refusals::{Owners, Telling, has_problem, put_finding, put_problem, set_then};

// Answers the lines of a script and explains them.
#[derive(Drop)]
struct Teller<'s> {
    responder: Responder,
    owners: Owners<'s>,
    asked: Asked,
    script: &'s [u8],
    // The number of the latest line, how many lines got a reply, and how many were refused.
    number: usize,
    count: usize,
    refused: usize,
    // Whether the line came whose problem is asked for, and whether that was printed.
    is_found: bool,
    is_printed: bool,
    // The latest reply, what a suggested line would get in turn, and the explanation.
    reply: Vec<u8>,
    early: Vec<u8>,
    out: Vec<u8>,
}

const NO_LINE: &[u8] = b"no problem: the script has no line of this number that gets a reply\n";

impl<'s> Teller<'s> {
    // Before the first line.
    fn new(alloc: Global, asked: Asked, script: &'s [u8]) -> Result<Teller<'s>, OutOfMemory> {
        let mut owners = Owners::new(alloc, script)?;
        let responder = Responder::new(alloc)?;
        owners.start(responder.session().state().next_row());
        Ok(Teller {
            responder,
            owners,
            asked,
            script,
            number: 0,
            count: 0,
            refused: 0,
            is_found: false,
            is_printed: false,
            reply: Vec::new(alloc),
            early: Vec::new(alloc),
            out: Vec::new(alloc),
        })
    }

    // Answers a line. Returns whether it is refused.
    fn reply_to(&mut self, line: &[u8]) -> Result<bool, OutOfMemory> {
        self.reply.clear();
        if line.len() <= LINE_LIMIT {
            return self.responder.answer(line, &mut self.reply);
        }
        self.responder.long();
        let refusal = Err(Refusal::Limit(LimitWord::Line));
        reply_text(self.responder.session(), &refusal, &mut self.reply)?;
        Ok(true)
    }

    // Appends a finding. If it suggests a line that would be refused in turn before anything is solved, says so.
    fn put(&mut self, mut finding: Finding, so: &[u8]) -> Result<(), OutOfMemory> {
        let session = self.responder.session();
        let mut reader = Reader::new(*self.out.allocator(), session.version());
        self.early.clear();
        if !so.is_empty() {
            put_early(&mut reader, session, so, &mut self.early);
        }
        if !self.early.is_empty() {
            set_then(&mut finding, &self.early);
        }
        let is_json = matches!(self.asked, Asked::Json);
        put_finding(&mut reader, &mut self.out, finding, is_json);
        reader.done()
    }

    // The finding of a line that was answered, with what the session lends for that.
    fn finding<'x>(&'x self, line: &'x [u8], lent: Lent<'x>, so: &'x mut Vec<u8>) -> Finding {
        let alloc = *self.out.allocator();
        let session = self.responder.session();
        let told = Telling {
            reader: Reader::new(alloc, session.version()),
            finding: Finding::new(alloc),
            parts: parts_of(session, lent),
            owners: &self.owners,
            script: self.script,
            number: self.number,
            line,
            reply: &self.reply,
            so,
        };
        told.explain()
    }

    // Explains a line that was answered, with what the session lends for that.
    fn tell_with<'x>(&mut self, line: &'x [u8], lent: Lent<'x>) -> Result<(), OutOfMemory> {
        let mut so = Vec::new(*self.out.allocator());
        let finding = self.finding(line, lent, &mut so);
        let done = self.put(finding, &so);
        drop(so);
        done
    }

    // Explains a conflict.
    fn tell_conflict(&mut self, line: &[u8]) -> Result<(), OutOfMemory> {
        let problem = step_problem(*self.out.allocator(), self.responder.session(), line)?;
        let lent = Lent {
            problem: problem.as_ref(),
            ..Lent::nothing()
        };
        let done = self.tell_with(line, lent);
        drop(problem);
        done
    }

    // Explains an unknown group.
    fn tell_group(&mut self, line: &[u8]) -> Result<(), OutOfMemory> {
        let session = self.responder.session();
        let mut reader = Reader::new(*self.out.allocator(), session.version());
        let groups = groups_of(&mut reader, session, self.script);
        let lent = Lent {
            groups: &groups,
            ..Lent::nothing()
        };
        let done = self.tell_with(line, lent);
        drop(groups);
        reader.done()?;
        done
    }

    // Explains what `diagnose` found.
    fn tell_found(&mut self, line: &[u8]) -> Result<(), OutOfMemory> {
        let values = self.responder.session().values()?;
        let lent = Lent {
            values: values.pairs(),
            ..Lent::nothing()
        };
        let done = self.tell_with(line, lent);
        drop(values);
        done
    }

    // Explains a line that was answered.
    fn tell(&mut self, line: &[u8]) -> Result<(), OutOfMemory> {
        match need_of(line, &self.reply) {
            Needs::Problem => self.tell_conflict(line),
            Needs::Groups => self.tell_group(line),
            Needs::Values => self.tell_found(line),
            Needs::Nothing => self.tell_with(line, Lent::nothing()),
        }
    }

    // Prints the problem of a line that was answered, or why it has none.
    fn print(&mut self, line: &[u8]) -> Result<(), OutOfMemory> {
        let alloc = *self.out.allocator();
        let session = self.responder.session();
        let mut reader = Reader::new(alloc, session.version());
        self.is_found = true;
        if has_problem(&mut reader, &mut self.out, &self.reply) {
            let problem = step_problem(alloc, session, line)?;
            if let Some(problem) = &problem {
                put_problem(&mut reader, &mut self.out, problem, &self.reply);
                self.is_printed = true;
            }
            drop(problem);
        }
        reader.done()
    }

    // Does what is asked for with a line that was answered.
    fn show(&mut self, line: &[u8]) -> Result<(), OutOfMemory> {
        match self.asked {
            Asked::Problem(wanted) if wanted == self.number => self.print(line),
            Asked::Problem(_) => Ok(()),
            _ => self.tell(line),
        }
    }

    // Answers a line, and does what is asked for. A line without a reply needs nothing more.
    fn take(&mut self, line: &[u8]) -> Result<(), OutOfMemory> {
        let is_refused = self.reply_to(line)?;
        if self.reply.is_empty() {
            return Ok(());
        }
        self.count = self.count.saturating_add(1);
        self.refused = self.refused.saturating_add(is_refused as usize);
        self.show(line)?;
        let next = self.responder.session().state().next_row();
        self.owners.take(self.number, next)
    }

    // Puts the last line of the output: for people the number of refused lines.
    fn put_end(&mut self) -> Result<(), OutOfMemory> {
        let mut reader = Reader::new(*self.out.allocator(), Version::One);
        self.out.clear();
        match self.asked {
            Asked::People => {
                reader.put_count(&mut self.out, self.count);
                reader.put(&mut self.out, b" lines, ");
                reader.put_count(&mut self.out, self.refused);
                reader.put(&mut self.out, b" refused\n");
            }
            Asked::Problem(_) if !self.is_found => reader.put(&mut self.out, NO_LINE),
            _ => (),
        }
        reader.done()
    }

    // Writes the last line of the output, and returns the status.
    fn end<K: Sink>(&mut self, sink: &mut K) -> Status {
        if self.put_end().is_err() {
            return Status::OutOfMemory;
        }
        let is_done = match self.asked {
            Asked::Problem(_) => self.is_printed,
            _ => self.refused == 0,
        };
        match put_all(sink, &self.out) {
            Ok(()) if is_done => Status::Done,
            Ok(()) => Status::Refused,
            Err(_) => Status::WriteFault,
        }
    }

    // Takes each line of the script, and returns the status.
    fn run<K: Sink>(&mut self, alloc: Global, sink: &mut K) -> Status {
        let mut source = StdSource::new(self.script);
        match answer_script(alloc, self, &mut source, sink) {
            Ok(_) => self.end(sink),
            Err(ScriptStop::ReadFault) => Status::ReadFault,
            Err(ScriptStop::TooLong) => Status::TooLong,
            Err(ScriptStop::WriteFault) => Status::WriteFault,
            Err(ScriptStop::OutOfMemory) => Status::OutOfMemory,
        }
    }
}

impl Answerer for Teller<'_> {
    ghost answers = { λ _ _ _ _ _. ⊤ };

    fn answer<K: Sink>(&mut self, piece: Piece<'_>, sink: &mut K) -> Result<bool, AnswerStop> {
        self.out.clear();
        self.number = self.number.saturating_add(1);
        match piece {
            Piece::Line(line) => self.take(line)?,
            Piece::Long => self.take(line_at(self.script, self.number))?,
        }
        put_all(sink, &self.out)?;
        Ok(true)
    }
}

/// Does with a script what is asked for, and returns the status.
pub fn tell<K: Sink>(
    alloc: Global,
    asked: Asked,
    script: &[u8],
    sink: &mut K,
) -> Result<Status, OutOfMemory> {
    let mut teller = Teller::new(alloc, asked, script)?;
    let status = teller.run(alloc, sink);
    drop(teller);
    Ok(status)
}
