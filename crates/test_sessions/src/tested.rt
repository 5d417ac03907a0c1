// Sessions and the checker, as `test_runs` asks for them.
//
// Each call on what is tested stands in a function of its own, since nothing here needs its clauses.
use crate::answers::answer;
use crate::held::push_held;
use crate::problems::problem;
use crate::session::Session;
use claim_check::check_claim;
use edge_io::{MemorySink, Sink, Source};
use frac_core::OutOfMemory;
use reply_texts::{print_frames, reply_text};
use script_text::Version;
use session_undo::{Refusal, Reply};
use std::alloc::Global;
use test_runs::{Answer, Checker, Talk};

/// A session, in a box: it is large, and what owns it is proved at each of its ways out.
#[derive(Drop)]
pub struct Tested {
    session: Box<Session>,
}

impl Tested {
    /// A session of this version that has taken no line.
    pub fn new(alloc: Global, version: Version) -> Result<Tested, OutOfMemory> {
        let session = Session::with_version(alloc, version)?;
        let session = Box::new(alloc, session)?;
        Ok(Tested { session })
    }
}

impl Checker for Tested {
    fn check<S: Source, K: Sink>(alloc: Global, source: &mut S, sink: &mut K) {
        let _ = check_claim(alloc, source, sink);
    }
}

/// Appends the text of a reply.
pub fn push_reply(
    text: &mut Vec<u8>,
    session: &Session,
    reply: &Result<Reply, Refusal>,
) -> Result<(), OutOfMemory> {
    reply_text(session, reply, text)
}

fn push_rows(text: &mut Vec<u8>, session: &Session) -> Result<(), OutOfMemory> {
    push_reply(text, session, &Ok(Reply::Rows))
}

fn are_printed(session: &Session, sink: &mut MemorySink) -> bool {
    print_frames(session, sink).is_ok()
}

impl Talk for Tested {
    fn answer(&mut self, alloc: Global, line: &str) -> Result<Answer, OutOfMemory> {
        answer(alloc, &mut self.session, line)
    }

    fn problem(&self, alloc: Global, line: &str) -> Result<Answer, OutOfMemory> {
        problem(alloc, &self.session, line)
    }

    fn held(&self, alloc: Global) -> Result<Vec<u8>, OutOfMemory> {
        let mut text = Vec::new(alloc);
        push_held(alloc, &mut text, &self.session)?;
        Ok(text)
    }

    fn rows(&self, alloc: Global) -> Result<Vec<u8>, OutOfMemory> {
        let mut text = Vec::new(alloc);
        push_rows(&mut text, &self.session)?;
        Ok(text)
    }

    fn put_frames(&self, sink: &mut MemorySink) -> bool {
        are_printed(&self.session, sink)
    }
}
