// What a session holds, as text: its rows, and its stays at the present values, to which no reply sets them.
use crate::session::Session;
use claim_writing::rows_text;
use frac_core::{Frac, OutOfMemory};
use problem_core::{Row, Stay};
use std::alloc::Global;

fn rows_of(session: &Session) -> &[Row] {
    session.engine().rows()
}

fn stays_of(session: &Session) -> &[Stay] {
    session.engine().stays()
}

fn value_of(session: &Session, attr: u32) -> Option<Frac> {
    session.engine().value(attr)
}

// The stays, each at the value that its attribute has.
fn stays_at_values(alloc: Global, session: &Session) -> Result<Vec<Stay>, OutOfMemory> {
    let mut stays = Vec::new(alloc);
    for stay in stays_of(session) {
        let attr = stay.attr;
        let target = value_of(session, attr).unwrap_or(stay.target);
        stays.push(Stay { attr, target })?;
    }
    Ok(stays)
}

fn push_rows(text: &mut Vec<u8>, rows: &[Row]) -> Result<(), OutOfMemory> {
    rows_text(rows, &[], text)
}

fn push_stays(text: &mut Vec<u8>, stays: &[Stay]) -> Result<(), OutOfMemory> {
    rows_text(&[], stays, text)
}

/// Appends the problem that is held.
pub fn push_held(alloc: Global, text: &mut Vec<u8>, session: &Session) -> Result<(), OutOfMemory> {
    push_rows(text, rows_of(session))?;
    let stays = stays_at_values(alloc, session)?;
    push_stays(text, &stays)
}
