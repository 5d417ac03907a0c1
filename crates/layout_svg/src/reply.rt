// The last reply to `frames`.
use crate::frame::{Frame, read_frame};
use std::alloc::{AllocError, Global};

/// Why there is no drawing.
#[derive(Clone, Copy)]
pub(crate) enum Fault {
    /// This line, counted from 1, begins as a frame and is none, or it is the first of a reply and not the
    /// window's, or the window's and not the first.
    Malformed(usize),
    /// There is no reply to `frames`, or one that doesn't end in `ok`.
    NotWhole,
    /// Memory is wanting.
    OutOfMemory(AllocError),
}

impl From<AllocError> for Fault {
    fn from(stop: AllocError) -> Fault {
        Fault::OutOfMemory(stop)
    }
}

// Takes a frame into the reply, which begins anew with that of the window. Says whether it could.
fn take<'a>(
    frames: &mut Vec<Frame<'a>>,
    is_open: bool,
    frame: Frame<'a>,
) -> Result<bool, AllocError> {
    let is_window = frame.name == "window";
    if is_window == is_open {
        return Ok(false);
    }
    if is_window {
        frames.clear();
    }
    frames.push(frame)?;
    Ok(true)
}

// Takes the line of a frame into the reply. Says whether it could.
fn take_line<'a>(
    frames: &mut Vec<Frame<'a>>,
    is_open: bool,
    line: &'a str,
) -> Result<bool, AllocError> {
    match read_frame(line) {
        Some(frame) => take(frames, is_open, frame),
        None => Ok(false),
    }
}

// Takes a line, of this place, counted from 0, into the reply. Says whether the reply is open then.
fn open_behind<'a>(
    frames: &mut Vec<Frame<'a>>,
    is_open: bool,
    place: usize,
    line: &'a str,
) -> Result<bool, Fault> {
    if line == "frame" || line.starts_with("frame ") {
        if take_line(frames, is_open, line)? {
            Ok(true)
        } else {
            Err(Fault::Malformed(place.saturating_add(1)))
        }
    } else if is_open && line != "ok" {
        Err(Fault::NotWhole)
    } else {
        Ok(false)
    }
}

// Takes all lines, so that the frames are those of the last reply.
fn take_lines<'a>(frames: &mut Vec<Frame<'a>>, input: &'a str) -> Result<(), Fault> {
    let mut is_open = false;
    for (place, line) in input.lines().enumerate() {
        is_open = open_behind(frames, is_open, place, line)?;
    }
    if is_open || frames.is_empty() {
        Err(Fault::NotWhole)
    } else {
        Ok(())
    }
}

/// The frames of the last reply to `frames`, that of the window first.
pub(crate) fn last_reply(alloc: Global, input: &str) -> Result<Vec<Frame<'_>>, Fault> {
    let mut frames = Vec::new(alloc);
    take_lines(&mut frames, input)?;
    Ok(frames)
}
