// Frames written straight to a sink.
ghost use Rattle.std.specs.Prelude.{◌≡◌, ◌≤◌, ◌+◌, ◌++◌, [], length, take, IfOk, IfSome, IfNone};
ghost use Rattle.reply_texts.specs.Printing.{Puts, line_at};
ghost use Rattle.reply_texts.specs.Frames.{frame_line, value_text};
ghost use Rattle.reply_texts.specs.Replies.{frames_text};
ghost use Rattle.reply_texts.specs.declared.printing.TheConstants.{LINE_ROOM, VALUE_ROOM};
ghost use Rattle.name_tables.specs.declared.stops.TheConstants.{NAME_LIMIT};

use crate::frames::{Frame, named};
use corner_view::Tableau;
use edge_io::{Failed, Sink, put_all};
use frac_core::{Frac, OutOfMemory};
use itoa::Buffer;
use scenes::Scene;
use session_undo::Session;

// The room for the line of a frame: its words and spaces, a name, and four values.
const LINE_ROOM: usize = 256;

// The room for a value: a space, a sign, two numbers of twenty digits at most, and a slash.
const VALUE_ROOM: usize = 43;

// Writes some bytes after the first `at` bytes of a line, and returns where they end.
fn write_bytes(line: &mut [u8; LINE_ROOM], at: usize, bytes: &[u8]) -> usize
    requires { at + length bytes.now ≤ LINE_ROOM }
    ensures end { result ≡ at + length bytes.now }
    ensures text { take result line.new ≡ take at line.old ++ bytes.now }
{
    let end = at + bytes.len();
    line[at..end].copy_from_slice(bytes);
    end
}

// Writes a space and a value.
#[tactic(auto, unfolding(crate::specs::Frames::value_text))]
fn write_value(line: &mut [u8; LINE_ROOM], at: usize, value: Frac) -> usize
    requires { at + VALUE_ROOM ≤ LINE_ROOM }
    ensures within { result ≤ at + VALUE_ROOM }
    ensures text { take result line.new ≡ take at line.old ++ value_text value }
{
    let mut digits = Buffer::new();
    let at = write_bytes(line, at, b" ");
    let at = write_bytes(line, at, digits.format(value.num()).as_bytes());
    if value.den() == 1 {
        return at;
    }
    let at = write_bytes(line, at, b"/");
    write_bytes(line, at, digits.format(value.den()).as_bytes())
}

// Writes the line that shows a frame, and returns its length.
#[tactic(auto, unfolding(crate::specs::Frames::placed_line))]
fn write_frame(line: &mut [u8; LINE_ROOM], name: &[u8], frame: &Frame) -> usize
    requires { length name.now ≤ NAME_LIMIT }
    ensures within { result ≤ LINE_ROOM }
    ensures text { take result line.new
        ≡ frame_line name.now frame.now.left frame.now.top frame.now.width frame.now.height }
{
    let at = write_bytes(line, 0, b"frame ");
    let at = write_bytes(line, at, name);
    let at = write_value(line, at, frame.left);
    let at = write_value(line, at, frame.top);
    let at = write_value(line, at, frame.width);
    let at = write_value(line, at, frame.height);
    write_bytes(line, at, b"\n")
}

/// Appends the line that shows a frame.
pub(crate) fn append_frame(out: &mut Vec<u8>, name: &[u8], frame: &Frame) -> Result<(), OutOfMemory>
    requires { length name.now ≤ NAME_LIMIT }
    ensures { IfOk result (λ _. out.new.items ≡ out.old.items
        ++ frame_line name.now frame.now.left frame.now.top frame.now.width frame.now.height) }
{
    let mut line = [0; LINE_ROOM];
    let end = write_frame(&mut line, name, frame);
    out.extend_from_slice(&line[..end])?;
    Ok(())
}

// Writes the line that shows a frame to the sink.
fn print_frame<K: Sink>(sink: &mut K, name: &[u8], frame: &Frame) -> Result<(), Failed>
    requires { length name.now ≤ NAME_LIMIT }
    ensures { Puts K.held K.faults sink.old sink.new
        (frame_line name.now frame.now.left frame.now.top frame.now.width frame.now.height) result }
{
    let mut line = [0; LINE_ROOM];
    let end = write_frame(&mut line, name, frame);
    put_all(sink, &line[..end])
}

// A view's name and its frame.
#[derive(Clone, Copy)]
struct Shown<'a> {
    name: &'a [u8],
    frame: Frame,
}

// What the line of the view at a place shows, if a view is there.
fn shown_at<T: Tableau>(scene: &Scene<T>, place: usize) -> Option<Shown<'_>>
    ensures some { IfSome result (λ s.
        frame_line s.name.now s.frame.left s.frame.top s.frame.width s.frame.height
        ≡ line_at scene.now.scene place) }
    ensures none { IfNone result ([] ≡ line_at scene.now.scene place) }
    ensures short { IfSome result (λ s. length s.name.now ≤ NAME_LIMIT) }
{
    // for the proof: no view's name is longer than the limit
    let _ = scene.tree().len();
    let view = scene.tree().at(place)?;
    let frame = scene.frame_at(place)?;
    Some(Shown {
        name: view.name.as_bytes(),
        frame: named(&frame),
    })
}

// Writes the line that shows the frame of the view at a place to the sink, if a view is there.
fn print_at<K: Sink, T: Tableau>(sink: &mut K, scene: &Scene<T>, place: usize) -> Result<(), Failed>
    ensures { Puts K.held K.faults sink.old sink.new (line_at scene.now.scene place) result }
{
    match shown_at(scene, place) {
        Some(shown) => print_frame(sink, shown.name, &shown.frame),
        None => Ok(()),
    }
}

/// Writes the reply to `frames` to the sink: the lines of the frames of all views, and `ok`. It needs no
/// memory. `Failed` comes only from the sink, after a prefix of the reply was written.
pub fn print_frames<K: Sink, T: Tableau>(session: &Session<T>, sink: &mut K) -> Result<(), Failed>
    ensures { Puts K.held K.faults sink.old sink.new (frames_text session.now.scene) result }
{
    let scene = session.state();
    for place in 0..scene.tree().len() {
        print_at(sink, scene, place)?;
    }
    put_all(sink, b"ok\n")
}
