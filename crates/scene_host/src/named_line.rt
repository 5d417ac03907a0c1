// The lines of a host.
ghost use Rattle.std.specs.Prelude.{◌≡◌, ◌<◌, true, false, length, ℕ, List, IfOk, IfErr};
ghost use Rattle.span_text.specs.Gives.{Gives};
ghost use Rattle.span_text.specs.Language.{LeavesAt};
ghost use Rattle.scene_host.specs.Lines.{IsQuiet, NamedLine, named_line_at, quiet_at};

use span_text::{names, pieces};

// The end of a blank line, or a comment.
#[tactic(auto, unfolding(crate::specs::Lines::quiet_at))]
fn quiet(line: &[u8]) -> Result<(), usize>
    ensures { Gives (λ u. u) result (quiet_at line.now) }
{
    let text = pieces::skip(line);
    if pieces::begins(text, b'#') {
        pieces::literal(b"#", text)?;
        return Ok(());
    }
    pieces::end(text)?;
    Ok(())
}

/// Whether a line of a host is blank or a comment.
pub(crate) fn is_quiet(line: &[u8]) -> bool
    ensures yes { result ≡ true → IsQuiet line.now }
    ensures no { result ≡ false → IsQuiet line.now → ⊥ }
{
    match quiet(line) {
        Ok(()) => true,
        Err(_) => false,
    }
}

// A name, a colon, and all that follows it.
#[tactic(auto, unfolding(crate::specs::Lines::named_line_at))]
fn named_line(text: &[u8]) -> Result<(&str, &[u8]), usize>
    ensures shorter { IfOk result (λ p. length p.1.now < length text.now) }
    ensures gives { Gives (λ p. (p.0.now, p.1.now)) result (named_line_at text.now) }
{
    let (name, text) = names::name(pieces::skip(text))?;
    let text = pieces::literal(b":", text)?;
    Ok((name, text))
}

/// The name of a scene and the line that is for it; or how long the longest front of the line is that begins
/// such a line.
pub(crate) fn read_named(line: &[u8]) -> Result<(&str, &[u8]), usize>
    ensures shorter { IfOk result (λ p. length p.1.now < length line.now) }
    ensures sound { IfOk result (λ p. NamedLine line.now (p.0.now, p.1.now)) }
    ensures one { (name rest : List ℕ) → NamedLine line.now (name, rest)
        → IfOk result (λ p. (p.0.now ≡ name) × (p.1.now ≡ rest)) }
    ensures offset { IfErr result (LeavesAt NamedLine line.now) }
{
    match named_line(line) {
        Ok(read) => Ok(read),
        Err(left) => Err(line.len() - left),
    }
}
