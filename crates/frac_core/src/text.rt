// Fractions as text, `p/q` or `p`.
ghost use Rattle.std.specs.Prelude.{◌≡◌, ◌+◌, ◌≤◌, ◌++◌, length, take};
ghost use Rattle.frac_core.specs.Text.{fraction_text};
ghost use Rattle.frac_core.specs.declared.text.TheConstants.{FRACTION_ROOM};

use crate::wide::Wide;
use itoa::Buffer;

// Writes the piece at this place; the answer is where it ends.
fn put(out: &mut [u8], at: usize, piece: &[u8]) -> usize
    requires { at + length piece.now ≤ length out.old }
    ensures end { result ≡ at + length piece.now }
    ensures written { take result out.new ≡ take at out.old ++ piece.now }
    ensures len { length out.new ≡ length out.old }
{
    let end = at + piece.len();
    out[at..end].copy_from_slice(piece);
    end
}

/// The room for a fraction's text: a sign, two numbers of forty digits, and a slash.
pub const FRACTION_ROOM: usize = 82;

/// Writes the fraction as `p/q`, or as `p` where q is 1, into the first bytes of `out`; the answer is the
/// text's length.
pub fn write_frac(f: Wide, out: &mut [u8; FRACTION_ROOM]) -> usize
    ensures length { result ≡ length (fraction_text f) }
    ensures text { take result out.new ≡ fraction_text f }
    ensures within { result ≤ FRACTION_ROOM }
{
    let mut digits = Buffer::new();
    let end = put(out, 0, digits.format(f.num()).as_bytes());
    if f.den() == 1 {
        return end;
    }
    let end = put(out, end, b"/");
    put(out, end, digits.format(f.den()).as_bytes())
}
