// Text lines with escapes.
ghost use Rattle.std.specs.Prelude.{◌≡◌, ◌<◌, ◌++◌, ◌∷◌, ℕ, List, IfOk, string_bytes};
ghost use Rattle.std.specs.Str.{IsUtf8};
ghost use Rattle.test_text.specs.Escapes.{IsHalf, as_lines, bytes_behind, digit_value, line_bytes};
ghost use Rattle.test_text.specs.Escapes.{named_byte, no_text};

use frac_core::OutOfMemory;

// What came before the next byte of a line.
#[derive(Clone, Copy)]
enum Before {
    Nothing,
    Backslash,
    // A backslash and `x`.
    Hex,
    // These and a digit.
    Digit(u8),
}

// The value of a hexadecimal digit, whose letters are small ones.
fn digit(byte: u8) -> u8
    ensures value { result ≡ digit_value byte }
    ensures few { result < 16 }
{
    match byte {
        b'a'..=b'f' => byte - b'a' + 10,
        _ => byte % 16,
    }
}

// What a byte behind a backslash stands for: itself, but for three letters.
fn named(byte: u8) -> u8
    ensures { result ≡ named_byte byte }
{
    match byte {
        b'n' => b'\n',
        b'r' => b'\r',
        b't' => b'\t',
        _ => byte,
    }
}

// Appends what the byte ends, if it ends anything.
fn put_byte(out: &mut Vec<u8>, before: Before, byte: u8) -> Result<Before, OutOfMemory>
    requires { IsHalf before }
    ensures half { IfOk result IsHalf }
    ensures bytes { IfOk result (λ next. (more : List ℕ) → out.new.items ++ bytes_behind next more
        ≡ out.old.items ++ bytes_behind before (byte ∷ more)) }
{
    match before {
        Before::Nothing if byte == b'\\' => return Ok(Before::Backslash),
        Before::Nothing => out.push(byte)?,
        Before::Backslash if byte == b'x' => return Ok(Before::Hex),
        Before::Backslash => out.push(named(byte))?,
        Before::Hex => return Ok(Before::Digit(digit(byte))),
        Before::Digit(high) => out.push(high * 16 + digit(byte))?,
    }
    Ok(Before::Nothing)
}

/// Appends the bytes that a text line stands for, its end among them unless a backslash takes it away.
pub fn put_escaped(out: &mut Vec<u8>, line: &str) -> Result<(), OutOfMemory>
    ensures { IfOk result (λ _. out.new.items ≡ out.old.items ++ line_bytes line.now) }
{
    let bytes = line.as_bytes();
    let mut before = Before::Nothing;
    for byte in bytes {
        before = put_byte(out, before, *byte)?;
    }
    match before {
        Before::Nothing => Ok(out.push(b'\n')?),
        _ => Ok(()),
    }
}

/// Appends bytes as lines of text. A last line without an end gets a backslash and an end. Instead of bytes
/// that are no text a line says so.
pub fn put_text(out: &mut String, bytes: &[u8]) -> Result<(), OutOfMemory>
    ensures text { IfOk result
        (λ _. IsUtf8 bytes.now → string_bytes out.new ≡ string_bytes out.old ++ as_lines bytes.now) }
    ensures other { IfOk result
        (λ _. (IsUtf8 bytes.now → ⊥) → string_bytes out.new ≡ string_bytes out.old ++ no_text) }
{
    let text = std::str::from_utf8(bytes).unwrap_or("bytes that are no text\n");
    write!(out, "{text}")?;
    match text.as_bytes().last() {
        None | Some(b'\n') => (),
        Some(_) => writeln!(out, "\\")?,
    }
    Ok(())
}
