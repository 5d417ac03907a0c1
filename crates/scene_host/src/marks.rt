// Texts with a mark in front of each line.
ghost use Rattle.std.specs.Prelude.{◌≡◌, ◌≤◌, ◌+◌, ◌++◌, ℕ, List, IsOk, OnOk, OnErr, length, vec_len};
ghost use Rattle.std.specs.Prelude.{vec_capacity};
ghost use Rattle.scene_host.specs.Marks.{marked, marked_byte};

use frac_core::OutOfMemory;

// Appends a byte, with the mark in front of it where a line begins, or the mark alone.
fn put_byte(out: &mut Vec<u8>, before: &[u8], begins: bool, byte: u8) -> Result<(), OutOfMemory>
    ensures put { OnOk result (out.new.items ≡ out.old.items ++ marked_byte before.now begins byte) }
    ensures front { OnErr result ((part : List ℕ) × (out.new.items ≡ out.old.items ++ part)) }
    ensures capacity { vec_capacity out.old ≤ vec_capacity out.new }
    ensures room { vec_len out.old + length (marked_byte before.now begins byte) ≤ vec_capacity out.old
        → IsOk result }
{
    if begins {
        out.extend_from_slice(before)?;
    }
    out.push(byte)?;
    Ok(())
}

// Appends a text, with a mark in front of each line, or a front of that.
fn put_marked(out: &mut Vec<u8>, before: &[u8], text: &[u8]) -> Result<(), OutOfMemory>
    ensures marked { OnOk result (out.new.items ≡ out.old.items ++ marked before.now text.now) }
    ensures front { OnErr result ((part : List ℕ) × (out.new.items ≡ out.old.items ++ part)) }
    ensures room { vec_len out.old + length (marked before.now text.now) ≤ vec_capacity out.old
        → IsOk result }
{
    let mut begins = true;
    for byte in text {
        put_byte(out, before, begins, *byte)?;
        begins = *byte == b'\n';
    }
    Ok(())
}

/// Appends a text with a mark in front of each of its lines, whole or not at all. Where there is room for it,
/// no memory is wanting.
pub fn push_marked(out: &mut Vec<u8>, before: &[u8], text: &[u8]) -> Result<(), OutOfMemory>
    ensures marked { OnOk result (out.new.items ≡ out.old.items ++ marked before.now text.now) }
    ensures unchanged { OnErr result (out.new.items ≡ out.old.items) }
    ensures room { vec_len out.old + length (marked before.now text.now) ≤ vec_capacity out.old
        → IsOk result }
{
    let len = out.len();
    let put = put_marked(out, before, text);
    if put.is_err() {
        out.truncate(len);
    }
    put
}
