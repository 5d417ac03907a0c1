// Lines that end with one word, and those of rows by number.
ghost use Rattle.std.specs.Prelude.{◌≡◌, ◌++◌, ◌∷◌, [], IfOk};
ghost use Rattle.std.specs.List.{flat_map};
ghost use Rattle.span_text.specs.Bytes.{newline};
ghost use Rattle.reply_texts.specs.Cores.{id_line};

use frac_core::OutOfMemory;

/// Appends some bytes, a word and the end of the line.
pub fn push_line(out: &mut Vec<u8>, front: &[u8], word: &[u8]) -> Result<(), OutOfMemory>
    ensures { IfOk result (λ _. out.new.items ≡ out.old.items ++ (front.now ++ (word.now ++ newline ∷ []))) }
{
    out.extend_from_slice(front)?;
    out.extend_from_slice(word)?;
    out.push(b'\n')?;
    Ok(())
}

/// Appends the line of a row after a word.
pub(crate) fn push_id(out: &mut Vec<u8>, front: &[u8], id: u32) -> Result<(), OutOfMemory>
    ensures { IfOk result (λ _. out.new.items ≡ out.old.items ++ id_line front.now id) }
{
    let mut word = String::new(*out.allocator());
    write!(word, "{id}")?;
    push_line(out, front, word.as_bytes())
}

/// Appends the lines of these rows, each after the word.
pub(crate) fn push_ids(out: &mut Vec<u8>, front: &[u8], ids: &[u32]) -> Result<(), OutOfMemory>
    ensures { IfOk result (λ _. out.new.items ≡ out.old.items ++ flat_map (id_line front.now) ids.now) }
{
    for id in ids {
        push_id(out, front, *id)?;
    }
    Ok(())
}
