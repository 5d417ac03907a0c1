// What a host itself says.
ghost use Rattle.std.specs.Prelude.{◌≡◌, ◌++◌, IfOk, OnOk, OnErr, codes, string_bytes};
ghost use Rattle.scene_host.specs.Hosts.{limit_line, mark_of, syntax_line};

use frac_core::OutOfMemory;
use std::alloc::Global;

/// What stands in front of each line that the scene of a name says.
#[tactic(auto, unfolding(crate::specs::Hosts::mark_of))]
pub(crate) fn mark_of(alloc: Global, name: &str) -> Result<Vec<u8>, OutOfMemory>
    ensures { IfOk result (λ mark. mark.items ≡ mark_of name.now) }
{
    let mut mark = Vec::new(alloc);
    mark.extend_from_slice(name.as_bytes())?;
    mark.extend_from_slice(b": ")?;
    Ok(mark)
}

// The line that says which limit would be passed.
#[tactic(auto, unfolding(crate::specs::Hosts::limit_line))]
fn limit_line(alloc: Global, word: &[u8]) -> Result<Vec<u8>, OutOfMemory>
    ensures { IfOk result (λ line. line.items ≡ limit_line word.now) }
{
    let mut line = Vec::new(alloc);
    line.extend_from_slice(b"refused 4 limit ")?;
    line.extend_from_slice(word)?;
    line.push(b'\n')?;
    Ok(line)
}

// Appends the line that says where a line leaves the grammar.
#[tactic(auto, unfolding(crate::specs::Hosts::syntax_line))]
fn put_syntax(text: &mut String, at: usize) -> Result<(), OutOfMemory>
    ensures { IfOk result (λ _. string_bytes text.new ≡ string_bytes text.old ++ syntax_line at) }
{
    writeln!(text, "refused 1 syntax {at}")?;
    Ok(())
}

// The line that says where a line leaves the grammar.
fn syntax_line(alloc: Global, at: usize) -> Result<Vec<u8>, OutOfMemory>
    ensures { IfOk result (λ line. line.items ≡ syntax_line at) }
{
    let mut text = String::new(alloc);
    put_syntax(&mut text, at)?;
    Ok(text.into_bytes())
}

/// Appends the refusal of a line that passes the limit of this word, whole or not at all.
pub(crate) fn refuse_limit(out: &mut Vec<u8>, word: &[u8]) -> Result<(), OutOfMemory>
    ensures told { OnOk result (out.new.items ≡ out.old.items ++ limit_line word.now) }
    ensures unchanged { OnErr result (out.new.items ≡ out.old.items) }
{
    let line = limit_line(*out.allocator(), word)?;
    out.extend_from_slice(&line)?;
    Ok(())
}

/// Appends the refusal of a line that leaves the grammar there, whole or not at all.
pub(crate) fn refuse_syntax(out: &mut Vec<u8>, at: usize) -> Result<(), OutOfMemory>
    ensures told { OnOk result (out.new.items ≡ out.old.items ++ syntax_line at) }
    ensures unchanged { OnErr result (out.new.items ≡ out.old.items) }
{
    let line = syntax_line(*out.allocator(), at)?;
    out.extend_from_slice(&line)?;
    Ok(())
}

/// Appends the refusal of a line that is too long, whole or not at all.
pub fn refuse_long(out: &mut Vec<u8>) -> Result<(), OutOfMemory>
    ensures told { OnOk result (out.new.items ≡ out.old.items ++ limit_line (codes "line")) }
    ensures unchanged { OnErr result (out.new.items ≡ out.old.items) }
{
    refuse_limit(out, b"line")
}
