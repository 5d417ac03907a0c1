// The text of a core.
ghost use Rattle.std.specs.Prelude.{◌≡◌, ◌++◌, IfOk};
ghost use Rattle.std.specs.List.{flat_map};
ghost use Rattle.reply_texts.specs.Cores.{core_lines, without_text};

use crate::numbers::{push_id, push_ids};
use cert_core::Conflict;
use claim_writing::{bys_text, values_text};
use frac_core::OutOfMemory;
use problem_core::Values;

// Appends the part without a row.
fn push_without(out: &mut Vec<u8>, id: u32, values: &Values) -> Result<(), OutOfMemory>
    ensures { IfOk result (λ _. out.new.items ≡ out.old.items ++ without_text (id, values.now)) }
{
    push_id(out, b"without ", id)?;
    values_text(values, out)
}

// Appends the parts without each row.
fn push_withouts(out: &mut Vec<u8>, parts: &[(u32, Values)]) -> Result<(), OutOfMemory>
    ensures { IfOk result (λ _. out.new.items ≡ out.old.items ++ flat_map without_text parts.now) }
{
    for part in parts {
        push_without(out, part.0, &part.1)?;
    }
    Ok(())
}

/// Appends the lines of a core: its rows, their multipliers, and for each row values that satisfy the others.
pub(crate) fn push_core(
    out: &mut Vec<u8>,
    rows: &[u32],
    by: &Conflict,
    without: &[(u32, Values)],
) -> Result<(), OutOfMemory>
    ensures { IfOk result
        (λ _. out.new.items ≡ out.old.items ++ core_lines rows.now by.now without.now) }
{
    push_ids(out, b"core ", rows)?;
    bys_text(by.by(), out)?;
    push_withouts(out, without)
}
