// A format and its text.
ghost use Rattle.std.specs.Prelude.{◌≡◌, ◌++◌, IfOk, IfErr, OnOk, OnErr, MatchResult};
ghost use Rattle.frac_core.specs.declared.memory.Stop.TheVariants as stop;
ghost use Rattle.vfl_text.specs.Formats.{FormatMeaning};
ghost use Rattle.vfl_text.specs.Grammar.{FormatText};
ghost use Rattle.vfl_text.specs.Stops.{IsStopOf};
ghost use Rattle.vfl_text.specs.Text.{format_text};
ghost use Rattle.vfl_text.specs.View.{meaning};
ghost use Rattle.vfl_text.specs.Writable.{IsWritable};

use crate::chain::read_bytes;
use crate::parts::Format;
use crate::writer::write_format;
use frac_core::{OutOfMemory, Stop};
use span_text::{PartStop, SyntaxAt};
use std::alloc::Global;

/// The one format that the text means. The names in it are slices of the text. A text that isn't a format is
/// refused with the count of its bytes that begin some format.
pub fn read<'a>(alloc: Global, text: &'a str) -> Result<Format<'a>, Stop<SyntaxAt>>
    ensures sound { IfOk result (λ f. FormatText text.now (meaning f)) }
    ensures complete { (m : FormatMeaning) → FormatText text.now m
        → MatchResult result (λ f. meaning f ≡ m) (λ e. e ≡ stop.OutOfMemory) }
    ensures writable { IfOk result (λ f. IsWritable (meaning f)) }
    ensures stops { IfErr result (IsStopOf FormatText text.now) }
{
    match read_bytes(alloc, text.as_bytes()) {
        Ok(format) => Ok(format),
        Err(PartStop::Left(left)) => Err(Stop::Refused(SyntaxAt(text.len() - left))),
        Err(PartStop::OutOfMemory) => Err(Stop::OutOfMemory),
    }
}

/// Appends the format's canonical text: with the direction, without a space, with a relation in front of each
/// predicate in parentheses, and without parentheses where a connection has one plain number or name. Where
/// memory is wanting nothing was appended. Of a format that was read, reading that text gives the same format
/// again.
pub fn write(alloc: Global, format: &Format<'_>, out: &mut Vec<u8>) -> Result<(), OutOfMemory>
    ensures written { OnOk result (out.new.items ≡ out.old.items ++ format_text (meaning format.now)) }
    ensures unchanged { OnErr result (out.new.items ≡ out.old.items) }
    ensures reads_back { OnOk result (IsWritable (meaning format.now)
        → FormatText (format_text (meaning format.now)) (meaning format.now)) }
{
    let mut text = Vec::new(alloc);
    write_format(format, &mut text)?;
    out.extend_from_slice(&text)?;
    Ok(())
}
