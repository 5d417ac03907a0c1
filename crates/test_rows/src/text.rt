// Rows and refusals as text.
use compile_parts::{CompileStop, KindWord};
use frac_core::{Frac, OutOfMemory};
use name_tables::LimitWord;
use problem_core::{Row, Term};

fn put_fraction(out: &mut String, f: Frac) -> Result<(), OutOfMemory> {
    let num = f.num();
    let den = f.den();
    if den == 1 {
        write!(out, "{num}")?;
    } else {
        write!(out, "{num}/{den}")?;
    }
    Ok(())
}

fn put_terms(out: &mut String, terms: &[Term]) -> Result<(), OutOfMemory> {
    for term in terms {
        let attr = term.attr;
        let by = term.by;
        write!(out, " {attr}:{by}")?;
    }
    Ok(())
}

// Appends what stands before the constant in the line of a row.
fn put_head(out: &mut String, row: &Row) -> Result<(), OutOfMemory> {
    let (id, rank, weight) = (row.id(), row.rank(), row.weight());
    let (rel, scale) = (row.rel().word(), row.scale());
    Ok(write!(out, "row {id} {rank} {weight} {rel} {scale} ")?)
}

/// Appends the line of a row.
pub fn put_row(out: &mut String, row: &Row) -> Result<(), OutOfMemory> {
    put_head(out, row)?;
    put_fraction(out, row.constant())?;
    put_terms(out, row.terms())?;
    Ok(writeln!(out)?)
}

fn kind(word: KindWord) -> &'static str {
    match word {
        KindWord::Align => "align",
        KindWord::Parent => "parent",
        KindWord::Object => "object",
        KindWord::Priority => "priority",
        KindWord::Weight => "weight",
        KindWord::Window
        | KindWord::Suggested
        | KindWord::Sized
        | KindWord::Tree
        | KindWord::Sweep => { "of another line" }
    }
}

fn limit(word: LimitWord) -> &'static str {
    match word {
        LimitWord::Rows => "rows",
        LimitWord::Terms => "terms",
        LimitWord::Attributes => "attributes",
        LimitWord::Coefficient => "coefficient",
        LimitWord::Constant => "constant",
        _ => "of another line",
    }
}

// The text of a name.
fn name_text(name: &[u8]) -> &str {
    std::str::from_utf8(name).unwrap_or("bytes that are no text")
}

// Appends the line of a cause.
fn put_cause(out: &mut String, cause: &str, word: &str) -> Result<(), OutOfMemory> {
    Ok(writeln!(out, "{cause} {word}")?)
}

/// Appends the line of a refusal.
pub fn put_stop(out: &mut String, stop: &CompileStop) -> Result<(), OutOfMemory> {
    match stop {
        CompileStop::Unknown(name) => put_cause(out, "unknown", name_text(name.bytes())),
        CompileStop::Kind(word) => put_cause(out, "kind", kind(*word)),
        CompileStop::Limit(word) => put_cause(out, "limit", limit(*word)),
        CompileStop::OutOfMemory => Err(OutOfMemory),
    }
}
