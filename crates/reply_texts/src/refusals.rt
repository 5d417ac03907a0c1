// The text of refusals.
ghost use Rattle.std.specs.Prelude.{◌≡◌, ◌++◌, ◌∷◌, [], IfOk, codes, decimal};
ghost use Rattle.span_text.specs.Bytes.{newline};
ghost use Rattle.session_undo.specs.Replies.{IsTold, place_of};
ghost use Rattle.reply_texts.specs.Replies.{limit_text, kind_text, refusal_text, conflict_text};
ghost use Rattle.reply_texts.specs.Replies.{overflow_text, place_text, spent_text};
ghost use Rattle.reply_texts.specs.Replies.{target_text};

use crate::found::push_probe;
use crate::numbers::{push_ids, push_line};
use crate::swept::{push_far, push_width};
use cert_core::{Conflict, Path, UnfitPath};
use claim_writing::{conflict_text, path_text, unfit_text};
use compile_parts::KindWord;
use frac_core::OutOfMemory;
use name_tables::LimitWord;
use session_undo::{Refusal, StopPlace};
use view_tree::Tree;

fn limit_text(word: LimitWord) -> &'static str
    ensures { result.now ≡ limit_text word }
{
    match word {
        LimitWord::Line => "line",
        LimitWord::Name => "name",
        LimitWord::Views => "views",
        LimitWord::Depth => "depth",
        LimitWord::Metrics => "metrics",
        LimitWord::Lines => "lines",
        LimitWord::Rows => "rows",
        LimitWord::Terms => "terms",
        LimitWord::Attributes => "attributes",
        LimitWord::Coefficient => "coefficient",
        LimitWord::Constant => "constant",
        LimitWord::Budget => "budget",
    }
}

fn kind_text(word: KindWord) -> &'static str
    ensures { result.now ≡ kind_text word }
{
    match word {
        KindWord::Align => "align",
        KindWord::Parent => "parent",
        KindWord::Object => "object",
        KindWord::Priority => "priority",
        KindWord::Weight => "weight",
        KindWord::Window => "window",
        KindWord::Suggested => "suggested",
        KindWord::Sized => "sized",
        KindWord::Tree => "tree",
        KindWord::Sweep => "sweep",
    }
}

fn push_outside(out: &mut Vec<u8>, at: usize) -> Result<(), OutOfMemory>
    ensures { IfOk result (λ _. out.new.items ≡ out.old.items
        ++ (codes "refused 1 syntax " ++ (decimal at ++ newline ∷ []))) }
{
    let mut word = String::new(*out.allocator());
    write!(word, "{at}")?;
    push_line(out, b"refused 1 syntax ", word.as_bytes())
}

fn push_conflict(out: &mut Vec<u8>, conflict: &Conflict) -> Result<(), OutOfMemory>
    ensures { IfOk result (λ _. out.new.items ≡ out.old.items ++ conflict_text conflict.now) }
{
    out.extend_from_slice(b"refused 6 ")?;
    conflict_text(conflict, out)
}

// Appends the lines before the path of a stop.
fn push_place(out: &mut Vec<u8>, tree: &Tree, place: &StopPlace) -> Result<(), OutOfMemory>
    ensures { IfOk result
        (λ _. out.new.items ≡ out.old.items ++ place_text tree.now.views (place_of place.now)) }
{
    match place {
        StopPlace::Step => Ok(()),
        StopPlace::Still(ids) => push_ids(out, b"still ", ids),
        StopPlace::Probe { attr, up } => push_probe(out, tree, *attr, *up),
        StopPlace::Held(ids) => push_ids(out, b"held ", ids),
        StopPlace::Sweep(width) => push_width(out, *width),
    }
}

fn push_overflow(
    out: &mut Vec<u8>,
    tree: &Tree,
    place: &StopPlace,
    at: &UnfitPath,
) -> Result<(), OutOfMemory>
    ensures { IfOk result (λ _. out.new.items ≡ out.old.items
        ++ overflow_text tree.now.views (place_of place.now) at.now.path at.now.quantity) }
{
    out.extend_from_slice(b"refused 7 overflow\n")?;
    push_place(out, tree, place)?;
    unfit_text(at, out)
}

fn push_spent(
    out: &mut Vec<u8>,
    tree: &Tree,
    place: &StopPlace,
    path: &Path,
) -> Result<(), OutOfMemory>
    ensures { IfOk result
        (λ _. out.new.items ≡ out.old.items ++ spent_text tree.now.views (place_of place.now) path.now) }
{
    out.extend_from_slice(b"refused 8 spent\n")?;
    push_place(out, tree, place)?;
    path_text(path, out)
}

fn push_target(out: &mut Vec<u8>, tree: &Tree, attr: u32, up: bool) -> Result<(), OutOfMemory>
    ensures { IfOk result (λ _. out.new.items ≡ out.old.items ++ target_text tree.now.views attr up) }
{
    out.extend_from_slice(b"refused 7 overflow\n")?;
    push_probe(out, tree, attr, up)?;
    out.extend_from_slice(b"unfit target\n")?;
    Ok(())
}

/// Appends the text of a refusal. These are the views. If memory ran out, there is none.
pub fn push_refusal(tree: &Tree, refusal: &Refusal, out: &mut Vec<u8>) -> Result<(), OutOfMemory>
    ensures { IfOk result (λ _. IsTold (λ reply. out.new.items
        ≡ out.old.items ++ refusal_text tree.now.views reply) refusal.now) }
{
    match refusal {
        Refusal::Syntax(at) => push_outside(out, *at),
        Refusal::Unknown(name) => push_line(out, b"refused 2 unknown ", name.bytes()),
        Refusal::Taken(name) => push_line(out, b"refused 3 taken ", name.bytes()),
        Refusal::Limit(word) => push_line(out, b"refused 4 limit ", limit_text(*word).as_bytes()),
        Refusal::Kind(word) => push_line(out, b"refused 5 kind ", kind_text(*word).as_bytes()),
        Refusal::Conflict(conflict) => push_conflict(out, conflict),
        Refusal::NoEarlier => push_line(out, b"refused 9 ", b"undo"),
        Refusal::Overflow { place, at } => push_overflow(out, tree, place, at),
        Refusal::Spent { place, path } => push_spent(out, tree, place, path),
        Refusal::NoTarget { attr, up } => push_target(out, tree, *attr, *up),
        Refusal::SweepOverflow { width, path, what } => push_far(out, *width, path, what),
        Refusal::OutOfMemory => Err(OutOfMemory),
    }
}
