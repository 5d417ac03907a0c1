// The text of the findings of a scene, and of the probe that stopped.
ghost use Rattle.std.specs.Prelude.{◌≡◌, ◌<◌, ◌++◌, ◌∷◌, [], Some, None, slice_get, IfOk, IfSome, IfNone};
ghost use Rattle.std.specs.List.{flat_map};
ghost use Rattle.span_text.specs.Bytes.{newline, point, space};
ghost use Rattle.frac_core.specs.Text.{fraction_text};
ghost use Rattle.view_tree.specs.Views.{LiveView};
ghost use Rattle.view_tree.specs.declared.limits.TheConstants.{ID_LIMIT};
ghost use Rattle.diagnosis.specs.Diagnoses.{findings_of};
ghost use Rattle.reply_texts.specs.Found.{attr_name, error_line, findings_text, found_line};
ghost use Rattle.reply_texts.specs.Found.{moving_line, probe_line, unmet_line, way_text, word_at};

use crate::frames::push_value;
use diagnosis::Diagnosis;
use frac_core::{Frac, OutOfMemory, Wide};
use view_tree::{Tree, ViewId};

// The word of an attribute, if it is one of the view's.
fn word_of(view: ViewId, attr: u32) -> Option<&'static str>
    requires { view.0 < ID_LIMIT }
    ensures some { IfSome result (λ word. word_at view.0 attr ≡ Some word.now) }
    ensures none { IfNone result (word_at view.0 attr ≡ None) }
{
    let of = view.attributes();
    if attr == of.left {
        Some("left")
    } else if attr == of.top {
        Some("top")
    } else if attr == of.width {
        Some("width")
    } else if attr == of.height {
        Some("height")
    } else {
        None
    }
}

// Appends a name, a dot and a word.
fn push_name(out: &mut Vec<u8>, name: &str, word: &str) -> Result<(), OutOfMemory>
    ensures { IfOk result (λ _. out.new.items ≡ out.old.items ++ (name.now ++ point ∷ word.now)) }
{
    out.extend_from_slice(name.as_bytes())?;
    out.push(b'.')?;
    out.extend_from_slice(word.as_bytes())?;
    Ok(())
}

// A view's name and the word of one of its attributes.
#[derive(Clone, Copy)]
struct AttrName<'a> {
    view: &'a str,
    word: &'static str,
}

// The name of an attribute, if it is one of the view at this place.
fn name_at(tree: &Tree, place: usize, attr: u32) -> Option<AttrName<'_>>
    ensures some { IfSome result (λ name. (v : LiveView) × (slice_get tree.now.views place ≡ Some v)
        × (word_at v.id attr ≡ Some name.word.now) × (name.view.now ≡ v.name)) }
    ensures none { IfNone result ((v : LiveView) → slice_get tree.now.views place ≡ Some v
        → word_at v.id attr ≡ None) }
{
    // for the proof: each view's number is below the limit
    let _ = tree.len();
    let view = tree.at(place)?;
    let word = word_of(view.id, attr)?;
    Some(AttrName {
        view: view.name,
        word,
    })
}

/// Appends the name of an attribute.
pub fn push_attr(out: &mut Vec<u8>, tree: &Tree, attr: u32) -> Result<(), OutOfMemory>
    ensures { IfOk result (λ _. out.new.items ≡ out.old.items ++ attr_name tree.now.views attr) }
{
    for place in 0..tree.len() {
        if let Some(name) = name_at(tree, place, attr) {
            return push_name(out, name.view, name.word);
        }
    }
    Ok(())
}

// Appends a space, a value and the end of the line.
#[tactic(auto, unfolding(crate::specs::Frames::value_text))]
fn push_end(out: &mut Vec<u8>, value: Wide) -> Result<(), OutOfMemory>
    ensures { IfOk result (λ _. out.new.items
        ≡ out.old.items ++ (space ∷ (fraction_text value ++ newline ∷ []))) }
{
    push_value(out, value)?;
    out.push(b'\n')?;
    Ok(())
}

// Appends the line of a priority.
#[tactic(auto, unfolding(crate::specs::Found::found_line))]
fn push_error(out: &mut Vec<u8>, rank: u16, sum: Frac) -> Result<(), OutOfMemory>
    ensures { IfOk result (λ _. out.new.items ≡ out.old.items ++ error_line (rank, sum)) }
{
    let mut number = String::new(*out.allocator());
    write!(number, "{rank}")?;
    out.extend_from_slice(b"error ")?;
    out.extend_from_slice(number.as_bytes())?;
    push_end(out, Wide::from(sum))
}

// Appends the line of a row.
#[tactic(auto, unfolding(crate::specs::Found::found_line))]
fn push_unmet(out: &mut Vec<u8>, id: u32, error: Wide) -> Result<(), OutOfMemory>
    ensures { IfOk result (λ _. out.new.items ≡ out.old.items ++ unmet_line (id, error)) }
{
    let mut number = String::new(*out.allocator());
    write!(number, "{id}")?;
    out.extend_from_slice(b"unmet ")?;
    out.extend_from_slice(number.as_bytes())?;
    push_end(out, error)
}

// Appends the line of an attribute.
#[tactic(auto, unfolding(crate::specs::Found::found_line))]
fn push_moving(out: &mut Vec<u8>, tree: &Tree, attr: u32, value: Frac) -> Result<(), OutOfMemory>
    ensures { IfOk result (λ _. out.new.items ≡ out.old.items ++ moving_line tree.now.views (attr, value)) }
{
    out.extend_from_slice(b"ambiguous ")?;
    push_attr(out, tree, attr)?;
    push_end(out, Wide::from(value))
}

// Appends the lines of the priorities.
fn push_errors(out: &mut Vec<u8>, errors: &[(u16, Frac)]) -> Result<(), OutOfMemory>
    ensures { IfOk result (λ _. out.new.items ≡ out.old.items ++ flat_map error_line errors.now) }
{
    for error in errors {
        push_error(out, error.0, error.1)?;
    }
    Ok(())
}

// Appends the lines of the rows.
fn push_unmets(out: &mut Vec<u8>, unmet: &[(u32, Wide)]) -> Result<(), OutOfMemory>
    ensures { IfOk result (λ _. out.new.items ≡ out.old.items ++ flat_map unmet_line unmet.now) }
{
    for row in unmet {
        push_unmet(out, row.0, row.1)?;
    }
    Ok(())
}

// Appends the lines of the attributes.
fn push_movings(out: &mut Vec<u8>, tree: &Tree, moving: &[(u32, Frac)]) -> Result<(), OutOfMemory>
    ensures { IfOk result (λ _. out.new.items
        ≡ out.old.items ++ flat_map (moving_line tree.now.views) moving.now) }
{
    for attr in moving {
        push_moving(out, tree, attr.0, attr.1)?;
    }
    Ok(())
}

/// Appends the lines of the findings of a scene.
pub(crate) fn push_found(
    out: &mut Vec<u8>,
    tree: &Tree,
    found: &Diagnosis,
) -> Result<(), OutOfMemory>
    ensures { IfOk result (λ _. out.new.items
        ≡ out.old.items ++ findings_text tree.now.views (findings_of found.now)) }
{
    push_errors(out, &found.errors)?;
    push_unmets(out, &found.unmet)?;
    push_movings(out, tree, &found.moving)
}

// The word for a probe's direction.
fn way_of(up: bool) -> &'static str
    ensures { result.now ≡ way_text up }
{
    if up { " up" } else { " down" }
}

/// Appends the line that names a probe.
pub(crate) fn push_probe(
    out: &mut Vec<u8>,
    tree: &Tree,
    attr: u32,
    up: bool,
) -> Result<(), OutOfMemory>
    ensures { IfOk result (λ _. out.new.items ≡ out.old.items ++ probe_line tree.now.views attr up) }
{
    out.extend_from_slice(b"probe ")?;
    push_attr(out, tree, attr)?;
    out.extend_from_slice(way_of(up).as_bytes())?;
    out.push(b'\n')?;
    Ok(())
}
