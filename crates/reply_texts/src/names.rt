// The lines that name the attributes of a scene.
ghost use Rattle.std.specs.Prelude.{◌≡◌, ◌<◌, ◌++◌, IfOk, None, string_bytes};
ghost use Rattle.std.specs.List.{flat_map};
ghost use Rattle.view_tree.specs.declared.limits.TheConstants.{ID_LIMIT};
ghost use Rattle.reply_texts.specs.Replies.{name_line, name_lines};

use frac_core::OutOfMemory;
use view_tree::{Tree, ViewId};

#[tactic(auto, unfolding(crate::specs::Replies::name_line))]
fn put_name(text: &mut String, attr: u32, name: &str, word: &str) -> Result<(), OutOfMemory>
    ensures { IfOk result (λ _. string_bytes text.new
        ≡ string_bytes text.old ++ name_line attr name.now word.now) }
{
    writeln!(text, "# {attr} {name}.{word}")?;
    Ok(())
}

// The names of a view's attributes.
fn put_names_of(text: &mut String, view: ViewId, name: &str) -> Result<(), OutOfMemory>
    requires { view.0 < ID_LIMIT }
    ensures { IfOk result (λ _. string_bytes text.new
        ≡ string_bytes text.old ++ name_lines (record { id = view.0; name = name.now; parent = None })) }
{
    let of = view.attributes();
    put_name(text, of.left, name, "left")?;
    put_name(text, of.top, name, "top")?;
    put_name(text, of.width, name, "width")?;
    put_name(text, of.height, name, "height")
}

/// Appends the names of the attributes of all views.
pub fn put_names(text: &mut String, tree: &Tree) -> Result<(), OutOfMemory>
    ensures { IfOk result (λ _. string_bytes text.new
        ≡ string_bytes text.old ++ flat_map name_lines tree.now.views) }
{
    for place in 0..tree.len() {
        match tree.at(place) {
            Some(view) => put_names_of(text, view.id, view.name)?,
            None => (),
        }
    }
    Ok(())
}
