// The checks of a format's alignment and of its views' parents.
ghost use Rattle.std.specs.Prelude.{◌≡◌};
ghost use Rattle.std.specs.Option.{option_map};
ghost use Rattle.format_compile.specs.FormatRefusals as refusals;

use script_text::Align;
use vfl_text::Axis;
use view_tree::{Tree, ViewId};

fn runs_along(axis: Axis, align: Align) -> bool
    ensures { result ≡ refusals.runs_along axis align }
{
    match axis {
        Axis::H => matches!(align, Align::Left | Align::Right | Align::CenterX),
        Axis::V => matches!(align, Align::Top | Align::Bottom | Align::CenterY),
    }
}

/// Whether the alignment runs along the direction of the format.
pub(crate) fn is_along(axis: Axis, align: Option<Align>) -> bool
    ensures { result ≡ refusals.is_along axis align }
{
    match align {
        Some(align) => runs_along(axis, align),
        None => false,
    }
}

/// The parent of the view of this name.
pub(crate) fn parent_of(tree: &Tree, name: &str) -> Option<ViewId>
    ensures id { option_map (λ id. id.0) result ≡ refusals.parent_of tree.now.views name.now }
{
    let id = tree.find(name)?;
    tree.parent(id)
}
