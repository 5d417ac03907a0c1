// Parts of the changes of a session.
ghost use Rattle.std.specs.Prelude.{◌≡◌, ◌⊎◌, true, false, IfOk, IfNone, IfSome, IsSome, OnErr, OnSome};
ghost use Rattle.held_items.specs.Moving.{FitsAfter};
ghost use Rattle.session_undo.specs.Machine.{AreTooMany, parent_name};
ghost use Rattle.script_text.specs.View.{name_view};
ghost use Rattle.scenes.specs.Scene.{metrics_with};

use frac_core::{Frac, OutOfMemory};
use held_items::{IntrinsicSize, WindowSize, fits_after};
use name_tables::{Metrics, NameStop};
use span_text::Object;

/// The priorities of a size, as they are written.
#[derive(Clone, Copy)]
pub struct Pulls<'a> {
    pub hug: Option<Object<'a>>,
    pub resist: Option<Object<'a>>,
}

impl Pulls<'_> {
    /// Whether one is written.
    pub fn is_written(self) -> bool
        ensures yes { result ≡ true → IsSome self.entry.hug ⊎ IsSome self.entry.resist }
        ensures no { result ≡ false → IsSome self.entry.hug ⊎ IsSome self.entry.resist → ⊥ }
    {
        self.hug.is_some() || self.resist.is_some()
    }
}

/// The ranks at which a size hugs and resists.
#[derive(Clone, Copy)]
pub struct Ranks {
    pub hug: u16,
    pub resist: u16,
}

/// A held size of a view with another width and height, or `None` if one of them moves too far.
pub fn later_intrinsic(held: &IntrinsicSize, size: &WindowSize) -> Option<IntrinsicSize>
    ensures is { IfSome result
        (λ s. s ≡ record held.now { width = size.now.width; height = size.now.height }) }
    ensures near { OnSome result
        (FitsAfter held.now.width size.now.width × FitsAfter held.now.height size.now.height) }
    ensures far { IfNone result
        (FitsAfter held.now.width size.now.width × FitsAfter held.now.height size.now.height → ⊥) }
{
    if !fits_after(held.width, size.width) || !fits_after(held.height, size.height) {
        return None;
    }
    Some(IntrinsicSize {
        width: size.width,
        height: size.height,
        ..*held
    })
}

/// Gives a metric a value, and says whether there was room for it.
pub fn put_metric(metrics: &mut Metrics, name: &str, value: Frac) -> Result<bool, OutOfMemory>
    ensures made { IfOk result
        (λ made. made ≡ true → (metrics.new ≡ metrics_with metrics.old name.now value)
        × (AreTooMany metrics.old name.now → ⊥)) }
    ensures full { IfOk result
        (λ made. made ≡ false → (metrics.new ≡ metrics.old) × AreTooMany metrics.old name.now) }
    ensures unchanged { OnErr result (metrics.new ≡ metrics.old) }
{
    match metrics.change(name, value) {
        Ok(()) => return Ok(true),
        Err(_) => (),
    }
    match metrics.define(name, value) {
        Ok(()) => Ok(true),
        Err(NameStop::Full) => Ok(false),
        Err(NameStop::OutOfMemory) => Err(OutOfMemory),
        Err(NameStop::Taken | NameStop::Unknown) => unreachable!(),
    }
}

/// The name of the view that a new view goes into: the window if none is named.
pub fn parent_or_window<'a>(parent: Option<&'a str>) -> &'a str
    ensures { result.now ≡ parent_name (name_view parent.entry) }
{
    match parent {
        Some(name) => name,
        None => "window",
    }
}
