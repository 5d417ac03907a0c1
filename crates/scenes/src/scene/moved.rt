// The views whose frames changed since the latest earlier scene.
ghost use Rattle.std.specs.Prelude.{◌≡◌, [], IfOk, IfSome, IfNone};
ghost use Rattle.std.specs.List.Sorted.{IsStrictlyIncreasing};
ghost use Rattle.scenes.specs.Moves.{AreOwners};

use crate::scene::Scene;
use corner_view::Tableau;
use frac_core::OutOfMemory;
use std::alloc::Global;

// The numbers of the views that have these attributes, one for each of these.
fn owners_of(alloc: Global, attrs: &[u32]) -> Result<Vec<u32>, OutOfMemory>
    ensures { IfOk result (λ out. AreOwners attrs.now out.items) }
{
    let mut out = Vec::with_capacity(alloc, attrs.len())?;
    for attr in attrs {
        out.push(attr.saturating_sub(1) / 4)?;
    }
    Ok(out)
}

// The numbers of the views that have these attributes, rising.
fn views_of(alloc: Global, attrs: &[u32]) -> Result<Vec<u32>, OutOfMemory>
    ensures owners { IfOk result (λ out. AreOwners attrs.now out.items) }
    ensures rising { IfOk result (λ out. IsStrictlyIncreasing out.items) }
{
    let mut out = owners_of(alloc, attrs)?;
    out.sort_unstable();
    out.dedup();
    Ok(out)
}

impl<T: Tableau> Scene<T> {
    ghost use Rattle.corner_view.specs.Moves.{AreMovedSince};
    ghost use Rattle.scenes.specs.Frames.{IsFrameOf};

    /// The numbers of the views whose frames changed since the latest earlier scene, rising: views that
    /// moved, that came, and that left. `None` exactly if there is no earlier scene. The time depends only on
    /// how much changed.
    pub fn moved(&self) -> Result<Option<Vec<u32>>, OutOfMemory>
        ensures some { IfOk result (λ moved. IfSome moved
            (λ views. AreMovedSince IsFrameOf self.now.earlier self.now.scene views.items)) }
        ensures rising { IfOk result (λ moved. IfSome moved (λ views. IsStrictlyIncreasing views.items)) }
        ensures none { IfOk result (λ moved. IfNone moved (self.now.earlier ≡ [])) }
    {
        if !self.has_earlier() {
            return Ok(None);
        }
        self.engine.show_layout(); // for the proof: what an engine keeps
        let attrs = self.engine.moved()?;
        let views = views_of(self.alloc, &attrs)?;
        Ok(Some(views))
    }
}
