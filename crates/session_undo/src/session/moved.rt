// The views whose frames changed since the latest earlier scene.
ghost use Rattle.std.specs.Prelude.{◌≡◌, [], IfOk, IfSome, IfNone};
ghost use Rattle.std.specs.List.Sorted.{IsStrictlyIncreasing};

use crate::session::Session;
use corner_view::Tableau;
use frac_core::OutOfMemory;

impl<T: Tableau> Session<T> {
    ghost use Rattle.corner_view.specs.Moves.{AreMovedSince};
    ghost use Rattle.scenes.specs.Frames.{IsFrameOf};

    /// The numbers of the views whose frames changed since the scene that `undo` would restore, rising: views
    /// that moved, that came, and that left (these have no frame now). Right after an accepted change other
    /// than `undo`, these are the frames that it changed. Before an `undo`, these are the frames that it will
    /// change. Refused lines and questions leave them as they are. A view `id` of these has the frame
    /// `frame(ViewId(id))`.
    ///
    /// `None` exactly if no earlier scene is kept, as after `undo` of all of them: then any frame may have
    /// changed. The time depends only on how much changed, and the only error is that memory runs out.
    pub fn moved(&self) -> Result<Option<Vec<u32>>, OutOfMemory>
        ensures some { IfOk result (λ moved. IfSome moved
            (λ views. AreMovedSince IsFrameOf self.now.earlier self.now.scene views.items)) }
        ensures rising { IfOk result (λ moved. IfSome moved (λ views. IsStrictlyIncreasing views.items)) }
        ensures none { IfOk result (λ moved. IfNone moved (self.now.earlier ≡ [])) }
    {
        self.scene.moved()
    }
}
