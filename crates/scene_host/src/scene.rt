// What answers the lines of one scene, and what makes it.
ghost use Rattle.std.specs.Prelude.{◌≡◌, ◌≤◌, ◌++◌, Bool, ℕ, List, not, length, IfOk, OnErr};
ghost use Rattle.edge_io.specs.declared.feed.TheConstants.{LINE_LIMIT};
ghost use Rattle.scene_host.specs.Marks.{marked};

use frac_core::OutOfMemory;

/// What answers the lines of one scene.
pub trait Scene {
    /// From the one to the other a line may get this text as its answer, which is good or not.
    ghost answers: { Self → List ℕ → List ℕ → Bool → Self → Type 0 };

    /// Answers a line: appends the text with `before` in front of each of its lines, and says whether it is a
    /// refusal. After want of memory all is as before.
    fn answer_marked(
        &mut self,
        line: &[u8],
        before: &[u8],
        out: &mut Vec<u8>,
    ) -> Result<bool, OutOfMemory>
        requires { length line.now ≤ LINE_LIMIT }
        ensures told { IfOk result (λ refused. (text : List ℕ)
            × answers self.old line.now text (not refused) self.new
            × (out.new.items ≡ out.old.items ++ marked before.now text)) }
        ensures same { OnErr result (self.new ≡ self.old) }
        ensures unchanged { OnErr result (out.new.items ≡ out.old.items) };
}

/// What makes new scenes.
pub trait Maker {
    type Made: Scene + Drop;

    /// It may make this scene.
    ghost first: { Self → Self.Made → Type 0 };

    /// A new scene.
    fn make(&self) -> Result<Self::Made, OutOfMemory>
        ensures { IfOk result (λ made. first self.now made) };
}
