// Laws on what has moved.
ghost use Rattle.std.specs.Prelude.{◌≡◌, ℕ, None, Some};
ghost use Rattle.corner_view.specs.Moves.{HasMoved, HasStayed};
ghost use Rattle.scenes.specs.Frames.{IsFrameOf};
ghost use Rattle.scenes.specs.Scene.{Scene};
ghost use Rattle.view_tree.specs.Views as views;
ghost use Rattle.view_tree.specs.Views.{view_of};

/// Law: no view that has moved has stayed; if nothing changed, each has stayed; and a view that came, or that
/// left, has moved.
pub fn moved_is_not_stayed()
    ensures apart { (old new : Scene) (id : ℕ) → HasMoved IsFrameOf old new id
        → HasStayed IsFrameOf old new id → ⊥ }
    ensures same { (s : Scene) (id : ℕ) → HasStayed IsFrameOf s s id }
    ensures came { (old new : Scene) (id : ℕ) (v : views.LiveView) → view_of old.tree.views id ≡ None
        → view_of new.tree.views id ≡ Some v → HasMoved IsFrameOf old new id }
    ensures left { (old new : Scene) (id : ℕ) (v : views.LiveView) → view_of old.tree.views id ≡ Some v
        → view_of new.tree.views id ≡ None → HasMoved IsFrameOf old new id }
{}
