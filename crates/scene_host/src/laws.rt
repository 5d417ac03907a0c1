// The laws of hosts, each the contract of a function that does nothing.
ghost use Rattle.scene_host.specs.Laws.{MarkedTextsAreTold, OtherTextsAreNotTold, ScenesRunAlone};

use crate::scene::{Maker, Scene};

/// Over any lines, what a host says under a name is a run of that name's lines, from a new scene to the one
/// that stands under it in the end.
pub fn scenes_run_alone<M: Maker>()
    ensures { (maker : M) → ScenesRunAlone M.Made.answers (M.first maker) }
{}

/// What is told under a name of a text with the name in front of each line is that text.
pub fn marked_texts_are_told()
    ensures { MarkedTextsAreTold }
{}

/// Nothing is told under a name of what another scene says, nor of what the host itself says.
pub fn other_texts_are_not_told()
    ensures { OtherTextsAreNotTold }
{}
