// The parts of a scene that are kept with their earlier versions.
ghost use Rattle.std.specs.Prelude.{◌≡◌, ◌∷◌, ◌+◌, ◌-◌, ◌<◌, ◌≤◌, length, take};
ghost use Rattle.std.specs.Prelude.{None};
ghost use Rattle.std.specs.VecDeque.{deque_capacity};
ghost use Rattle.layout_solver.specs.Layouts.{solution_of};
ghost use Rattle.scenes.specs.Kept.{AreAlike, own_or};
ghost use Rattle.held_items.specs.declared.limits.TheConstants.{EARLIER};

use corner_view::Tableau;
use held_items::{Item, Own};
use layout_solver::Engine;
use name_tables::Metrics;
use script_text::Direction;
use std::collections::VecDeque;
use std::mem;
use version_lists::VersionList;
use view_tree::Tree;

/// The settings of what comes next: the number of its first row, and its direction.
#[derive(Clone, Copy)]
pub struct Setting {
    pub next_row: u32,
    pub direction: Direction,
}

/// The parts in which an earlier scene differs from the scene after it. Views and metrics that are the same
/// are only in the scene after it.
#[derive(Drop)]
pub struct Past {
    pub tree: Option<Own<Tree>>,
    pub metrics: Option<Own<Metrics>>,
    pub setting: Setting,
}

impl Past {
    /// A scene with the views and metrics of the scene after it.
    pub fn alike(setting: Setting) -> Past
        ensures { result ≡ record { tree = None; metrics = None; setting = setting } }
    {
        Past {
            tree: None,
            metrics: None,
            setting,
        }
    }
}

// Swaps a part with `own`, if that has one.
fn exchange<T: Drop>(own: &mut Option<Own<T>>, part: &mut T)
    ensures there { part.new ≡ own_or own.old part.old }
    ensures back { own_or own.new part.new ≡ part.old }
{
    if let Some(own) = own {
        own.swap(part);
    }
}

/// Swaps the parts of a scene with those that `own` has, and returns the old ones.
pub fn put(mut own: Past, tree: &mut Tree, metrics: &mut Metrics, setting: &mut Setting) -> Past
    ensures tree { tree.new ≡ own_or own.tree tree.old }
    ensures metrics { metrics.new ≡ own_or own.metrics metrics.old }
    ensures setting { setting.new ≡ own.setting }
    ensures old_tree { own_or result.tree tree.new ≡ tree.old }
    ensures old_metrics { own_or result.metrics metrics.new ≡ metrics.old }
    ensures old_setting { result.setting ≡ setting.old }
{
    exchange(&mut own.tree, tree);
    exchange(&mut own.metrics, metrics);
    mem::swap(&mut own.setting, setting);
    own
}

// Drops the oldest.
fn drop_oldest(pasts: &mut VecDeque<Past>)
    ensures rest { pasts.new.items ≡ take (length pasts.old.items - 1) pasts.old.items }
    ensures capacity { deque_capacity pasts.new ≡ deque_capacity pasts.old }
{
    let _oldest = pasts.pop_back();
}

// Forgets the oldest of the earlier ones.
fn forget_oldest<T: Tableau>(
    items: &mut VersionList<Item>,
    engine: &mut Engine<T>,
    pasts: &mut VecDeque<Past>,
)
    requires some { 0 < length pasts.old.items }
    requires items { length items.old.before ≡ length pasts.old.items }
    requires solutions { length engine.old.earlier ≡ length pasts.old.items }
    ensures now { items.new.items ≡ items.old.items }
    ensures solution { solution_of engine.new ≡ solution_of engine.old }
    ensures items { items.new.before ≡ take (length pasts.old.items - 1) items.old.before }
    ensures solutions { engine.new.earlier ≡ take (length pasts.old.items - 1) engine.old.earlier }
    ensures pasts { pasts.new.items ≡ take (length pasts.old.items - 1) pasts.old.items }
    ensures capacity { deque_capacity pasts.new ≡ deque_capacity pasts.old }
{
    drop_oldest(pasts);
    items.forget();
    engine.forget();
}

/// Makes a scene's own parts the newest earlier ones, beside the newest versions of the items and the engine.
/// At most `most` are kept; the oldest of too many is forgotten.
pub fn keep<T: Tableau>(
    items: &mut VersionList<Item>,
    engine: &mut Engine<T>,
    pasts: &mut VecDeque<Past>,
    past: Past,
    most: usize,
)
    requires most { most ≤ EARLIER }
    requires few { length pasts.old.items ≤ most }
    requires room { EARLIER < deque_capacity pasts.old }
    requires items { length items.old.before ≡ 1 + length pasts.old.items }
    requires solutions { length engine.old.earlier ≡ 1 + length pasts.old.items }
    ensures now { items.new.items ≡ items.old.items }
    ensures solution { solution_of engine.new ≡ solution_of engine.old }
    ensures items { items.new.before ≡ take most items.old.before }
    ensures solutions { engine.new.earlier ≡ take most engine.old.earlier }
    ensures pasts { pasts.new.items ≡ take most (past ∷ pasts.old.items) }
    ensures alike { AreAlike most items.new.before engine.new.earlier pasts.new.items }
    ensures capacity { deque_capacity pasts.new ≡ deque_capacity pasts.old }
{
    pasts.push_front_reserved(past);
    if pasts.len() > most {
        forget_oldest(items, engine, pasts);
    }
}
