// The scene: what a script has said so far, and the engine that solves it.
pub(crate) mod draft;
pub(crate) mod frames;
mod moved;
pub(crate) mod past;
mod problems;
pub(crate) mod step;
pub(crate) mod values;

ghost use Rattle.std.specs.Prelude.{◌≡◌, ◌<◌, ◌≤◌, ◌∷◌, [], true, false, length};
ghost use Rattle.std.specs.Prelude.{None, Some, slice_get, IfOk, IfErr, IfSome, IfNone};
ghost use Rattle.std.specs.List.{list_any};
ghost use Rattle.problem_core.specs.Window.{structural_rows};
ghost use Rattle.layout_solver.specs.Layouts.{AreBest};
ghost use Rattle.held_items.specs.declared.item.Item.TheVariants as kind;
ghost use Rattle.held_items.specs.Moving.{FitsAfter};
ghost use Rattle.scenes.specs.Scene.{new_stays};
ghost use Rattle.scenes.specs.Stepping.{IsFirst};
ghost use Rattle.scenes.specs.Kept.{no_layout};

use crate::limits::FIRST_BUDGET;
use crate::scene::frames::{frame_of, place_of};
use crate::scene::past::{Past, Setting, put};
use crate::scene::values::values_of;
use cert_core::Best;
use constraint_compile::Suggestion;
use corner_view::Tableau;
use diagnosis::{Diagnosis, Stopped, diagnose};
use frac_core::{Frac, OutOfMemory};
use held_items::{
    EARLIER, FIRST_FREE_ROW, HeldSize, IntrinsicSize, Item, fits_after, has_group, has_size,
    intrinsic_of, line_count, size_of, structural_rows, suggestion_of, view_attributes,
};
use layout_solver::{Engine, Request};
use name_tables::Metrics;
use problem_core::Values;
use script_text::{AttrWord, Direction};
use std::alloc::Global;
use std::collections::VecDeque;
use std::marker::Model;
use sweep_param::sweep;
use sweep_run::{Stretch, SweepStop};
use version_lists::VersionList;
use view_tree::{Tree, VIEW_LIMIT, ViewId};

/// The views, the metrics, what is held, and the engine with its rows and the best values; and the earlier
/// scenes. Each shares its unchanged parts with the scene after it.
#[derive(Drop)]
pub struct Scene<T: Tableau> {
    tree: Tree,
    metrics: Metrics,
    items: VersionList<Item>,
    setting: Setting,
    engine: Engine<T>,
    // The parts of each earlier scene that differ from the scene after it, the latest first.
    pasts: VecDeque<Past>,
    // How many earlier scenes there may be.
    undo: usize,
    alloc: Global,
}

impl<T: Tableau> Model for Scene<T> {
    ghost use Rattle.std.specs.Prelude.{◌<◌};
    ghost use Rattle.std.specs.VecDeque.{deque_capacity};
    ghost use Rattle.held_items.specs.declared.limits.TheConstants.{EARLIER};
    ghost use Rattle.scenes.specs.Scene.{History};
    ghost use Rattle.scenes.specs.Kept.{AreAlike, IsKeptHistory, history_at};

    ghost Value = { History };

    ghost view = { λ s. history_at s.tree s.metrics s.items s.setting s.engine s.pasts.items s.undo };

    ghost invariant = { λ s. IsKeptHistory
        (history_at s.tree s.metrics s.items s.setting s.engine s.pasts.items s.undo)
        × AreAlike s.undo s.items.before s.engine.earlier s.pasts.items
        × (EARLIER < deque_capacity s.pasts) };
}

// What the window alone holds.
fn first_items(alloc: Global) -> Result<VersionList<Item>, OutOfMemory>
    ensures { IfOk result (λ items. items ≡ record { items = kind.OfWindow ∷ []; before = [] }) }
{
    let mut items = VersionList::new(alloc)?;
    items.push(Item::OfWindow)?;
    Ok(items)
}

// The request that adds the window's attributes and rows.
fn first_request(alloc: Global) -> Result<Request, OutOfMemory>
    ensures { IfOk result IsFirst }
{
    let rows = structural_rows(alloc)?;
    let attrs = Vec::from_slice(alloc, &view_attributes(0))?;
    Ok(Request::Add { attrs, rows })
}

// Adds the window's rows to an engine without rows. No earlier layout is kept.
fn begin<T: Tableau>(engine: &mut Engine<T>, request: &Request) -> Result<(), OutOfMemory>
    requires new { engine.old ≡ no_layout }
    requires first { IsFirst request.now }
    ensures problem { IfOk result
        (λ _. engine.new.problem ≡ record { rows = structural_rows; stays = new_stays 0 }) }
    ensures earlier { IfOk result (λ _. engine.new.earlier ≡ []) }
{
    // This run needs few exchanges, and all numbers fit. So memory ran out.
    let Ok(()) = engine.solve(request, FIRST_BUDGET) else {
        return Err(OutOfMemory);
    };
    engine.forget();
    Ok(())
}

// The engine of the window's rows, without an earlier layout.
fn first_engine<T: Tableau>(alloc: Global) -> Result<Engine<T>, OutOfMemory>
    ensures problem { IfOk result
        (λ engine. engine.problem ≡ record { rows = structural_rows; stays = new_stays 0 }) }
    ensures best { IfOk result (λ engine. AreBest engine.problem engine.values) }
    ensures earlier { IfOk result (λ engine. engine.earlier ≡ []) }
{
    let request = first_request(alloc)?;
    let mut engine = Engine::new(alloc)?;
    match begin(&mut engine, &request) {
        Ok(()) => {
            engine.show_layout(); // for the proof: what an engine keeps
            Ok(engine)
        }
        Err(OutOfMemory) => {
            drop(engine); // for the proof: moved on
            Err(OutOfMemory)
        }
    }
}

// Whether both constants minus the present one fit, and the second minus the first.
fn is_near_sweep(present: Frac, from: Frac, to: Frac) -> bool
    ensures yes { result ≡ true → FitsAfter present from × FitsAfter present to × FitsAfter from to }
    ensures no { result ≡ false → FitsAfter present from × FitsAfter present to × FitsAfter from to → ⊥ }
{
    fits_after(present, from) && fits_after(present, to) && fits_after(from, to)
}

impl<T: Tableau> Scene<T> {
    ghost use Rattle.view_tree.specs.Views.{first_tree, view_of};
    ghost use Rattle.view_tree.specs.declared.limits.TheConstants.{VIEW_LIMIT};
    ghost use Rattle.diagnosis.specs.Diagnoses.{findings_of};
    ghost use Rattle.scenes.specs.Diagnosing.{AreFindingsOf, IsCertificateOf, IsProbedStop};
    ghost use Rattle.scenes.specs.Frames.{IsFrameAt, IsFrameOf};
    ghost use Rattle.scenes.specs.Sweeping.{AreSweptOf, IsFarSweep, IsSweepStopOf};
    ghost use Rattle.sweep_laws.specs.Fractions.{IsNoMore};
    ghost use Rattle.sweep_run.specs.Told.{stretches_of};
    ghost use Rattle.held_items.specs.Items.{has_size, intrinsic_of, line_count, size_of};
    ghost use Rattle.held_items.specs.Items.{suggestion_of};
    ghost use Rattle.held_items.specs.Kept.{size_in};
    ghost use Rattle.held_items.specs.Leaving.{is_in_group};
    ghost use Rattle.scenes.specs.Scene.{IsFirstCorner, first_history, values_by_number};
    ghost use Rattle.std.specs.VecDeque.{deque_capacity};
    ghost use Rattle.held_items.specs.declared.limits.TheConstants.{EARLIER};

    // The window alone, from all its parts except the engine.
    fn with_parts(
        alloc: Global,
        tree: Tree,
        metrics: Metrics,
        items: VersionList<Item>,
        pasts: VecDeque<Past>,
        undo: usize,
    ) -> Result<Scene<T>, OutOfMemory>
        requires tree { tree ≡ first_tree tree.most }
        requires metrics { metrics ≡ [] }
        requires items { items ≡ record { items = kind.OfWindow ∷ []; before = [] } }
        requires none { pasts.items ≡ [] }
        requires room { EARLIER < deque_capacity pasts }
        requires undo { undo ≤ EARLIER }
        ensures corner { IfOk result (λ history. IsFirstCorner history.scene.corner) }
        ensures first { IfOk result (λ history.
            history ≡ first_history tree.most undo history.scene.corner) }
    {
        let engine = first_engine(alloc)?;
        engine.show_layout(); // for the proof: what an engine keeps
        Ok(Scene {
            tree,
            metrics,
            items,
            setting: Setting {
                next_row: FIRST_FREE_ROW,
                direction: Direction::Ltr,
            },
            engine,
            pasts,
            undo,
            alloc,
        })
    }

    // The window alone, from its views and metrics.
    fn with_names(
        alloc: Global,
        tree: Tree,
        metrics: Metrics,
        undo: usize,
    ) -> Result<Scene<T>, OutOfMemory>
        requires tree { tree ≡ first_tree tree.most }
        requires metrics { metrics ≡ [] }
        requires undo { undo ≤ EARLIER }
        ensures corner { IfOk result (λ history. IsFirstCorner history.scene.corner) }
        ensures first { IfOk result (λ history.
            history ≡ first_history tree.most undo history.scene.corner) }
    {
        let items = first_items(alloc)?;
        let pasts = VecDeque::with_capacity(alloc, EARLIER + 1)?;
        Scene::with_parts(alloc, tree, metrics, items, pasts, undo)
    }

    /// The window alone, with at most `views` live views and at most `undo` earlier scenes.
    pub fn with(alloc: Global, views: u32, undo: usize) -> Result<Scene<T>, OutOfMemory>
        requires some { 0 < views }
        requires few { views ≤ VIEW_LIMIT }
        requires undo { undo ≤ EARLIER }
        ensures corner { IfOk result (λ history. IsFirstCorner history.scene.corner) }
        ensures first { IfOk result (λ history. history ≡ first_history views undo history.scene.corner) }
    {
        let tree = Tree::with(alloc, views)?;
        let metrics = Metrics::new(alloc)?;
        Scene::with_names(alloc, tree, metrics, undo)
    }

    /// The window alone.
    pub fn new(alloc: Global) -> Result<Scene<T>, OutOfMemory>
        ensures corner { IfOk result (λ history. IsFirstCorner history.scene.corner) }
        ensures first { IfOk result (λ history.
            history ≡ first_history VIEW_LIMIT EARLIER history.scene.corner) }
    {
        Scene::with(alloc, VIEW_LIMIT as u32, EARLIER)
    }

    /// The views.
    pub fn tree(&self) -> &Tree
        ensures { result.now ≡ self.now.scene.tree }
    {
        &self.tree
    }

    /// The metrics, in order of definition.
    pub fn metrics(&self) -> &Metrics
        ensures { result.now ≡ self.now.scene.metrics }
    {
        &self.metrics
    }

    /// The number that the next row takes.
    pub fn next_row(&self) -> u32
        ensures value { result ≡ self.now.scene.next_row }
        ensures above { 0 < result }
    {
        self.setting.next_row
    }

    /// The direction of later lines and suggestions.
    pub fn direction(&self) -> Direction
        ensures { result ≡ self.now.scene.direction }
    {
        self.setting.direction
    }

    /// The engine: the problem of the rows of all that is held, and its best values.
    pub fn engine(&self) -> &Engine<T>
        ensures rows { result.now.problem.rows ≡ self.now.scene.rows }
        ensures stays { result.now.problem.stays ≡ self.now.scene.stays }
        ensures values { result.now.values ≡ self.now.scene.values }
    {
        &self.engine
    }

    /// The values of all attributes, by number.
    pub fn values(&self) -> Result<Values, OutOfMemory>
        ensures { IfOk result (λ values. values ≡ values_by_number self.now.scene) }
    {
        self.engine.show_layout(); // for the proof: what an engine keeps
        let _count = self.tree.len(); // for the proof: what a tree keeps
        values_of(self.alloc, &self.tree, &self.engine)
    }

    /// Left, top, width and height of the view at a place, counted from 0 in order of creation. `None`
    /// exactly past the end.
    pub fn frame_at(&self, place: usize) -> Option<[Frac; 4]>
        ensures some { IfSome result (IsFrameAt self.now.scene place) }
        ensures none { IfNone result (slice_get self.now.scene.tree.views place ≡ None) }
    {
        let _count = self.tree.len(); // for the proof: what a tree keeps
        let view = self.tree.at(place)?;
        Some(frame_of(&self.engine, view.id.0))
    }

    /// Left, top, width and height of a view, in window coordinates. `None` exactly if no view has the
    /// number.
    pub fn frame(&self, view: ViewId) -> Option<[Frac; 4]>
        ensures some { IfSome result (IsFrameOf self.now.scene view.0) }
        ensures none { IfNone result (view_of self.now.scene.tree.views view.0 ≡ None) }
    {
        let place = place_of(&self.tree, view)?;
        self.frame_at(place)
    }

    /// Whether at least so many lines of groups are held.
    pub fn has_lines(&self, count: usize) -> bool
        ensures yes { result ≡ true → count ≤ line_count self.now.scene.held }
        ensures no { result ≡ false → line_count self.now.scene.held < count }
    {
        // Each line is an item, so with fewer items the lines need no counting.
        if self.items.len() < count {
            return false;
        }
        line_count(self.items.as_slice()) >= count
    }

    /// Whether the window's size is held.
    pub fn has_size(&self) -> bool
        ensures { result ≡ has_size self.now.scene.held }
    {
        has_size(self.items.as_slice())
    }

    /// The window's size, if one is held.
    pub fn size(&self) -> Option<HeldSize>
        ensures some { IfSome result (λ s. size_of self.now.scene.held ≡ Some (size_in s)) }
        ensures none { IfNone result (has_size self.now.scene.held ≡ false) }
    {
        size_of(self.items.as_slice())
    }

    /// Whether a line of this group is held.
    pub fn has_group(&self, name: &[u8]) -> bool
        ensures { result ≡ list_any (is_in_group name.now) self.now.scene.held }
    {
        has_group(self.items.as_slice(), name)
    }

    /// The suggestion of this attribute of the view, if one is held.
    pub fn suggestion(&self, view: ViewId, word: AttrWord) -> Option<Suggestion>
        ensures { result ≡ suggestion_of view.0 word self.now.scene.held }
    {
        suggestion_of(self.items.as_slice(), view.0, word)
    }

    /// The size that the view would like, if one is held.
    pub fn intrinsic(&self, view: ViewId) -> Option<IntrinsicSize>
        ensures { result ≡ intrinsic_of view.0 self.now.scene.held }
    {
        intrinsic_of(self.items.as_slice(), view.0)
    }

    /// Finds what the layout lacks and what it leaves open. The scene does not change. A stop has the number
    /// of the attribute whose probe stopped.
    pub fn diagnose(&mut self, budget: u64) -> Result<Diagnosis, Stopped>
        ensures found { IfOk result (λ d. AreFindingsOf self.old.scene (findings_of d)) }
        ensures stop { IfErr result (λ s. IsProbedStop self.old.scene budget s.attr s.stop) }
        ensures same { self.new ≡ self.old }
    {
        self.engine.show_layout(); // for the proof: what an engine keeps
        diagnose(self.alloc, &mut self.engine, budget)
    }

    /// The multipliers that show the values to be best: those of the corner's levels, in the form that a
    /// checker reads.
    pub fn certificate(&self) -> Result<Best, OutOfMemory>
        ensures { IfOk result (IsCertificateOf self.now.scene) }
    {
        self.engine.show_layout(); // for the proof: what an engine keeps
        self.engine.certificate()
    }

    /// Whether the window has a width, and one of these widths minus it, or minus the other, doesn't fit.
    pub fn is_far_sweep(&self, from: Frac, to: Frac) -> bool
        ensures yes { result ≡ true → IsFarSweep self.now.scene.held from to }
        ensures no { result ≡ false → IsFarSweep self.now.scene.held from to → ⊥ }
    {
        match size_of(self.items.as_slice()) {
            Some(held) => !is_near_sweep(held.size.width, from, to),
            None => false,
        }
    }

    /// Solves for every width of the window between `from` and `to`, with the stays at the present values.
    /// The window has a size. The scene does not change.
    pub fn sweep(&self, from: Frac, to: Frac, budget: u64) -> Result<Vec<Stretch>, SweepStop>
        requires sized { has_size self.now.scene.held ≡ true }
        requires order { IsNoMore from to }
        requires near { IsFarSweep self.now.scene.held from to → ⊥ }
        ensures swept { IfOk result (λ s. AreSweptOf self.now.scene from to (stretches_of s.items)) }
        ensures stop { IfErr result (IsSweepStopOf self.now.scene from to budget) }
    {
        let Some(held) = size_of(self.items.as_slice()) else {
            unreachable!();
        };
        self.engine.show_layout(); // for the proof: what an engine keeps
        let _dens = (from.den(), to.den()); // for the proof: what fractions keep
        let p = self.problem_here()?;
        sweep::<T>(self.alloc, &p, held.first_row, from, to, budget)
    }

    /// Whether there is an earlier scene.
    pub fn has_earlier(&self) -> bool
        ensures yes { result ≡ true → 0 < length self.now.earlier }
        ensures no { result ≡ false → self.now.earlier ≡ [] }
    {
        self.items.earlier() > 0
    }

    /// Goes back to the latest earlier scene.
    pub fn back(&mut self)
        requires { 0 < length self.old.earlier }
        ensures back { self.old.earlier ≡ self.new.scene ∷ self.new.earlier }
        ensures undo { self.new.undo ≡ self.old.undo }
    {
        // There is one for each earlier scene.
        let Some(past) = self.pasts.pop_front() else {
            return;
        };
        self.items.back();
        self.engine.back();
        let _after = put(past, &mut self.tree, &mut self.metrics, &mut self.setting);
    }
}
