// The step of a scene to a draft. It is worked out before anything changes, then taken or posed as a problem.
ghost use Rattle.std.specs.Prelude.{◌≡◌, ◌≢◌, ◌<◌, ◌≤◌, ◌+◌, ◌*◌, ◌∷◌, [], All, length, None, Some};
ghost use Rattle.std.specs.Prelude.{ℕ, IfErr, IfOk, OnErr, OnOk};
ghost use Rattle.version_lists.specs.declared.versions.TheConstants.{VERSION_LIMIT};
ghost use Rattle.view_tree.specs.Drops.{AreGoing, without};
ghost use Rattle.layout_solver.specs.Layouts.{IsKeptLayout, solution_of};
ghost use Rattle.layout_solver.specs.Requests.{CanSolve, IsRequestStop, IsSolvedBy, posed_by};
ghost use Rattle.held_items.specs.declared.limits.TheConstants.{EARLIER};
ghost use Rattle.held_items.specs.Kept.{items_of};
ghost use Rattle.problem_core.specs.declared.limits.TheConstants.{NUMBER_LIMIT};
ghost use Rattle.view_tree.specs.declared.limits.TheConstants.{ID_LIMIT};
ghost use Rattle.held_items.specs.declared.row_numbers.TheConstants.{VIEW_ROWS};
ghost use Rattle.conflict_core.specs.Shown.{IsFound};
ghost use Rattle.conflict_core.specs.Trials.{IsCoreStop};
ghost use Rattle.problem_core.specs.Kept.{IsWhole};
ghost use Rattle.problem_core.specs.Layout as layout;
ghost use Rattle.scenes.specs.Drafts.{KeepsValues, MayLeave, MayTake, drafted, kind_of};
ghost use Rattle.scenes.specs.Stepping.{AreLeaving, AreViewsJoining, CanHold, held_by, tree_left};
ghost use Rattle.scenes.specs.Scene.{Remembers};
ghost use Rattle.scenes.specs.Steps.{ComesTo, IsProblemOf, StopsAs};
ghost use Rattle.scenes.specs.declared.scene.draft.Draft.TheVariants as kind;
ghost use Rattle.scenes.specs.declared.scene.draft.Draft as declared;

use crate::scene::Scene;
use crate::scene::draft::{Draft, NewMetrics};
use crate::scene::past::{Past, keep, put};
use conflict_core::{CoreStop, Found, core_of};
use corner_view::Tableau;
use frac_core::OutOfMemory;
use held_items::{
    Item, Leaver, NewItem, NewViews, Own, Renewal, VIEW_ROWS, attributes_from, changes_of,
    leaving_attributes, leaving_numbers, push_item, push_views, renew, take_leaving_out,
    view_attributes, view_rows,
};
use layout_solver::{Engine, Request, RequestStop};
use problem_core::Problem;
use script_text::Direction;
use std::alloc::Global;
use version_lists::VersionList;
use view_tree::{Tree, ViewId};

/// What happens to the items.
#[derive(Drop)]
pub enum Holding {
    /// Adds `count` views. The first has the number `id`, and its rows begin at `first_row`.
    Views { first_row: u32, id: u32, count: u32 },
    /// Adds an item.
    More(Own<Item>),
    /// Changes the constants of an item.
    Renewed(Renewal),
    /// Removes items.
    Out(Leaver),
    /// Changes nothing.
    Same,
}

/// The request to the engine, what happens to the items, and the parts in which the next scene differs.
#[derive(Drop)]
pub struct Step {
    pub request: Request,
    pub holding: Holding,
    pub own: Past,
}

// Changes the items and saves the version before. If memory runs out, nothing changes.
fn hold(items: &mut VersionList<Item>, holding: Holding) -> Result<(), OutOfMemory>
    requires few { length items.old.before ≤ EARLIER }
    requires can { CanHold holding }
    ensures items { OnOk result (items_of items.new.items ≡ held_by holding (items_of items.old.items)) }
    ensures before { OnOk result (items.new.before ≡ items.old.items ∷ items.old.before) }
    ensures same { OnErr result (items.new ≡ items.old) }
{
    match holding {
        Holding::Views {
            first_row,
            id,
            count,
        } => push_views(items, first_row, id, count),
        Holding::More(item) => push_item(items, item.into_inner()),
        Holding::Renewed(to) => renew(items, &to),
        Holding::Out(leaver) => take_leaving_out(items, &leaver),
        Holding::Same => {
            items.mark();
            Ok(())
        }
    }
}

// Changes the items and lets the engine solve the request. Both save the version before. After a stop both
// are as before.
fn run<T: Tableau>(
    engine: &mut Engine<T>,
    items: &mut VersionList<Item>,
    request: &Request,
    holding: Holding,
    budget: u64,
) -> Result<(), RequestStop>
    requires few { length items.old.before ≤ EARLIER }
    requires room { length engine.old.earlier < VERSION_LIMIT }
    requires can { CanSolve engine.old request.now }
    requires holds { CanHold holding }
    ensures problem { OnOk result (engine.new.problem ≡ posed_by engine.old request.now) }
    ensures solved { OnOk result (IsSolvedBy engine.old request.now budget engine.new) }
    ensures layout { OnOk result (IsKeptLayout engine.new) }
    ensures stop { IfErr result (IsRequestStop engine.old request.now budget) }
    ensures items { OnOk result (items_of items.new.items ≡ held_by holding (items_of items.old.items)) }
    ensures before { OnOk result (items.new.before ≡ items.old.items ∷ items.old.before) }
    ensures earlier { OnOk result (engine.new.earlier ≡ solution_of engine.old ∷ engine.old.earlier) }
    ensures same { OnErr result (engine.new ≡ engine.old) }
    ensures back { OnErr result (items.new ≡ items.old) }
{
    hold(items, holding)?;
    match engine.solve(request, budget) {
        Ok(()) => {
            engine.show_layout(); // for the proof: what an engine keeps
            Ok(())
        }
        Err(stop) => {
            items.back();
            Err(stop)
        }
    }
}

// The tree without these views: a view and all views below it.
fn tree_without(alloc: Global, tree: &Tree, gone: &[u32]) -> Result<Own<Tree>, OutOfMemory>
    requires { (root : ℕ) × (root ≢ 0) × AreGoing tree.now.views root gone.now }
    ensures { IfOk result (λ left. left ≡ without tree.now gone.now) }
{
    let mut left = tree.copy()?;
    left.drop_views(gone);
    Own::of(alloc, left)
}

// The tree without the views that leave, or `None` if no view leaves.
fn tree_left(alloc: Global, tree: &Tree, leaver: &Leaver) -> Result<Option<Own<Tree>>, OutOfMemory>
    requires { MayLeave tree.now.views leaver.now }
    ensures { IfOk result (λ own. own ≡ tree_left tree.now leaver.now) }
{
    match leaver {
        Leaver::Views(gone) => Ok(Some(tree_without(alloc, tree, gone)?)),
        Leaver::Group(_) | Leaver::Suggestion(..) | Leaver::Intrinsic(_) => Ok(None),
    }
}

impl<T: Tableau> Scene<T> {
    ghost use Rattle.scenes.specs.Stepping.{IsStepTo, plain_step};

    // The step in which views, metrics and setting stay the same.
    fn plain_step(&self, request: Request, holding: Holding) -> Step
        ensures { result ≡ plain_step self.now.scene request holding }
    {
        Step {
            request,
            holding,
            own: Past::alike(self.setting),
        }
    }

    // The request that adds the rows and attributes of `count` views. The first has the number `id`.
    fn views_request(&self, id: u32, count: u32) -> Result<Request, OutOfMemory>
        requires rows { self.now.scene.next_row + VIEW_ROWS * count ≤ NUMBER_LIMIT }
        requires ids { id + count ≤ ID_LIMIT }
        ensures { IfOk result (AreViewsJoining self.now.scene.next_row id count) }
    {
        let _next = self.next_row(); // for the proof: what a scene keeps
        let rows = view_rows(self.alloc, self.setting.next_row, id, count)?;
        let attrs = attributes_from(self.alloc, id, count)?;
        Ok(Request::Add { attrs, rows })
    }

    // The step that adds views.
    fn views_step(&self, new: NewViews) -> Result<Step, OutOfMemory>
        requires { MayTake self.now.scene (kind.Views new) }
        ensures { IfOk result (IsStepTo self.now.scene (kind.Views new)) }
    {
        self.engine.show_layout(); // for the proof: what an engine keeps
        let (id, count) = (new.first_view.0, new.count);
        let request = self.views_request(id, count)?;
        let holding = Holding::Views {
            first_row: self.setting.next_row,
            id,
            count,
        };
        let mut step = self.plain_step(request, holding);
        step.own.setting.next_row += VIEW_ROWS * count;
        step.own.tree = Some(new.tree);
        Ok(step)
    }

    // The step that replaces the metrics.
    fn metrics_step(&self, new: NewMetrics) -> Step
        requires { MayTake self.now.scene (kind.Metrics new) }
        ensures { IsStepTo self.now.scene (kind.Metrics new) result }
    {
        self.engine.show_layout(); // for the proof: what an engine keeps
        let mut step = self.plain_step(Request::Shift(new.to), Holding::Same);
        step.own.metrics = Some(new.metrics);
        step
    }

    // The step that adds an item.
    fn item_step(&self, new: NewItem) -> Step
        requires { MayTake self.now.scene (kind.More new) }
        ensures { IsStepTo self.now.scene (kind.More new) result }
    {
        self.engine.show_layout(); // for the proof: what an engine keeps
        let _count = self.tree.len(); // for the proof: what a tree keeps
        let NewItem { item, rows } = new;
        let more = rows.len() as u32;
        let attrs = Vec::new(self.alloc);
        let mut step = self.plain_step(Request::Add { attrs, rows }, Holding::More(item));
        step.own.setting.next_row += more;
        step
    }

    // The step that changes the constants of an item.
    fn renewed_step(&self, to: Renewal) -> Result<Step, OutOfMemory>
        requires { MayTake self.now.scene (kind.Renewed to) }
        ensures { IfOk result (IsStepTo self.now.scene (kind.Renewed to)) }
    {
        self.engine.show_layout(); // for the proof: what an engine keeps
        let _next = self.next_row(); // for the proof: what a scene keeps
        let changes = changes_of(self.alloc, &to)?;
        Ok(self.plain_step(Request::Shift(changes), Holding::Renewed(to)))
    }

    // The request that removes the rows and attributes of what leaves.
    fn leaving_request(&self, leaver: &Leaver) -> Result<Request, OutOfMemory>
        requires { MayLeave self.now.scene.tree.views leaver.now }
        ensures { IfOk result (AreLeaving self.now.scene.held leaver.now) }
    {
        let _count = self.tree.len(); // for the proof: what a tree keeps
        let rows = leaving_numbers(self.alloc, self.items.as_slice(), leaver)?;
        let attrs = leaving_attributes(self.alloc, leaver)?;
        Ok(Request::Remove { rows, attrs })
    }

    // The step that removes items or views.
    fn leaving_step(&self, leaver: Leaver) -> Result<Step, OutOfMemory>
        requires { MayTake self.now.scene (kind.Out leaver) }
        ensures { IfOk result (IsStepTo self.now.scene (kind.Out leaver)) }
    {
        self.engine.show_layout(); // for the proof: what an engine keeps
        let _count = self.tree.len(); // for the proof: what a tree keeps
        let request = self.leaving_request(&leaver)?;
        let tree = tree_left(self.alloc, &self.tree, &leaver)?;
        let mut step = self.plain_step(request, Holding::Out(leaver));
        step.own.tree = tree;
        Ok(step)
    }

    // The step that sets the direction.
    fn turning_step(&self, to: Direction) -> Step
        ensures { IsStepTo self.now.scene (kind.Turn to) result }
    {
        self.engine.show_layout(); // for the proof: what an engine keeps
        let mut step = self.plain_step(Request::Stand, Holding::Same);
        step.own.setting.direction = to;
        step
    }

    // The step that puts the stays of a view first.
    fn keeping_step(&self, view: ViewId) -> Result<Step, OutOfMemory>
        requires { MayTake self.now.scene (kind.Keep view) }
        ensures { IfOk result (IsStepTo self.now.scene (kind.Keep view)) }
    {
        self.engine.show_layout(); // for the proof: what an engine keeps
        let _count = self.tree.len(); // for the proof: what a tree keeps
        let attrs = Vec::from_slice(self.alloc, &view_attributes(view.0))?;
        Ok(self.plain_step(Request::Keep(attrs), Holding::Same))
    }

    // Works out the step to a draft. Nothing changes yet.
    fn step(&self, draft: Draft) -> Result<Step, OutOfMemory>
        requires { MayTake self.now.scene draft }
        ensures { IfOk result (IsStepTo self.now.scene draft) }
    {
        match draft {
            Draft::Views(new) => self.views_step(new),
            Draft::Metrics(new) => Ok(self.metrics_step(new)),
            Draft::More(new) => Ok(self.item_step(new)),
            Draft::Renewed(to) => self.renewed_step(to),
            Draft::Out(leaver) => self.leaving_step(leaver),
            Draft::Turn(to) => Ok(self.turning_step(to)),
            Draft::Keep(view) => self.keeping_step(view),
        }
    }

    // Makes a step, and saves the scene before as the latest earlier one. After a stop nothing has changed.
    fn make(&mut self, step: Step, budget: u64) -> Result<(), RequestStop>
        requires { (to : declared.Draft) × IsStepTo self.old.scene to step }
        ensures taken { IfOk result (λ _. (to : declared.Draft) → IsStepTo self.old.scene to step
            → ComesTo (kind_of to) self.old.scene (drafted self.old.scene to) budget self.new.scene) }
        ensures values { IfOk result (λ _. (to : declared.Draft) → IsStepTo self.old.scene to step
            → KeepsValues to self.old.scene self.new.scene) }
        ensures stop { IfErr result (λ s. (to : declared.Draft) → IsStepTo self.old.scene to step
            → StopsAs (kind_of to) self.old.scene (drafted self.old.scene to) budget s) }
        ensures earlier { OnOk result (Remembers self.old self.new) }
        ensures same { OnErr result (self.new ≡ self.old) }
    {
        self.engine.show_layout(); // for the proof: what an engine keeps
        let Step {
            request,
            holding,
            own,
        } = step;
        run(&mut self.engine, &mut self.items, &request, holding, budget)?;
        let past = put(own, &mut self.tree, &mut self.metrics, &mut self.setting);
        keep(
            &mut self.items,
            &mut self.engine,
            &mut self.pasts,
            past,
            self.undo,
        );
        Ok(())
    }

    /// Makes the change of a draft. The scene before becomes the latest earlier one. After a stop nothing has
    /// changed.
    pub fn take(&mut self, draft: Draft, budget: u64) -> Result<(), RequestStop>
        requires { MayTake self.old.scene draft }
        ensures taken { IfOk result (λ _.
            ComesTo (kind_of draft) self.old.scene (drafted self.old.scene draft) budget self.new.scene) }
        ensures values { IfOk result (λ _. KeepsValues draft self.old.scene self.new.scene) }
        ensures stop { IfErr result
            (StopsAs (kind_of draft) self.old.scene (drafted self.old.scene draft) budget) }
        ensures earlier { OnOk result (Remembers self.old self.new) }
        ensures same { OnErr result (self.new ≡ self.old) }
    {
        let step = self.step(draft)?;
        self.make(step, budget)
    }

    /// The problem that `take` would solve.
    pub fn pose(&self, draft: Draft) -> Result<Problem, OutOfMemory>
        requires { MayTake self.now.scene draft }
        ensures { IfOk result (IsProblemOf (drafted self.now.scene draft)) }
    {
        self.engine.show_layout(); // for the proof: what an engine keeps
        let step = self.step(draft)?;
        self.engine.posed(step.request)
    }

    /// Whether the required rows of the problem that `take` would solve have a solution. If not, a core of
    /// them (an irreducible infeasible subset). The scene does not change.
    pub fn core(&mut self, draft: Draft, budget: u64) -> Result<Found, CoreStop>
        requires { MayTake self.old.scene draft }
        ensures found { IfOk result (λ f. (p : layout.Problem)
            × IsProblemOf (drafted self.old.scene draft) p × IsWhole p × IsFound p f) }
        ensures stop { IfErr result (λ s. (p : layout.Problem)
            × IsProblemOf (drafted self.old.scene draft) p × IsCoreStop p budget s) }
        ensures same { self.new ≡ self.old }
    {
        self.engine.show_layout(); // for the proof: what an engine keeps
        let _count = self.tree.len(); // for the proof: what a tree keeps
        let step = self.step(draft)?;
        core_of(self.alloc, &mut self.engine, step.request, budget)
    }
}
