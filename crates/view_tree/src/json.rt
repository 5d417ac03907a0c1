// Views from JSON.
ghost use Rattle.std.specs.Prelude.{◌≡◌, ◌<◌, ◌≤◌, ◌+◌, ℕ, List, [], Some, IsSome, IfOk, IfSome, IfNone};
ghost use Rattle.std.specs.Prelude.{IfErr, OnOk, OnErr, true, false, length, nat_lt};
ghost use Rattle.std.specs.List.{list_any};
ghost use Rattle.frac_core.specs.Fraction.{Fraction};
ghost use Rattle.serde_json.specs.Data.{Data};
ghost use Rattle.serde_json.specs.View.{view};
ghost use Rattle.name_tables.specs.Names.{names_of};
ghost use Rattle.name_tables.specs.declared.stops.TheConstants.{NAME_LIMIT};
ghost use Rattle.view_tree.specs.JsonStops.{AreFree, IsFirstHeld, IsGrown, IsWithin, MayStayOut};
ghost use Rattle.view_tree.specs.JsonStops.{IsAddable, MayLeaveOut, PassesTreeLimit, has_room, is_held};
ghost use Rattle.view_tree.specs.JsonTrees.{IsJson, IsTreeText, JsonTree, tree_of};
ghost use Rattle.view_tree.specs.Plans.{AreNew, IsPlan, IsPlanOf, PlanGoesIn, grown, names_of_plan};
ghost use Rattle.view_tree.specs.Plans.{id_named, pairs_of};
ghost use Rattle.view_tree.specs.Stops.{IsNewView};
ghost use Rattle.view_tree.specs.declared.limits.TheConstants.{DEPTH_LIMIT};
ghost use Rattle.view_tree.specs.Views.{IsAtDepth, IsTree, ViewTree, view_named, view_of, with_view};

use crate::limits::{DEPTH_LIMIT, ID_LIMIT};
use crate::plan::{Plan, Planned, plan_of};
use crate::stops::{TreeStop, ViewStop};
use crate::tree::Tree;
use crate::view::ViewId;
use frac_core::{OutOfMemory, Stop};
use name_tables::{LimitWord, Metrics, NAME_LIMIT, NameMap, OwnedName};
use serde_json::Value;
use std::alloc::Global;

// The value of a text, if it is JSON.
fn value_of(alloc: Global, text: &[u8]) -> Result<Option<Value>, OutOfMemory>
    ensures json { IfOk result (λ found. IfSome found (λ value. IsJson text.now (view value))) }
    ensures none { IfOk result (λ found. IfNone found ((d : Data) → IsJson text.now d → ⊥)) }
{
    match Value::from_slice(alloc, text) {
        Ok(value) => Ok(Some(value)),
        Err(error) => if error.is_memory() {
            Err(OutOfMemory)
        } else {
            Ok(None)
        },
    }
}

// The plan of a value that has the shape of a tree.
fn shaped(alloc: Global, value: &Value) -> Result<Plan<'_>, TreeStop>
    ensures planned { IfOk result (λ plan. (tree : JsonTree) × (tree_of (view value.now) ≡ Some tree)
        × IsPlanOf plan tree) }
    ensures stop { IfErr result (λ stop. (t : ViewTree) (metrics : List (List ℕ × Fraction))
        (text : List ℕ) → IsJson text (view value.now) → MayStayOut t metrics text stop) }
{
    match plan_of(alloc, value) {
        Ok(plan) => Ok(plan),
        Err(Stop::Refused(_)) => Err(TreeStop::Shape),
        Err(Stop::OutOfMemory) => Err(TreeStop::OutOfMemory),
    }
}

// Whether one of the names is longer than it may be.
fn has_long(views: &[Planned<'_>]) -> bool
    ensures { result ≡ list_any (λ planned. nat_lt NAME_LIMIT (length planned.name.now)) views.now }
{
    views.iter().any(|view| view.name.len() > NAME_LIMIT)
}

impl Tree {
    // Whether so many views more may be live, and there are numbers for them.
    fn has_room(&self, count: usize) -> bool
        ensures room { result ≡ has_room self.now count }
        ensures tree { IsTree self.now }
    {
        if count > self.most() - self.len() {
            return false;
        }
        count <= (ID_LIMIT - self.next_number()) as usize
    }

    // Whether views of this height are too deep below the parent.
    fn is_deep(&self, parent: ViewId, height: usize) -> bool
        requires live { IsSome (view_of self.now.views parent.0) }
        requires tree { IsTree self.now }
        ensures yes { result ≡ true → (depth : ℕ) × IsAtDepth self.now.views parent.0 depth
            × (DEPTH_LIMIT < depth + height) }
        ensures no { result ≡ false → (depth : ℕ) × IsAtDepth self.now.views parent.0 depth
            × (depth + height ≤ DEPTH_LIMIT) }
    {
        let Some(depth) = self.depth(parent) else {
            unreachable!()
        };
        height > (DEPTH_LIMIT - depth) as usize
    }

    // The first limit that the plan would pass.
    fn plan_limit(&self, plan: &Plan<'_>, parent: ViewId) -> Option<LimitWord>
        requires { IsSome (view_of self.now.views parent.0) }
        ensures passed { (tree : JsonTree) → IsPlanOf plan.now tree
            → IfSome result (PassesTreeLimit self.now parent.0 tree.branch) }
        ensures within { (tree : JsonTree) → IsPlanOf plan.now tree
            → IfNone result (IsWithin self.now parent.0 tree.branch) }
        ensures tree { IfNone result (IsTree self.now) }
    {
        if has_long(&plan.views) {
            return Some(LimitWord::Name);
        }
        if !self.has_room(plan.views.len()) {
            return Some(LimitWord::Views);
        }
        if self.is_deep(parent, plan.height) {
            return Some(LimitWord::Depth);
        }
        None
    }

    // Whether a live view has the name, or a metric, or a view before it in the plan.
    fn is_held(&self, name: &str, metrics: &Metrics, before: &NameMap<()>) -> bool
        ensures { result ≡ is_held self.now metrics.now (names_of before.now) name.now }
    {
        self.has_name(name) || metrics.get(name).is_some() || before.get(name).is_some()
    }

    // The first of the names that is held.
    fn first_held<'v>(
        &self,
        views: &[Planned<'v>],
        metrics: &Metrics,
    ) -> Result<Option<&'v str>, OutOfMemory>
        ensures free { IfOk result (λ found. IfNone found
            (AreFree self.now metrics.now [] (names_of_plan views.now))) }
        ensures held { IfOk result (λ found. IfSome found
            (λ name. IsFirstHeld self.now metrics.now (names_of_plan views.now) name.now)) }
    {
        let mut before = NameMap::new(self.allocator());
        for view in views {
            if self.is_held(view.name, metrics, &before) {
                return Ok(Some(view.name));
            }
            before.add(view.name, ())?;
        }
        Ok(None)
    }

    // Adds a view that may be added.
    fn add_planned(&mut self, view: &Planned<'_>) -> Result<(), OutOfMemory>
        requires live { IsSome (view_named self.old.views view.now.parent.now) }
        requires new { IsNewView self.old view.now.name.now (id_named self.old view.now.parent.now) }
        ensures added { OnOk result (self.new
            ≡ with_view self.old view.now.name.now (id_named self.old view.now.parent.now)) }
        ensures unchanged { OnErr result (self.new ≡ self.old) }
    {
        let Some(parent) = self.find(view.parent) else {
            unreachable!()
        };
        match self.add(view.name, parent) {
            Ok(_) => Ok(()),
            Err(ViewStop::OutOfMemory) => Err(OutOfMemory),
            Err(ViewStop::Unknown) => unreachable!(),
            Err(ViewStop::Taken) => unreachable!(),
            Err(ViewStop::Limit(_)) => unreachable!(),
        }
    }

    // Adds the views of a plan, all or none.
    fn add_all(&mut self, views: &[Planned<'_>]) -> Result<(), OutOfMemory>
        requires { AreNew self.old (pairs_of views.now) }
        ensures grown { OnOk result (self.new ≡ grown self.old (pairs_of views.now)) }
        ensures unchanged { OnErr result (self.new ≡ self.old) }
    {
        let len = self.len();
        for view in views {
            match self.add_planned(view) {
                Ok(()) => (),
                Err(stop) => {
                    self.take_back_views(self.len() - len);
                    return Err(stop);
                }
            }
        }
        Ok(())
    }

    // The view that a plan goes in.
    fn parent_of(&self, plan: &Plan<'_>) -> Result<ViewId, TreeStop>
        ensures found { IfOk result (λ parent. PlanGoesIn self.now plan.now parent.0) }
        ensures stop { IfErr result (λ stop. (metrics : List (List ℕ × Fraction))
            → MayLeaveOut self.now metrics plan.now stop) }
    {
        let Some(parent) = self.find(plan.place) else {
            let name = OwnedName::of(self.allocator(), plan.place.as_bytes())?;
            return Err(TreeStop::Unknown(name));
        };
        Ok(parent)
    }

    // That none of a plan's names is held.
    fn holds_none(&self, plan: &Plan<'_>, metrics: &Metrics) -> Result<(), TreeStop>
        requires { IsSome (view_named self.now.views plan.now.place.now) }
        ensures free { OnOk result (AreFree self.now metrics.now [] (names_of_plan plan.now.views.items)) }
        ensures stop { IfErr result (MayLeaveOut self.now metrics.now plan.now) }
    {
        let Some(name) = self.first_held(&plan.views, metrics)? else {
            return Ok(());
        };
        let name = OwnedName::of(self.allocator(), name.as_bytes())?;
        Err(TreeStop::Taken(name))
    }

    // That the views of a plan may be added.
    fn may_add(&self, plan: &Plan<'_>, metrics: &Metrics) -> Result<(), TreeStop>
        ensures addable { OnOk result (IsAddable self.now metrics.now plan.now) }
        ensures stop { IfErr result (MayLeaveOut self.now metrics.now plan.now) }
    {
        let parent = self.parent_of(plan)?;
        self.holds_none(plan, metrics)?;
        match self.plan_limit(plan, parent) {
            Some(word) => Err(TreeStop::Limit(word)),
            None => Ok(()),
        }
    }

    // Adds the views of a plan, and answers how many they are.
    fn add_plan(&mut self, plan: &Plan<'_>, metrics: &Metrics) -> Result<u32, TreeStop>
        requires { IsPlan plan.now }
        ensures grown { IfOk result (λ count. (text : List ℕ) (tree : JsonTree) → IsTreeText text tree
            → IsPlanOf plan.now tree → IsGrown self.old metrics.now text self.new count) }
        ensures refused { IfErr result (MayLeaveOut self.old metrics.now plan.now) }
        ensures unchanged { OnErr result (self.new ≡ self.old) }
    {
        self.may_add(plan, metrics)?;
        self.add_all(&plan.views)?;
        Ok(plan.views.len() as u32)
    }

    /// Adds the views of a tree that is written as JSON, each before those in it, and answers how many they
    /// are.
    ///
    /// A tree is an object with the member `name`, a name, and at most the members `children`, an array of
    /// such objects, and, in the outermost object alone, `in`, the name of the view that the tree goes in,
    /// which is the window where the member is left out. A member that stands twice means its last value.
    /// The numbers of the views go up one by one from the next one.
    ///
    /// `Syntax` where the bytes aren't JSON, otherwise `Shape` where the value has another shape, otherwise
    /// `Unknown` where no live view has the name under `in`, otherwise `Taken` with the first name that a
    /// live view has, or a metric, or an earlier object of the tree, otherwise the first limit that would be
    /// passed: `Name`, `Views` or `Depth`. After a refusal all is as before.
    pub fn add_json(&mut self, json: &[u8], metrics: &Metrics) -> Result<u32, TreeStop>
        ensures grown { IfOk result (IsGrown self.old metrics.now json.now self.new) }
        ensures refused { IfErr result (MayStayOut self.old metrics.now json.now) }
        ensures unchanged { OnErr result (self.new ≡ self.old) }
    {
        let alloc = self.allocator();
        let Some(value) = value_of(alloc, json)? else {
            return Err(TreeStop::Syntax);
        };
        let plan = shaped(alloc, &value)?;
        self.add_plan(&plan, metrics)
    }
}
