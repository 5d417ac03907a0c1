// The session, and what each command does to it.
mod moved;

ghost use Rattle.std.specs.Prelude.{◌≡◌, ◌<◌, ◌≤◌, ◌⊎◌, true, false, length, None};
ghost use Rattle.std.specs.Prelude.{Option, Some, ℕ, IfOk, IfErr, IfSome, IfNone, OnOk, OnErr, OnSome};
ghost use Rattle.session_undo.specs.Machine.{IsNoBudget};
ghost use Rattle.held_items.specs.declared.row_numbers.TheConstants.{INTRINSIC_ROWS, SIZE_ROWS};

use crate::changes::{Pulls, Ranks, later_intrinsic, parent_or_window, put_metric};
use crate::limits::{BUDGET_LIMIT, FIRST_LIMITS, Limits};
use crate::reply::{
    NoEarlier, Refusal, Reply, Stretches, answer_of, core_refusal, probe_refusal, sweep_refusal,
    tree_refusal,
};
use crate::wishes::{NewIntrinsic, NewSuggestion};
use compile_parts::{CompileStop, KindWord, resolve_rank};
use constraint_compile::{
    Compiled, Suggestion, USUAL_RANK, compile_line, priority_or, suggested_constant,
};
use corner_view::Tableau;
use format_compile::{compile_format, format_row_count};
use frac_core::{Frac, OutOfMemory, Stop};
use held_items::{
    HeldSize, INTRINSIC_ROWS, IntrinsicSize, Item, Leaver, NewItem, NewViews, Own, Renewal,
    SIZE_ROWS, USUAL_HUG, USUAL_RESIST, VIEW_ROWS, WindowSize, fits_after, intrinsic_name,
    is_near_size, small_line_rows, suggestion_name,
};
use layout_solver::Engine;
use name_tables::{LimitWord, Metrics, NAME_LIMIT, OwnedName};
use problem_core::{NUMBER_LIMIT, Problem, Values};
use scenes::{Draft, FIRST_BUDGET, NewMetrics, Scene};
use script_text::{
    Align, AttrWord, Change, Coming, Command, Leaving, Linear, Plain, Reading, Updating, Version,
};
use span_text::Object;
use std::alloc::Global;
use std::cmp::Ordering;
use std::marker::Model;
use vfl_text::Format;
use view_tree::{TreeStop, ViewId, ViewStop};

// Whether so many exchanges are no valid budget.
fn is_no_budget(exchanges: u64) -> bool
    ensures yes { result ≡ true → IsNoBudget exchanges }
    ensures no { result ≡ false → IsNoBudget exchanges → ⊥ }
{
    exchanges == 0 || exchanges > BUDGET_LIMIT
}

/// A scene, how many exchanges each run may make, how much may be held, and the version of the script.
#[derive(Drop)]
pub struct Session<T: Tableau> {
    scene: Scene<T>,
    budget: u64,
    limits: Limits,
    version: Version,
    alloc: Global,
}

impl<T: Tableau> Model for Session<T> {
    ghost use Rattle.session_undo.specs.State.{State};
    ghost use Rattle.session_undo.specs.Kept.{AreLimitsOf, AreWithin, limits_of, session_at};

    ghost Value = { State };

    ghost view = { λ s. session_at s.scene s.budget s.limits s.version };

    ghost invariant = { λ s. AreWithin (limits_of s.limits) × AreLimitsOf s.scene (limits_of s.limits) };
}

impl<T: Tableau> Session<T> {
    ghost use Rattle.script_text.specs.Directions.{line_in};
    ghost use Rattle.script_text.specs.Meaning as mean;
    ghost use Rattle.script_text.specs.View.{change_view, coming_view, leaving_view, linear_view};
    ghost use Rattle.script_text.specs.View.{name_view, plain_view, reading_view, updating_view, view};
    ghost use Rattle.vfl_text.specs.View.{meaning};
    ghost use Rattle.view_tree.specs.JsonStops as json;
    ghost use Rattle.view_tree.specs.Views.{IsTree, view_of};
    ghost use Rattle.scenes.specs.Scene.{metrics_with, values_by_number};
    ghost use Rattle.constraint_compile.specs.Compiled.{AreSmallForms, CompiledLine};
    ghost use Rattle.constraint_compile.specs.Stops.{IsCompiled};
    ghost use Rattle.format_compile.specs.FormatRows.{IsCompiledFormat};
    ghost use Rattle.held_items.specs.Attributes.{IsNextLine};
    ghost use Rattle.scenes.specs.Drafts.{AreComing, IsViewNamed};
    ghost use Rattle.session_undo.specs.Adding.{AddStop, IsFreeMetric, IsFreeName};
    ghost use Rattle.session_undo.specs.Adding.{IsFreeSuggestion, IsFreeTree, IsFreeView, IsGoing};
    ghost use Rattle.session_undo.specs.Adding.{IsGroupFree, IsGroupLimit, IsHeldSuggestion, IsLineFree};
    ghost use Rattle.session_undo.specs.Adding.{IsLineLimit, IsNewLine, IsRefused, IsSuggestionFor};
    ghost use Rattle.session_undo.specs.Adding.{IsSuggestionOf, IsViewMore, NoAnswer, NoEnd, StopStep};
    ghost use Rattle.session_undo.specs.Adding.{SuggestStep, UnlessUnfree, ViewStep};
    ghost use Rattle.scenes.specs.Frames.{IsFrameOf};
    ghost use Rattle.session_undo.specs.Kept.{AreWithin, limits_of};
    ghost use Rattle.session_undo.specs.State.{IsFirst, IsFirstOf, IsFirstWith};
    ghost use Rattle.session_undo.specs.Replies.{Accepting, Done, Limit, MayRefuse, Refusing};
    ghost use Rattle.held_items.specs.Items.{has_size, size_of};
    ghost use Rattle.held_items.specs.Kept.{size_in};
    ghost use Rattle.session_undo.specs.Machine.{AreTooMany, Certifies, ChangeStep, CommandStep, Diagnoses};
    ghost use Rattle.session_undo.specs.Machine.{EndsAs, IsCrowded, IsTaken, PlainStep, Poses, PosesChange};
    ghost use Rattle.session_undo.specs.Machine.{Suggests, Tried};
    ghost use Rattle.session_undo.specs.Machine.{TriedLeave, TriedUpdate, TriedViews};
    ghost use Rattle.session_undo.specs.Machine.{TriedConstraint, TriedDrop, TriedFormat};
    ghost use Rattle.session_undo.specs.Machine.{TriedMetric, TriedRelease, TriedRemove, TriedSuggest};
    ghost use Rattle.session_undo.specs.Machine.{TriedTree, TriedView, TriedWindow};
    ghost use Rattle.session_undo.specs.Machine.{AreKnownPulls, IsRankless, Sizes, TriedSize, TriedUnsize};
    ghost use Rattle.session_undo.specs.Machine.{UnlessPullsRankless, UnlessRankless, UnlessUnknown};
    ghost use Rattle.session_undo.specs.Machine.{TriedKeep, intrinsic_at};
    ghost use Rattle.session_undo.specs.Machine.{IsNoSweep, IsSweepFree, Sweeps, TriedSweep};
    ghost use Rattle.session_undo.specs.Adding.{AreRanks, IsFreeIntrinsic, IsHeldIntrinsic, IsIntrinsicFor};
    ghost use Rattle.session_undo.specs.Adding.{SizeStep};
    ghost use Rattle.session_undo.specs.Explaining.{ExplainsDraft, SaidStep, WhyStep};
    ghost use Rattle.held_items.specs.Moving.{FitsAfter};
    ghost use Rattle.compile_parts.specs.Meaning.{IsRank, unknown_object};
    ghost use Rattle.constraint_compile.specs.Suggestions.{priority_or, suggested_priority};
    ghost use Rattle.span_text.specs.Objects.{Meant, object_view};
    ghost use Rattle.session_undo.specs.Asking.{IsDraft};
    ghost use Rattle.scenes.specs.Drafts.{MayTake, drafted, kind_of};
    ghost use Rattle.held_items.specs.Leaving.{is_in_group};
    ghost use Rattle.std.specs.List.{list_any};
    ghost use Rattle.session_undo.specs.Replies as reply;

    /// A session of version 1: the window alone, and a budget of 100,000 exchanges.
    pub fn new(alloc: Global) -> Result<Session<T>, OutOfMemory>
        ensures { IfOk result IsFirst }
    {
        Session::with_version(alloc, Version::One)
    }

    /// The window alone, and a budget of 100,000 exchanges, for a script of this version.
    pub fn with_version(alloc: Global, version: Version) -> Result<Session<T>, OutOfMemory>
        ensures { IfOk result (IsFirstOf version) }
    {
        Session::with(alloc, version, FIRST_LIMITS)
    }

    /// The window alone, for a script of this version, with these limits.
    pub fn with(alloc: Global, version: Version, limits: Limits) -> Result<Session<T>, OutOfMemory>
        requires { AreWithin (limits_of limits) }
        ensures { IfOk result (IsFirstWith (limits_of limits) version) }
    {
        Ok(Session {
            scene: Scene::with(alloc, limits.views as u32, limits.undo)?,
            budget: FIRST_BUDGET,
            limits,
            version,
            alloc,
        })
    }

    /// How much may be held.
    pub fn limits(&self) -> Limits
        ensures value { limits_of result ≡ self.now.limits }
        ensures within { AreWithin (limits_of result) }
    {
        self.limits
    }

    /// The version of the script, whose grammar lines follow.
    pub fn version(&self) -> Version
        ensures { result ≡ self.now.version }
    {
        self.version
    }

    // Whether so many more rows would be too many, or one would have too large a number.
    fn is_crowded(&self, count: usize) -> bool
        ensures yes { result ≡ true → IsCrowded self.now count }
        ensures no { result ≡ false → IsCrowded self.now count → ⊥ }
    {
        let held = self.scene.engine().rows().len();
        if count > self.limits.rows || held > self.limits.rows - count {
            return true;
        }
        u64::from(self.scene.next_row()) + count as u64 > u64::from(NUMBER_LIMIT)
    }

    // Whether a view or a metric has the name.
    fn is_taken(&self, name: &str) -> bool
        ensures yes { result ≡ true → IsTaken self.now.scene name.now }
        ensures no { result ≡ false → IsTaken self.now.scene name.now → ⊥ }
    {
        if self.scene.tree().find(name).is_some() {
            return true;
        }
        self.scene.metrics().get(name).is_some()
    }

    // Whether the limit of views is reached.
    fn has_all_views(&self) -> bool
        ensures yes { result ≡ true → self.now.limits.views ≤ length self.now.scene.tree.views }
        ensures no { result ≡ false → length self.now.scene.tree.views < self.now.limits.views }
    {
        self.scene.tree().len() >= self.limits.views
    }

    // Whether a view may have this name, or the refusal. It doesn't depend on the parent.
    fn free_name(&self, name: &str) -> Result<(), Refusal>
        ensures free { OnOk result (IsFreeName self.now name.now) }
        ensures refused { Refusing (UnlessUnfree self.now name.now (λ reply new. ⊥)) self.now result }
    {
        if self.is_taken(name) {
            return Err(Refusal::Taken(OwnedName::of(self.alloc, name.as_bytes())?));
        }
        if name.len() > NAME_LIMIT {
            return Err(Refusal::Limit(LimitWord::Name));
        }
        if self.has_all_views() {
            return Err(Refusal::Limit(LimitWord::Views));
        }
        Ok(())
    }

    // The views with one more of this name below this one, or the limit of the tree that it would pass.
    fn views_with(&self, name: &str, above: ViewId) -> Result<NewViews, Refusal>
        requires free { IsFreeName self.now name.now }
        requires live { view_of self.now.scene.tree.views above.0 ≡ None → ⊥ }
        ensures made { IfOk result (IsViewMore self.now.scene name.now above.0) }
        ensures refused { Refusing (ViewStep self.now name.now above.0) self.now result }
    {
        let views = self.scene.tree();
        let _before = views.len(); // for the proof: what a tree keeps
        let mut tree = views.copy()?;
        match tree.add(name, above) {
            Ok(first_view) => {
                let _after = tree.len(); // for the proof: what a tree keeps
                let own = Own::of(self.alloc, tree)?;
                Ok(NewViews {
                    tree: own,
                    first_view,
                    count: 1,
                })
            }
            Err(ViewStop::Limit(word)) => Err(Refusal::Limit(word)),
            Err(ViewStop::OutOfMemory) => Err(Refusal::OutOfMemory),
            Err(ViewStop::Taken) => unreachable!(),
            Err(ViewStop::Unknown) => unreachable!(),
        }
    }

    // The views with a new one below the view of the name `parent`.
    fn new_view(&self, name: &str, parent: &str) -> Result<NewViews, Refusal>
        ensures made { IfOk result
            (λ new. IsFreeView self.now name.now parent.now new.tree new.first_view.0) }
        ensures one { IfOk result (λ new. new.count ≡ 1) }
        ensures grown { IfOk result (AreComing self.now.scene) }
        ensures refused { IfErr result
            (MayRefuse (λ reply. TriedView self.now name.now parent.now NoEnd reply self.now)) }
    {
        let Some(above) = self.scene.tree().find(parent) else {
            return Err(Refusal::Unknown(OwnedName::of(self.alloc, parent.as_bytes())?));
        };
        self.free_name(name)?;
        let new = self.views_with(name, above)?;
        if self.is_crowded(VIEW_ROWS as usize) {
            return Err(Refusal::Limit(LimitWord::Rows));
        }
        Ok(new)
    }

    // The views with those of a tree, or what is wrong with it.
    fn views_with_tree(&self, text: &[u8]) -> Result<NewViews, TreeStop>
        ensures made { IfOk result
            (λ new. json.IsGrown self.now.scene.tree self.now.scene.metrics text.now new.tree new.count) }
        ensures first { IfOk result (λ new. new.first_view.0 ≡ self.now.scene.tree.next) }
        ensures grown { IfOk result (AreComing self.now.scene) }
        ensures stop { IfErr result
            (json.MayStayOut self.now.scene.tree self.now.scene.metrics text.now) }
    {
        let views = self.scene.tree();
        let before = views.len();
        let mut tree = views.copy()?;
        let count = tree.add_json(text, self.scene.metrics())?;
        let _after = tree.len(); // for the proof: what a tree keeps
        // The tree has at least one view.
        let Some(first) = tree.at(before) else {
            unreachable!()
        };
        let first_view = first.id;
        let own = Own::of(self.alloc, tree)?;
        Ok(NewViews {
            tree: own,
            first_view,
            count,
        })
    }

    // The views with those of a tree, whose text begins at this offset of its line.
    fn new_tree(&self, text: &[u8], start: usize) -> Result<NewViews, Refusal>
        ensures made { IfOk result (λ new. IsFreeTree self.now text.now new.tree new.first_view.0 new.count) }
        ensures grown { IfOk result (AreComing self.now.scene) }
        ensures refused { Refusing (TriedTree self.now text.now start NoEnd) self.now result }
    {
        match self.views_with_tree(text) {
            Ok(new) => {
                if self.is_crowded(VIEW_ROWS as usize * new.count as usize) {
                    return Err(Refusal::Limit(LimitWord::Rows));
                }
                Ok(new)
            }
            Err(stop) => Err(tree_refusal(start, stop)),
        }
    }

    // The metrics with this value of one, if there is room for it.
    fn metrics_with(&self, name: &str, value: Frac) -> Result<Option<Own<Metrics>>, OutOfMemory>
        ensures made { IfOk result (λ o. IfSome o
            (λ metrics. metrics ≡ metrics_with self.now.scene.metrics name.now value)) }
        ensures room { IfOk result
            (λ o. OnSome o (AreTooMany self.now.scene.metrics name.now → ⊥)) }
        ensures full { IfOk result (λ o. IfNone o (AreTooMany self.now.scene.metrics name.now)) }
    {
        let mut metrics = self.scene.metrics().copy()?;
        if !put_metric(&mut metrics, name, value)? {
            return Ok(None);
        }
        Ok(Some(Own::of(self.alloc, metrics)?))
    }

    // The metrics with this one new or changed, and the changes of constants for it.
    fn new_metrics(&self, name: &str, value: Frac) -> Result<NewMetrics, Refusal>
        ensures made { IfOk result (λ new. IsFreeMetric self.now name.now value new.metrics new.to.items) }
        ensures refused { Refusing (TriedMetric self.now name.now value NoEnd) self.now result }
    {
        if self.scene.tree().find(name).is_some() {
            return Err(Refusal::Taken(OwnedName::of(self.alloc, name.as_bytes())?));
        }
        if name.len() > NAME_LIMIT {
            return Err(Refusal::Limit(LimitWord::Name));
        }
        let Some(metrics) = self.metrics_with(name, value)? else {
            return Err(Refusal::Limit(LimitWord::Metrics));
        };
        match self.scene.changes_for(metrics.get(), name) {
            Ok(to) => Ok(NewMetrics { metrics, to }),
            Err(Stop::Refused(_)) => Err(Refusal::Limit(LimitWord::Constant)),
            Err(Stop::OutOfMemory) => Err(Refusal::OutOfMemory),
        }
    }

    // The limit that one more line of this group would pass, not counting rows.
    fn group_limit(&self, group: &str) -> Option<LimitWord>
        ensures full { IfSome result (IsGroupLimit self.now group.now) }
        ensures free { IfNone result (IsGroupFree self.now group.now) }
    {
        if group.len() > NAME_LIMIT {
            return Some(LimitWord::Name);
        }
        if self.scene.has_lines(self.limits.lines) {
            return Some(LimitWord::Lines);
        }
        None
    }

    // The limit that one more line of this group with so many rows would pass.
    fn limit_before(&self, group: &str, count: usize) -> Option<LimitWord>
        ensures full { IfSome result (IsLineLimit self.now group.now count) }
        ensures free { IfNone result (IsLineFree self.now group.now count) }
    {
        if let Some(word) = self.group_limit(group) {
            return Some(word);
        }
        if self.is_crowded(count) {
            return Some(LimitWord::Rows);
        }
        None
    }

    // The line, with its rows and room for them.
    fn new_line(&self, group: &str, line: Compiled) -> Result<NewItem, Refusal>
        requires small { AreSmallForms self.now.scene.metrics line.rows }
        requires next { IsNextLine self.now.scene.tree.views self.now.scene.next_row line }
        ensures made { IfOk result (IsNewLine self.now group.now line) }
        ensures refused { Refusing (AddStop self.now group.now line) self.now result }
    {
        let rows = small_line_rows(self.alloc, &line, self.scene.metrics())?;
        if let Some(word) = self.limit_before(group, rows.len()) {
            return Err(Refusal::Limit(word));
        }
        let group = OwnedName::of(self.alloc, group.as_bytes())?;
        let item = Own::of(self.alloc, Item::OfLine { group, line })?;
        Ok(NewItem { item, rows })
    }

    // The refusal of a line of so many rows that doesn't compile.
    fn line_refusal(&self, group: &str, count: usize, stop: CompileStop) -> Refusal
        ensures { MayRefuse (λ reply. StopStep self.now group.now count stop reply self.now) result }
    {
        match stop {
            CompileStop::Unknown(name) => Refusal::Unknown(name),
            CompileStop::OutOfMemory => Refusal::OutOfMemory,
            CompileStop::Kind(word) => match self.group_limit(group) {
                Some(limit) => Refusal::Limit(limit),
                None => Refusal::Kind(word),
            },
            CompileStop::Limit(word) => match self.limit_before(group, count) {
                Some(limit) => Refusal::Limit(limit),
                None => Refusal::Limit(word),
            },
        }
    }

    // The line that a linear constraint makes.
    fn new_constraint(&self, group: &str, line: &Linear<'_>) -> Result<NewItem, Refusal>
        ensures made { IfOk result (λ new. (compiled : CompiledLine)
            × IsCompiled self.now.scene.tree.views self.now.scene.metrics
            (line_in self.now.scene.direction (linear_view line.now)) self.now.scene.next_row compiled
            × IsNewLine self.now group.now compiled new) }
        ensures refused { Refusing
            (TriedConstraint self.now group.now (linear_view line.now) NoEnd) self.now result }
    {
        let (tree, metrics) = (self.scene.tree(), self.scene.metrics());
        let (id, direction) = (self.scene.next_row(), self.scene.direction());
        match compile_line(self.alloc, tree, metrics, line, id, direction) {
            Ok(compiled) => self.new_line(group, compiled),
            Err(stop) => Err(self.line_refusal(group, 1, stop)),
        }
    }

    // The line that a format makes.
    fn new_format(
        &self,
        group: &str,
        align: Option<Align>,
        format: &Format<'_>,
    ) -> Result<NewItem, Refusal>
        ensures made { IfOk result (λ new. (compiled : CompiledLine)
            × IsCompiledFormat self.now.scene.tree.views self.now.scene.metrics
            (meaning format.now) align self.now.scene.direction self.now.scene.next_row compiled
            × IsNewLine self.now group.now compiled new) }
        ensures refused { Refusing
            (TriedFormat self.now group.now align (meaning format.now) NoEnd) self.now result }
    {
        let (tree, metrics) = (self.scene.tree(), self.scene.metrics());
        let _count = tree.len(); // for the proof: what a tree keeps
        let direction = self.scene.direction();
        match compile_format(
            self.alloc,
            tree,
            metrics,
            format,
            align,
            self.scene.next_row(),
            direction,
        ) {
            Ok(compiled) => self.new_line(group, compiled),
            Err(stop) => {
                let count = format_row_count(self.alloc, format, align, direction)?;
                Err(self.line_refusal(group, count, stop))
            }
        }
    }

    // The views that go with the view of this name.
    fn going(&self, name: &str) -> Result<Vec<u32>, Refusal>
        ensures going { IfOk result (λ gone. IsGoing self.now.scene name.now gone.items) }
        ensures refused { Refusing (TriedDrop self.now name.now NoEnd) self.now result }
    {
        let views = self.scene.tree();
        let Some(root) = views.find(name) else {
            return Err(Refusal::Unknown(OwnedName::of(self.alloc, name.as_bytes())?));
        };
        if root.0 == 0 {
            return Err(Refusal::Kind(KindWord::Window));
        }
        Ok(views.subtree(root)?)
    }

    // The name of a group, if a line of it is held.
    fn held_group(&self, group: &str) -> Result<OwnedName, Refusal>
        ensures is { IfOk result (λ name. name ≡ group.now) }
        ensures held { OnOk result (list_any (is_in_group group.now) self.now.scene.held ≡ true) }
        ensures refused { Refusing (TriedRemove self.now group.now NoEnd) self.now result }
    {
        let name = OwnedName::of(self.alloc, group.as_bytes())?;
        if !self.scene.has_group(group.as_bytes()) {
            return Err(Refusal::Unknown(name));
        }
        Ok(name)
    }

    // The rank that a priority stands for, if any. If none is written, it is the usual one.
    fn known_rank(&self, priority: Option<Object<'_>>, usual: u16) -> Result<Option<u16>, Refusal>
        ensures some { IfOk result (λ o. IfSome o (IsRank self.now.scene.tree.views self.now.scene.metrics
            (priority_or usual (object_view priority.entry)))) }
        ensures none { IfOk result (λ o. IfNone o (IsRankless self.now.scene
            (priority_or usual (object_view priority.entry)))) }
        ensures known { OnOk result (unknown_object self.now.scene.tree.views self.now.scene.metrics
            (priority_or usual (object_view priority.entry)) ≡ None) }
        ensures refused { Refusing (UnlessUnknown self.now (priority_or usual (object_view priority.entry))
            (λ reply new. ⊥)) self.now result }
    {
        let (tree, metrics) = (self.scene.tree(), self.scene.metrics());
        let priority = priority_or(priority, usual);
        match resolve_rank(tree, metrics, &priority) {
            Ok(rank) => Ok(rank),
            Err(name) => Err(Refusal::Unknown(OwnedName::of(self.alloc, name.as_bytes())?)),
        }
    }

    // The rank that a suggestion's priority stands for.
    fn rank_of(&self, priority: Option<Object<'_>>) -> Result<u16, Refusal>
        ensures rank { IfOk result (IsRank self.now.scene.tree.views self.now.scene.metrics
            (suggested_priority (object_view priority.entry))) }
        ensures known { OnOk result (unknown_object self.now.scene.tree.views self.now.scene.metrics
            (suggested_priority (object_view priority.entry)) ≡ None) }
        ensures refused { Refusing (UnlessRankless self.now (suggested_priority (object_view priority.entry))
            (λ reply new. ⊥)) self.now result }
    {
        match self.known_rank(priority, USUAL_RANK)? {
            Some(rank) => Ok(rank),
            None => Err(Refusal::Kind(KindWord::Priority)),
        }
    }

    // The ranks at which a size hugs and resists. An unknown name is refused before a priority that stands
    // for no rank.
    fn ranks_of(&self, pulls: Pulls<'_>) -> Result<Ranks, Refusal>
        ensures ranks { IfOk result (AreRanks self.now.scene (object_view pulls.entry.hug)
            (object_view pulls.entry.resist)) }
        ensures known { OnOk result (AreKnownPulls self.now.scene (object_view pulls.entry.hug)
            (object_view pulls.entry.resist)) }
        ensures refused { Refusing (UnlessPullsRankless self.now (object_view pulls.entry.hug)
            (object_view pulls.entry.resist) (λ reply new. ⊥)) self.now result }
    {
        let hug = self.known_rank(pulls.hug, USUAL_HUG)?;
        let resist = self.known_rank(pulls.resist, USUAL_RESIST)?;
        let Some(hug) = hug else {
            return Err(Refusal::Kind(KindWord::Priority));
        };
        let Some(resist) = resist else {
            return Err(Refusal::Kind(KindWord::Priority));
        };
        Ok(Ranks { hug, resist })
    }

    // The first suggestion of an attribute of the view.
    fn first_suggestion(
        &self,
        view: ViewId,
        rank: u16,
        word: AttrWord,
        value: Frac,
    ) -> Result<Suggestion, LimitWord>
        ensures made { IfOk result (IsSuggestionOf view.0 word value) }
        ensures row { IfOk result (λ s. (s.row ≡ self.now.scene.next_row) × (s.rank ≡ rank)) }
        ensures direction { IfOk result (λ s. s.direction ≡ self.now.scene.direction) }
        ensures room { OnOk result (IsCrowded self.now 1 → ⊥) }
        ensures stop { IfErr result (λ limit. (priority : Option Meant)
            → Suggests self.now view.0 word value priority rank None NoEnd (Limit limit) self.now) }
    {
        if self.is_crowded(1) {
            return Err(LimitWord::Rows);
        }
        let Some(constant) = suggested_constant(word, value) else {
            return Err(LimitWord::Constant);
        };
        Ok(Suggestion {
            row: self.scene.next_row(),
            rank,
            view: view.0,
            word,
            direction: self.scene.direction(),
            constant,
        })
    }

    // A suggestion that is held, with another constant.
    fn later_suggestion(
        &self,
        held: &Suggestion,
        view: ViewId,
        word: AttrWord,
        value: Frac,
    ) -> Result<Suggestion, LimitWord>
        ensures made { IfOk result (IsSuggestionOf view.0 word value) }
        ensures row { IfOk result (λ s. s.row ≡ held.now.row) }
        ensures near { IfOk result (λ s. FitsAfter held.now.constant s.constant) }
        ensures stop { IfErr result (λ limit. (rank : ℕ)
            → Suggests self.now view.0 word value None rank (Some held.now) NoEnd (Limit limit) self.now) }
    {
        let Some(constant) = suggested_constant(word, value) else {
            return Err(LimitWord::Constant);
        };
        if !fits_after(held.constant, constant) {
            return Err(LimitWord::Constant);
        }
        Ok(Suggestion {
            row: held.row,
            rank: held.rank,
            view: view.0,
            word,
            direction: held.direction,
            constant,
        })
    }

    // A suggestion for an attribute of the view: the first one, or a new constant.
    fn suggestion_for(
        &self,
        view: ViewId,
        word: AttrWord,
        value: Frac,
        priority: Option<Object<'_>>,
    ) -> Result<NewSuggestion, Refusal>
        ensures made { IfOk result (IsSuggestionFor self.now view.0 word value (object_view priority.entry)) }
        ensures refused { Refusing
            (SuggestStep self.now view.0 word value (object_view priority.entry)) self.now result }
    {
        let rank = self.rank_of(priority)?;
        let Some(held) = self.scene.suggestion(view, word) else {
            return match self.first_suggestion(view, rank, word, value) {
                Ok(new) => Ok(NewSuggestion::First(new)),
                Err(limit) => Err(Refusal::Limit(limit)),
            };
        };
        if priority.is_some() {
            return Err(Refusal::Kind(KindWord::Suggested));
        }
        match self.later_suggestion(&held, view, word, value) {
            Ok(again) => Ok(NewSuggestion::Again(again)),
            Err(limit) => Err(Refusal::Limit(limit)),
        }
    }

    // A suggestion for an attribute of the view of this name.
    fn new_suggestion(
        &self,
        name: &str,
        word: AttrWord,
        value: Frac,
        priority: Option<Object<'_>>,
    ) -> Result<NewSuggestion, Refusal>
        ensures made { IfOk result
            (IsFreeSuggestion self.now name.now word value (object_view priority.entry)) }
        ensures refused { Refusing
            (TriedSuggest self.now name.now word value (object_view priority.entry) NoEnd) self.now result }
    {
        let Some(view) = self.scene.tree().find(name) else {
            return Err(Refusal::Unknown(OwnedName::of(self.alloc, name.as_bytes())?));
        };
        self.suggestion_for(view, word, value, priority)
    }

    // The first size of the view.
    fn first_intrinsic(
        &self,
        view: ViewId,
        size: &WindowSize,
        ranks: Ranks,
    ) -> Result<IntrinsicSize, LimitWord>
        ensures is { IfOk result (λ s. s ≡ intrinsic_at self.now.scene.next_row view.0 size.now.width
            size.now.height ranks.hug ranks.resist) }
        ensures room { OnOk result (IsCrowded self.now INTRINSIC_ROWS → ⊥) }
        ensures stop { IfErr result (λ limit. (hug resist : Option Meant)
            → Sizes self.now view.0 size.now.width size.now.height hug resist ranks.hug ranks.resist None
            NoEnd (Limit limit) self.now) }
    {
        if self.is_crowded(INTRINSIC_ROWS as usize) {
            return Err(LimitWord::Rows);
        }
        Ok(IntrinsicSize {
            first_row: self.scene.next_row(),
            view: view.0,
            width: size.width,
            height: size.height,
            resist: ranks.resist,
            hug: ranks.hug,
        })
    }

    // The size that the view would like: the first one, or new constants.
    fn intrinsic_for(
        &self,
        view: ViewId,
        size: &WindowSize,
        pulls: Pulls<'_>,
    ) -> Result<NewIntrinsic, Refusal>
        ensures made { IfOk result (IsIntrinsicFor self.now view.0 size.now.width size.now.height
            (object_view pulls.entry.hug) (object_view pulls.entry.resist)) }
        ensures refused { Refusing (SizeStep self.now view.0 size.now.width size.now.height
            (object_view pulls.entry.hug) (object_view pulls.entry.resist)) self.now result }
    {
        let ranks = self.ranks_of(pulls)?;
        let Some(held) = self.scene.intrinsic(view) else {
            return match self.first_intrinsic(view, size, ranks) {
                Ok(new) => Ok(NewIntrinsic::First(new)),
                Err(limit) => Err(Refusal::Limit(limit)),
            };
        };
        if pulls.is_written() {
            return Err(Refusal::Kind(KindWord::Sized));
        }
        match later_intrinsic(&held, size) {
            Some(again) => Ok(NewIntrinsic::Again(again)),
            None => Err(Refusal::Limit(LimitWord::Constant)),
        }
    }

    // The size that the view of this name would like.
    fn new_intrinsic(
        &self,
        name: &str,
        size: &WindowSize,
        pulls: Pulls<'_>,
    ) -> Result<NewIntrinsic, Refusal>
        ensures made { IfOk result (IsFreeIntrinsic self.now name.now size.now.width size.now.height
            (object_view pulls.entry.hug) (object_view pulls.entry.resist)) }
        ensures refused { Refusing (TriedSize self.now name.now size.now.width size.now.height
            (object_view pulls.entry.hug) (object_view pulls.entry.resist) NoEnd) self.now result }
    {
        let Some(view) = self.scene.tree().find(name) else {
            return Err(Refusal::Unknown(OwnedName::of(self.alloc, name.as_bytes())?));
        };
        self.intrinsic_for(view, size, pulls)
    }

    // The view of this name, if a size of it is held.
    fn sized(&self, name: &str) -> Result<ViewId, Refusal>
        ensures held { IfOk result (λ id. IsHeldIntrinsic self.now.scene name.now id.0) }
        ensures refused { Refusing (TriedUnsize self.now name.now NoEnd) self.now result }
    {
        let Some(view) = self.scene.tree().find(name) else {
            return Err(Refusal::Unknown(OwnedName::of(self.alloc, name.as_bytes())?));
        };
        if self.scene.intrinsic(view).is_none() {
            return Err(Refusal::Unknown(intrinsic_name(self.alloc, name)?));
        }
        Ok(view)
    }

    // The view of this name, if this suggestion of it is held.
    fn suggested(&self, name: &str, word: AttrWord) -> Result<ViewId, Refusal>
        ensures held { IfOk result (λ id. IsHeldSuggestion self.now.scene name.now word id.0) }
        ensures refused { Refusing (TriedRelease self.now name.now word NoEnd) self.now result }
    {
        let Some(view) = self.scene.tree().find(name) else {
            return Err(Refusal::Unknown(OwnedName::of(self.alloc, name.as_bytes())?));
        };
        if self.scene.suggestion(view, word).is_none() {
            return Err(Refusal::Unknown(suggestion_name(self.alloc, name, word)?));
        }
        Ok(view)
    }

    // The view of this name.
    fn known(&self, name: &str) -> Result<ViewId, Refusal>
        ensures named { IfOk result (λ id. IsViewNamed self.now.scene name.now id.0) }
        ensures refused { Refusing (TriedKeep self.now name.now NoEnd) self.now result }
    {
        let Some(view) = self.scene.tree().find(name) else {
            return Err(Refusal::Unknown(OwnedName::of(self.alloc, name.as_bytes())?));
        };
        Ok(view)
    }

    // A certificate of the scene's values.
    fn certify(&self) -> Result<Reply, Refusal>
        ensures accepted { Accepting (Certifies self.now) self.now result }
        ensures refused { Refusing (Certifies self.now) self.now result }
    {
        Ok(Reply::Certificate(self.scene.certificate()?))
    }

    /// Goes back to the latest earlier scene. It needs no memory, and the budget stays.
    pub fn undo(&mut self) -> Result<(), NoEarlier>
        ensures back { OnOk result (PlainStep self.old mean.Undo Done self.new) }
        ensures none { OnErr result (PlainStep self.old mean.Undo reply.NoEarlier self.old) }
        ensures same { OnErr result (self.new ≡ self.old) }
    {
        if !self.scene.has_earlier() {
            return Err(NoEarlier);
        }
        self.scene.back();
        Ok(())
    }

    // The answer to `undo`.
    fn take_back(&mut self) -> Result<Reply, Refusal>
        ensures accepted { Accepting (PlainStep self.old mean.Undo) self.new result }
        ensures refused { Refusing (PlainStep self.old mean.Undo) self.old result }
        ensures same { OnErr result (self.new ≡ self.old) }
    {
        match self.undo() {
            Ok(()) => Ok(Reply::Done),
            Err(NoEarlier) => Err(Refusal::NoEarlier),
        }
    }

    // The scene's problem, if there is an earlier scene.
    fn undo_problem(&self) -> Result<Problem, Refusal>
        ensures posed { IfOk result (Poses self.now (mean.Other mean.Undo)) }
        ensures refused { Refusing (IsRefused self.now (mean.Other mean.Undo)) self.now result }
    {
        if !self.scene.has_earlier() {
            return Err(Refusal::NoEarlier);
        }
        Ok(self.scene.problem()?)
    }

    // Sets how many exchanges each run may make.
    fn set_budget(&mut self, exchanges: u64) -> Result<Reply, Refusal>
        ensures accepted { Accepting (PlainStep self.old (mean.Budget exchanges)) self.new result }
        ensures refused { Refusing (PlainStep self.old (mean.Budget exchanges)) self.old result }
        ensures same { OnErr result (self.new ≡ self.old) }
    {
        if is_no_budget(exchanges) {
            return Err(Refusal::Limit(LimitWord::Budget));
        }
        self.budget = exchanges;
        Ok(Reply::Done)
    }

    // The findings of the scene.
    fn diagnose(&mut self) -> Result<Reply, Refusal>
        ensures accepted { Accepting (Diagnoses self.old) self.new result }
        ensures refused { Refusing (Diagnoses self.old) self.old result }
        ensures same { self.new ≡ self.old }
    {
        match self.scene.diagnose(self.budget) {
            Ok(found) => Ok(Reply::Diagnosed(found)),
            Err(stopped) => Err(probe_refusal(stopped.attr, stopped.stop)),
        }
    }

    // Whether the window's widths can't be swept between these two.
    fn is_no_sweep(&self, from: Frac, to: Frac) -> bool
        ensures yes { result ≡ true → IsNoSweep self.now.scene from to }
        ensures no { result ≡ false → IsNoSweep self.now.scene from to → ⊥ }
    {
        from.compare(&to) == Ordering::Greater || !self.scene.has_size()
    }

    // Whether the window's widths may be swept between these two, or the refusal.
    fn may_sweep(&self, from: Frac, to: Frac) -> Result<(), Refusal>
        ensures free { OnOk result (IsSweepFree self.now.scene from to) }
        ensures refused { Refusing (TriedSweep self.now from to NoAnswer) self.now result }
    {
        if self.is_no_sweep(from, to) {
            return Err(Refusal::Kind(KindWord::Sweep));
        }
        if self.scene.is_far_sweep(from, to) {
            return Err(Refusal::Limit(LimitWord::Constant));
        }
        Ok(())
    }

    // Solves for every width between `from` and `to`.
    fn sweep(&self, from: Frac, to: Frac) -> Result<Reply, Refusal>
        ensures accepted { Accepting (TriedSweep self.now from to (Sweeps self.now from to)) self.now result }
        ensures refused { Refusing (TriedSweep self.now from to (Sweeps self.now from to)) self.now result }
    {
        self.may_sweep(from, to)?;
        match self.scene.sweep(from, to, self.budget) {
            Ok(stretches) => Ok(Reply::Swept(Stretches(stretches))),
            Err(stop) => Err(sweep_refusal(stop)),
        }
    }

    // The problem that is swept, at the present width.
    fn sweep_problem(&self, from: Frac, to: Frac) -> Result<Problem, Refusal>
        ensures posed { IfOk result (Poses self.now (mean.Other (mean.Sweep from to))) }
        ensures refused { Refusing (IsRefused self.now (mean.Other (mean.Sweep from to))) self.now result }
    {
        self.may_sweep(from, to)?;
        Ok(self.scene.problem_here()?)
    }

    // The scene's problem, if so many exchanges are a valid budget.
    fn budget_problem(&self, exchanges: u64) -> Result<Problem, Refusal>
        ensures posed { IfOk result (Poses self.now (mean.Other (mean.Budget exchanges))) }
        ensures refused { Refusing (IsRefused self.now (mean.Other (mean.Budget exchanges))) self.now result }
    {
        if is_no_budget(exchanges) {
            return Err(Refusal::Limit(LimitWord::Budget));
        }
        Ok(self.scene.problem()?)
    }

    // What a session keeps, for proofs.
    fn show_limits(&self)
        ensures { AreWithin self.now.limits }
    {
        let _ = &self.limits; // for the proof: what a session keeps
    }

    // What a scene keeps, for proofs.
    fn show_numbers(&self)
        ensures above { 0 < self.now.scene.next_row }
        ensures tree { IsTree self.now.scene.tree }
    {
        let _next = self.scene.next_row(); // for the proof: what a scene keeps
        let _count = self.scene.tree().len(); // for the proof: what a tree keeps
    }

    // Drafts a new view.
    fn view_draft(&self, name: &str, parent: Option<&str>) -> Result<Draft, Refusal>
        ensures made { IfOk result
            (IsDraft self.now (mean.Views (mean.View name.now (name_view parent.entry)))) }
        ensures refused { Refusing
            (TriedViews self.now (mean.View name.now (name_view parent.entry)) NoEnd) self.now result }
    {
        self.show_limits(); // for the proof: what a session keeps
        let new = self.new_view(name, parent_or_window(parent))?;
        Ok(Draft::Views(new))
    }

    // Drafts the views of a tree. Its text begins at this offset of its line.
    fn tree_draft(&self, text: &[u8], start: usize) -> Result<Draft, Refusal>
        ensures made { IfOk result (IsDraft self.now (mean.Views (mean.Tree text.now start))) }
        ensures refused { Refusing
            (Tried self.now (mean.Views (mean.Tree text.now start)) NoEnd) self.now result }
    {
        self.show_limits(); // for the proof: what a session keeps
        let new = self.new_tree(text, start)?;
        Ok(Draft::Views(new))
    }

    // Drafts this value of a metric.
    fn metric_draft(&self, name: &str, value: Frac) -> Result<Draft, Refusal>
        ensures made { IfOk result (IsDraft self.now (mean.Update (mean.Metric name.now value))) }
        ensures refused { Refusing
            (Tried self.now (mean.Update (mean.Metric name.now value)) NoEnd) self.now result }
    {
        let new = self.new_metrics(name, value)?;
        Ok(Draft::Metrics(new))
    }

    // Drafts the window's first size, if there is room for its rows.
    fn first_size_draft(&self, size: &WindowSize) -> Result<Draft, Refusal>
        requires { has_size self.now.scene.held ≡ false }
        ensures made { IfOk result
            (IsDraft self.now (mean.Update (mean.Window size.now.width size.now.height))) }
        ensures refused { Refusing
            (TriedWindow self.now size.now.width size.now.height NoEnd) self.now result }
    {
        self.show_limits(); // for the proof: what a session keeps
        if self.is_crowded(SIZE_ROWS as usize) {
            return Err(Refusal::Limit(LimitWord::Rows));
        }
        let new = NewItem::size(self.alloc, self.scene.next_row(), size)?;
        Ok(Draft::More(new))
    }

    // Drafts another size of the window than this, unless a constant moves too far.
    fn later_size_draft(&self, held: HeldSize, size: &WindowSize) -> Result<Draft, Refusal>
        requires { size_of self.now.scene.held ≡ Some (size_in held) }
        ensures made { IfOk result
            (IsDraft self.now (mean.Update (mean.Window size.now.width size.now.height))) }
        ensures refused { Refusing
            (TriedWindow self.now size.now.width size.now.height NoEnd) self.now result }
    {
        if !is_near_size(&held.size, size) {
            return Err(Refusal::Limit(LimitWord::Constant));
        }
        Ok(Draft::Renewed(Renewal::Size(HeldSize {
            size: *size,
            ..held
        })))
    }

    // Drafts this size of the window.
    fn window_draft(&self, width: Frac, height: Frac) -> Result<Draft, Refusal>
        ensures made { IfOk result (IsDraft self.now (mean.Update (mean.Window width height))) }
        ensures refused { Refusing (Tried self.now (mean.Update (mean.Window width height)) NoEnd)
            self.now result }
    {
        let size = WindowSize { width, height };
        match self.scene.size() {
            Some(held) => self.later_size_draft(held, &size),
            None => self.first_size_draft(&size),
        }
    }

    // Drafts a linear constraint.
    fn constraint_draft(&self, group: &str, line: &Linear<'_>) -> Result<Draft, Refusal>
        ensures made { IfOk result
            (IsDraft self.now (mean.Update (mean.Constrain group.now (linear_view line.now)))) }
        ensures refused { Refusing
            (TriedConstraint self.now group.now (linear_view line.now) NoEnd) self.now result }
    {
        self.show_limits(); // for the proof: what a session keeps
        let new = self.new_constraint(group, line)?;
        Ok(Draft::More(new))
    }

    // Drafts a format.
    fn format_draft(
        &self,
        group: &str,
        align: Option<Align>,
        format: &Format<'_>,
    ) -> Result<Draft, Refusal>
        ensures made { IfOk result
            (IsDraft self.now (mean.Update (mean.Vfl group.now align (meaning format.now)))) }
        ensures refused { Refusing
            (TriedFormat self.now group.now align (meaning format.now) NoEnd) self.now result }
    {
        self.show_limits(); // for the proof: what a session keeps
        let new = self.new_format(group, align, format)?;
        Ok(Draft::More(new))
    }

    // Drafts a suggestion.
    fn suggestion_draft(
        &self,
        name: &str,
        word: AttrWord,
        value: Frac,
        priority: Option<Object<'_>>,
    ) -> Result<Draft, Refusal>
        ensures made { IfOk result
            (IsDraft self.now (mean.Update (mean.Suggest name.now word value (object_view priority.entry)))) }
        ensures refused { Refusing
            (TriedSuggest self.now name.now word value (object_view priority.entry) NoEnd) self.now result }
    {
        self.show_limits(); // for the proof: what a session keeps
        self.show_numbers(); // for the proof: what a scene keeps
        match self.new_suggestion(name, word, value, priority)? {
            NewSuggestion::First(new) => Ok(Draft::More(NewItem::suggestion(self.alloc, new)?)),
            NewSuggestion::Again(again) => Ok(Draft::Renewed(Renewal::Suggestion(again))),
        }
    }

    // Drafts the size that a view would like.
    fn size_draft(&self, name: &str, size: &WindowSize, pulls: Pulls<'_>) -> Result<Draft, Refusal>
        ensures made { IfOk result
            (IsDraft self.now (mean.Update (mean.Size name.now size.now.width size.now.height
            (object_view pulls.entry.hug) (object_view pulls.entry.resist)))) }
        ensures refused { Refusing
            (Tried self.now (mean.Update (mean.Size name.now size.now.width size.now.height
            (object_view pulls.entry.hug) (object_view pulls.entry.resist))) NoEnd) self.now result }
    {
        self.show_limits(); // for the proof: what a session keeps
        self.show_numbers(); // for the proof: what a scene keeps
        match self.new_intrinsic(name, size, pulls)? {
            NewIntrinsic::First(new) => Ok(Draft::More(NewItem::intrinsic(self.alloc, new)?)),
            NewIntrinsic::Again(again) => Ok(Draft::Renewed(Renewal::Intrinsic(again))),
        }
    }

    // Drafts the removal of a view and all that goes with it.
    fn drop_draft(&self, name: &str) -> Result<Draft, Refusal>
        ensures made { IfOk result (IsDraft self.now (mean.Leave (mean.Drop name.now))) }
        ensures refused { Refusing (Tried self.now (mean.Leave (mean.Drop name.now)) NoEnd) self.now result }
    {
        let gone = self.going(name)?;
        Ok(Draft::Out(Leaver::Views(gone)))
    }

    // Drafts the removal of a group's lines.
    fn group_draft(&self, group: &str) -> Result<Draft, Refusal>
        ensures made { IfOk result (IsDraft self.now (mean.Leave (mean.Remove group.now))) }
        ensures refused { Refusing
            (Tried self.now (mean.Leave (mean.Remove group.now)) NoEnd) self.now result }
    {
        let group = self.held_group(group)?;
        Ok(Draft::Out(Leaver::Group(group)))
    }

    // Drafts the removal of a suggestion.
    fn release_draft(&self, name: &str, word: AttrWord) -> Result<Draft, Refusal>
        ensures made { IfOk result (IsDraft self.now (mean.Leave (mean.Release name.now word))) }
        ensures refused { Refusing
            (Tried self.now (mean.Leave (mean.Release name.now word)) NoEnd) self.now result }
    {
        let view = self.suggested(name, word)?;
        Ok(Draft::Out(Leaver::Suggestion(view.0, word)))
    }

    // Drafts the removal of a view's size.
    fn unsize_draft(&self, name: &str) -> Result<Draft, Refusal>
        ensures made { IfOk result (IsDraft self.now (mean.Leave (mean.Unsize name.now))) }
        ensures refused { Refusing
            (Tried self.now (mean.Leave (mean.Unsize name.now)) NoEnd) self.now result }
    {
        let view = self.sized(name)?;
        Ok(Draft::Out(Leaver::Intrinsic(view.0)))
    }

    // Drafts a scene that keeps a view.
    fn keep_draft(&self, name: &str) -> Result<Draft, Refusal>
        ensures made { IfOk result (IsDraft self.now (mean.Keep name.now)) }
        ensures refused { Refusing (Tried self.now (mean.Keep name.now) NoEnd) self.now result }
    {
        let view = self.known(name)?;
        Ok(Draft::Keep(view))
    }

    // Drafts new views.
    fn coming_draft(&self, new: &Coming<'_>) -> Result<Draft, Refusal>
        ensures made { IfOk result (IsDraft self.now (mean.Views (coming_view new.now))) }
        ensures refused { Refusing (TriedViews self.now (coming_view new.now) NoEnd) self.now result }
    {
        match new {
            Coming::View { name, parent } => self.view_draft(name, *parent),
            Coming::Tree { text, start } => self.tree_draft(text, *start),
        }
    }

    // Drafts something new, or another value.
    fn updating_draft(&self, new: &Updating<'_>) -> Result<Draft, Refusal>
        ensures made { IfOk result (IsDraft self.now (mean.Update (updating_view new.now))) }
        ensures refused { Refusing (TriedUpdate self.now (updating_view new.now) NoEnd) self.now result }
    {
        match new {
            Updating::Metric { name, value } => self.metric_draft(name, *value),
            Updating::Window { width, height } => self.window_draft(*width, *height),
            Updating::Constrain { group, line } => self.constraint_draft(group, line),
            Updating::Vfl {
                group,
                align,
                format,
            } => self.format_draft(group, *align, format),
            Updating::Suggest {
                view,
                word,
                value,
                priority,
            } => self.suggestion_draft(view, *word, *value, *priority),
            Updating::Size {
                name,
                width,
                height,
                hug,
                resist,
            } => {
                let size = WindowSize {
                    width: *width,
                    height: *height,
                };
                let pulls = Pulls {
                    hug: *hug,
                    resist: *resist,
                };
                self.size_draft(name, &size, pulls)
            }
        }
    }

    // Drafts a removal.
    fn leaving_draft(&self, gone: &Leaving<'_>) -> Result<Draft, Refusal>
        ensures made { IfOk result (IsDraft self.now (mean.Leave (leaving_view gone.now))) }
        ensures refused { Refusing (TriedLeave self.now (leaving_view gone.now) NoEnd) self.now result }
    {
        match gone {
            Leaving::Drop { name } => self.drop_draft(name),
            Leaving::Remove { group } => self.group_draft(group),
            Leaving::Release { view, word } => self.release_draft(view, *word),
            Leaving::Unsize { name } => self.unsize_draft(name),
        }
    }

    // Drafts what a change asks of the scene, or finds the first cause against it.
    fn draft(&self, change: &Change<'_>) -> Result<Draft, Refusal>
        ensures made { IfOk result (IsDraft self.now (change_view change.now)) }
        ensures refused { Refusing (Tried self.now (change_view change.now) NoEnd) self.now result }
    {
        match change {
            Change::Views(new) => self.coming_draft(new),
            Change::Update(new) => self.updating_draft(new),
            Change::Leave(gone) => self.leaving_draft(gone),
            Change::Turn { to } => Ok(Draft::Turn(*to)),
            Change::Keep { name } => self.keep_draft(name),
        }
    }

    // Takes the scene's step to a draft.
    fn take(&mut self, draft: Draft) -> Result<Reply, Refusal>
        requires { MayTake self.old.scene draft }
        ensures accepted { Accepting
            (EndsAs self.old (kind_of draft) (drafted self.old.scene draft)) self.new result }
        ensures refused { Refusing
            (EndsAs self.old (kind_of draft) (drafted self.old.scene draft)) self.old result }
        ensures same { OnErr result (self.new ≡ self.old) }
    {
        answer_of(self.scene.take(draft, self.budget))
    }

    // Makes a change.
    fn change(&mut self, change: &Change<'_>) -> Result<Reply, Refusal>
        ensures accepted { Accepting (ChangeStep self.old (change_view change.now)) self.new result }
        ensures refused { Refusing (ChangeStep self.old (change_view change.now)) self.old result }
        ensures same { OnErr result (self.new ≡ self.old) }
    {
        let draft = self.draft(change)?;
        self.take(draft)
    }

    // Answers another command.
    fn answer(&mut self, command: &Plain) -> Result<Reply, Refusal>
        ensures accepted { Accepting (PlainStep self.old (plain_view command.now)) self.new result }
        ensures refused { Refusing (PlainStep self.old (plain_view command.now)) self.old result }
        ensures same { OnErr result (self.new ≡ self.old) }
    {
        match command {
            Plain::Frames => Ok(Reply::Frames),
            Plain::Rows => Ok(Reply::Rows),
            Plain::Certify => self.certify(),
            Plain::Diagnose => self.diagnose(),
            Plain::Undo => self.take_back(),
            Plain::Budget { exchanges } => self.set_budget(*exchanges),
            Plain::Sweep { from, to } => self.sweep(*from, *to),
        }
    }

    // Does what a command says.
    fn act(&mut self, command: &Command<'_>) -> Result<Reply, Refusal>
        ensures accepted { Accepting (CommandStep self.old (view command.now)) self.new result }
        ensures refused { Refusing (CommandStep self.old (view command.now)) self.old result }
        ensures same { OnErr result (self.new ≡ self.old) }
    {
        match command {
            Command::Change(change) => self.change(change),
            Command::Plain(other) => self.answer(other),
        }
    }

    // The problem of the draft that a change asks for.
    fn change_problem(&self, change: &Change<'_>) -> Result<Problem, Refusal>
        ensures posed { IfOk result (PosesChange self.now (change_view change.now)) }
        ensures refused { Refusing (Tried self.now (change_view change.now) NoEnd) self.now result }
    {
        let draft = self.draft(change)?;
        Ok(self.scene.pose(draft)?)
    }

    // The scene's problem, if no cause is against the command; for a sweep with the stays at the present
    // values.
    fn present_problem(&self, command: &Plain) -> Result<Problem, Refusal>
        ensures posed { IfOk result (Poses self.now (mean.Other (plain_view command.now))) }
        ensures refused { Refusing
            (IsRefused self.now (mean.Other (plain_view command.now))) self.now result }
    {
        match command {
            Plain::Undo => self.undo_problem(),
            Plain::Budget { exchanges } => self.budget_problem(*exchanges),
            Plain::Sweep { from, to } => self.sweep_problem(*from, *to),
            Plain::Frames | Plain::Rows | Plain::Diagnose | Plain::Certify => {
                Ok(self.scene.problem()?)
            }
        }
    }

    /// The problem that a command would solve, with the stays at the present values. For a sweep it is that
    /// of the present width. For a command that solves nothing it is the scene's. It is refused for the same
    /// causes, in the same order, as `apply` refuses the command before it solves. The problem has copies of
    /// the rows, and the session doesn't keep it.
    pub fn step_problem(&self, command: &Command<'_>) -> Result<Problem, Refusal>
        ensures posed { IfOk result (Poses self.now (view command.now)) }
        ensures refused { Refusing (IsRefused self.now (view command.now)) self.now result }
    {
        match command {
            Command::Change(change) => self.change_problem(change),
            Command::Plain(other) => self.present_problem(other),
        }
    }

    // Finds whether a draft would conflict, and why.
    fn explained(&mut self, draft: Draft) -> Result<Reply, Refusal>
        requires { MayTake self.old.scene draft }
        ensures accepted { Accepting (ExplainsDraft self.old (drafted self.old.scene draft)) self.new result }
        ensures refused { Refusing (ExplainsDraft self.old (drafted self.old.scene draft)) self.old result }
        ensures same { self.new ≡ self.old }
    {
        match self.scene.core(draft, self.budget) {
            Ok(found) => Ok(Reply::Why(found)),
            Err(stop) => Err(core_refusal(stop)),
        }
    }

    // Finds whether a change would conflict, and why.
    fn explain(&mut self, change: &Change<'_>) -> Result<Reply, Refusal>
        ensures accepted { Accepting (WhyStep self.old (change_view change.now)) self.new result }
        ensures refused { Refusing (WhyStep self.old (change_view change.now)) self.old result }
        ensures same { self.new ≡ self.old }
    {
        let draft = self.draft(change)?;
        self.explained(draft)
    }

    /// Does what a line says: the step of the machine. A question or a refused line changes nothing.
    pub fn apply(&mut self, reading: Reading<'_>) -> Result<Reply, Refusal>
        ensures accepted { Accepting (SaidStep self.old (reading_view reading.entry)) self.new result }
        ensures refused { Refusing (SaidStep self.old (reading_view reading.entry)) self.old result }
        ensures same { OnErr result (self.new ≡ self.old) }
    {
        match &reading {
            Reading::Nothing => Ok(Reply::Silent),
            Reading::Command(command) => self.act(command),
            Reading::Why(change) => self.explain(change),
        }
    }

    /// The scene.
    pub fn state(&self) -> &Scene<T>
        ensures scene { result.now.scene ≡ self.now.scene }
        ensures earlier { result.now.earlier ≡ self.now.earlier }
    {
        &self.scene
    }

    /// Left, top, width and height of a view, in window coordinates. `None` exactly if no view has the
    /// number.
    pub fn frame(&self, view: ViewId) -> Option<[Frac; 4]>
        ensures some { IfSome result (IsFrameOf self.now.scene view.0) }
        ensures none { IfNone result (view_of self.now.scene.tree.views view.0 ≡ None) }
    {
        self.scene.frame(view)
    }

    /// The values of all attributes, by number.
    pub fn values(&self) -> Result<Values, OutOfMemory>
        ensures { IfOk result (λ values. values ≡ values_by_number self.now.scene) }
    {
        self.scene.values()
    }

    /// The engine: the problem of the rows of all that is held, and its best values.
    pub fn engine(&self) -> &Engine<T>
        ensures rows { result.now.problem.rows ≡ self.now.scene.rows }
        ensures stays { result.now.problem.stays ≡ self.now.scene.stays }
        ensures values { result.now.values ≡ self.now.scene.values }
    {
        self.scene.engine()
    }
}
