// A problem and one of its corners.
ghost use Rattle.std.specs.Prelude.{◌≡◌, ◌≢◌, ◌<◌, ◌≤◌, ◌↔◌, ◌-◌, ◌+◌, ℕ, List, [], ◌∷◌, pos, length};
ghost use Rattle.std.specs.Prelude.{false, take, true, All, AllPairs, Any, Contains, IfOk, IfErr, IfSome};
ghost use Rattle.std.specs.Prelude.{IfNone};
ghost use Rattle.std.specs.Prelude.{OnErr, OnOk, slice_get, Some};
ghost use Rattle.problem_core.specs.Layout.{HasStay};
ghost use Rattle.problem_core.specs.Kept.{IsWhole, IsNumber};
ghost use Rattle.problem_core.specs.Corners as corners;
ghost use Rattle.problem_core.specs.Corners.{IsExchange, IsIn, NoNegativeValue, SameMarks, attr_column};
ghost use Rattle.problem_core.specs.Corners.{exchanged};
ghost use Rattle.problem_core.specs.Changes.Begins.{BeginsWith, without_marks};
ghost use Rattle.problem_core.specs.declared.limits.TheConstants.{ROW_LIMIT};
ghost use Rattle.problem_core.specs.declared.parts.RowName.TheVariants as row_names;
ghost use Rattle.problem_core.specs.Levels.{IsCostAt, IsLevelAt};
ghost use Rattle.problem_core.specs.declared.parts.Level as level_type;
ghost use Rattle.problem_core.specs.declared.parts.RowName as row_type;
ghost use Rattle.problem_core.specs.declared.stops.What as what_type;
ghost use Rattle.problem_core.specs.declared.stops.What.TheVariants.{Mark as MarkOf};
ghost use Rattle.version_lists.specs.declared.versions.TheConstants.{VERSION_LIMIT};
ghost use Rattle.corner_laws.specs.Lifts.{with_rows};
ghost use Rattle.corner_lines.specs.Joins.{with_attr};
ghost use Rattle.corner_lines.specs.Removals.{IsFree, without_attr, without_row};
ghost use Rattle.corner_lines.specs.Shifts.{with_constant};
ghost use Rattle.stay_orders.specs.Orders.{fronted};
ghost use Rattle.corner_view.specs.Seen.{AreCandidates, AreMovers, CornerView, HasNoNegative, HasNumbers};
ghost use Rattle.corner_view.specs.Seen.{HasValueAt, IsCoefficientOf, IsInUse, IsKeptCorner, IsLevelOf};
ghost use Rattle.corner_view.specs.Seen.{IsMarkOf, IsNamed, IsOutside, IsReducedAt, IsScaleOf, IsSettled};
ghost use Rattle.corner_view.specs.Seen.{IsStronger, IsWritten, MovesWith};
ghost use Rattle.corner_view.specs.Fronts.{AreFrontsOf, HasNoFront, IsFrontOf};
ghost use Rattle.corner_view.specs.Moves.{AreMovedSince, HasValueIn};
ghost use Rattle.corner_view.specs.Entries.{AreEntries};
ghost use Rattle.corner_view.specs.Growing.{AreGrowersDear};
ghost use Rattle.corner_view.specs.Lows.{AreNotLow, IsLowMark, ListsLow};
ghost use Rattle.corner_view.specs.AddStops.{AllSumsFit, IsAddStop};
ghost use Rattle.corner_view.specs.Changes.{HasStood, IsAsBefore, IsNear};
ghost use Rattle.corner_view.specs.Changes.{IsRewound, scene_of};
ghost use Rattle.corner_view.specs.Stops.{IsUnfitStop};

use crate::tableau::Tableau;
use crate::types::{Front, Fronts};
use cert_core::RunStop;
use frac_core::{Frac, OutOfMemory};
use problem_core::{Level, Mark, Row, RowName, Stay, TableStop, What};
use std::alloc::Global;
use std::marker::Model;

/// A problem and the marks inside at one of its corners, with earlier ones. How they are kept is not seen:
/// each value, writing and cost follows from these two.
#[derive(Drop)]
pub struct Corner<T: Tableau> {
    table: T,
}

impl<T: Tableau> Model for Corner<T> {
    ghost use Rattle.corner_view.specs.Seen.{CornerView};

    ghost Value = { CornerView };

    ghost view = { λ c. T.seen c.table };
}

impl<T: Tableau> Corner<T> {
    /// The corner of no attribute and no row.
    pub fn new(alloc: Global) -> Result<Corner<T>, OutOfMemory>
        ensures { IfOk result (λ c. c ≡ record {
          problem = record { rows = []; stays = [] };
          marks = [];
          before = [];
          candidates = [];
          order = [];
        }) }
    {
        let table = T::new(alloc)?;
        Ok(Corner { table })
    }

    /// Shows what each corner keeps.
    pub fn show_corner(&self)
        ensures kept { IsKeptCorner self.now.problem self.now.marks }
        ensures candidates { AreCandidates self.now.problem self.now.marks self.now.candidates }
        ensures named { All (IsNamed self.now.problem) self.now.candidates }
        ensures before { All IsSettled self.now.before }
    {
        self.table.show_corner();
    }

    /// The rows, by rising number.
    pub fn rows(&self) -> &[Row]
        ensures { result.now ≡ self.now.problem.rows }
    {
        self.table.rows()
    }

    /// The stays, strongest first.
    pub fn stays(&self) -> &[Stay]
        ensures { result.now ≡ self.now.problem.stays }
    {
        self.table.stays()
    }

    /// The marks inside, by row number with the stays last.
    pub fn marks(&self) -> Result<Vec<Mark>, OutOfMemory>
        ensures { IfOk result (λ marks. marks.items ≡ self.now.marks) }
    {
        self.table.marks()
    }

    /// Whether the mark is inside.
    pub fn is_inside(&self, mark: Mark) -> bool
        requires mark { IsMarkOf self.now.problem mark }
        ensures { (result ≡ true) ↔ IsIn (corners.place mark) self.now.marks }
    {
        self.table.is_inside(mark)
    }

    /// The value of a mark, which is 0 outside.
    pub fn value(&self, mark: Mark) -> Frac
        requires mark { IsMarkOf self.now.problem mark }
        ensures { HasValueAt self.now.problem self.now.marks (corners.place mark) result }
    {
        self.table.value(mark)
    }

    /// The inside mark of a row or stay, if its value is negative.
    pub fn low_mark(&self, row: RowName) -> Option<Mark>
        requires { IsNamed self.now.problem row }
        ensures some { IfSome result (IsLowMark self.now.problem self.now.marks row) }
        ensures none { IfNone result (AreNotLow self.now.problem self.now.marks row) }
    {
        self.table.low_mark(row)
    }

    /// The value of an attribute.
    pub fn attr_value(&self, attr: u32) -> Frac
        requires attr { HasStay self.now.problem.stays attr }
        ensures { HasValueAt self.now.problem self.now.marks (attr_column attr) result }
    {
        self.table.attr_value(attr)
    }

    /// How many attributes and inside marks move where the outside mark grows alone.
    pub fn movers(&self, mark: Mark) -> usize
        requires outside { IsOutside self.now.problem self.now.marks mark }
        ensures { (whats : List what_type.What) × AreMovers self.now mark whats × (length whats ≡ result) }
    {
        self.table.movers(mark)
    }

    /// One of the attributes and inside marks that move where the outside mark grows alone.
    pub fn mover(&self, mark: Mark, i: usize) -> What
        requires outside { IsOutside self.now.problem self.now.marks mark }
        requires within { (whats : List what_type.What) × AreMovers self.now mark whats × (i < length whats) }
        ensures { (whats : List what_type.What) → AreMovers self.now mark whats
            → slice_get whats i ≡ Some result }
    {
        self.table.mover(mark, i)
    }

    /// How many outside lines have a number in the writing of the inside mark.
    pub fn entries(&self, mark: Mark) -> usize
        requires inside { IsIn (corners.place mark) self.now.marks }
        ensures { (names : List row_type.RowName) × AreEntries self.now mark names × (length names ≡ result) }
    {
        self.table.entries(mark)
    }

    /// One of the outside lines that have a number in the writing of the inside mark.
    pub fn entry(&self, mark: Mark, i: usize) -> RowName
        requires inside { IsIn (corners.place mark) self.now.marks }
        requires within { (names : List row_type.RowName) × AreEntries self.now mark names
            × (i < length names) }
        ensures { (names : List row_type.RowName) → AreEntries self.now mark names
            → slice_get names i ≡ Some result }
    {
        self.table.entry(mark, i)
    }

    /// Whether all outside marks of other rows and stays with which the inside one grows have a reduced cost
    /// above 0 at the level.
    pub fn are_growers_dear(&self, mark: Mark, level: Level) -> bool
        requires inside { IsIn (corners.place mark) self.now.marks }
        requires level { IsLevelOf self.now.problem level }
        ensures { result ≡ true → AreGrowersDear self.now.problem self.now.marks mark level }
    {
        self.table.are_growers_dear(mark, level)
    }

    /// Lists the row or stay if its inside mark has a negative value; where it has none inside, those whose
    /// inside marks move with its marks and have negative values.
    pub fn list_low(&self, row: RowName, low: &mut Vec<RowName>) -> Result<(), OutOfMemory>
        requires { IsNamed self.now.problem row }
        ensures { OnOk result
            (ListsLow self.now.problem self.now.marks row low.old.items low.new.items) }
    {
        self.table.list_low(row, low)
    }

    /// The coefficient of an outside mark in the writing of an attribute or an inside mark.
    pub fn coefficient(&self, what: What, mark: Mark) -> i64
        requires what { IsWritten self.now.problem self.now.marks what }
        requires outside { IsOutside self.now.problem self.now.marks mark }
        ensures { IsCoefficientOf self.now.problem self.now.marks what mark result }
    {
        self.table.coefficient(what, mark)
    }

    /// The scale of the writing of an attribute or an inside mark.
    pub fn denominator(&self, what: What) -> i64
        requires what { IsWritten self.now.problem self.now.marks what }
        ensures { IsScaleOf self.now.problem self.now.marks what result }
    {
        self.table.denominator(what)
    }

    /// The reduced cost of a mark at a level, which is 0 inside.
    pub fn reduced(&self, level: Level, mark: Mark) -> i64
        requires level { IsLevelOf self.now.problem level }
        requires mark { IsMarkOf self.now.problem mark }
        ensures { IsReducedAt self.now.problem self.now.marks level mark result }
    {
        self.table.reduced(level, mark)
    }

    /// The first level at which the mark's reduced cost is not 0, with this cost.
    pub fn front(&self, mark: Mark) -> Option<Front>
        requires mark { IsMarkOf self.now.problem mark }
        ensures some { IfSome result (IsFrontOf self.now.problem self.now.marks mark) }
        ensures none { IfNone result (HasNoFront self.now.problem self.now.marks mark) }
    {
        self.table.front(mark)
    }

    /// The fronts of both marks of a line.
    pub fn fronts(&self, row: RowName) -> Fronts
        requires { IsNamed self.now.problem row }
        ensures { AreFrontsOf self.now.problem self.now.marks row result }
    {
        self.table.fronts(row)
    }

    /// The multiplier of a row or stay at a level.
    pub fn multiplier(&self, level: Level, row: RowName) -> i64
        requires level { IsLevelOf self.now.problem level }
        requires row { IsNamed self.now.problem row }
        ensures { HasNumbers self.now.problem self.now.marks level
            (λ scale times reduced. result ≡ times row) }
    {
        self.table.multiplier(level, row)
    }

    /// The scale of a level.
    pub fn scale(&self, level: Level) -> i64
        requires level { IsLevelOf self.now.problem level }
        ensures { HasNumbers self.now.problem self.now.marks level
            (λ scale times reduced. result ≡ pos scale) }
    {
        self.table.scale(level)
    }

    /// The cost of a level.
    pub fn cost(&self, level: Level) -> Frac
        requires level { IsLevelOf self.now.problem level }
        ensures { (k : ℕ) → IsLevelAt self.now.problem level k
            → IsCostAt self.now.problem self.now.marks k result }
    {
        self.table.cost(level)
    }

    /// The levels at which a row or a stay stands, strongest first.
    pub fn levels(&self) -> Result<Vec<Level>, OutOfMemory>
        ensures used { IfOk result (λ levels. All (IsInUse self.now.problem) levels.items) }
        ensures all { IfOk result (λ levels. (level : level_type.Level) → IsInUse self.now.problem level
            → Contains levels.items level) }
        ensures order { IfOk result (λ levels. AllPairs (IsStronger self.now.problem) levels.items) }
    {
        self.table.levels()
    }

    /// Whether the first level is stronger.
    pub fn is_stronger(&self, a: Level, b: Level) -> bool
        requires a { IsLevelOf self.now.problem a }
        requires b { IsLevelOf self.now.problem b }
        ensures yes { result ≡ true → IsStronger self.now.problem a b }
        ensures no { result ≡ false → (j k : ℕ) → IsLevelAt self.now.problem a j
            → IsLevelAt self.now.problem b k → k ≤ j }
    {
        self.table.is_stronger(a, b)
    }

    /// How many lines are listed as those that may have a negative column.
    pub fn candidates(&self) -> usize
        ensures { result ≡ length self.now.candidates }
    {
        self.table.candidates()
    }

    /// One of the listed lines.
    pub fn candidate(&self, i: usize) -> RowName
        requires { i < length self.now.candidates }
        ensures { slice_get self.now.candidates i ≡ Some result }
    {
        self.table.candidate(i)
    }

    /// Takes a line off the list, neither of whose marks has a negative column.
    pub fn unlist(&mut self, i: usize)
        requires within { i < length self.old.candidates }
        requires settled { (name : row_type.RowName) → slice_get self.old.candidates i ≡ Some name
            → HasNoNegative self.old.problem self.old.marks name }
        ensures scene { scene_of self.new ≡ scene_of self.old }
        ensures before { self.new.before ≡ self.old.before }
        ensures shorter { length self.new.candidates + 1 ≡ length self.old.candidates }
    {
        self.table.unlist(i);
    }

    /// Exchanges an outside mark for an inside one that moves with it.
    ///
    /// `Refused` names what does not fit at the new corner, and the corner is as before. After want of memory
    /// it is that of the newest mark.
    pub fn swap(&mut self, enter: Mark, leave: Mark) -> Result<(), TableStop>
        requires marked { 0 < length self.old.before }
        requires enter { IsOutside self.old.problem self.old.marks enter }
        requires leave { IsIn (corners.place leave) self.old.marks }
        requires moves { MovesWith self.old.problem self.old.marks enter (MarkOf leave) }
        ensures problem { IfOk result (λ _. self.new.problem ≡ self.old.problem) }
        ensures marks { IfOk result (λ _. SameMarks self.new.marks
            (exchanged (record { enter = enter; leave = leave }) self.old.marks)) }
        ensures before { self.new.before ≡ self.old.before }
        ensures exchange { IsExchange self.old.problem self.old.marks
            (record { enter = enter; leave = leave }) }
        ensures stop { IfErr result (IsUnfitStop self.old.problem
            (exchanged (record { enter = enter; leave = leave }) self.old.marks)) }
        ensures same { IfErr result (IsAsBefore self.old self.new) }
    {
        self.table.swap(enter, leave)
    }

    /// Exchanges an outside mark for an inside one that moves with it, where no outside mark has a negative
    /// column after it.
    ///
    /// `Refused` names what does not fit at the new corner, and the corner is as before. After want of memory
    /// it is that of the newest mark.
    pub fn swap_settled(&mut self, enter: Mark, leave: Mark) -> Result<(), TableStop>
        requires marked { 0 < length self.old.before }
        requires enter { IsOutside self.old.problem self.old.marks enter }
        requires leave { IsIn (corners.place leave) self.old.marks }
        requires moves { MovesWith self.old.problem self.old.marks enter (MarkOf leave) }
        requires settled { AreCandidates self.old.problem
            (exchanged (record { enter = enter; leave = leave }) self.old.marks) [] }
        ensures problem { IfOk result (λ _. self.new.problem ≡ self.old.problem) }
        ensures marks { IfOk result (λ _. SameMarks self.new.marks
            (exchanged (record { enter = enter; leave = leave }) self.old.marks)) }
        ensures before { self.new.before ≡ self.old.before }
        ensures stop { IfErr result (IsUnfitStop self.old.problem
            (exchanged (record { enter = enter; leave = leave }) self.old.marks)) }
        ensures same { IfErr result (IsAsBefore self.old self.new) }
    {
        self.table.swap_settled(enter, leave)
    }

    /// Adds an attribute that stands at this value, with its stay as the last one. After want of memory the
    /// corner is that of the newest mark.
    pub fn add_attr(&mut self, attr: u32, target: Frac) -> Result<(), OutOfMemory>
        requires marked { 0 < length self.old.before }
        requires number { IsNumber attr }
        requires fresh { HasStay self.old.problem.stays attr → ⊥ }
        requires room { length self.old.problem.stays < ROW_LIMIT }
        ensures problem { IfOk result (λ _. self.new.problem ≡ with_attr attr target self.old.problem) }
        ensures marks { IfOk result (λ _. self.new.marks ≡ self.old.marks) }
        ensures before { self.new.before ≡ self.old.before }
        ensures candidates { IfOk result (λ _. self.new.candidates ≡ self.old.candidates) }
        ensures same { OnErr result (IsRewound self.old self.new) }
    {
        self.table.add_attr(attr, target)
    }

    /// Adds rows, each with its mark that is not negative, over at 0. First all rows join, then the levels'
    /// costs.
    ///
    /// `Unfit` names a sum of a row's terms, where it and the rows after it are over, or of a level's rows,
    /// where all rows have joined; after `Ok` each of these sums fits. It answers no other stop but want of
    /// memory. After a stop the corner is that of the newest mark.
    pub fn add_rows(&mut self, rows: &[Row]) -> Result<(), RunStop>
        requires marked { 0 < length self.old.before }
        requires whole { IsWhole (with_rows rows.now self.old.problem) }
        requires values { NoNegativeValue self.old.problem self.old.marks }
        ensures problem { IfOk result (λ _. self.new.problem ≡ with_rows rows.now self.old.problem) }
        ensures marks { IfOk result
            (λ _. BeginsWith self.new.problem self.old.marks rows.now [] self.new.marks) }
        ensures fits { IfOk result (λ _. AllSumsFit self.old rows.now) }
        ensures before { self.new.before ≡ self.old.before }
        ensures stop { IfErr result (IsAddStop self.old rows.now) }
        ensures same { OnErr result (IsRewound self.old self.new) }
    {
        self.table.add_rows(rows)
    }

    /// Gives a row this constant, whose difference from the row's own fits. The marks inside stay, and values
    /// may turn negative.
    ///
    /// `Refused` names a quantity that does not fit where the row has the new constant. After a stop the
    /// corner is that of the newest mark.
    pub fn shift(&mut self, id: u32, to: Frac) -> Result<(), TableStop>
        requires marked { 0 < length self.old.before }
        requires near { IsNear self.old.problem id to }
        ensures problem { IfOk result (λ _. self.new.problem ≡ with_constant id to self.old.problem) }
        ensures marks { IfOk result (λ _. self.new.marks ≡ self.old.marks) }
        ensures before { self.new.before ≡ self.old.before }
        ensures candidates { IfOk result (λ _. self.new.candidates ≡ self.old.candidates) }
        ensures stop { IfErr result
            (IsUnfitStop (with_constant id to self.old.problem) self.old.marks) }
        ensures same { OnErr result (IsRewound self.old self.new) }
    {
        self.table.shift(id, to)
    }

    /// Takes a row out whose mark is inside. The lines of its writing are listed if its mark costs.
    ///
    /// `Refused` names what does not fit without the row, and the corner is as before. After want of memory
    /// it is that of the newest mark.
    pub fn drop_row(&mut self, id: u32) -> Result<(), TableStop>
        requires marked { 0 < length self.old.before }
        requires inside { Any (λ m. m.row ≡ row_names.Held id) self.old.marks }
        ensures problem { IfOk result (λ _. self.new.problem ≡ without_row id self.old.problem) }
        ensures marks { IfOk result (λ _. self.new.marks ≡ without_marks (id ∷ []) self.old.marks) }
        ensures before { self.new.before ≡ self.old.before }
        ensures stop { IfErr result (IsUnfitStop (without_row id self.old.problem)
            (without_marks (id ∷ []) self.old.marks)) }
        ensures same { IfErr result (IsAsBefore self.old self.new) }
    {
        self.table.drop_row(id)
    }

    /// Takes an attribute out that no row names, and its stay, which is outside. After want of memory the
    /// corner is that of the newest mark.
    pub fn drop_attr(&mut self, attr: u32) -> Result<(), OutOfMemory>
        requires marked { 0 < length self.old.before }
        requires free { IsFree self.old.problem attr }
        ensures problem { IfOk result (λ _. self.new.problem ≡ without_attr attr self.old.problem) }
        ensures marks { IfOk result (λ _. self.new.marks ≡ self.old.marks) }
        ensures before { self.new.before ≡ self.old.before }
        ensures same { OnErr result (IsRewound self.old self.new) }
    {
        self.table.drop_attr(attr)
    }

    /// Gives the stays the attributes' values as targets. No attribute's value changes. After want of memory
    /// the corner is that of the newest mark.
    pub fn stand(&mut self) -> Result<(), OutOfMemory>
        requires marked { 0 < length self.old.before }
        ensures stood { IfOk result (λ _. HasStood self.old self.new) }
        ensures marks { IfOk result (λ _. self.new.marks ≡ self.old.marks) }
        ensures before { self.new.before ≡ self.old.before }
        ensures candidates { IfOk result (λ _. self.new.candidates ≡ self.old.candidates) }
        ensures same { OnErr result (IsRewound self.old self.new) }
    {
        self.table.stand()
    }

    /// Puts the stays of these attributes before all others, in this order; the others keep theirs. The marks
    /// inside and all values stay, and columns may turn negative. After want of memory the corner is that of
    /// the newest mark.
    pub fn put_first(&mut self, attrs: &[u32]) -> Result<(), OutOfMemory>
        requires marked { 0 < length self.old.before }
        requires held { All (HasStay self.old.problem.stays) attrs.now }
        requires apart { AllPairs (λ a b. a ≢ b) attrs.now }
        ensures problem { IfOk result (λ _. self.new.problem ≡ fronted attrs.now self.old.problem) }
        ensures marks { IfOk result (λ _. SameMarks self.new.marks self.old.marks) }
        ensures before { self.new.before ≡ self.old.before }
        ensures same { OnErr result (IsRewound self.old self.new) }
    {
        self.table.put_first(attrs)
    }

    /// Makes the corner of now, at which no line is listed, the newest of the earlier ones. The oldest is
    /// forgotten where there are too many.
    pub fn mark(&mut self)
        requires { self.old.candidates ≡ [] }
        ensures scene { scene_of self.new ≡ scene_of self.old }
        ensures before { self.new.before ≡ take VERSION_LIMIT (scene_of self.old ∷ self.old.before) }
        ensures candidates { self.new.candidates ≡ [] }
    {
        self.table.mark();
    }

    /// Goes back to the newest of the earlier corners.
    pub fn back(&mut self)
        requires { 0 < length self.old.before }
        ensures scene { self.old.before ≡ scene_of self.new ∷ self.new.before }
        ensures candidates { self.new.candidates ≡ [] }
    {
        self.table.back();
    }

    /// Takes back what was done since the newest of the earlier corners, which stays.
    pub fn rewind(&mut self)
        requires { 0 < length self.old.before }
        ensures { IsRewound self.old self.new }
    {
        self.table.rewind();
    }

    /// Forgets the oldest of the earlier corners.
    pub fn forget(&mut self)
        requires { 0 < length self.old.before }
        ensures scene { scene_of self.new ≡ scene_of self.old }
        ensures before { self.new.before ≡ take (length self.old.before - 1) self.old.before }
        ensures candidates { self.new.candidates ≡ self.old.candidates }
    {
        self.table.forget();
    }

    /// The attributes that have another value than at the newest of the earlier corners, or one in place of
    /// none, or none in place of one. It takes as long as what has changed since.
    pub fn moved(&self) -> Result<Vec<u32>, OutOfMemory>
        requires { 0 < length self.now.before }
        ensures { IfOk result
            (λ attrs. AreMovedSince HasValueIn self.now.before (scene_of self.now) attrs.items) }
    {
        self.table.moved()
    }
}
