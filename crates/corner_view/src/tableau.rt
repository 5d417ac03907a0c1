// What keeps a corner.
ghost use Rattle.std.specs.Prelude.{◌≡◌, ◌≢◌, ◌<◌, ◌≤◌, ◌↔◌, ◌-◌, ◌+◌, ℕ, List, [], ◌∷◌, pos, length};
ghost use Rattle.std.specs.Prelude.{false, take, true, All, AllPairs, Any, Contains, IfOk, IfErr, IfSome};
ghost use Rattle.std.specs.Prelude.{IfNone};
ghost use Rattle.std.specs.Prelude.{OnErr, OnOk, slice_get, Some};
ghost use Rattle.problem_core.specs.Layout.{HasStay};
ghost use Rattle.problem_core.specs.Kept.{IsWhole, IsNumber};
ghost use Rattle.problem_core.specs.Corners as corners;
ghost use Rattle.problem_core.specs.Corners.{IsExchange, IsIn, NoNegativeValue, SameMarks, attr_column};
ghost use Rattle.problem_core.specs.Corners.{exchanged};
ghost use Rattle.problem_core.specs.Changes.Begins.{BeginsWith, without_marks};
ghost use Rattle.problem_core.specs.declared.limits.TheConstants.{ROW_LIMIT};
ghost use Rattle.problem_core.specs.declared.parts.RowName.TheVariants as row_names;
ghost use Rattle.problem_core.specs.Levels.{IsCostAt, IsLevelAt};
ghost use Rattle.problem_core.specs.declared.parts.Level as level_type;
ghost use Rattle.problem_core.specs.declared.parts.RowName as row_type;
ghost use Rattle.problem_core.specs.declared.stops.What as what_type;
ghost use Rattle.problem_core.specs.declared.stops.What.TheVariants.{Mark as MarkOf};
ghost use Rattle.version_lists.specs.declared.versions.TheConstants.{VERSION_LIMIT};
ghost use Rattle.corner_laws.specs.Lifts.{with_rows};
ghost use Rattle.corner_lines.specs.Joins.{with_attr};
ghost use Rattle.corner_lines.specs.Removals.{IsFree, without_attr, without_row};
ghost use Rattle.corner_lines.specs.Shifts.{with_constant};
ghost use Rattle.stay_orders.specs.Orders.{fronted};
ghost use Rattle.corner_view.specs.Seen.{AreCandidates, AreMovers, CornerView, HasNoNegative, HasNumbers};
ghost use Rattle.corner_view.specs.Seen.{HasValueAt, IsCoefficientOf, IsInUse, IsKeptCorner, IsLevelOf};
ghost use Rattle.corner_view.specs.Seen.{IsMarkOf, IsNamed, IsOutside, IsReducedAt, IsScaleOf, IsSettled};
ghost use Rattle.corner_view.specs.Seen.{IsStronger, IsWritten, MovesWith};
ghost use Rattle.corner_view.specs.Fronts.{AreFrontsOf, HasNoFront, IsFrontOf};
ghost use Rattle.corner_view.specs.Moves.{AreMovedSince, HasValueIn};
ghost use Rattle.corner_view.specs.Entries.{AreEntries};
ghost use Rattle.corner_view.specs.Growing.{AreGrowersDear};
ghost use Rattle.corner_view.specs.Lows.{AreNotLow, IsLowMark, ListsLow};
ghost use Rattle.corner_view.specs.AddStops.{AllSumsFit, IsAddStop};
ghost use Rattle.corner_view.specs.Changes.{HasStood, IsAsBefore, IsNear};
ghost use Rattle.corner_view.specs.Changes.{IsRewound, scene_of};
ghost use Rattle.corner_view.specs.Stops.{IsUnfitStop};

use crate::types::{Front, Fronts};
use cert_core::RunStop;
use frac_core::{Frac, OutOfMemory};
use problem_core::{Level, Mark, Row, RowName, Stay, TableStop, What};
use std::alloc::Global;

/// What keeps a problem and the marks inside at one of its corners, with earlier ones.
pub trait Tableau: Drop {
    ghost seen: { Self → CornerView };

    /// The corner of no attribute and no row.
    fn new(alloc: Global) -> Result<Self, OutOfMemory>
    where
        Self: Sized,
        ensures { IfOk result (λ c. seen c ≡ record {
          problem = record { rows = []; stays = [] };
          marks = [];
          before = [];
          candidates = [];
          order = [];
        }) };

    /// Shows what each corner keeps.
    fn show_corner(&self)
        ensures kept { IsKeptCorner (seen self.now).problem (seen self.now).marks }
        ensures candidates { AreCandidates (seen self.now).problem (seen self.now).marks
            (seen self.now).candidates }
        ensures named { All (IsNamed (seen self.now).problem) (seen self.now).candidates }
        ensures before { All IsSettled (seen self.now).before };

    /// The rows, by rising number.
    fn rows(&self) -> &[Row]
        ensures { result.now ≡ (seen self.now).problem.rows };

    /// The stays, strongest first.
    fn stays(&self) -> &[Stay]
        ensures { result.now ≡ (seen self.now).problem.stays };

    /// The marks inside, by row number with the stays last.
    fn marks(&self) -> Result<Vec<Mark>, OutOfMemory>
        ensures { IfOk result (λ marks. marks.items ≡ (seen self.now).marks) };

    /// Whether the mark is inside.
    fn is_inside(&self, mark: Mark) -> bool
        requires mark { IsMarkOf (seen self.now).problem mark }
        ensures { (result ≡ true) ↔ IsIn (corners.place mark) (seen self.now).marks };

    /// The value of a mark, which is 0 outside.
    fn value(&self, mark: Mark) -> Frac
        requires mark { IsMarkOf (seen self.now).problem mark }
        ensures { HasValueAt (seen self.now).problem (seen self.now).marks (corners.place mark) result };

    /// The inside mark of a row or stay, if its value is negative.
    fn low_mark(&self, row: RowName) -> Option<Mark>
        requires { IsNamed (seen self.now).problem row }
        ensures some { IfSome result (IsLowMark (seen self.now).problem (seen self.now).marks row) }
        ensures none { IfNone result (AreNotLow (seen self.now).problem (seen self.now).marks row) };

    /// The value of an attribute.
    fn attr_value(&self, attr: u32) -> Frac
        requires attr { HasStay (seen self.now).problem.stays attr }
        ensures { HasValueAt (seen self.now).problem (seen self.now).marks (attr_column attr) result };

    /// How many attributes and inside marks move where the outside mark grows alone.
    fn movers(&self, mark: Mark) -> usize
        requires outside { IsOutside (seen self.now).problem (seen self.now).marks mark }
        ensures { (whats : List what_type.What) × AreMovers (seen self.now) mark whats × (length whats
            ≡ result) };

    /// One of the attributes and inside marks that move where the outside mark grows alone.
    fn mover(&self, mark: Mark, i: usize) -> What
        requires outside { IsOutside (seen self.now).problem (seen self.now).marks mark }
        requires within { (whats : List what_type.What) × AreMovers (seen self.now) mark whats
            × (i < length whats) }
        ensures { (whats : List what_type.What) → AreMovers (seen self.now) mark whats
            → slice_get whats i ≡ Some result };

    /// How many outside lines have a number in the writing of the inside mark.
    fn entries(&self, mark: Mark) -> usize
        requires inside { IsIn (corners.place mark) (seen self.now).marks }
        ensures { (names : List row_type.RowName) × AreEntries (seen self.now) mark names × (length names
            ≡ result) };

    /// One of the outside lines that have a number in the writing of the inside mark.
    fn entry(&self, mark: Mark, i: usize) -> RowName
        requires inside { IsIn (corners.place mark) (seen self.now).marks }
        requires within { (names : List row_type.RowName) × AreEntries (seen self.now) mark names
            × (i < length names) }
        ensures { (names : List row_type.RowName) → AreEntries (seen self.now) mark names
            → slice_get names i ≡ Some result };

    /// Whether all outside marks of other rows and stays with which the inside one grows have a reduced cost
    /// above 0 at the level.
    fn are_growers_dear(&self, mark: Mark, level: Level) -> bool
        requires inside { IsIn (corners.place mark) (seen self.now).marks }
        requires level { IsLevelOf (seen self.now).problem level }
        ensures { result ≡ true → AreGrowersDear (seen self.now).problem (seen self.now).marks mark level };

    /// Lists the row or stay if its inside mark has a negative value; where it has none inside, those whose
    /// inside marks move with its marks and have negative values.
    fn list_low(&self, row: RowName, low: &mut Vec<RowName>) -> Result<(), OutOfMemory>
        requires { IsNamed (seen self.now).problem row }
        ensures { OnOk result
            (ListsLow (seen self.now).problem (seen self.now).marks row low.old.items low.new.items) };

    /// The coefficient of an outside mark in the writing of an attribute or an inside mark.
    fn coefficient(&self, what: What, mark: Mark) -> i64
        requires what { IsWritten (seen self.now).problem (seen self.now).marks what }
        requires outside { IsOutside (seen self.now).problem (seen self.now).marks mark }
        ensures { IsCoefficientOf (seen self.now).problem (seen self.now).marks what mark result };

    /// The scale of the writing of an attribute or an inside mark.
    fn denominator(&self, what: What) -> i64
        requires what { IsWritten (seen self.now).problem (seen self.now).marks what }
        ensures { IsScaleOf (seen self.now).problem (seen self.now).marks what result };

    /// The reduced cost of a mark at a level, which is 0 inside.
    fn reduced(&self, level: Level, mark: Mark) -> i64
        requires level { IsLevelOf (seen self.now).problem level }
        requires mark { IsMarkOf (seen self.now).problem mark }
        ensures { IsReducedAt (seen self.now).problem (seen self.now).marks level mark result };

    /// The first level at which the mark's reduced cost is not 0, with this cost.
    fn front(&self, mark: Mark) -> Option<Front>
        requires mark { IsMarkOf (seen self.now).problem mark }
        ensures some { IfSome result (IsFrontOf (seen self.now).problem (seen self.now).marks mark) }
        ensures none { IfNone result (HasNoFront (seen self.now).problem (seen self.now).marks mark) };

    /// The fronts of both marks of a line.
    fn fronts(&self, row: RowName) -> Fronts
        requires { IsNamed (seen self.now).problem row }
        ensures { AreFrontsOf (seen self.now).problem (seen self.now).marks row result };

    /// The multiplier of a row or stay at a level.
    fn multiplier(&self, level: Level, row: RowName) -> i64
        requires level { IsLevelOf (seen self.now).problem level }
        requires row { IsNamed (seen self.now).problem row }
        ensures { HasNumbers (seen self.now).problem (seen self.now).marks level
            (λ scale times reduced. result ≡ times row) };

    /// The scale of a level.
    fn scale(&self, level: Level) -> i64
        requires level { IsLevelOf (seen self.now).problem level }
        ensures { HasNumbers (seen self.now).problem (seen self.now).marks level
            (λ scale times reduced. result ≡ pos scale) };

    /// The cost of a level.
    fn cost(&self, level: Level) -> Frac
        requires level { IsLevelOf (seen self.now).problem level }
        ensures { (k : ℕ) → IsLevelAt (seen self.now).problem level k
            → IsCostAt (seen self.now).problem (seen self.now).marks k result };

    /// The levels at which a row or a stay stands, strongest first.
    fn levels(&self) -> Result<Vec<Level>, OutOfMemory>
        ensures used { IfOk result (λ levels. All (IsInUse (seen self.now).problem) levels.items) }
        ensures all { IfOk result (λ levels. (level : level_type.Level)
            → IsInUse (seen self.now).problem level
            → Contains levels.items level) }
        ensures order { IfOk result (λ levels. AllPairs (IsStronger (seen self.now).problem) levels.items) };

    /// Whether the first level is stronger.
    fn is_stronger(&self, a: Level, b: Level) -> bool
        requires a { IsLevelOf (seen self.now).problem a }
        requires b { IsLevelOf (seen self.now).problem b }
        ensures yes { result ≡ true → IsStronger (seen self.now).problem a b }
        ensures no { result ≡ false → (j k : ℕ) → IsLevelAt (seen self.now).problem a j
            → IsLevelAt (seen self.now).problem b k → k ≤ j };

    /// How many lines are listed as those that may have a negative column.
    fn candidates(&self) -> usize
        ensures { result ≡ length (seen self.now).candidates };

    /// One of the listed lines.
    fn candidate(&self, i: usize) -> RowName
        requires { i < length (seen self.now).candidates }
        ensures { slice_get (seen self.now).candidates i ≡ Some result };

    /// Takes a line off the list, neither of whose marks has a negative column.
    fn unlist(&mut self, i: usize)
        requires within { i < length (seen self.old).candidates }
        requires settled { (name : row_type.RowName) → slice_get (seen self.old).candidates i ≡ Some name
            → HasNoNegative (seen self.old).problem (seen self.old).marks name }
        ensures scene { scene_of (seen self.new) ≡ scene_of (seen self.old) }
        ensures before { (seen self.new).before ≡ (seen self.old).before }
        ensures shorter { length (seen self.new).candidates + 1 ≡ length (seen self.old).candidates };

    /// Exchanges an outside mark for an inside one that moves with it.
    ///
    /// `Refused` names what does not fit at the new corner, and the corner is as before. After want of memory
    /// it is that of the newest mark.
    fn swap(&mut self, enter: Mark, leave: Mark) -> Result<(), TableStop>
        requires marked { 0 < length (seen self.old).before }
        requires enter { IsOutside (seen self.old).problem (seen self.old).marks enter }
        requires leave { IsIn (corners.place leave) (seen self.old).marks }
        requires moves { MovesWith (seen self.old).problem (seen self.old).marks enter (MarkOf leave) }
        ensures problem { IfOk result (λ _. (seen self.new).problem ≡ (seen self.old).problem) }
        ensures marks { IfOk result (λ _. SameMarks (seen self.new).marks
            (exchanged (record { enter = enter; leave = leave }) (seen self.old).marks)) }
        ensures before { (seen self.new).before ≡ (seen self.old).before }
        ensures exchange { IsExchange (seen self.old).problem (seen self.old).marks
            (record { enter = enter; leave = leave }) }
        ensures stop { IfErr result (IsUnfitStop (seen self.old).problem
            (exchanged (record { enter = enter; leave = leave }) (seen self.old).marks)) }
        ensures same { IfErr result (IsAsBefore (seen self.old) (seen self.new)) };

    /// Exchanges an outside mark for an inside one that moves with it, where no outside mark has a negative
    /// column after it.
    ///
    /// `Refused` names what does not fit at the new corner, and the corner is as before. After want of memory
    /// it is that of the newest mark.
    fn swap_settled(&mut self, enter: Mark, leave: Mark) -> Result<(), TableStop>
        requires marked { 0 < length (seen self.old).before }
        requires enter { IsOutside (seen self.old).problem (seen self.old).marks enter }
        requires leave { IsIn (corners.place leave) (seen self.old).marks }
        requires moves { MovesWith (seen self.old).problem (seen self.old).marks enter (MarkOf leave) }
        requires settled { AreCandidates (seen self.old).problem
            (exchanged (record { enter = enter; leave = leave }) (seen self.old).marks) [] }
        ensures problem { IfOk result (λ _. (seen self.new).problem ≡ (seen self.old).problem) }
        ensures marks { IfOk result (λ _. SameMarks (seen self.new).marks
            (exchanged (record { enter = enter; leave = leave }) (seen self.old).marks)) }
        ensures before { (seen self.new).before ≡ (seen self.old).before }
        ensures stop { IfErr result (IsUnfitStop (seen self.old).problem
            (exchanged (record { enter = enter; leave = leave }) (seen self.old).marks)) }
        ensures same { IfErr result (IsAsBefore (seen self.old) (seen self.new)) };

    /// Adds an attribute that stands at this value, with its stay as the last one. After want of memory the
    /// corner is that of the newest mark.
    fn add_attr(&mut self, attr: u32, target: Frac) -> Result<(), OutOfMemory>
        requires marked { 0 < length (seen self.old).before }
        requires number { IsNumber attr }
        requires fresh { HasStay (seen self.old).problem.stays attr → ⊥ }
        requires room { length (seen self.old).problem.stays < ROW_LIMIT }
        ensures problem { IfOk result (λ _. (seen self.new).problem
            ≡ with_attr attr target (seen self.old).problem) }
        ensures marks { IfOk result (λ _. (seen self.new).marks ≡ (seen self.old).marks) }
        ensures before { (seen self.new).before ≡ (seen self.old).before }
        ensures candidates { IfOk result (λ _. (seen self.new).candidates ≡ (seen self.old).candidates) }
        ensures same { OnErr result (IsRewound (seen self.old) (seen self.new)) };

    /// Adds rows, each with its mark that is not negative, over at 0. First all rows join, then the levels'
    /// costs.
    ///
    /// `Unfit` names a sum of a row's terms, where it and the rows after it are over, or of a level's rows,
    /// where all rows have joined; after `Ok` each of these sums fits. It answers no other stop but want of
    /// memory. After a stop the corner is that of the newest mark.
    fn add_rows(&mut self, rows: &[Row]) -> Result<(), RunStop>
        requires marked { 0 < length (seen self.old).before }
        requires whole { IsWhole (with_rows rows.now (seen self.old).problem) }
        requires values { NoNegativeValue (seen self.old).problem (seen self.old).marks }
        ensures problem { IfOk result (λ _. (seen self.new).problem
            ≡ with_rows rows.now (seen self.old).problem) }
        ensures marks { IfOk result
            (λ _. BeginsWith (seen self.new).problem (seen self.old).marks rows.now []
            (seen self.new).marks) }
        ensures fits { IfOk result (λ _. AllSumsFit (seen self.old) rows.now) }
        ensures before { (seen self.new).before ≡ (seen self.old).before }
        ensures stop { IfErr result (IsAddStop (seen self.old) rows.now) }
        ensures same { OnErr result (IsRewound (seen self.old) (seen self.new)) };

    /// Gives a row this constant, whose difference from the row's own fits. The marks inside stay, and values
    /// may turn negative.
    ///
    /// `Refused` names a quantity that does not fit where the row has the new constant. After a stop the
    /// corner is that of the newest mark.
    fn shift(&mut self, id: u32, to: Frac) -> Result<(), TableStop>
        requires marked { 0 < length (seen self.old).before }
        requires near { IsNear (seen self.old).problem id to }
        ensures problem { IfOk result (λ _. (seen self.new).problem
            ≡ with_constant id to (seen self.old).problem) }
        ensures marks { IfOk result (λ _. (seen self.new).marks ≡ (seen self.old).marks) }
        ensures before { (seen self.new).before ≡ (seen self.old).before }
        ensures candidates { IfOk result (λ _. (seen self.new).candidates ≡ (seen self.old).candidates) }
        ensures stop { IfErr result
            (IsUnfitStop (with_constant id to (seen self.old).problem) (seen self.old).marks) }
        ensures same { OnErr result (IsRewound (seen self.old) (seen self.new)) };

    /// Takes a row out whose mark is inside. The lines of its writing are listed if its mark costs.
    ///
    /// `Refused` names what does not fit without the row, and the corner is as before. After want of memory
    /// it is that of the newest mark.
    fn drop_row(&mut self, id: u32) -> Result<(), TableStop>
        requires marked { 0 < length (seen self.old).before }
        requires inside { Any (λ m. m.row ≡ row_names.Held id) (seen self.old).marks }
        ensures problem { IfOk result (λ _. (seen self.new).problem
            ≡ without_row id (seen self.old).problem) }
        ensures marks { IfOk result (λ _. (seen self.new).marks
            ≡ without_marks (id ∷ []) (seen self.old).marks) }
        ensures before { (seen self.new).before ≡ (seen self.old).before }
        ensures stop { IfErr result (IsUnfitStop (without_row id (seen self.old).problem)
            (without_marks (id ∷ []) (seen self.old).marks)) }
        ensures same { IfErr result (IsAsBefore (seen self.old) (seen self.new)) };

    /// Takes an attribute out that no row names, and its stay, which is outside. After want of memory the
    /// corner is that of the newest mark.
    fn drop_attr(&mut self, attr: u32) -> Result<(), OutOfMemory>
        requires marked { 0 < length (seen self.old).before }
        requires free { IsFree (seen self.old).problem attr }
        ensures problem { IfOk result (λ _. (seen self.new).problem
            ≡ without_attr attr (seen self.old).problem) }
        ensures marks { IfOk result (λ _. (seen self.new).marks ≡ (seen self.old).marks) }
        ensures before { (seen self.new).before ≡ (seen self.old).before }
        ensures same { OnErr result (IsRewound (seen self.old) (seen self.new)) };

    /// Gives the stays the attributes' values as targets. No attribute's value changes. After want of memory
    /// the corner is that of the newest mark.
    fn stand(&mut self) -> Result<(), OutOfMemory>
        requires marked { 0 < length (seen self.old).before }
        ensures stood { IfOk result (λ _. HasStood (seen self.old) (seen self.new)) }
        ensures marks { IfOk result (λ _. (seen self.new).marks ≡ (seen self.old).marks) }
        ensures before { (seen self.new).before ≡ (seen self.old).before }
        ensures candidates { IfOk result (λ _. (seen self.new).candidates ≡ (seen self.old).candidates) }
        ensures same { OnErr result (IsRewound (seen self.old) (seen self.new)) };

    /// Puts the stays of these attributes before all others, in this order; the others keep theirs. The marks
    /// inside and all values stay, and columns may turn negative. After want of memory the corner is that of
    /// the newest mark.
    fn put_first(&mut self, attrs: &[u32]) -> Result<(), OutOfMemory>
        requires marked { 0 < length (seen self.old).before }
        requires held { All (HasStay (seen self.old).problem.stays) attrs.now }
        requires apart { AllPairs (λ a b. a ≢ b) attrs.now }
        ensures problem { IfOk result (λ _. (seen self.new).problem
            ≡ fronted attrs.now (seen self.old).problem) }
        ensures marks { IfOk result (λ _. SameMarks (seen self.new).marks (seen self.old).marks) }
        ensures before { (seen self.new).before ≡ (seen self.old).before }
        ensures same { OnErr result (IsRewound (seen self.old) (seen self.new)) };

    /// Makes the corner of now, at which no line is listed, the newest of the earlier ones. The oldest is
    /// forgotten where there are too many.
    fn mark(&mut self)
        requires { (seen self.old).candidates ≡ [] }
        ensures scene { scene_of (seen self.new) ≡ scene_of (seen self.old) }
        ensures before { (seen self.new).before
            ≡ take VERSION_LIMIT (scene_of (seen self.old) ∷ (seen self.old).before) }
        ensures candidates { (seen self.new).candidates ≡ [] };

    /// Goes back to the newest of the earlier corners.
    fn back(&mut self)
        requires { 0 < length (seen self.old).before }
        ensures scene { (seen self.old).before ≡ scene_of (seen self.new) ∷ (seen self.new).before }
        ensures candidates { (seen self.new).candidates ≡ [] };

    /// Takes back what was done since the newest of the earlier corners, which stays.
    fn rewind(&mut self)
        requires { 0 < length (seen self.old).before }
        ensures { IsRewound (seen self.old) (seen self.new) };

    /// Forgets the oldest of the earlier corners.
    fn forget(&mut self)
        requires { 0 < length (seen self.old).before }
        ensures scene { scene_of (seen self.new) ≡ scene_of (seen self.old) }
        ensures before { (seen self.new).before
            ≡ take (length (seen self.old).before - 1) (seen self.old).before }
        ensures candidates { (seen self.new).candidates ≡ (seen self.old).candidates };

    /// The attributes that have another value than at the newest of the earlier corners, or one in place of
    /// none, or none in place of one. It takes as long as what has changed since.
    fn moved(&self) -> Result<Vec<u32>, OutOfMemory>
        requires { 0 < length (seen self.now).before }
        ensures { IfOk result
            (λ attrs. AreMovedSince HasValueIn (seen self.now).before (scene_of
            (seen self.now)) attrs.items) };
}
