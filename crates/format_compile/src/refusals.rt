// Why a format is refused, before its rows are made.
ghost use Rattle.std.specs.Prelude.{◌≡◌, ◌≤◌, ◌+◌, ◌∷◌, List, false, All, length, IsTrue};
ghost use Rattle.std.specs.Prelude.{IfOk, IfErr, OnOk};
ghost use Rattle.view_tree.specs.Views.{LiveView};
ghost use Rattle.format_compile.specs.Asks.{IsKeptAsk, AreAsks, IsUsableAsked, IsWrongAsked};
ghost use Rattle.format_compile.specs.FormatLines.{lines_of, parts_views};
ghost use Rattle.compile_parts.specs.Lookups.{numbers};
ghost use Rattle.format_compile.specs.FormatStops as stops;
ghost use Rattle.format_compile.specs.FormatStops.{IsPastNumbers, IsUsableFormat, MayStopBefore};
ghost use Rattle.format_compile.specs.FormatViews.{part_view, parts_view};
ghost use Rattle.format_compile.specs.FormatParts.{Part as FormatPart};

use crate::asks::{Asked, resolve_parts};
use crate::checks::is_along;
use crate::parts::Part;
use compile_parts::{CompileStop, KindWord};
use name_tables::{LimitWord, Metrics};
use problem_core::NUMBER_LIMIT;
use script_text::Align;
use std::alloc::Global;
use vfl_text::Axis;
use view_tree::Tree;

// One for a row that the format asks for.
fn rows_in(part: &Part<'_>) -> usize
    ensures count { (views : List LiveView) (parts : List FormatPart)
        → stops.row_count views (part_view part.now ∷ parts) ≡ result + stops.row_count views parts }
    ensures small { result ≤ 1 }
{
    match part {
        Part::View { name: _ } => 0,
        Part::Bar { view: _ } => 0,
        Part::Asks { span: _, pred: _ } => 1,
    }
}

/// The number of rows that the parts ask for.
pub(crate) fn row_count(parts: &[Part<'_>]) -> usize
    ensures { (views : List LiveView) → result ≡ stops.row_count views (parts_view parts.now) }
{
    let mut count = 0;
    for part in parts {
        count += rows_in(part);
    }
    count
}

// Whether one of so many rows has a number past the last one.
fn is_past_numbers(first_row: u32, count: usize) -> bool
    ensures yes { IsTrue result → IsPastNumbers first_row count }
    ensures no { result ≡ false → IsPastNumbers first_row count → ⊥ }
{
    count > 0 && (first_row >= NUMBER_LIMIT || count > (NUMBER_LIMIT - first_row) as usize)
}

// Fails with the first wrong use, if there is one.
fn used(axis: Axis, align: Option<Align>, asked: &Asked<'_>) -> Result<(), KindWord>
    ensures ok { OnOk result (IsUsableAsked axis align asked.now) }
    ensures stop { IfErr result (IsWrongAsked axis align asked.now) }
{
    if is_along(axis, align) {
        return Err(KindWord::Align);
    }
    if asked.lacks_parent {
        return Err(KindWord::Parent);
    }
    if asked.has_view_space {
        return Err(KindWord::Object);
    }
    if asked.lacks_rank {
        return Err(KindWord::Priority);
    }
    Ok(())
}

/// The meaning of the parts, if a format whose rows are numbered from the first number has no unknown name,
/// no wrong use and not too many rows.
// It has seven parameters: those of `compile_format`, with the axis and the parts in place of the format.
pub(crate) fn checked<'a>(
    alloc: Global,
    tree: &Tree,
    metrics: &Metrics,
    axis: Axis,
    align: Option<Align>,
    parts: &[Part<'a>],
    first_row: u32,
) -> Result<Asked<'a>, CompileStop>
    ensures usable { OnOk result (IsUsableFormat tree.now.views metrics.now axis align
        (parts_view parts.now)) }
    ensures numbers { OnOk result
        (IsPastNumbers first_row (stops.row_count tree.now.views (parts_view parts.now)) → ⊥) }
    ensures count { IfOk result (λ a. length a.rows.items
        ≡ stops.row_count tree.now.views (parts_view parts.now)) }
    ensures asks { IfOk result (λ a. AreAsks tree.now.views metrics.now
        (lines_of tree.now.views (parts_view parts.now)) a.rows.items) }
    ensures kept { IfOk result (λ a. All IsKeptAsk a.rows.items) }
    ensures views { IfOk result (λ a. numbers a.views.items
        ≡ parts_views tree.now.views (parts_view parts.now)) }
    ensures stop { IfErr result (MayStopBefore tree.now.views metrics.now axis align
        (parts_view parts.now) first_row) }
{
    let asked = resolve_parts(alloc, tree, metrics, parts)?;
    used(axis, align, &asked)?;
    if is_past_numbers(first_row, asked.rows.len()) {
        return Err(CompileStop::Limit(LimitWord::Rows));
    }
    Ok(asked)
}
