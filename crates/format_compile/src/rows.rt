// The rows of a format, one after the other.
ghost use Rattle.std.specs.Prelude.{◌≡◌, ◌<◌, ◌≤◌, ◌+◌, ◌++◌, ◌∷◌, [], List, map, length, IfOk, OnOk};
ghost use Rattle.std.specs.Prelude.{IfErr, All};
ghost use Rattle.problem_core.specs.declared.limits.TheConstants.{NUMBER_LIMIT};
ghost use Rattle.script_text.specs.Meaning.{Linear};
ghost use Rattle.view_tree.specs.Views.{LiveView};
ghost use Rattle.compile_parts.specs.Addends.{IsKept};
ghost use Rattle.format_compile.specs.Asks.{added, IsKeptAsk, IsAsk, AreAsks};
ghost use Rattle.compile_parts.specs.Meaning.{terms_of};
ghost use Rattle.constraint_compile.specs.Stops.{IsRowStop};
ghost use Rattle.constraint_compile.specs.Inside.{form_view, IsForm, AreForms};
ghost use Rattle.format_compile.specs.FormatRows.{IsRowWithin, AreRowsOf};
ghost use Rattle.format_compile.specs.FormatFound.{IsFoundWith, EndsRows, HaveNoRows, IsLater};
ghost use Rattle.format_compile.specs.FormatFound.{noted};
ghost use Rattle.format_compile.specs.FormatStops.{IsPastNumbers};
ghost use Rattle.format_compile.specs.declared.rows.TheConstants.{TERM_COUNT};

use crate::asks::Ask;
use compile_parts::{Addend, CompileStop};
use constraint_compile::{Head, RowForm, row_of_addends};
use frac_core::OutOfMemory;
use name_tables::{LimitWord, Metrics};
use std::alloc::Global;
use std::slice;

/// The rows so far, or the first limit that one of them passes.
#[derive(Drop)]
pub(crate) struct Found {
    pub rows: Vec<RowForm>,
    pub limit: Option<LimitWord>,
}

// Every row of a format has this weight.
const WEIGHT: u16 = 1;

/// A row has at most two ends and the space between them.
pub(crate) const TERM_COUNT: usize = 3;

// The row's addends on its left side.
fn addends_of<'a>(alloc: Global, ask: &Ask<'a>) -> Result<Vec<Addend<'a>>, OutOfMemory>
    requires { IsKeptAsk ask.now }
    ensures added { IfOk result (λ out. out.items ≡ added ask.now) }
    ensures kept { IfOk result (λ out. All IsKept out.items) }
    ensures few { IfOk result (λ out. length out.items ≤ TERM_COUNT) }
{
    let mut out = Vec::with_capacity(alloc, TERM_COUNT)?;
    out.extend_from_slice(slice::from_ref(&ask.plus))?;
    if let Some(minus) = &ask.minus {
        out.extend_from_slice(slice::from_ref(minus))?;
    }
    out.extend_from_slice(slice::from_ref(&ask.object))?;
    Ok(out)
}

// The row that the format asks for.
fn row_of(alloc: Global, metrics: &Metrics, ask: &Ask<'_>, id: u32) -> Result<RowForm, CompileStop>
    requires kept { IsKeptAsk ask.now }
    requires number { (0 < id) × (id < NUMBER_LIMIT) }
    ensures form { IfOk result IsForm }
    ensures row { IfOk result (λ r. (views : List LiveView) (l : Linear) → IsAsk views metrics.now l ask.now
        → IsRowWithin views metrics.now l id (form_view r)) }
    ensures stop { IfErr result (λ e. (views : List LiveView) (l : Linear) → IsAsk views metrics.now l ask.now
        → IsRowStop views metrics.now (terms_of l) e) }
{
    let head = Head {
        id,
        rank: ask.rank,
        weight: WEIGHT,
        rel: ask.rel,
    };
    let added = addends_of(alloc, ask)?;
    row_of_addends(alloc, metrics, &added, head)
}

fn push_row(rows: &mut Vec<RowForm>, row: RowForm) -> Result<(), OutOfMemory>
    ensures { OnOk result (rows.new.items ≡ rows.old.items ++ row ∷ []) }
{
    Ok(rows.push(row)?)
}

// Notes that a row passes a limit, unless it is the first limit of all.
fn note(limit: &mut Option<LimitWord>, stop: CompileStop) -> Result<(), CompileStop>
    ensures noted { OnOk result ((limit.new ≡ noted limit.old stop) × IsLater stop) }
    ensures stop { IfErr result (λ e. (e ≡ stop) × (IsLater stop → ⊥)) }
{
    match stop {
        CompileStop::Limit(LimitWord::Coefficient) => {
            *limit = Some(LimitWord::Coefficient);
            Ok(())
        }
        CompileStop::Limit(LimitWord::Constant) => {
            *limit = limit.or(Some(LimitWord::Constant));
            Ok(())
        }
        first => Err(first),
    }
}

fn add_row(
    alloc: Global,
    metrics: &Metrics,
    ask: &Ask<'_>,
    id: u32,
    found: &mut Found,
) -> Result<(), CompileStop>
    requires kept { IsKeptAsk ask.now }
    requires number { (0 < id) × (id < NUMBER_LIMIT) }
    requires forms { AreForms found.old.rows.items }
    ensures forms { OnOk result (AreForms found.new.rows.items) }
    ensures found { OnOk result (IsFoundWith metrics.now ask.now id found.old found.new) }
    ensures stop { IfErr result (λ e. (views : List LiveView) (l : Linear) → IsAsk views metrics.now l ask.now
        → EndsRows views metrics.now (l ∷ []) e) }
{
    match row_of(alloc, metrics, ask, id) {
        Ok(row) => Ok(push_row(&mut found.rows, row)?),
        Err(stop) => note(&mut found.limit, stop),
    }
}

/// The rows that the format asks for, numbered from the first number, from whatever views and lines they
/// come.
pub(crate) fn rows_of(
    alloc: Global,
    metrics: &Metrics,
    asks: &[Ask<'_>],
    first_row: u32,
) -> Result<Vec<RowForm>, CompileStop>
    requires kept { All IsKeptAsk asks.now }
    requires first { 0 < first_row }
    requires numbers { IsPastNumbers first_row (length asks.now) → ⊥ }
    ensures forms { IfOk result (λ rows. AreForms rows.items) }
    ensures rows { IfOk result (λ rows. (views : List LiveView) (lines : List Linear)
        → AreAsks views metrics.now lines asks.now
        → AreRowsOf views metrics.now lines first_row (map form_view rows.items)) }
    ensures stop { IfErr result (λ e. (views : List LiveView) (lines : List Linear)
        → AreAsks views metrics.now lines asks.now → HaveNoRows views metrics.now lines e) }
{
    let mut found = Found {
        rows: Vec::new(alloc),
        limit: None,
    };
    let mut id = first_row;
    for ask in asks {
        add_row(alloc, metrics, ask, id, &mut found)?;
        id += 1;
    }
    match found.limit {
        Some(word) => Err(CompileStop::Limit(word)),
        None => Ok(found.rows),
    }
}
