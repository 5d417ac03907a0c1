// The order in which rows and levels come.
ghost use Rattle.std.specs.Prelude.{All, AllPairs, IsTrue, ◌↔◌, map};
ghost use Rattle.claim_writing.specs.Names.{IsRowBefore, IsLevelBefore};
ghost use Rattle.claim_text.specs.Claims.Seen.{AreRowKeys, MayStandBehind};

use cert_core::By;
use problem_core::{Level, Mark, RowName};
use std::collections::BTreeMap;

// Whether the second row may follow the first.
fn is_row_before(a: RowName, b: RowName) -> bool
    ensures { IsTrue result ↔ IsRowBefore a b }
{
    match (a, b) {
        (RowName::Held(a), RowName::Held(b)) => a < b,
        (RowName::Held(_), RowName::Stay(_)) => true,
        (RowName::Stay(_), RowName::Held(_)) => false,
        (RowName::Stay(a), RowName::Stay(b)) => a != b,
    }
}

/// Whether the second level may follow the first.
pub(crate) fn is_level_before(a: Level, b: Level) -> bool
    ensures { IsTrue result ↔ IsLevelBefore a b }
{
    match (a, b) {
        (Level::Priority(a), Level::Priority(b)) => b < a,
        (Level::Priority(_), Level::Stay(_)) => true,
        (Level::Stay(_), Level::Priority(_)) => false,
        (Level::Stay(a), Level::Stay(b)) => a != b,
    }
}

// Whether the row may follow rows whose last one this is, and whose stays are the keys.
fn may_stand_behind(keys: &BTreeMap<u32, u32>, last: RowName, row: RowName) -> bool
    ensures { IsTrue result ↔ MayStandBehind keys.now last row }
{
    match row {
        RowName::Held(_) => is_row_before(last, row),
        RowName::Stay(attr) => !keys.contains_key(&attr),
    }
}

/// Whether the row may follow all these, whose stays are the keys.
pub(crate) fn are_rows_before(keys: &BTreeMap<u32, u32>, bys: &[By], row: RowName) -> bool
    requires order { AllPairs (λ a b. IsRowBefore a.row b.row) bys.now }
    requires keys { AreRowKeys (map (λ b. b.row) bys.now) keys.now }
    ensures { IsTrue result ↔ All (λ b. IsRowBefore b.row row) bys.now }
{
    if bys.is_empty() {
        return true;
    }
    may_stand_behind(keys, bys[bys.len() - 1].row, row)
}

/// Whether the row may follow the rows of all these marks, whose stays are the keys.
pub(crate) fn are_marks_before(keys: &BTreeMap<u32, u32>, marks: &[Mark], row: RowName) -> bool
    requires order { AllPairs (λ m n. IsRowBefore m.row n.row) marks.now }
    requires keys { AreRowKeys (map (λ m. m.row) marks.now) keys.now }
    ensures { IsTrue result ↔ All (λ m. IsRowBefore m.row row) marks.now }
{
    if marks.is_empty() {
        return true;
    }
    may_stand_behind(keys, marks[marks.len() - 1].row, row)
}
