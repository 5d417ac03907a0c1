// The places of rows and stays among the lines of a problem, rows before stays.
ghost use Rattle.std.specs.Prelude.{◌≡◌, ◌<◌, Contains, All, IfOk, IfSome, IfNone, map};
ghost use Rattle.cert_core.specs.Claims.{AreBys};
ghost use Rattle.cert_checker.specs.LineSums.{line_count};
ghost use Rattle.cert_checker.specs.LinePlaces.{IsIndex, ArePlaces, names, name_at, AreWeighed};

use crate::sums::Weighted;
use cert_core::By;
use frac_core::OutOfMemory;
use problem_core::{Problem, Row, RowName, Stay};
use std::alloc::Global;
use std::collections::BTreeMap;

/// The places of rows by number, and of stays by attribute.
#[derive(Drop)]
pub(crate) struct Places {
    rows: BTreeMap<u32, usize>,
    stays: BTreeMap<u32, usize>,
}

fn row_numbers(alloc: Global, rows: &[Row]) -> Result<Vec<u32>, OutOfMemory>
    ensures { IfOk result (λ v. v.items ≡ map (λ r. r.id) rows.now) }
{
    let mut numbers = Vec::new(alloc);
    for row in rows {
        numbers.push(row.id())?;
    }
    Ok(numbers)
}

fn stay_numbers(alloc: Global, stays: &[Stay]) -> Result<Vec<u32>, OutOfMemory>
    ensures { IfOk result (λ v. v.items ≡ map (λ s. s.attr) stays.now) }
{
    let mut numbers = Vec::new(alloc);
    for stay in stays {
        numbers.push(stay.attr)?;
    }
    Ok(numbers)
}

// Where each number stands.
fn index(alloc: Global, numbers: &[u32]) -> Result<BTreeMap<u32, usize>, OutOfMemory>
    ensures { IfOk result (IsIndex numbers.now) }
{
    let mut places = BTreeMap::new(alloc);
    for (place, number) in numbers.iter().enumerate() {
        places.insert(*number, place)?;
    }
    Ok(places)
}

impl Places {
    /// The places of all rows and stays of the problem.
    pub(crate) fn of(alloc: Global, p: &Problem) -> Result<Places, OutOfMemory>
        ensures { IfOk result (ArePlaces p.now) }
    {
        let rows = row_numbers(alloc, p.rows())?;
        let stays = stay_numbers(alloc, p.stays())?;
        Ok(Places {
            rows: index(alloc, &rows)?,
            stays: index(alloc, &stays)?,
        })
    }

    /// The place of a row or a stay's row, if the problem has it.
    pub(crate) fn find(&self, p: &Problem, row: RowName) -> Option<usize>
        requires { ArePlaces p.now self.now }
        ensures some { IfSome result (λ k. (k < line_count p.now) × (name_at p.now k ≡ row)) }
        ensures none { IfNone result (Contains (names p.now) row → ⊥) }
    {
        p.show_whole(); // for the proof: what a problem keeps
        match row {
            RowName::Held(id) => self.rows.get(&id).copied(),
            RowName::Stay(attr) => {
                let place = self.stays.get(&attr).copied()?;
                Some(p.rows().len() + place)
            }
        }
    }
}

/// The lines that are named, with their multipliers, if the problem has all of them.
pub(crate) fn weigh(
    alloc: Global,
    p: &Problem,
    places: &Places,
    by: &[By],
) -> Result<Option<Vec<Weighted>>, OutOfMemory>
    requires places { ArePlaces p.now places.now }
    requires by { AreBys by.now }
    ensures some { IfOk result (λ o. IfSome o (λ ws. AreWeighed p.now by.now ws.items)) }
    ensures none { IfOk result (λ o. IfNone o (All (λ b. Contains (names p.now) b.row) by.now → ⊥)) }
{
    let mut weighted = Vec::new(alloc);
    for line in by {
        let Some(at) = places.find(p, line.row) else {
            return Ok(None);
        };
        weighted.push(Weighted {
            at,
            times: line.times,
        })?;
    }
    Ok(Some(weighted))
}
