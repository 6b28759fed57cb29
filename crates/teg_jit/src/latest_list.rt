//! Latest dates one after another, in eight bytes each.
ghost use Rattle.std.specs.Prelude.{◌≡◌, ◌≤◌, ◌<◌, ℕ, length, slice_index_or, slice_set, IfOk};
ghost use Rattle.teg_jit.specs.declared.answers.LatestDate.TheVariants.{Free, At};
ghost use Rattle.teg_jit.specs.LatestCells.{most_cell_date, step_numbers, step_of_number, HasStepNumber, FitsCell};

use crate::answers::{LatestDate, Onward};
use std::alloc::{AllocError, Global};
use std::marker::Model;
use teg_net::PlaceId;

// The number of eight bytes that stands for a date that is free.
const FREE: u64 = u64::MAX;

// What a date is multiplied by: the numbers of first steps are below it.
const STEPS: u64 = 4096;

// The number of a first step.
fn number_of(onward: Onward) -> u64
    requires { HasStepNumber onward }
    ensures step { step_of_number result ≡ onward }
    ensures small { result ≤ 4001 }
{
    match onward {
        Onward::Due => 0,
        Onward::Next => 1,
        Onward::By(place) => u64::from(place.index) + 2,
    }
}

// The first step of a number.
fn step_of(number: u64) -> Onward
    requires { number < step_numbers }
    ensures { result ≡ step_of_number number }
{
    if number == 0 {
        Onward::Due
    } else if number == 1 {
        Onward::Next
    } else {
        Onward::By(PlaceId {
            index: (number - 2) as u32,
        })
    }
}

// Latest dates one after another, in eight bytes each. Contracts see the list of them.
#[derive(Debug, Drop)]
pub(crate) struct LatestList {
    cells: Vec<u64>,
}

impl Model for LatestList {
    ghost use Rattle.std.specs.Prelude.{List, map};
    ghost use Rattle.teg_jit.specs.declared.answers.LatestDate.{LatestDate};
    ghost use Rattle.teg_jit.specs.LatestCells.{latest_of};

    ghost Value = { List LatestDate };

    ghost view = { λ a. map latest_of a.cells.items };
}

impl LatestList {
    // So many dates that are free.
    #[tactic(auto, using(crate::proofs::Packing::all_free, crate::proofs::Packing::all_count))]
    pub(crate) fn new(alloc: Global, count: usize) -> Result<LatestList, AllocError>
        ensures count { IfOk result (λ list. length list ≡ count) }
        ensures free { IfOk result (λ list. (i : ℕ) → slice_index_or list i Free ≡ Free) }
    {
        let cells = vec![in alloc; FREE; count]?;
        Ok(LatestList { cells })
    }

    // The date at this index. It takes no memory.
    #[tactic(auto, using(crate::proofs::Packing::cell_at))]
    pub(crate) fn get(&self, index: usize) -> LatestDate
        requires { index < length self.now }
        ensures value { result ≡ slice_index_or self.now index Free }
        ensures fits { FitsCell result }
    {
        let cell = self.cells[index];
        if cell == FREE {
            LatestDate::Free
        } else {
            LatestDate::At {
                date: cell / STEPS,
                onward: step_of(cell % STEPS),
            }
        }
    }

    // Sets the date at this index. It takes no memory.
    #[tactic(auto, using(crate::proofs::Packing::cell_set, crate::proofs::Packing::packed_is))]
    pub(crate) fn set(&mut self, index: usize, date: u64, onward: Onward)
        requires index { index < length self.old }
        requires date { date < most_cell_date }
        requires step { HasStepNumber onward }
        ensures { self.new ≡ slice_set self.old index (At date onward) }
    {
        self.cells[index] = date * STEPS + number_of(onward);
    }

    // Sets the date at this index to one of another list. It takes no memory.
    pub(crate) fn copy(&mut self, index: usize, from: &LatestList, at: usize)
        requires index { index < length self.old }
        requires at { at < length from.now }
        ensures { self.new ≡ slice_set self.old index (slice_index_or from.now at Free) }
    {
        self.cells[index] = from.cells[at];
    }
}
