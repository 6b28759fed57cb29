//! The plan: the latest dates, each with the first step of a walk by which it is attained.
ghost use Rattle.std.specs.Prelude.{◌≡◌, ◌≢◌, ◌<◌, ◌≤◌, ℕ, Option, IfOk};
ghost use Rattle.due_laws.specs.LatestDates.{IsTightWalk};
ghost use Rattle.teg_jit.specs.declared.answers.LatestDate.TheVariants.{Free};
ghost use Rattle.teg_jit.specs.FirstSteps.{IsFirstStep};
ghost use Rattle.teg_jit.specs.Plans.{latest_at, dates_of_plan, IsPlanFor, StandsForNet, FollowsPlan};

use crate::answers::{LatestDate, Onward};
use crate::cells::cell_of;
use crate::transposed_list::TransposedList;
use std::alloc::Global;
use std::marker::Model;
use teg_net::{Net, OutOfMemory, Step, TransitionId, Walk};

/// The latest dates of the firings up to the greatest number that is due. Contracts see how many
/// transitions and numbers there are, and the dates, number by number.
#[derive(Debug, Drop)]
pub struct Plan {
    width: usize,
    numbers: u32,
    dates: TransposedList,
}

impl Model for Plan {
    ghost use Rattle.teg_jit.specs.Plans.{PlanDates, KeepsSizes};

    ghost Value = { PlanDates };

    ghost view = { λ a. record { width = a.width; numbers = a.numbers; dates = a.dates } };

    ghost invariant = { λ a. KeepsSizes
        (record { width = a.width; numbers = a.numbers; dates = a.dates }) };
}

// The step by which a latest date is attained; none where the firing is free, or due at it.
fn first_step(date: LatestDate) -> Option<Step>
    ensures { IsFirstStep date result }
{
    match date {
        LatestDate::Free => None,
        LatestDate::At { onward, .. } => match onward {
            Onward::Due => None,
            Onward::By(place) => Some(Step::By(place)),
            Onward::Next => Some(Step::Next),
        },
    }
}

impl Plan {
    ghost use Rattle.teg_jit.specs.Plans.{PlanDates, KeepsSizes};

    // The plan with these dates. It takes no memory.
    pub(crate) fn new(width: usize, numbers: u32, dates: TransposedList) -> Plan
        requires { KeepsSizes (record { width = width; numbers = numbers; dates = dates }) }
        ensures { result ≡ record { width = width; numbers = numbers; dates = dates } }
    {
        Plan {
            width,
            numbers,
            dates,
        }
    }

    /// How many transitions have latest dates: those of the net. It takes no memory.
    pub fn width(&self) -> usize
        ensures { result ≡ self.now.width }
    {
        self.width
    }

    /// The greatest number that is due, 0 where nothing is. It takes no memory.
    pub fn numbers(&self) -> u32
        ensures value { result ≡ self.now.numbers }
        ensures limits { KeepsSizes self.now }
    {
        self.numbers
    }

    /// The latest date of the firing of this number, from 1 on. It takes no memory.
    pub fn latest(&self, transition: TransitionId, number: u32) -> LatestDate
        requires transition { transition.index < self.now.width }
        requires number { 1 ≤ number }
        requires last { number ≤ self.now.numbers }
        ensures value { result ≡ latest_at self.now transition.index number }
        ensures limits { KeepsSizes self.now }
    {
        self.dates.get(cell_of(self.width, transition, number))
    }

    /// The walk from a firing that is not free, by the first steps, up to a firing that is due: its
    /// due date less its time is the latest date. `OutOfMemory` comes only where no memory is
    /// found.
    pub fn walk(
        &self,
        alloc: Global,
        net: &Net,
        transition: TransitionId,
        number: u32,
    ) -> Result<Walk, OutOfMemory>
        requires stands { StandsForNet net.now self.now }
        requires transition { transition.index < self.now.width }
        requires number { 1 ≤ number }
        requires last { number ≤ self.now.numbers }
        requires bounded { latest_at self.now transition.index number ≢ Free }
        ensures tight { IfOk result (λ walk. (due : ℕ → ℕ → Option ℕ)
            → IsPlanFor net.now due self.now → IsTightWalk net.now due transition.index number
            (dates_of_plan self.now transition.index number) walk) }
        ensures follows { IfOk result (λ walk. FollowsPlan net.now self.now transition.index number
            walk.steps.items) }
    {
        let places = net.places();
        let mut steps = Vec::new(alloc);
        let mut at = transition;
        let mut count = number;
        while let Some(step) = first_step(self.latest(at, count)) {
            steps.push(step)?;
            (at, count) = match step {
                Step::By(id) => {
                    let place = &places[id.index as usize];
                    (place.to, count + place.tokens)
                }
                Step::Next => (at, count + 1),
            };
        }
        Ok(Walk {
            start: transition,
            number: number as u64,
            steps,
        })
    }
}
