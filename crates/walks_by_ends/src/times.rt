//! The settled form of the times of walks from an input, told by the forms of the ends of its
//! places.
ghost use Rattle.std.specs.Prelude.{◌≡◌, ◌<◌, ◌≤◌, IfOk, IfSome, IsTrue, length};
ghost use Rattle.teg_settle.specs.settled_laws.SettledForms.{row_of, settled_length, step_of_form};
ghost use Rattle.teg_settle.specs.walk_times.Transfers.{IsTransferOf};

use crate::form::even_past;
use crate::ways::Ways;
use dioid::Date;
use end_laws::{latest_goes_on, walks_go_by_ends};
use own_period_laws::own_periods_tell_forms;
use std::alloc::{AllocError, Global};
use std::marker::Model;
use teg_net::{OutOfMemory, TransitionId};

// The form of the latest times by places: past a number each goes on by a step from number to
// number. Contracts see it as a form with all dates up to there, none of which is kept.
#[derive(Drop)]
pub(crate) struct LatestTimes<'a> {
    ways: Ways<'a>,
    after: u64,
    steps: Vec<i128>,
}

impl<'a> Model for LatestTimes<'a> {
    ghost use Rattle.std.specs.Prelude.{◌≡◌, ◌<◌, length};
    ghost use Rattle.teg_settle.specs.settled_laws.SettledForms.{SettledForm};
    ghost use Rattle.walks_by_ends.specs.LatestTimes.{latest_form};

    ghost Value = { SettledForm };

    ghost view = { λ l. latest_form l.ways l.after l.steps.items };

    ghost invariant = { λ l. (length l.steps.items ≡ length l.ways.net.transitions)
        × (l.after < 200000) };
}

impl<'a> LatestTimes<'a> {
    // The number past which the dates go on by their steps.
    pub(crate) fn after(&self) -> u64
        ensures { result ≡ self.now.after }
    {
        self.after
    }

    // In how many numbers they go on by a step: from each to the next.
    pub(crate) fn period(&self) -> u64
        ensures { result ≡ self.now.period }
    {
        let _after = self.after;
        1
    }

    // By what the dates of this transition move from number to number.
    pub(crate) fn step(&self, transition: TransitionId) -> i128
        requires { transition.index < length self.now.rows }
        ensures { result ≡ step_of_form self.now transition.index }
    {
        self.steps[transition.index as usize]
    }

    // The dates of this transition up to the number after that.
    pub(crate) fn row(
        &self,
        alloc: Global,
        transition: TransitionId,
    ) -> Result<Vec<Date>, AllocError>
        requires { transition.index < length self.now.rows }
        ensures { IfOk result (λ row. row.items ≡ row_of self.now transition.index) }
    {
        let mut row = Vec::new(alloc);
        for number in 0..self.after + 1 {
            row.push(self.ways.date(transition, number + 1))?;
        }
        Ok(row)
    }

    // Whether two transitions have the same dates up to there.
    pub(crate) fn has_same_row(&self, first: TransitionId, other: TransitionId) -> bool
        requires first { first.index < length self.now.rows }
        requires other { other.index < length self.now.rows }
        ensures { IsTrue result → row_of self.now first.index ≡ row_of self.now other.index }
    {
        for number in 0..self.after + 1 {
            let date = self.ways.date(first, number + 1);
            let twin = self.ways.date(other, number + 1);
            if date != twin {
                return false;
            }
        }
        true
    }
}

// The shortest form of the times of walks from the input, if it is of at most `limit` numbers and
// the forms of the ends tell it.
pub(crate) fn latest_times<'a>(
    alloc: Global,
    ways: Ways<'a>,
    limit: u32,
) -> Result<Option<LatestTimes<'a>>, OutOfMemory>
    requires few { limit ≤ 200000 }
    ensures form { IfOk result (λ told. IfSome told (IsTransferOf ways.entry.net ways.entry.input.index)) }
    ensures within { IfOk result (λ told. IfSome told (λ form. settled_length form ≤ limit)) }
{
    walks_go_by_ends();
    latest_goes_on();
    own_periods_tell_forms();
    // (the net and the forms keep their rules)
    ways.width();
    let steps = ways.steps(alloc)?;
    match even_past(&ways, &steps, limit) {
        Some(after) => Ok(Some(LatestTimes { ways, after, steps })),
        None => Ok(None),
    }
}
