//! The settled form of the times of walks from an input, by the rows of dates that show it.
ghost use Rattle.std.specs.Prelude.{◌≡◌, ◌<◌, IfOk, IsTrue, length, slice_index};
ghost use Rattle.periodic_laws.specs.settled_laws.SettledForms.{row_of, step_of_form};
ghost use Rattle.settled_forms.specs.Spread.{IsSpreadOut};
ghost use Rattle.teg_settle.specs.SpreadForms.{AreNumbersOf};

use crate::shown::SettledDates;
use dioid::Date;
use settled_forms::is_marked;
use std::alloc::{AllocError, Global};
use std::marker::Model;
use teg_net::TransitionId;

// The new number of a transition.
fn number_in(new: &[u32], transition: TransitionId) -> TransitionId
    requires { transition.index < length new.now }
    ensures { result.index ≡ slice_index new.now transition.index }
{
    TransitionId {
        index: new[transition.index as usize],
    }
}

/// The settled form of the times of walks from an input (chapters 2 and 3), for callers that ask
/// for the dates of some transitions: the rows of the search in the part of the net that the walks
/// reach are kept as they are, and no other table is made. Contracts see the same form as of a
/// [`Settled`](crate::Settled).
#[derive(Debug, Drop)]
pub struct WalkDates {
    dates: SettledDates,
    marks: Vec<bool>,
    new: Vec<u32>,
}

impl Model for WalkDates {
    ghost use Rattle.periodic_laws.specs.settled_laws.SettledForms.{SettledForm};
    ghost use Rattle.teg_settle.specs.SpreadForms.{AreNumbersOf, spread_form};

    ghost Value = { SettledForm };

    ghost view = { λ w. spread_form w.marks.items w.new.items w.dates };

    ghost invariant = { λ w. AreNumbersOf w.marks.items w.new.items w.dates };
}

impl WalkDates {
    // The form of a part of a net, told of the whole net, of which the marked transitions have these
    // new numbers there.
    pub(crate) fn new(dates: SettledDates, marks: Vec<bool>, new: Vec<u32>) -> WalkDates
        requires { AreNumbersOf marks.items new.items dates }
        ensures { IsSpreadOut marks.items new.items dates result }
    {
        WalkDates { dates, marks, new }
    }

    /// The number past which the dates go on by their steps, 0 or more. It takes no memory.
    pub fn after(&self) -> u64
        ensures { result ≡ self.now.after }
    {
        self.dates.after()
    }

    /// In how many numbers the dates go on by a step, at least 1. It takes no memory.
    pub fn period(&self) -> u64
        ensures { result ≡ self.now.period }
    {
        self.dates.period()
    }

    /// By what the dates of this transition move in a period; 0 where they stay Never or Early. It
    /// takes no memory.
    pub fn step(&self, transition: TransitionId) -> i128
        requires transition { transition.index < length self.now.rows }
        ensures value { result ≡ step_of_form self.now transition.index }
    {
        if !is_marked(&self.marks, transition) {
            return 0;
        }
        let own = number_in(&self.new, transition);
        self.dates.step(own)
    }

    /// The dates of this transition from number 1 to the end of the first period, as a list.
    /// `AllocError` comes only where no memory is found for it.
    pub fn row(&self, alloc: Global, transition: TransitionId) -> Result<Vec<Date>, AllocError>
        requires transition { transition.index < length self.now.rows }
        ensures row { IfOk result (λ row. row.items ≡ row_of self.now transition.index) }
    {
        if !is_marked(&self.marks, transition) {
            let count = self.dates.after() + self.dates.period();
            let none = vec![in alloc; Date::Early; count as usize]?;
            return Ok(none);
        }
        let own = number_in(&self.new, transition);
        self.dates.row(alloc, own)
    }

    /// Whether two transitions have the same dates. It takes no memory, and time of the order of
    /// the form's length at most.
    pub fn has_same_row(&self, first: TransitionId, other: TransitionId) -> bool
        requires first { first.index < length self.now.rows }
        requires other { other.index < length self.now.rows }
        ensures { IsTrue result → row_of self.now first.index ≡ row_of self.now other.index }
    {
        if !is_marked(&self.marks, first) {
            return !is_marked(&self.marks, other);
        }
        if !is_marked(&self.marks, other) {
            return false;
        }
        let own = number_in(&self.new, first);
        let twin = number_in(&self.new, other);
        self.dates.has_same_row(own, twin)
    }
}
