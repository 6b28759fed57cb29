//! A settled form by the rows of dates that show it.
ghost use Rattle.std.specs.Prelude.{◌≡◌, ◌<◌, ◌≤◌, ◌+◌, IfOk, IsTrue, length};
ghost use Rattle.teg_net.specs.Limits.{greatest_firing_number};
ghost use Rattle.periodic_laws.specs.settled_laws.SettledForms.{settled_date, row_date, row_of, settled_length, step_of_form};
ghost use Rattle.settled_forms.specs.KeptForms.{IsFormKept};
ghost use Rattle.teg_settle.specs.ComparedRows.{IsLeastForm};
ghost use Rattle.teg_settle.specs.ShortestForms.{IsFound};

use crate::releases::{Releases, Repetition};
use crate::search::Found;
use crate::settled::add_dates;
use crate::window::steps_of;
use date_rows::Rows;
use dioid::Date;
use settled_forms::{back_from, moved};
use std::alloc::{AllocError, Global};
use std::marker::Model;
use teg_net::{Net, TransitionId};

/// A settled form (chapter 3), for callers that ask for some of its dates: the rows of the search
/// are kept as they are, and no other table is made. Contracts see the same form as of a
/// [`Settled`](crate::Settled). No call but [`row`](SettledDates::row) takes memory.
#[derive(Debug, Drop)]
pub struct SettledDates {
    form: Repetition,
    rows: Rows,
    steps: Vec<i128>,
}

impl Model for SettledDates {
    ghost use Rattle.periodic_laws.specs.settled_laws.SettledForms.{SettledForm};
    ghost use Rattle.teg_settle.specs.ShownForms.{IsShown, shown_form};

    ghost Value = { SettledForm };

    ghost view = { λ s. shown_form s.rows s.form s.steps.items };

    ghost invariant = { λ s. IsShown s.rows s.form s.steps.items };
}

impl SettledDates {
    // The form that the rows show, which it takes over.
    pub(crate) fn of_found(
        alloc: Global,
        net: &Net,
        _releases: &Releases,
        found: Found,
    ) -> Result<SettledDates, AllocError>
        requires found { IsFound net.now _releases.now found }
        ensures form { IfOk result (IsLeastForm net.now _releases.now) }
        ensures length { IfOk result (λ form. settled_length form
            ≡ found.form.after + found.form.period) }
    {
        let steps = steps_of(alloc, net, &found.rows, found.form.period)?;
        Ok(SettledDates {
            form: found.form,
            rows: found.rows,
            steps,
        })
    }

    /// The number past which the dates go on by their steps, 0 or more.
    pub fn after(&self) -> u64
        ensures value { result ≡ self.now.after }
        ensures kept { IsFormKept self.now }
    {
        self.form.after
    }

    /// In how many numbers the dates go on by a step, at least 1.
    pub fn period(&self) -> u64
        ensures value { result ≡ self.now.period }
        ensures kept { IsFormKept self.now }
    {
        self.form.period
    }

    /// By what the dates of this transition move in a period; 0 where they stay Never or Early.
    pub fn step(&self, transition: TransitionId) -> i128
        requires transition { transition.index < length self.now.rows }
        ensures value { result ≡ step_of_form self.now transition.index }
    {
        self.steps[transition.index as usize]
    }

    /// The dates of this transition from number 1 to the end of the first period, as a list.
    /// `AllocError` comes only where no memory is found for it.
    pub fn row(&self, alloc: Global, transition: TransitionId) -> Result<Vec<Date>, AllocError>
        requires transition { transition.index < length self.now.rows }
        ensures row { IfOk result (λ row. row.items ≡ row_of self.now transition.index) }
    {
        let count = self.form.after + self.form.period;
        let mut row = Vec::with_capacity(alloc, count as usize)?;
        add_dates(&mut row, &self.rows, transition, count)?;
        Ok(row)
    }

    /// Whether two transitions have the same dates up to there. It takes time of the order of their
    /// count at most.
    pub fn has_same_row(&self, first: TransitionId, other: TransitionId) -> bool
        requires first { first.index < length self.now.rows }
        requires other { other.index < length self.now.rows }
        ensures { IsTrue result → row_of self.now first.index ≡ row_of self.now other.index }
    {
        let count = self.form.after + self.form.period;
        for number in 1..count + 1 {
            let date = self.rows.date(first, number);
            let twin = self.rows.date(other, number);
            if date != twin {
                return false;
            }
        }
        true
    }

    // One of the dates of the rows, up to the end of the first period.
    fn row_date(&self, transition: TransitionId, number: u64) -> Date
        requires transition { transition.index < length self.now.rows }
        requires first { 1 ≤ number }
        requires last { number ≤ settled_length self.now }
        ensures { result ≡ row_date self.now transition.index number }
    {
        self.rows.date(transition, number)
    }

    /// The date of the firing of this number, from 1 to 10^18, of this transition: one of the rows,
    /// or past the first period that of some periods before, moved by as many steps.
    pub fn date(&self, transition: TransitionId, number: u64) -> Date
        requires transition { transition.index < length self.now.rows }
        requires first { 1 ≤ number }
        requires last { number ≤ greatest_firing_number }
        ensures value { result ≡ settled_date self.now transition.index number }
    {
        let settled = self.form.after + self.form.period;
        if number <= settled {
            return self.row_date(transition, number);
        }
        let back = back_from(number, settled, self.form.period);
        match self.row_date(transition, back.number) {
            Date::At(date) => Date::At(moved(date, back.rounds, self.step(transition))),
            other => other,
        }
    }
}
