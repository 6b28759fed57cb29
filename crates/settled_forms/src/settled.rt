//! A settled form in memory.
ghost use Rattle.std.specs.Prelude.{ℕ, ◌≡◌, ◌<◌, ◌≤◌, IfOk, IsTrue, length, map, slice_index};
ghost use Rattle.teg_net.specs.Limits.{greatest_firing_number, most_transitions};
ghost use Rattle.settled_laws.specs.SettledForms.{row_of, step_of_form, settled_date};
ghost use Rattle.settled_forms.specs.KeptForms.{IsFormKept};
ghost use Rattle.settled_forms.specs.Spread.{IsSpreadOut, is_marked};
ghost use Rattle.settled_forms.specs.Stored.{IsStored, stored_form};

use crate::back::{back_from, moved};
use crate::spread::owned_by;
use dioid::Date;
use std::alloc::{AllocError, Global};
use std::marker::Model;
use teg_net::TransitionId;

/// A settled form (chapter 3): a number, a period of at least 1, and for each transition of a net
/// the dates of the numbers from 1 to number plus period, and a step. Past the number each date is
/// that of a period before, moved by the step. Dates and steps are in the user's unit. Transitions
/// without dates share one row. No call takes memory.
#[derive(Debug, Drop)]
pub struct Settled {
    after: u64,
    period: u64,
    rows: Vec<Vec<Date>>,
    steps: Vec<i128>,
    own: Vec<usize>,
}

impl Model for Settled {
    ghost use Rattle.std.specs.Prelude.{map};
    ghost use Rattle.settled_laws.specs.SettledForms.{SettledForm};
    ghost use Rattle.settled_forms.specs.Stored.{IsStored, stored_form};

    ghost Value = { SettledForm };

    ghost view = { λ s. stored_form s.after s.period (map (λ r. r.items) s.rows.items) s.steps.items
        s.own.items };

    ghost invariant = { λ s. IsStored s.after s.period (map (λ r. r.items) s.rows.items)
        s.steps.items s.own.items };
}

impl Settled {
    /// The form with this number and this period in which each transition has the row and the step
    /// of the number that is its own. Several transitions may share a row.
    pub fn stored(
        after: u64,
        period: u64,
        rows: Vec<Vec<Date>>,
        steps: Vec<i128>,
        own: Vec<usize>,
    ) -> Settled
        requires stored { IsStored after period (map (λ r. r.items) rows.items) steps.items
            own.items }
        ensures { result ≡ stored_form after period (map (λ r. r.items) rows.items) steps.items
            own.items }
    {
        Settled {
            after,
            period,
            rows,
            steps,
            own,
        }
    }

    /// The form for more transitions, as many as there are new numbers, of which the marked ones have
    /// these numbers here, and the others have no dates: so the form of a part of a net is told of
    /// the whole net. `AllocError` comes only where no memory is found.
    pub fn spread(self, alloc: Global, marks: &[bool], new: &[u32]) -> Result<Settled, AllocError>
        requires few { length new.now ≤ most_transitions }
        requires known { (t : ℕ) → t < length new.now → IsTrue (is_marked marks.now t)
            → slice_index new.now t < length self.rows }
        ensures { IfOk result (IsSpreadOut marks.now new.now self) }
    {
        let mut settled = self;
        let other = settled.rows.len();
        let early = vec![in alloc; Date::Early; (settled.after + settled.period) as usize]?;
        settled.own = owned_by(alloc, &settled.own, marks, new, other)?;
        settled.rows.push(early)?;
        settled.steps.push(0)?;
        Ok(settled)
    }

    /// How many transitions there are: those of the net.
    pub fn width(&self) -> usize
        ensures { result ≡ length self.now.rows }
    {
        self.own.len()
    }

    /// The number past which the dates go on by their steps, 0 or more.
    pub fn after(&self) -> u64
        ensures value { result ≡ self.now.after }
        ensures kept { IsFormKept self.now }
    {
        self.after
    }

    /// In how many numbers the dates go on by a step, at least 1.
    pub fn period(&self) -> u64
        ensures value { result ≡ self.now.period }
        ensures kept { IsFormKept self.now }
    {
        self.period
    }

    /// The dates of this transition from number 1 to the end of the first period.
    pub fn row(&self, transition: TransitionId) -> &[Date]
        requires transition { transition.index < length self.now.rows }
        ensures value { result.now ≡ row_of self.now transition.index }
    {
        &self.rows[self.own[transition.index as usize]]
    }

    /// By what the dates of this transition move in a period; 0 where they stay Never or Early.
    pub fn step(&self, transition: TransitionId) -> i128
        requires transition { transition.index < length self.now.rows }
        ensures value { result ≡ step_of_form self.now transition.index }
    {
        self.steps[self.own[transition.index as usize]]
    }

    /// The date of the firing of this number, from 1 to 10^18, of this transition: one of its row,
    /// or past the row that of some periods before, moved by as many steps.
    pub fn date(&self, transition: TransitionId, number: u64) -> Date
        requires transition { transition.index < length self.now.rows }
        requires first { 1 ≤ number }
        requires last { number ≤ greatest_firing_number }
        ensures value { result ≡ settled_date self.now transition.index number }
    {
        let row = self.row(transition);
        let settled = self.after + self.period;
        if number <= settled {
            return row[number as usize - 1];
        }
        let back = back_from(number, settled, self.period);
        match row[back.number as usize - 1] {
            Date::At(date) => Date::At(moved(date, back.rounds, self.step(transition))),
            other => other,
        }
    }
}
