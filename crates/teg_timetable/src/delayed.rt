//! How the delays of a timetable spread.
ghost use Rattle.std.specs.Prelude.{◌≡◌, ◌≤◌, ◌<◌, length};
ghost use Rattle.delay_laws.specs.PlannedTimetables.{greatest_delay};
ghost use Rattle.teg_settle.specs.settled_laws.SettledForms.{settled_length};
ghost use Rattle.teg_net.specs.Limits.{greatest_firing_number, most_rows};
ghost use Rattle.teg_timetable.specs.Spreads.{delay_by_spread, outcome_told};

use crate::left::Left;
use delay_laws::Outcome;
use std::marker::Model;
use teg_net::TransitionId;

/// How the delays of a timetable spread: past a number the delayed dates and the releases go on in
/// a period; the delay that is left at each departure; and what becomes of the delays. Contracts
/// see it as a `Spread`. No call takes memory. [`spread`](crate::spread) makes it
/// (chapters 2 and 3).
#[derive(Debug, Drop)]
pub struct Delayed {
    left: Left,
    outcome: Outcome,
}

impl Model for Delayed {
    ghost use Rattle.teg_timetable.specs.Spreads.{Spread, outcome_told};

    ghost Value = { Spread };

    ghost view = { λ d. record {
      firsts = d.left.firsts;
      every = d.left.every;
      form = d.left.form;
      outcome = outcome_told d.outcome;
    } };
}

impl Delayed {
    // These delays with this outcome.
    pub(crate) fn new(left: Left, outcome: Outcome) -> Delayed
        ensures { result ≡ record {
          firsts = left.firsts;
          every = left.every;
          form = left.form;
          outcome = outcome_told outcome;
        } }
    {
        Delayed { left, outcome }
    }

    /// How many transitions there are.
    pub fn width(&self) -> usize
        ensures { result ≡ length self.now.firsts }
    {
        self.left.width()
    }

    /// The number past which the delayed dates and the releases go on by their steps, 0 or more:
    /// that of the shortest settled form of both together (chapter 3).
    pub fn after(&self) -> u64
        ensures value { result ≡ self.now.form.after }
        ensures short { settled_length self.now.form ≤ most_rows }
    {
        self.left.after()
    }

    /// In how many numbers they go on by a step, at least 1: each step is so many planned periods.
    pub fn period(&self) -> u64
        ensures value { result ≡ self.now.form.period }
        ensures some { 1 ≤ result }
    {
        self.left.period()
    }

    /// The delay that is left at the departure of this number, from 1 to 10^18, of this transition,
    /// in the user's unit: at most 50,000. It takes no longer for a later number.
    pub fn delay(&self, transition: TransitionId, number: u64) -> u128
        requires transition { transition.index < length self.now.firsts }
        requires first { 1 ≤ number }
        requires last { number ≤ greatest_firing_number }
        ensures value { result ≡ delay_by_spread self.now transition.index number }
        ensures small { result ≤ greatest_delay }
    {
        u128::from(self.left.delay(transition, number))
    }

    /// What becomes of the delays: they are over after a number, or a circuit keeps them, which
    /// [`shows_kept`](crate::shows_kept) looks at.
    pub fn outcome(&self) -> &Outcome
        ensures { outcome_told result.now ≡ self.now.outcome }
    {
        &self.outcome
    }
}
