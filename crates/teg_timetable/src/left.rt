//! The delays that are left, by a plan and a settled form of the delayed dates.
ghost use Rattle.std.specs.Prelude.{◌≡◌, ◌≤◌, ◌<◌, length};
ghost use Rattle.delay_laws.specs.PlannedTimetables.{greatest_delay};
ghost use Rattle.teg_settle.specs.settled_laws.SettledForms.{settled_length};
ghost use Rattle.teg_net.specs.Limits.{greatest_firing_number, most_rows};
ghost use Rattle.release_nets.specs.PlannedNets.{most_timetable_transitions};
ghost use Rattle.teg_timetable.specs.Spreads.{AreLeftDelays, delay_left};

use dioid::Date;
use std::marker::Model;
use teg_net::TransitionId;
use teg_settle::SettledDates;

// A plan, by its first departures and its period, and a settled form whose first rows are the
// delayed dates of its transitions. No call takes memory.
#[derive(Debug, Drop)]
pub(crate) struct Left {
    firsts: Vec<u64>,
    every: u64,
    settled: SettledDates,
}

impl Model for Left {
    ghost use Rattle.teg_timetable.specs.Spreads.{LeftDelays, AreLeftDelays};

    ghost Value = { LeftDelays };

    ghost view = { λ d. record { firsts = d.firsts.items; every = d.every; form = d.settled } };

    ghost invariant = { λ d. AreLeftDelays
        (record { firsts = d.firsts.items; every = d.every; form = d.settled }) };
}

impl Left {
    // The delays of this plan by this form.
    pub(crate) fn new(firsts: Vec<u64>, every: u64, settled: SettledDates) -> Left
        requires { AreLeftDelays (record { firsts = firsts.items; every = every; form = settled }) }
        ensures { result ≡ record { firsts = firsts.items; every = every; form = settled } }
    {
        Left {
            firsts,
            every,
            settled,
        }
    }

    // How many transitions there are.
    pub(crate) fn width(&self) -> usize
        ensures value { result ≡ length self.now.firsts }
        ensures few { result ≤ most_timetable_transitions }
    {
        self.firsts.len()
    }

    // The number past which the dates go on by their steps.
    pub(crate) fn after(&self) -> u64
        ensures value { result ≡ self.now.form.after }
        ensures short { settled_length self.now.form ≤ most_rows }
    {
        self.settled.after()
    }

    // In how many numbers they go on by a step.
    pub(crate) fn period(&self) -> u64
        ensures value { result ≡ self.now.form.period }
        ensures some { 1 ≤ result }
    {
        self.settled.period()
    }

    // The delay that is left at the departure of this number of this transition.
    pub(crate) fn delay(&self, transition: TransitionId, number: u64) -> u64
        requires transition { transition.index < length self.now.firsts }
        requires first { 1 ≤ number }
        requires last { number ≤ greatest_firing_number }
        ensures value { result ≡ delay_left self.now transition.index number }
        ensures small { result ≤ greatest_delay }
    {
        let first = self.firsts[transition.index as usize];
        let plan = u128::from(first) + u128::from(self.every) * u128::from(number - 1);
        match self.settled.date(transition, number) {
            Date::At(date) => (date as u128 - plan) as u64,
            _ => 0,
        }
    }
}
