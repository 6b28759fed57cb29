//! The tests of a period on rows of dates. What refuted the last periods that were tried mostly
//! refutes the next one too, so it is looked at first.
ghost use Rattle.std.specs.Prelude.{◌≡◌, ◌+◌, ◌<◌, ◌≤◌, All, Decides, IsTrue, MatchOption, MatchResult, length};
ghost use Rattle.teg_settle.specs.ComparedRows.{AreReleasedAlike, GoesOnBy, IsMovedAt, IsMovedPast, IsRisingPlace};
ghost use Rattle.teg_settle.specs.InitialReleases.{release_by};
ghost use Rattle.teg_settle.specs.Witnesses.{IsFailed, IsPassed, IsTestable, tested_period};

use crate::releases::Releases;
use crate::window::{is_step, step_in};
use date_rows::Rows;
use dioid::Date;
use std::marker::Model;
use teg_net::{Net, Place, TransitionId};

// Why a period was refuted.
#[derive(Clone, Copy, Drop)]
pub(crate) enum Witness {
    // The step falls along the place of this number.
    Fall(usize),
    // The date of this firing does not move by its transition's step.
    Firing(TransitionId, u64),
    // The release of this firing does not.
    Release(TransitionId, u64),
}

// The last two.
#[derive(Clone, Copy, Drop)]
pub(crate) struct Witnesses {
    last: Option<Witness>,
    before: Option<Witness>,
}

// The pairs of rows that are compared before all else.
const FIRST_PAIRS: u64 = 16;

// The greatest number of a window.
const MOST_WINDOW: u64 = 100_000_000_000_000;

// A period that is tested on rows of dates, past a number.
#[derive(Drop)]
pub(crate) struct PeriodTest<'a> {
    net: &'a Net,
    releases: &'a Releases,
    rows: &'a Rows,
    period: u64,
    after: u64,
}

impl<'a> Model for PeriodTest<'a> {
    ghost use Rattle.teg_settle.specs.Witnesses.{IsTestable, TestedPeriod, tested_period};

    ghost Value = { TestedPeriod };

    ghost view = { λ t. tested_period t.net.now t.releases.now t.rows.now t.period t.after };

    ghost invariant = { λ t. IsTestable t.net.now t.releases.now t.rows.now t.period t.after };
}

impl<'a> PeriodTest<'a> {
    // The test of this period on these rows.
    pub(crate) fn new(
        net: &'a Net,
        releases: &'a Releases,
        rows: &'a Rows,
        period: u64,
        after: u64,
    ) -> PeriodTest<'a>
        requires { IsTestable net.now releases.now rows.now period after }
        ensures { result ≡ tested_period net.now releases.now rows.now period after }
    {
        PeriodTest {
            net,
            releases,
            rows,
            period,
            after,
        }
    }

    // Whether the step does not fall along the place, or it leads to never or from early.
    fn rises_along(&self, place: &Place) -> bool
        requires from { place.now.from.index < length self.now.net.transitions }
        requires to { place.now.to.index < length self.now.net.transitions }
        ensures { Decides result (IsRisingPlace self.now.rows self.now.period place.now) }
    {
        let last = self.rows.count();
        self.rows.date(place.to, last) == Date::Never
            || self.rows.date(place.from, last) == Date::Early
            || step_in(self.net, self.rows, self.period, place.from)
                <= step_in(self.net, self.rows, self.period, place.to)
    }

    // Whether a period after this number each date has moved by its step.
    fn is_moved(&self, number: u64) -> bool
        requires first { 1 ≤ number }
        requires last { number + self.now.period ≤ self.now.rows.count }
        ensures { Decides result (IsMovedAt self.now.rows self.now.period number) }
    {
        for index in 0..self.net.transitions().len() {
            let id = TransitionId {
                index: index as u32,
            };
            let step = step_in(self.net, self.rows, self.period, id);
            let early = self.rows.date(id, number);
            let late = self.rows.date(id, number + self.period);
            if !is_step(early, late, step) {
                return false;
            }
        }
        true
    }

    // The least number, from `least` on, past which the dates of the rows have moved so, found from
    // the end.
    fn moved_past(&self, least: u64) -> u64
        requires least { least + self.now.period ≤ self.now.rows.count }
        ensures within { result + self.now.period ≤ self.now.rows.count }
        ensures moved { IsMovedPast self.now.rows self.now.period result }
        ensures first { least < result → IsMovedAt self.now.rows self.now.period result → ⊥ }
    {
        let mut number = self.rows.count() - self.period;
        while number > least {
            if !self.is_moved(number) {
                return number;
            }
            number -= 1;
        }
        least
    }

    // Whether past the number the date of this firing does not move by the step.
    fn is_firing_apart(&self, transition: TransitionId, number: u64) -> bool
        ensures { IsTrue result → IsFailed self.now }
    {
        if transition.index as usize >= self.net.transitions().len() {
            return false;
        }
        if number <= self.after || number > self.rows.count() - self.period {
            return false;
        }
        let step = step_in(self.net, self.rows, self.period, transition);
        let early = self.rows.date(transition, number);
        let late = self.rows.date(transition, number + self.period);
        !is_step(early, late, step)
    }

    // Whether past the number the release of this firing does not move by the step.
    fn is_release_apart(&self, transition: TransitionId, number: u64) -> bool
        ensures { IsTrue result → IsFailed self.now }
    {
        if transition.index as usize >= self.net.transitions().len() {
            return false;
        }
        if number <= self.after || number > MOST_WINDOW {
            return false;
        }
        let step = step_in(self.net, self.rows, self.period, transition);
        let early = self.releases.date(self.net, transition, number);
        let late = self
            .releases
            .date(self.net, transition, number + self.period);
        !is_step(early, late, step)
    }

    // Whether there is a witness and it refutes the period.
    fn is_refuted_by(&self, witness: Option<Witness>) -> bool
        ensures { IsTrue result → IsFailed self.now }
    {
        match witness {
            Some(Witness::Fall(place)) => {
                let places = self.net.places();
                place < places.len() && !self.rises_along(&places[place])
            }
            Some(Witness::Firing(transition, number)) => self.is_firing_apart(transition, number),
            Some(Witness::Release(transition, number)) => self.is_release_apart(transition, number),
            None => false,
        }
    }

    // The first firing of this number whose date does not move by its transition's step.
    fn firing_apart(&self, number: u64) -> Option<Witness> {
        for index in 0..self.net.transitions().len() {
            let id = TransitionId {
                index: index as u32,
            };
            if self.is_firing_apart(id, number) {
                return Some(Witness::Firing(id, number));
            }
        }
        None
    }

    // The first place along which the step falls.
    fn first_fall(&self) -> Option<usize>
        ensures { MatchOption result (All (IsRisingPlace self.now.rows self.now.period)
            self.now.net.places) (λ _. IsFailed self.now) }
    {
        let places = self.net.places();
        for place in 0..places.len() {
            if !self.rises_along(&places[place]) {
                return Some(place);
            }
        }
        None
    }

    // The last number of which the transition's release does not move by the step: tested from
    // where on they go on evenly.
    fn last_release_apart(&self, transition: TransitionId, step: i128) -> Option<u64>
        ensures { MatchOption result (GoesOnBy (release_by self.now.releases.waits.items
            self.now.net transition.index) self.now.after self.now.period step) (λ _. GoesOnBy
            (release_by self.now.releases.waits.items self.now.net transition.index) self.now.after
            self.now.period step → ⊥) }
    {
        let span = self.releases.span(self.net, transition);
        let mut number = self.after.max(span.after) + span.every;
        while number > self.after {
            let early = self.releases.date(self.net, transition, number);
            let late = self
                .releases
                .date(self.net, transition, number + self.period);
            if !is_step(early, late, step) {
                return Some(number);
            }
            number -= 1;
        }
        None
    }

    // The last release that does not move by its step, of the first transition that has one.
    fn release_apart(&self) -> Option<Witness>
        ensures { MatchOption result (AreReleasedAlike self.now.net self.now.releases
            self.now.rows self.now.period self.now.after) (λ _. IsFailed self.now) }
    {
        for index in 0..self.net.transitions().len() {
            let id = TransitionId {
                index: index as u32,
            };
            let step = step_in(self.net, self.rows, self.period, id);
            match self.last_release_apart(id, step) {
                Some(number) => return Some(Witness::Release(id, number)),
                None => {}
            }
        }
        None
    }

    // The least number past which the dates of the rows move by their steps, where the period passes
    // all tests; or what refutes it. A few pairs of rows are compared first: where a firing refutes
    // the period, it tells of most others too. All other pairs are compared last.
    pub(crate) fn tested(&self) -> Result<u64, Option<Witness>>
        ensures { MatchResult result (IsPassed self.now) (λ _. IsFailed self.now) }
    {
        let near = self.after.max((self.rows.count() - self.period).saturating_sub(FIRST_PAIRS));
        let first = self.moved_past(near);
        if first > near {
            return Err(self.firing_apart(first));
        }
        match self.first_fall() {
            Some(place) => return Err(Some(Witness::Fall(place))),
            None => {}
        }
        match self.release_apart() {
            Some(witness) => return Err(Some(witness)),
            None => {}
        }
        let from = self.moved_past(0);
        if from > self.after {
            return Err(self.firing_apart(from));
        }
        Ok(from)
    }
}

impl Witnesses {
    // None yet.
    pub(crate) fn nothing() -> Witnesses {
        Witnesses {
            last: None,
            before: None,
        }
    }

    // These with one more: the older of the two goes.
    pub(crate) fn joined(self, witness: Option<Witness>) -> Witnesses {
        match witness {
            Some(witness) => Witnesses {
                last: Some(witness),
                before: self.last,
            },
            None => self,
        }
    }

    // Whether one of them refutes this period.
    pub(crate) fn refute(self, test: &PeriodTest<'_>) -> bool
        ensures { IsTrue result → IsFailed test.now }
    {
        test.is_refuted_by(self.last) || test.is_refuted_by(self.before)
    }
}
