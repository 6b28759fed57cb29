//! An input by the places that leave it, whose ends have settled forms.
ghost use Rattle.std.specs.Prelude.{◌≡◌, ◌+◌, ◌<◌, ◌≤◌, ◌≤ℤ◌, Decides, IfOk, IsTrue, length};
ghost use Rattle.dioid.specs.Dates.{delayed, move};
ghost use Rattle.teg_net.specs.Limits.{greatest_firing_number, greatest_hold};
ghost use Rattle.teg_settle.specs.settled_laws.teg_model.DateBounds.{IsDateWithin, greatest_least_date};
ghost use Rattle.walks_by_ends.specs.LatestTimes.{AreMostSteps, AreStillAt, AreWays, GoOnAt, HaveBegun, IsMostStep, input_ways, latest_to, walk_date, way_at, way_date};

use crate::ends::Ends;
use dioid::Date;
use std::alloc::{AllocError, Global};
use std::marker::Model;
use teg_due::is_input;
use teg_net::{Net, Place, PlaceId, TransitionId};

// An input, the places that leave it, and the forms of their ends.
#[derive(Drop)]
pub(crate) struct Ways<'a> {
    net: &'a Net,
    input: TransitionId,
    places: &'a [PlaceId],
    ends: &'a Ends,
}

impl<'a> Model for Ways<'a> {
    ghost use Rattle.walks_by_ends.specs.LatestTimes.{AreWays, InputWays, input_ways};

    ghost Value = { InputWays };

    ghost view = { λ w. input_ways w.net.now w.input w.places.now w.ends.now };

    ghost invariant = { λ w. AreWays (input_ways w.net.now w.input w.places.now w.ends.now) };
}

// The date so much later.
fn delayed(date: Date, hold: u64) -> Date
    requires within { IsDateWithin greatest_least_date date }
    requires hold { hold ≤ greatest_hold }
    ensures { result ≡ delayed hold date }
{
    match date {
        Date::At(at) => Date::At(at + hold as i128),
        other => other,
    }
}

// Whether the step leads from one date to the other.
fn is_step(early: Date, late: Date, step: i128) -> bool
    ensures { Decides result (late ≡ move step early) }
{
    match (early, late) {
        (Date::Early, Date::Early) => true,
        (Date::At(early), Date::At(late)) => match late.checked_sub(early) {
            Some(own) => own == step,
            None => false,
        },
        (Date::Never, Date::Never) => true,
        _ => false,
    }
}

impl<'a> Ways<'a> {
    // The input by these places.
    pub(crate) fn new(
        net: &'a Net,
        input: TransitionId,
        places: &'a [PlaceId],
        ends: &'a Ends,
    ) -> Ways<'a>
        requires { AreWays (input_ways net.now input places.now ends.now) }
        ensures { result ≡ input_ways net.now input places.now ends.now }
    {
        Ways {
            net,
            input,
            places,
            ends,
        }
    }

    // How many transitions the net has.
    pub(crate) fn width(&self) -> usize
        ensures value { result ≡ length self.now.net.transitions }
        ensures given { AreWays self.now }
    {
        self.net.transitions().len()
    }

    // The place at this index.
    fn place(&self, index: usize) -> &Place
        requires { index < length self.now.places }
        ensures { result.now ≡ way_at self.now index }
    {
        let places = self.places;
        &self.net.places()[places[index].index as usize]
    }

    // The time to a firing by the place at this index.
    fn date_by(&self, index: usize, transition: TransitionId, number: u64) -> Date
        requires index { index < length self.now.places }
        requires transition { transition.index < length self.now.net.transitions }
        requires last { number ≤ greatest_firing_number }
        ensures { result ≡ way_date self.now index transition.index number }
    {
        let place = self.place(index);
        let tokens = u64::from(place.tokens);
        if number <= tokens {
            return Date::Early;
        }
        let form = self.ends.form(place.to);
        form.after();
        delayed(form.date(transition, number - tokens), place.hold)
    }

    // The latest time to a firing by all places.
    fn latest(&self, transition: TransitionId, number: u64) -> Date
        requires transition { transition.index < length self.now.net.transitions }
        requires last { number ≤ greatest_firing_number }
        ensures { result ≡ latest_to self.now transition.index number (length self.now.places) }
    {
        let mut latest = Date::Early;
        for index in 0..self.places.len() {
            latest = latest.later(self.date_by(index, transition, number));
        }
        latest
    }

    // The time of walks to a firing.
    pub(crate) fn date(&self, transition: TransitionId, number: u64) -> Date
        requires transition { transition.index < length self.now.net.transitions }
        requires last { number ≤ greatest_firing_number }
        ensures { result ≡ walk_date self.now transition.index number }
    {
        if !is_input(self.net, transition) {
            return self.latest(transition, number);
        }
        if transition.index == self.input.index {
            Date::At(0)
        } else {
            Date::Early
        }
    }

    // The greatest step of the ends at a transition, 0 at an input.
    fn step(&self, transition: TransitionId) -> i128
        requires transition { transition.index < length self.now.net.transitions }
        ensures { IsMostStep self.now transition.index result }
    {
        if is_input(self.net, transition) {
            return 0;
        }
        let mut most = 0;
        for index in 0..self.places.len() {
            most = most.max(self.ends.form(self.place(index).to).step(transition));
        }
        most
    }

    // These steps of all transitions.
    pub(crate) fn steps(&self, alloc: Global) -> Result<Vec<i128>, AllocError>
        ensures { IfOk result (λ steps. AreMostSteps self.now steps.items) }
    {
        let mut steps = Vec::new(alloc);
        for index in 0..self.width() {
            steps.push(self.step(TransitionId {
                index: index as u32,
            }))?;
        }
        Ok(steps)
    }

    // Whether all times go on by these steps from this number to the next.
    pub(crate) fn go_on(&self, steps: &[i128], number: u64) -> bool
        requires wide { length steps.now ≡ length self.now.net.transitions }
        requires last { number < greatest_firing_number }
        ensures { Decides result (GoOnAt self.now steps.now number) }
    {
        for index in 0..self.width() {
            let id = TransitionId {
                index: index as u32,
            };
            let (early, late) = (self.date(id, number), self.date(id, number + 1));
            if !is_step(early, late, steps[index]) {
                return false;
            }
        }
        true
    }

    // A number at which the forms of all ends have begun.
    pub(crate) fn begin(&self) -> u64
        ensures { HaveBegun self.now result }
    {
        let mut begin = 0;
        for index in 0..self.places.len() {
            let place = self.place(index);
            let after = self.ends.form(place.to).after();
            begin = begin.max(after + u64::from(place.tokens));
        }
        begin
    }

    // Whether the step is 0 of each transition to which no walk leads at this number.
    pub(crate) fn are_still(&self, steps: &[i128], number: u64) -> bool
        requires wide { length steps.now ≡ length self.now.net.transitions }
        requires last { number ≤ greatest_firing_number }
        ensures { IsTrue result → AreStillAt self.now steps.now number }
    {
        for index in 0..self.width() {
            let id = TransitionId {
                index: index as u32,
            };
            match self.date(id, number) {
                Date::At(_) => {}
                _ => {
                    if steps[index] != 0 {
                        return false;
                    }
                }
            }
        }
        true
    }
}
