//! Whether rows of dates that are told move by steps, as a settled form says (chapter 3).
ghost use Rattle.std.specs.Prelude.{◌+◌, ◌≡◌, ◌≤◌, ◌<◌, ◌≤ℤ◌, ◌↔◌, IsTrue, length, option_copied};
ghost use Rattle.dioid.specs.Dates.{move};
ghost use Rattle.teg_net.specs.Inputs.{list_of_input};
ghost use Rattle.teg_net.specs.Nets.{IsInput, IsNet};
ghost use Rattle.teg_net.specs.Circuits.{place_at};
ghost use Rattle.settled_certificates.specs.ToldForms.{HasTokenRoom, IsFormSized, IsFormTold, InputMoves, MovesAt, MovesOn, ReleaseMoves, ReleaseMovesAt, ReleasesGoOn, ReleasesMoveOn, RisesAlong, StayStill, StaysStill, StepsRise, every_told, step_told, told_form};

use dating_certificates::{ToldRows, release};
use dioid::Date;
use std::marker::Model;
use teg_net::{InputList, Net, PlaceId, TransitionId};

// Whether the second date is the first moved by the step.
fn is_moved(date: Date, other: Date, step: i128) -> bool
    ensures { IsTrue result ↔ (other ≡ move step date) }
{
    match (date, other) {
        (Date::Early, Date::Early) | (Date::Never, Date::Never) => true,
        (Date::At(first), Date::At(second)) => match first.checked_add(step) {
            Some(sum) => sum == second,
            None => false,
        },
        _ => false,
    }
}

// The list of the transition, if it has one.
fn list_of(net: &Net, transition: TransitionId) -> Option<&InputList>
    ensures rules { IsNet net.now }
    ensures first { option_copied result ≡ list_of_input net.now transition.index }
{
    net.inputs()
        .iter()
        .find(|list| list.transition.index == transition.index)
}

// In how many numbers the list goes on past its dates.
fn every_of(list: &InputList) -> u64
    ensures { result ≡ every_told list.now.again }
{
    match list.again {
        None => 1,
        Some(again) => u64::from(again.every),
    }
}

// From where on the releases of an input go on evenly, and in how many numbers.
fn span_of(net: &Net, transition: TransitionId) -> (u64, u64)
    ensures { ReleasesGoOn net.now transition.index result.0 result.1 }
{
    match list_of(net, transition) {
        None => (0, 1),
        Some(list) => (list.dates.as_slice().len() as u64, every_of(list)),
    }
}

// Rows of dates that are told, the number past which they are said to go on, the period, and a step
// for each transition.
#[derive(Drop)]
pub(crate) struct FormTest<'a> {
    rows: &'a ToldRows<'a>,
    after: u64,
    period: u64,
    steps: &'a [i128],
}

impl<'a> Model for FormTest<'a> {
    ghost use Rattle.settled_certificates.specs.ToldForms.{IsFormSized, ToldForm, told_form};

    ghost Value = { ToldForm };

    ghost view = { λ t. told_form t.rows.now t.after t.period t.steps.now };

    ghost invariant = { λ t. IsFormSized (told_form t.rows.now t.after t.period t.steps.now) };
}

impl<'a> FormTest<'a> {
    // The test of these steps on these rows.
    pub(crate) fn new(
        rows: &'a ToldRows<'a>,
        after: u64,
        period: u64,
        steps: &'a [i128],
    ) -> FormTest<'a>
        requires { IsFormSized (told_form rows.now after period steps.now) }
        ensures { result ≡ told_form rows.now after period steps.now }
    {
        FormTest {
            rows,
            after,
            period,
            steps,
        }
    }

    // The net.
    fn net(&self) -> &Net
        ensures { result.now ≡ self.now.told.net }
    {
        self.rows.net()
    }

    // The number past which the rows are said to go on, and the period.
    pub(crate) fn numbers(&self) -> (u64, u64)
        ensures after { result.0 ≡ self.now.after }
        ensures period { result.1 ≡ self.now.period }
        ensures sized { IsFormSized self.now }
    {
        (self.after, self.period)
    }

    // Whether the second date is the first moved by the step of the transition.
    fn has_moved(&self, transition: usize, date: Date, other: Date) -> bool
        requires { transition < length self.now.told.net.transitions }
        ensures { IsTrue result ↔ (other ≡ move (step_told self.now transition) date) }
    {
        let steps = self.steps;
        is_moved(date, other, steps[transition])
    }

    // Whether a period after this number each date has moved by its step.
    pub(crate) fn moves_at(&self, number: u64) -> bool
        requires number { 1 ≤ number }
        requires last { number + self.now.period ≤ self.now.told.numbers }
        ensures { IsTrue result ↔ MovesAt self.now number }
    {
        for index in 0..self.rows.width() {
            let late = self.rows.date(index, number + self.period);
            if !self.has_moved(index, self.rows.date(index, number), late) {
                return false;
            }
        }
        true
    }

    // Whether it is so past the number from which the rows are said to go on.
    fn moves_on(&self) -> bool
        ensures { IsTrue result ↔ MovesOn self.now }
    {
        for number in self.after + 1..self.rows.numbers() - self.period + 1 {
            if !self.moves_at(number) {
                return false;
            }
        }
        true
    }

    // Whether the rows have room for the tokens of each place.
    fn has_token_room(&self) -> bool
        ensures { IsTrue result ↔ HasTokenRoom self.now }
    {
        for place in self.rows.places() {
            let room = self.after + u64::from(place.tokens) + self.period + self.period;
            if room > self.rows.numbers() {
                return false;
            }
        }
        true
    }

    // Whether the step of the one transition is at most that of the other.
    fn step_rises(&self, from: usize, to: usize) -> bool
        requires from { from < length self.now.told.net.transitions }
        requires to { to < length self.now.told.net.transitions }
        ensures { IsTrue result ↔ (step_told self.now from ≤ℤ step_told self.now to) }
    {
        let steps = self.steps;
        steps[from] <= steps[to]
    }

    // Whether the step does not fall along the place.
    fn rises_along(&self, place: PlaceId) -> bool
        requires { place.index < length self.now.told.net.places }
        ensures { IsTrue result ↔ RisesAlong self.now (place_at self.now.told.net place) }
    {
        let own = &self.rows.places()[place.index()];
        let from = own.from.index();
        let to = own.to.index();
        let last = self.rows.numbers();
        match (self.rows.date(to, last), self.rows.date(from, last)) {
            (Date::Never, _) | (_, Date::Early) => true,
            _ => self.step_rises(from, to),
        }
    }

    // Whether no step falls along a place.
    fn steps_rise(&self) -> bool
        ensures { IsTrue result ↔ StepsRise self.now }
    {
        for index in 0..self.rows.places().len() {
            if !self.rises_along(PlaceId::new(index as u32)) {
                return false;
            }
        }
        true
    }

    // Whether the step is 0 of a transition that is never or early from there on.
    fn stays_still(&self, transition: usize) -> bool
        requires { transition < length self.now.told.net.transitions }
        ensures { IsTrue result ↔ StaysStill self.now transition }
    {
        match self.rows.date(transition, self.after + 1) {
            Date::At(_) => true,
            Date::Early | Date::Never => self.steps[transition] == 0,
        }
    }

    // Whether it is so of each transition.
    fn stay_still(&self) -> bool
        ensures { IsTrue result ↔ StayStill self.now }
    {
        for index in 0..self.rows.width() {
            if !self.stays_still(index) {
                return false;
            }
        }
        true
    }

    // Whether a period after this number the release of the input has moved by its step.
    fn release_moves_at(&self, transition: TransitionId, number: u64) -> bool
        requires input { IsInput self.now.told.net transition.index }
        requires transition { transition.index < length self.now.told.net.transitions }
        requires number { 1 ≤ number }
        requires few { number ≤ 200000000000000000 }
        ensures { IsTrue result ↔ ReleaseMovesAt self.now transition.index number }
    {
        let net = self.net();
        let (_, period) = self.numbers();
        let early = release(net, transition, number);
        let late = release(net, transition, number + period);
        self.has_moved(transition.index(), early, late)
    }

    // Whether the releases of the input move by its step: up to where its list goes on evenly, and
    // as far again as it goes on in.
    fn release_moves(&self, transition: TransitionId) -> bool
        requires input { IsInput self.now.told.net transition.index }
        requires transition { transition.index < length self.now.told.net.transitions }
        ensures { IsTrue result ↔ ReleaseMoves self.now transition.index }
    {
        let (after, _) = self.numbers();
        let (long, every) = span_of(self.net(), transition);
        for number in after + 1..after + long + every + 1 {
            if !self.release_moves_at(transition, number) {
                return false;
            }
        }
        true
    }

    // Whether they do if the transition is an input.
    fn input_moves(&self, transition: TransitionId) -> bool
        requires { transition.index < length self.now.told.net.transitions }
        ensures { IsTrue result ↔ InputMoves self.now transition.index }
    {
        if !self.net().is_input(transition) {
            return true;
        }
        self.release_moves(transition)
    }

    // Whether the releases of each input do.
    fn releases_move(&self) -> bool
        ensures { IsTrue result ↔ ReleasesMoveOn self.now }
    {
        for index in 0..self.rows.width() {
            if !self.input_moves(TransitionId::new(index as u32)) {
                return false;
            }
        }
        true
    }

    // Whether the rows show the form.
    pub(crate) fn holds(&self) -> bool
        ensures { IsTrue result ↔ IsFormTold self.now }
    {
        // The rows and the form are of one size, whatever the tests say.
        let _ = &self.rows;
        self.has_token_room()
            && self.moves_on()
            && self.steps_rise()
            && self.stay_still()
            && self.releases_move()
    }
}
