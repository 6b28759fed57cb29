//! From when the initial tokens of places are ready, and the start that they give a firing.
ghost use Rattle.std.specs.Prelude.{◌≡◌, ◌<◌, ◌≤◌, length};
ghost use Rattle.teg_net.specs.Circuits.{place_at};
ghost use Rattle.teg_net.specs.Limits.{greatest_input_date};
ghost use Rattle.teg_net.specs.ReadyDates.{ready_date, ready_for, start_date, IsStartDate};

use crate::entries::{Place, PlaceId, TransitionId};
use crate::net::Net;

// The date from which this token of the place is ready, counted from 1.
fn ready_date(place: &Place, token: u64) -> u64
    requires { 1 ≤ token }
    ensures { result ≡ ready_date place.now token }
{
    let dates = place.ready.as_slice();
    let position = token as usize - 1;
    if position < dates.len() {
        dates[position]
    } else {
        0
    }
}

// The ready date of the initial token that this firing takes from the place, and 0 where it takes
// none.
fn ready_for(place: &Place, transition: TransitionId, number: u64) -> u64
    requires { 1 ≤ number }
    ensures { result ≡ ready_for transition.index number place.now }
{
    if place.to.index == transition.index && number <= u64::from(place.tokens) {
        ready_date(place, number)
    } else {
        0
    }
}

impl Net {
    /// The date, in the user's unit, from which this initial token of the place, counted from 1, is
    /// ready: token k is the one that firing k of the downstream transition takes. It takes no
    /// memory.
    pub fn ready(&self, place: PlaceId, token: u32) -> u64
        requires place { place.index < length self.now.places }
        requires first { 1 ≤ token }
        requires last { token ≤ (place_at self.now place).tokens }
        ensures value { result ≡ ready_date (place_at self.now place) token }
        ensures most { result ≤ greatest_input_date }
    {
        ready_date(&self.places()[place.index as usize], u64::from(token))
    }

    /// The start, in the user's unit, of this firing of the transition, numbered from 1: the latest
    /// of 0 and the ready dates of the initial tokens that it takes. It takes no memory, and a step
    /// a place.
    pub fn start_date(&self, transition: TransitionId, number: u64) -> u64
        requires { 1 ≤ number }
        ensures value { result ≡ start_date self.now transition.index number }
        ensures meaning { IsStartDate self.now transition.index number result }
        ensures most { result ≤ greatest_input_date }
    {
        let mut start = 0;
        for place in self.places() {
            start = start.max(ready_for(place, transition, number));
        }
        start
    }
}
