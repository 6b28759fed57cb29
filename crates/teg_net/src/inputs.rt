//! The dates before which the firings of an input transition cannot happen.
ghost use Rattle.std.specs.Prelude.{◌≡◌, ◌≤◌, ◌+◌, ◌*◌, IfSome, option_copied};
ghost use Rattle.teg_net.specs.Inputs.{IsInputDate, IsListDate, input_date, list_date, list_of_input};
ghost use Rattle.teg_net.specs.Limits.{greatest_input_date, greatest_firing_number};
ghost use Rattle.teg_net.specs.Nets.{IsInput, IsNet, EndsOrGoesOn};

use crate::entries::{InputList, TransitionId};
use crate::net::Net;

impl InputList {
    /// The date, in the user's unit, that the list gives to the firing of this number, counted from
    /// 1; `None` where it never fires. Where the list goes on, it keeps the rules of a net there,
    /// as each list of a [`Net`] does. It takes no memory and looks nothing up: who needs the dates
    /// of many firings of one input finds its list once.
    #[tactic(auto, using(crate::proofs::InputDates::is_date_of_list))]
    pub fn date(&self, number: u64) -> Option<u128>
        requires number { 1 ≤ number }
        requires again { EndsOrGoesOn self.now.dates self.now.again }
        ensures value { result ≡ list_date self.now.dates self.now.again number }
        ensures meaning { IsListDate self.now number result }
    {
        date_by_list(self, number)
    }
}

// The date of a firing by division: whole rounds lead from it back into the list.
fn date_by_list(list: &InputList, number: u64) -> Option<u128>
    requires number { 1 ≤ number }
    requires again { EndsOrGoesOn list.now.dates list.now.again }
    ensures { result ≡ list_date list.now.dates list.now.again number }
{
    let dates = list.dates.as_slice();
    let length = dates.len() as u64;
    if number <= length {
        return Some(u128::from(dates[number as usize - 1]));
    }
    let again = list.again?;
    let every = u64::from(again.every);
    let rounds = (number - length - 1) / every + 1;
    let first = number - rounds * every;
    Some(u128::from(dates[first as usize - 1]) + u128::from(rounds) * u128::from(again.gap))
}

// The list of the transition, if it has one.
fn list_of(net: &Net, transition: TransitionId) -> Option<&InputList>
    ensures rules { IsNet net.now }
    ensures first { option_copied result ≡ list_of_input net.now transition.index }
{
    net.inputs()
        .iter()
        .find(|list| list.transition.index == transition.index)
}

impl Net {
    /// The date, in the user's unit, before which this firing of an input transition cannot happen:
    /// by its list, or 0 where it has none; `None` where it never fires. It takes no memory, and a
    /// step a list.
    pub fn input_date(&self, transition: TransitionId, number: u64) -> Option<u128>
        requires input { IsInput self.now transition.index }
        requires first { 1 ≤ number }
        requires last { number ≤ greatest_firing_number }
        ensures value { result ≡ input_date self.now transition.index number }
        ensures meaning { IsInputDate self.now transition.index number result }
        ensures most { IfSome result (λ date. date ≤ greatest_input_date * (number + 1)) }
    {
        match list_of(self, transition) {
            Some(list) => list.date(number),
            None => Some(0),
        }
    }
}
