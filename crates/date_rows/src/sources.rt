//! What a system of a net has beside its places: the dates of its initial tokens, and the dates
//! before which its firings are not released.
ghost use Rattle.std.specs.Prelude.{◌≡◌, ◌<◌, ◌≤◌, length};
ghost use Rattle.teg_net.specs.Circuits.{place_at};
ghost use Rattle.teg_model.specs.Datings.{implicit_place};
ghost use Rattle.teg_net.specs.Limits.{greatest_firing_number};

use dioid::Date;
use teg_net::{Net, PlaceId, Role, TransitionId};

/// A source of the dates that no earlier firing gives (chapter 2): with the places of a net it
/// makes a system. No call takes memory.
pub trait Source {
    ghost use Rattle.std.specs.Prelude.{ℕ};
    ghost use Rattle.dioid.specs.declared.dates.Date.{Date};
    ghost use Rattle.teg_net.specs.declared.entries.Place.{Place};
    ghost use Rattle.teg_net.specs.Nets.{NetLists};

    // for each place the date from which its k-th initial token is available
    ghost initial: { Self → Place → ℕ → Date };

    // for each firing the date before which it is not released
    ghost release: { Self → NetLists → ℕ → ℕ → Date };

    /// The date from which this initial token of the place, counted from 1, is available.
    fn initial(&self, net: &Net, place: PlaceId, token: u32) -> Date
        requires place { place.index < length net.now.places }
        requires first { 1 ≤ token }
        requires last { token ≤ (place_at net.now place).tokens }
        ensures { result ≡ initial self.now (place_at net.now place) token };

    /// The date from which the token of the transition's implicit place is available.
    fn first(&self, net: &Net, transition: TransitionId) -> Date
        requires transition { transition.index < length net.now.transitions }
        ensures { result ≡ initial self.now (implicit_place transition.index) 1 };

    /// The date before which this firing of the transition, numbered from 1, is not released.
    fn release(&self, net: &Net, transition: TransitionId, number: u64) -> Date
        requires transition { transition.index < length net.now.transitions }
        requires first { 1 ≤ number }
        requires last { number ≤ greatest_firing_number }
        ensures { result ≡ release self.now net.now transition.index number };
}

/// The net's own: its ready dates, and for each input the dates of its list.
#[derive(Clone, Copy, Debug, Drop)]
pub struct NetInputs;

impl Source for NetInputs {
    ghost use Rattle.dioid.specs.declared.dates.Date.TheVariants.{Early};
    ghost use Rattle.teg_model.specs.Datings.{initial_date, at_input, listed_releases};

    ghost initial = { λ s. initial_date };

    ghost release = { λ s net t k. at_input net t (listed_releases net t k) Early };

    fn initial(&self, net: &Net, place: PlaceId, token: u32) -> Date {
        Date::At(i128::from(net.ready(place, token)))
    }

    fn first(&self, net: &Net, transition: TransitionId) -> Date {
        Date::At(0)
    }

    fn release(&self, net: &Net, transition: TransitionId, number: u64) -> Date {
        match net.transitions()[transition.index as usize].role {
            Role::Internal | Role::Output => Date::Early,
            Role::Input => match net.input_date(transition, number) {
                Some(date) => Date::At(date as i128),
                None => Date::Never,
            },
        }
    }
}
