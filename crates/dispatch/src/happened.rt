//! What happened so far, as a source of dates.
ghost use Rattle.std.specs.Prelude.{◌≡◌, ◌≤◌};
ghost use Rattle.run_laws.specs.Runs.{firing_date};

use date_rows::Source;
use dioid::Date;
use run_laws::Fired;
use teg_net::{Net, PlaceId, TransitionId};

/// The firings so far and the date that it is now, in the user's unit, as a source of the releases
/// from now on: those of `system_after`.
#[derive(Clone, Copy, Debug, Drop)]
pub struct Happened<'a> {
    /// What happened, in its order.
    pub run: &'a [Fired],
    /// No firing that has still to come is released before.
    pub now: u64,
}

// The date of firing `number` of the transition, from 1 on; none where it did not happen.
fn date_in(run: &[Fired], transition: TransitionId, number: u64) -> Option<u64>
    requires { 1 ≤ number }
    ensures { result ≡ firing_date run.now transition.index number }
{
    let mut left = number;
    for fired in run {
        if fired.transition.index == transition.index {
            if left == 1 {
                return Some(fired.date);
            }
            left -= 1;
        }
    }
    None
}

impl Source for Happened<'_> {
    ghost use Rattle.date_rows.specs.teg_model.Datings.{initial_date};
    ghost use Rattle.state_laws.specs.NetsLeft.{system_after};

    ghost initial = { λ s. initial_date };

    ghost release = { λ s net t k. (system_after net s.run.now s.now).release t k };

    fn initial(&self, net: &Net, place: PlaceId, token: u32) -> Date {
        Date::At(i128::from(net.ready(place, token)))
    }

    fn first(&self, net: &Net, transition: TransitionId) -> Date {
        Date::At(0)
    }

    #[tactic(auto, using(crate::proofs::Runs::released_some, crate::proofs::Runs::released_none))]
    fn release(&self, net: &Net, transition: TransitionId, number: u64) -> Date {
        if let Some(date) = date_in(self.run, transition, number) {
            return Date::At(i128::from(date));
        }
        let now = Date::At(i128::from(self.now));
        if !net.is_input(transition) {
            return now;
        }
        match net.input_date(transition, number) {
            Some(date) => now.later(Date::At(date as i128)),
            None => Date::Never,
        }
    }
}
