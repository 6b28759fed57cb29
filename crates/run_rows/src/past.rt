//! The rows that go on from runs: what the firings past a number wait for that no row of these
//! gives.
ghost use Rattle.std.specs.Prelude.{◌≤◌};
ghost use Rattle.teg_net.specs.Limits.{greatest_firing_number};

use crate::runs::RunRows;
use date_rows::{DateCell, NetInputs, Source};
use dioid::Date;
use teg_net::{Net, PlaceId, TransitionId};

// The greatest firing number.
pub(crate) const GREATEST: u64 = 1_000_000_000_000_000_000;

// The dates up to the number `after`, from which rows go on.
#[derive(Drop)]
pub(crate) struct Past<'a> {
    pub(crate) runs: &'a RunRows,
    pub(crate) after: u64,
    ghost few: { after ≤ greatest_firing_number },
}

impl Source for Past<'_> {
    ghost use Rattle.run_rows.specs.LeastRuns.{release_past, token_past};

    ghost initial = { λ s. token_past s.runs.now.runs s.after };

    ghost release = { λ s. release_past s.after };

    fn initial(&self, net: &Net, place: PlaceId, token: u32) -> Date {
        let which = &net.places()[place.index as usize];
        let number = self.after + u64::from(token);
        if u64::from(which.tokens) < number {
            self.runs
                .date(which.from, number - u64::from(which.tokens))
                .delayed(which.hold)
        } else {
            Date::At(i128::from(net.ready(place, number as u32)))
        }
    }

    fn first(&self, net: &Net, transition: TransitionId) -> Date {
        if self.after == 0 {
            Date::At(0)
        } else {
            self.runs.date(transition, self.after)
        }
    }

    fn release(&self, net: &Net, transition: TransitionId, number: u64) -> Date {
        let at = self.after + number;
        if at <= GREATEST {
            NetInputs.release(net, transition, at)
        } else {
            Date::Early
        }
    }
}
