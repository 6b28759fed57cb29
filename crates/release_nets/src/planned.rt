//! A net whose delays are followed, with its timetable.
ghost use Rattle.std.specs.Prelude.{◌≡◌, ◌≤◌, IfErr, IfOk};
ghost use Rattle.delay_laws.specs.PlannedTimetables.{IsTableOf};
ghost use Rattle.teg_net.specs.Circuits.{IsLive};
ghost use Rattle.release_nets.specs.PlannedNets.{IsPlannedNet, IsUnplanned, greatest_period};

use crate::workable::first_unworkable;
use delay_laws::Timetable;
use teg_net::{Net, PlaceId};

// The most transitions of a net whose delays are followed.
const MOST_TRANSITIONS: usize = 200;

// The most transitions and places of it together.
const MOST_ENTRIES: usize = 4_000;

/// A live net that departs again every `period`, in the user's unit, and a timetable of it that
/// leaves each of its places the time that this takes. The net has few enough transitions and
/// places to follow delays.
#[derive(Drop)]
pub struct Planned<'a> {
    /// The net.
    pub net: &'a Net,
    /// After how long each transition departs again.
    pub period: u64,
    /// The first departures, and the delays.
    pub table: &'a Timetable,
    ghost kept: { IsPlannedNet net.now period table.now },
}

/// Why delays are not followed: the first cause in this order.
#[derive(Clone, Copy, Debug, PartialEq, Eq)]
pub enum Unplanned {
    /// The net has more than 200 transitions, or more than 4,000 transitions and places together.
    TooLarge { transitions: u32, places: u32 },
    /// The plan does not leave this place the time that it takes, or departs before its initial
    /// tokens are ready; it is the lowest numbered such place.
    Unworkable { place: PlaceId },
}

impl<'a> Planned<'a> {
    /// A live net with a timetable of it whose delays can be followed, where it departs again every
    /// `period`, in the user's unit and from 1 to 10^6; or why they are not. It takes time of the
    /// order of the places and their tokens, and no memory.
    pub fn checked(
        net: &'a Net,
        period: u64,
        table: &'a Timetable,
    ) -> Result<Planned<'a>, Unplanned>
        requires live { IsLive net.now }
        requires some { 1 ≤ period }
        requires period { period ≤ greatest_period }
        requires table { IsTableOf net.now table.now }
        ensures same { IfOk result (λ planned. (planned.net.now ≡ net.now)
            × (planned.period ≡ period) × (planned.table.now ≡ table.now)) }
        ensures refused { IfErr result (IsUnplanned net.now period table.now) }
    {
        let transitions = net.transitions().len();
        let places = net.places().len();
        if transitions > MOST_TRANSITIONS || transitions + places > MOST_ENTRIES {
            return Err(Unplanned::TooLarge {
                transitions: transitions as u32,
                places: places as u32,
            });
        }
        if let Some(place) = first_unworkable(net, period, table) {
            return Err(Unplanned::Unworkable { place });
        }
        Ok(Planned { net, period, table })
    }
}
