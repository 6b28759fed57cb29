//! Whether the plan leaves each place the time that it takes.
ghost use Rattle.std.specs.Prelude.{ℕ, ◌≡◌, ◌≤◌, ◌<◌, ◌+◌, ◌*◌, true, false, length, IfNone, IfSome, slice_index};
ghost use Rattle.delay_laws.specs.PlannedTimetables.{IsTableOf, IsWorkable, IsWorkableAt, greatest_departure};
ghost use Rattle.teg_net.specs.Nets.{IsPlaceOf};
ghost use Rattle.release_nets.specs.PlannedNets.{IsFirstUnworkable};
ghost use Rattle.release_nets.specs.PlannedNets.{greatest_period};

use delay_laws::Timetable;
use teg_net::{Net, Place, PlaceId};

// Whether the departures from `first` on, one in each period, are not before the ready dates.
fn is_ready(period: u64, first: u64, ready: &[u64]) -> bool
    requires period { period ≤ greatest_period }
    requires first { first ≤ greatest_departure }
    requires few { length ready.now ≤ 1000 }
    ensures ready { result ≡ true → (k : ℕ) → k < length ready.now
        → slice_index ready.now k ≤ first + period * k }
    ensures late { result ≡ false → (k : ℕ) × (k < length ready.now)
        × (first + period * k < slice_index ready.now k) }
{
    for (index, date) in ready.iter().enumerate() {
        if *date > first + period * (index as u64) {
            return false;
        }
    }
    true
}

// Whether the plan leaves the place its time.
fn is_workable(net: &Net, period: u64, table: &Timetable, place: &Place) -> bool
    requires period { period ≤ greatest_period }
    requires table { IsTableOf net.now table.now }
    requires place { IsPlaceOf net.now place.now }
    ensures workable { result ≡ true → IsWorkableAt period table.now place.now }
    ensures fails { result ≡ false → IsWorkableAt period table.now place.now → ⊥ }
{
    let from = table.firsts[place.from.index as usize];
    let to = table.firsts[place.to.index as usize];
    from + place.hold <= to + period * u64::from(place.tokens)
        && is_ready(period, to, place.ready.as_slice())
}

// The lowest numbered place to which the plan does not leave its time.
pub(crate) fn first_unworkable(net: &Net, period: u64, table: &Timetable) -> Option<PlaceId>
    requires period { period ≤ greatest_period }
    requires table { IsTableOf net.now table.now }
    ensures none { IfNone result (IsWorkable net.now period table.now) }
    ensures some { IfSome result (λ place. IsFirstUnworkable net.now period table.now place.index) }
{
    for (index, place) in net.places().iter().enumerate() {
        if !is_workable(net, period, table, place) {
            return Some(PlaceId {
                index: index as u32,
            });
        }
    }
    None
}
