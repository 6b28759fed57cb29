//! The circuit along which the greatest delay is passed on.
ghost use Rattle.std.specs.Prelude.{◌≡◌, ◌≢◌, ◌<◌, true, false, length, None, Some, IfOk, slice_index_or};
ghost use Rattle.delay_laws.specs.DelayOutcomes.{HasNoSpare};
ghost use Rattle.teg_net.specs.Circuits.{from_of, IsCircuit, BeginsLowest};
ghost use Rattle.teg_net.specs.Parts.{to_of};
ghost use Rattle.teg_timetable.specs.WaysBack.{AreFeeders, AreGood, FeedersGoBack, FeedsAt, IsFedCircuit, greatest_top, top_delays};

use release_nets::Planned;
use std::alloc::{AllocError, Global};
use std::marker::Model;
use teg_net::{Circuit, Net, PlaceId};

// A delay that is kept: for each transition of a net with a timetable the greatest delay that is
// left in each period, and a transition that has the greatest of them.
#[derive(Drop)]
pub(crate) struct KeptDelay<'a> {
    planned: &'a Planned<'a>,
    tops: &'a [u64],
    start: usize,
}

impl<'a> Model for KeptDelay<'a> {
    ghost use Rattle.teg_timetable.specs.WaysBack.{AreTopDelays, TopDelays, top_delays};

    ghost Value = { TopDelays };

    ghost view = { λ d. top_delays d.planned.now.net.now d.planned.now.period
        d.planned.now.table.now d.tops.now d.start };

    ghost invariant = { λ d. AreTopDelays (top_delays d.planned.now.net.now d.planned.now.period
        d.planned.now.table.now d.tops.now d.start) };
}

// Whether the plan leaves the place just the time that it takes.
fn has_no_spare(planned: &Planned<'_>, id: PlaceId) -> bool
    requires { id.index < length planned.now.net.now.places }
    ensures yes { result ≡ true → HasNoSpare planned.now.net.now planned.now.period
        planned.now.table.now id }
    ensures no { result ≡ false → HasNoSpare planned.now.net.now planned.now.period
        planned.now.table.now id → ⊥ }
{
    let place = &planned.net.places()[id.index as usize];
    let from = planned.table.firsts[place.from.index as usize];
    let to = planned.table.firsts[place.to.index as usize];
    from + place.hold == to + planned.period * u64::from(place.tokens)
}

// The numbers of the transitions that the place leaves and enters.
fn ends(net: &Net, id: PlaceId) -> (usize, usize)
    requires { id.index < length net.now.places }
    ensures from { result.0 ≡ from_of net.now id }
    ensures from_in { result.0 < length net.now.transitions }
    ensures to { result.1 ≡ to_of net.now id }
    ensures to_in { result.1 < length net.now.transitions }
{
    let place = &net.places()[id.index as usize];
    (place.from.index as usize, place.to.index as usize)
}

// The feeder that is there.
fn feeder_at(feeders: &[Option<PlaceId>], at: usize) -> PlaceId
    requires { slice_index_or feeders.now at None ≢ None }
    ensures { slice_index_or feeders.now at None ≡ Some result }
{
    feeders[at].unwrap()
}

impl<'a> KeptDelay<'a> {
    // The delay of the transition `start`, of these greatest delays.
    pub(crate) fn new(planned: &'a Planned<'a>, tops: &'a [u64], start: usize) -> KeptDelay<'a>
        requires count { length tops.now ≡ length planned.now.net.now.transitions }
        requires start { start < length tops.now }
        ensures { result ≡ top_delays planned.now.net.now planned.now.period planned.now.table.now
            tops.now start }
    {
        KeptDelay {
            planned,
            tops,
            start,
        }
    }

    // The delay that is kept.
    pub(crate) fn most(&self) -> u64
        ensures { result ≡ greatest_top self.now }
    {
        self.tops[self.start]
    }

    // Whether both ends of the place have the delay that is kept, and it has no spare time.
    fn feeds(&self, id: PlaceId) -> bool
        requires { id.index < length self.now.net.places }
        ensures yes { result ≡ true → FeedsAt self.now id }
        ensures no { result ≡ false → FeedsAt self.now id → ⊥ }
    {
        let (from, to) = ends(self.planned.net, id);
        let most = self.most();
        self.tops[from] == most && self.tops[to] == most && has_no_spare(self.planned, id)
    }

    // For each transition with that delay a place without spare time that leads to it from another
    // one, where there is one.
    pub(crate) fn feeders(&self, alloc: Global) -> Result<Vec<Option<PlaceId>>, AllocError>
        ensures { IfOk result (λ feeders. AreFeeders self.now (length self.now.net.places)
            feeders.items) }
    {
        let net = self.planned.net;
        let mut feeders = vec![in alloc; None; self.tops.len()]?;
        for index in 0..net.places().len() {
            let id = PlaceId {
                index: index as u32,
            };
            if self.feeds(id) {
                feeders[ends(net, id).1] = Some(id);
            }
        }
        Ok(feeders)
    }

    // A circuit of feeders: they are followed back from `start` until a transition comes again.
    fn fed_circuit(
        &self,
        alloc: Global,
        feeders: &[Option<PlaceId>],
    ) -> Result<Vec<PlaceId>, AllocError>
        requires { FeedersGoBack self.now feeders.now }
        ensures { IfOk result (λ ps. IsFedCircuit self.now ps.items) }
    {
        let mut left: Vec<Option<usize>> = vec![in alloc; None; feeders.len()]?;
        let mut trail = Vec::new(alloc);
        let mut at = self.start;
        'walk: while left[at].is_none() {
            left[at] = Some(trail.len());
            let feeder = feeder_at(feeders, at);
            trail.insert(0, feeder)?;
            at = ends(self.planned.net, feeder).0;
        }
        let first = left[at].unwrap();
        trail.truncate(trail.len() - first);
        Ok(trail)
    }

    // The same, told from its lowest numbered transition on.
    pub(crate) fn circuit(
        &self,
        alloc: Global,
        feeders: &[Option<PlaceId>],
    ) -> Result<Circuit, AllocError>
        requires { FeedersGoBack self.now feeders.now }
        ensures circuit { IfOk result (λ c. IsCircuit self.now.net c.places.items) }
        ensures lowest { IfOk result (λ c. BeginsLowest self.now.net c.places.items) }
        ensures good { IfOk result (λ c. AreGood self.now c.places.items) }
    {
        let places = self.fed_circuit(alloc, feeders)?;
        let mut circuit = Circuit { places };
        circuit.begin_lowest(self.planned.net);
        Ok(circuit)
    }
}
