//! The times of walks from one input after another.
ghost use Rattle.std.specs.Prelude.{◌≡◌, ◌<◌, ◌≤◌, All, IfErr, IfOk, IsTrue, OnOk, length};
ghost use Rattle.teg_check.specs.Ranks.{IsRanking};
ghost use Rattle.teg_net.specs.Circuits.{place_at};
ghost use Rattle.teg_net.specs.Nets.{IsInput};
ghost use Rattle.teg_net.specs.PlaceLists.{ArePlacesOf};
ghost use Rattle.teg_net.specs.declared.places_of.PlaceEnd.TheVariants.{From};
ghost use Rattle.teg_settle.specs.LimitRefusals.{IsRightSettleRefusal, greatest_limit};
ghost use Rattle.teg_settle.specs.settled_laws.SettledForms.{row_of, settled_length, step_of_form};
ghost use Rattle.teg_settle.specs.walk_times.Transfers.{IsTransferOf, TransferSettlesPast};
ghost use Rattle.walks_by_ends.specs.EndForms.{AreEndsOf, IsKeptEnd};
ghost use Rattle.walks_by_ends.specs.InputForms.{form_of};

use crate::ends::Ends;
use crate::times::{LatestTimes, latest_times};
use crate::ways::Ways;
use dioid::Date;
use std::alloc::{AllocError, Global};
use std::marker::Model;
use teg_check::Live;
use teg_net::{Net, OutOfMemory, PlaceId, PlacesOf, TransitionId};
use teg_settle::{SettleRefusal, WalkDates, transfer_dates};

// How many places may leave an input that goes by their ends.
const MOST_PLACES: usize = 64;

// How the form of an input is told.
#[derive(Drop)]
enum Kind<'a> {
    // By rows of its own.
    Own(WalkDates),
    // By the ends of its places.
    ByEnds(LatestTimes<'a>),
}

/// The settled form of the times of walks from an input (chapters 2 and 3), by rows of its own or by
/// the ends of its places. Contracts see the form; `row` alone takes memory.
#[derive(Drop)]
pub struct InputTimes<'a> {
    kind: Kind<'a>,
}

impl<'a> Model for InputTimes<'a> {
    ghost use Rattle.teg_settle.specs.settled_laws.SettledForms.{SettledForm};
    ghost use Rattle.walks_by_ends.specs.InputForms.{form_of};

    ghost Value = { SettledForm };

    ghost view = { λ t. form_of t.kind };
}

impl<'a> InputTimes<'a> {
    /// The number past which the dates go on by their steps, 0 or more. It takes no memory.
    pub fn after(&self) -> u64
        ensures { result ≡ self.now.after }
    {
        match &self.kind {
            Kind::Own(own) => own.after(),
            Kind::ByEnds(latest) => latest.after(),
        }
    }

    /// In how many numbers the dates go on by a step, at least 1. It takes no memory.
    pub fn period(&self) -> u64
        ensures { result ≡ self.now.period }
    {
        match &self.kind {
            Kind::Own(own) => own.period(),
            Kind::ByEnds(latest) => latest.period(),
        }
    }

    /// By what the dates of this transition move in a period; 0 where they stay Never or Early. It
    /// takes no memory.
    pub fn step(&self, transition: TransitionId) -> i128
        requires transition { transition.index < length self.now.rows }
        ensures value { result ≡ step_of_form self.now transition.index }
    {
        match &self.kind {
            Kind::Own(own) => own.step(transition),
            Kind::ByEnds(latest) => latest.step(transition),
        }
    }

    /// The dates of this transition from number 1 to the end of the first period, as a list.
    /// `AllocError` comes only where no memory is found for it. By ends it takes a step a place of
    /// the input for each date.
    pub fn row(&self, alloc: Global, transition: TransitionId) -> Result<Vec<Date>, AllocError>
        requires transition { transition.index < length self.now.rows }
        ensures row { IfOk result (λ row. row.items ≡ row_of self.now transition.index) }
    {
        match &self.kind {
            Kind::Own(own) => own.row(alloc, transition),
            Kind::ByEnds(latest) => latest.row(alloc, transition),
        }
    }

    /// Whether two transitions have the same dates up to there. It takes no memory, and time of the
    /// order of the form's length at most, by ends for each place of the input.
    pub fn has_same_row(&self, first: TransitionId, other: TransitionId) -> bool
        requires first { first.index < length self.now.rows }
        requires other { other.index < length self.now.rows }
        ensures { IsTrue result → row_of self.now first.index ≡ row_of self.now other.index }
    {
        match &self.kind {
            Kind::Own(own) => own.has_same_row(first, other),
            Kind::ByEnds(latest) => latest.has_same_row(first, other),
        }
    }
}

impl Ends {
    /// Settles the ends of the places of an input, of the second input that is asked on: for one
    /// input alone its own search is as quick. An end whose form is of more than 500 numbers, or of
    /// a period of several, is left out, and so are inputs with more than 64 places; all forms have
    /// 2,000 numbers together at most. `OutOfMemory` comes only where no memory is found.
    pub fn settle_input(
        &mut self,
        alloc: Global,
        net: &Net,
        live: &Live,
        leaving: &PlacesOf,
        input: TransitionId,
    ) -> Result<(), OutOfMemory>
        requires stands { IsRanking net.now live.now }
        requires leaving { ArePlacesOf net.now From leaving.now }
        requires input { IsInput net.now input.index }
        requires ends { AreEndsOf net.now self.old }
        ensures { OnOk result (AreEndsOf net.now self.new) }
    {
        // The net keeps its rules.
        net.rules();
        let places = leaving.of(input);
        if self.is_first() || places.len() > MOST_PLACES {
            return Ok(());
        }
        for place in places {
            self.settle(alloc, net, live, *place)?;
        }
        Ok(())
    }

    // Whether the end of each of these places has a form that is kept, and there is one.
    fn are_kept(&self, net: &Net, places: &[PlaceId]) -> bool
        requires known { All (λ p. p.index < length net.now.places) places.now }
        requires ends { AreEndsOf net.now self.now }
        ensures { IsTrue result → All (λ p. IsKeptEnd self.now (place_at net.now p).to.index)
            places.now }
    {
        // The net keeps its rules.
        net.rules();
        for place in places {
            if !self.is_kept(net.places()[place.index as usize].to) {
                return false;
            }
        }
        !places.is_empty()
    }
}

/// The shortest settled form of the greatest times of walks from the first firing of this input to
/// each firing of each transition, as `transfer_dates` of `teg_settle` answers it (chapters 2 and
/// 3): its number and its period are both least over all transitions, and `TooLong` comes exactly
/// where its length exceeds the limit, of at most 200,000. `OutOfMemory` comes only where no memory
/// is found.
///
/// Where the ends of all its places are settled, it is told by their forms, in time of order `n q`
/// for n transitions and q places that leave the input, some 15 times and for each number by which
/// it begins before those forms do. Else, and where these do not tell a form within the limit, it
/// takes the time of `transfer_dates`.
pub fn walk_times_of<'a>(
    alloc: Global,
    net: &'a Net,
    live: &Live,
    leaving: &'a PlacesOf,
    ends: &'a Ends,
    input: TransitionId,
    limit: u32,
) -> Result<InputTimes<'a>, SettleRefusal>
    requires stands { IsRanking net.now live.now }
    requires leaving { ArePlacesOf net.now From leaving.now }
    requires ends { AreEndsOf net.now ends.now }
    requires input { IsInput net.now input.index }
    requires few { limit ≤ greatest_limit }
    ensures form { IfOk result (IsTransferOf net.now input.index) }
    ensures within { IfOk result (λ form. settled_length form ≤ limit) }
    ensures too_long { IfErr result (IsRightSettleRefusal (TransferSettlesPast net.now input.index
        limit)
        limit) }
{
    // The net keeps its rules.
    net.rules();
    let places = leaving.of(input);
    if ends.are_kept(net, places) {
        let ways = Ways::new(net, input, places, ends);
        if let Some(latest) = latest_times(alloc, ways, limit)? {
            return Ok(InputTimes {
                kind: Kind::ByEnds(latest),
            });
        }
    }
    let own = transfer_dates(alloc, net, live, input, limit)?;
    Ok(InputTimes {
        kind: Kind::Own(own),
    })
}
