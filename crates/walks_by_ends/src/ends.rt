//! The settled forms of the times of walks from the ends of places, each settled once.
ghost use Rattle.std.specs.Prelude.{◌≡◌, ◌<◌, ◌≤◌, IfOk, IfSome, IsTrue, OnOk, length};
ghost use Rattle.teg_net.specs.Circuits.{place_at};
ghost use Rattle.teg_net.specs.Nets.{IsInput};
ghost use Rattle.teg_check.specs.Ranks.{IsRanking};
ghost use Rattle.walks_by_ends.specs.EndForms.{AreEndsOf, IsEndForm, IsKeptEnd, end_form};

use crate::led::net_led_to;
use dioid::Date;
use end_laws::ends_are_asked;
use std::alloc::Global;
use std::marker::Model;
use teg_check::{Live, ranked_nets_are_live, ranks_of};
use teg_net::{Net, OutOfMemory, PlaceId, TransitionId};
use teg_settle::{SettleRefusal, Settled, transfer};

// How many numbers the forms of all ends may have together. With 400 transitions these dates take
// 26 MB.
const MOST_NUMBERS: u32 = 2_000;

// How many numbers the form of an end may have.
const LONGEST_END: u32 = 500;

// What is known of a transition as the end of a place.
#[derive(Clone, Copy, Debug, Drop)]
enum End {
    // Nothing yet.
    Open,
    // The form of this place in the list.
    Kept(usize),
    // That its form is too long, or has a period of several numbers.
    Dear,
}

/// The settled forms of the times of walks from the ends of places of one net, each made where it
/// is asked first.
#[derive(Drop)]
pub struct Ends {
    forms: Vec<Settled>,
    ends: Vec<End>,
    room: u32,
    asked: bool,
}

impl Model for Ends {
    ghost use Rattle.walks_by_ends.specs.EndForms.{EndForms, end_forms};

    ghost Value = { EndForms };

    ghost view = { λ e. end_forms e.forms.items e.ends.items };
}

// The settled form of the times of walks from the end of this place, if it is short and goes on
// from each number to the next.
fn form_of_end(
    alloc: Global,
    net: &Net,
    _live: &Live,
    place: PlaceId,
    limit: u32,
) -> Result<Option<Settled>, OutOfMemory>
    requires stands { IsRanking net.now _live.now }
    requires place { place.index < length net.now.places }
    requires input { IsInput net.now (place_at net.now place).from.index }
    requires few { limit ≤ 500 }
    ensures { IfOk result (λ form. IfSome form (IsEndForm net.now
        (place_at net.now place).to.index)) }
{
    ranked_nets_are_live();
    ends_are_asked();
    let at = &net.places()[place.index as usize];
    let (input, end) = (at.from, at.to);
    let led = net_led_to(alloc, net, input, end)?;
    let live = ranks_of(alloc, &led)?;
    match transfer(alloc, &led, &live, input, limit) {
        Ok(form) => {
            if form.period() == 1 {
                Ok(Some(form))
            } else {
                Ok(None)
            }
        }
        Err(SettleRefusal::TooLong { .. }) => Ok(None),
        Err(SettleRefusal::OutOfMemory) => Err(OutOfMemory),
    }
}

impl Ends {
    /// None of this net is known. `OutOfMemory` comes only where no memory is found.
    pub fn new(alloc: Global, net: &Net) -> Result<Ends, OutOfMemory>
        ensures { IfOk result (AreEndsOf net.now) }
    {
        let ends = vec![in alloc; End::Open; net.transitions().len()]?;
        Ok(Ends {
            forms: Vec::new(alloc),
            ends,
            room: MOST_NUMBERS,
            asked: false,
        })
    }

    // Whether no input was asked before; one was from now on.
    pub(crate) fn is_first(&mut self) -> bool
        ensures { self.new ≡ self.old }
    {
        let first = !self.asked;
        self.asked = true;
        first
    }

    // Makes the form of the end of this place, if it is not known whether that is short.
    pub(crate) fn settle(
        &mut self,
        alloc: Global,
        net: &Net,
        live: &Live,
        place: PlaceId,
    ) -> Result<(), OutOfMemory>
        requires stands { IsRanking net.now live.now }
        requires place { place.index < length net.now.places }
        requires input { IsInput net.now (place_at net.now place).from.index }
        requires ends { AreEndsOf net.now self.old }
        ensures { OnOk result (AreEndsOf net.now self.new) }
    {
        // The net keeps its rules.
        net.rules();
        let end = net.places()[place.index as usize].to.index as usize;
        match self.ends[end] {
            End::Open => {}
            _ => return Ok(()),
        }
        let limit = self.room.min(LONGEST_END);
        match form_of_end(alloc, net, live, place, limit)? {
            Some(form) => {
                let long = form.after() + form.period();
                self.room = self.room.saturating_sub(long.min(500) as u32);
                self.ends[end] = End::Kept(self.forms.len());
                self.forms.push(form)?;
            }
            None => {
                self.ends[end] = End::Dear;
            }
        }
        Ok(())
    }

    // Whether the form of the transition is kept.
    pub(crate) fn is_kept(&self, end: TransitionId) -> bool
        requires { end.index < length self.now.ends }
        ensures { IsTrue result → IsKeptEnd self.now end.index }
    {
        match self.ends[end.index as usize] {
            End::Kept(index) => index < self.forms.len(),
            _ => false,
        }
    }

    // The form of a transition.
    pub(crate) fn form(&self, end: TransitionId) -> &Settled
        requires within { end.index < length self.now.ends }
        requires kept { IsKeptEnd self.now end.index }
        ensures { result.now ≡ end_form self.now end.index }
    {
        match self.ends[end.index as usize] {
            End::Kept(index) => &self.forms[index],
            _ => unreachable!(),
        }
    }
}
