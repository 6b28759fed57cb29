//! Endless due dates of a live net, and an input of which they are asked.
ghost use Rattle.std.specs.Prelude.{◌≡◌, ◌<◌, Some, length, slice_get};
ghost use Rattle.teg_lags.specs.Lags.{AreLeaving};
ghost use Rattle.teg_forever.specs.Asked.{AreDue, AreRankedRows, IsAsked, IsAskedWith, input_asked, ranked_rows};
ghost use Rattle.endless_due.specs.EndlessRows.{IsEndlessRow};

use endless_due::EndlessRow;
use std::marker::Model;
use teg_check::Live;
use teg_net::{Net, PlacesOf, TransitionId};
use walks_by_ends::InputTimes;

// Endless due dates of a live net. Contracts see the ranks with them.
#[derive(Drop)]
pub(crate) struct DueRows<'a> {
    net: &'a Net,
    live: &'a Live,
    rows: &'a [EndlessRow],
    leaving: &'a PlacesOf,
}

impl<'a> Model for DueRows<'a> {
    ghost use Rattle.teg_forever.specs.Asked.{AreDue, RankedRows, ranked_rows};

    ghost Value = { RankedRows };

    ghost view = { λ a. ranked_rows a.net.now a.live.now a.rows.now };

    ghost invariant = { λ a. AreDue a.net.now a.live.now a.rows.now a.leaving.now };
}

impl<'a> DueRows<'a> {
    // These rows of the net, of which the places that leave each transition are listed.
    pub(crate) fn new(
        net: &'a Net,
        live: &'a Live,
        rows: &'a [EndlessRow],
        leaving: &'a PlacesOf,
    ) -> DueRows<'a>
        requires { AreDue net.now live.now rows.now leaving.now }
        ensures { result ≡ ranked_rows net.now live.now rows.now }
    {
        DueRows {
            net,
            live,
            rows,
            leaving,
        }
    }

    // The net.
    pub(crate) fn net(&self) -> &Net
        ensures value { result.now ≡ self.now.net }
        ensures given { AreRankedRows self.now }
    {
        self.net
    }

    // The ranks of the net.
    pub(crate) fn live(&self) -> &Live
        ensures { result.now ≡ self.now.ranks }
    {
        self.live
    }

    // The rows.
    pub(crate) fn rows(&self) -> &[EndlessRow]
        ensures value { result.now ≡ self.now.rows }
        ensures given { AreRankedRows self.now }
    {
        self.rows
    }

    // The row at a place.
    pub(crate) fn row(&self, place: usize) -> &EndlessRow
        requires { place < length self.now.rows }
        ensures stands { slice_get self.now.rows place ≡ Some result.now }
        ensures rules { IsEndlessRow self.now.net result.now }
    {
        let rows = self.rows;
        &rows[place]
    }

    // Of each transition the places that leave it.
    pub(crate) fn leaving(&self) -> &PlacesOf
        ensures { AreLeaving self.now.net result.now }
    {
        self.leaving
    }
}

// An input of a live net with endless due dates, and the settled form of its walk times.
#[derive(Drop)]
pub(crate) struct InputRows<'a> {
    net: &'a Net,
    settled: &'a InputTimes<'a>,
    input: TransitionId,
    rows: &'a [EndlessRow],
}

impl<'a> Model for InputRows<'a> {
    ghost use Rattle.teg_forever.specs.Asked.{InputAsked, IsAsked, input_asked};

    ghost Value = { InputAsked };

    ghost view = { λ a. input_asked a.net.now a.settled.now a.input a.rows.now };

    ghost invariant = { λ a. IsAsked a.net.now a.settled.now a.input.index a.rows.now };
}

impl<'a> InputRows<'a> {
    // The input with this form.
    pub(crate) fn new(
        net: &'a Net,
        settled: &'a InputTimes<'a>,
        input: TransitionId,
        rows: &'a [EndlessRow],
    ) -> InputRows<'a>
        requires { IsAsked net.now settled.now input.index rows.now }
        ensures { result ≡ input_asked net.now settled.now input rows.now }
    {
        InputRows {
            net,
            settled,
            input,
            rows,
        }
    }

    // The settled form of the walk times.
    pub(crate) fn settled(&self) -> &InputTimes<'a>
        ensures value { result.now ≡ self.now.settled }
        ensures asked { IsAskedWith self.now }
    {
        self.settled
    }

    // The input.
    pub(crate) fn input(&self) -> TransitionId
        ensures { result ≡ self.now.input }
    {
        self.input
    }

    // The rows.
    pub(crate) fn rows(&self) -> &[EndlessRow]
        ensures value { result.now ≡ self.now.rows }
        ensures asked { IsAskedWith self.now }
    {
        self.rows
    }

    // The row at a place.
    pub(crate) fn row(&self, place: usize) -> &EndlessRow
        requires { place < length self.now.rows }
        ensures stands { slice_get self.now.rows place ≡ Some result.now }
        ensures rules { IsEndlessRow self.now.net result.now }
    {
        let rows = self.rows;
        &rows[place]
    }
}
