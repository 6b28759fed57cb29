//! Rows of dates that are told for a net.
ghost use Rattle.std.specs.Prelude.{◌≡◌, ◌≤◌, ◌<◌, length};
ghost use Rattle.teg_net.specs.Nets.{IsNet};
ghost use Rattle.dating_certificates.specs.CheckedRows.{AreRowsOf};
ghost use Rattle.dating_certificates.specs.ToldRows.{date_told, told_dates};

use crate::waits::date_in_rows;
use dioid::Date;
use std::marker::Model;
use teg_net::{Net, Place};

/// Rows of dates that are told for a net, in the user's unit, from number 1 up to a number: one row
/// after another, each with one date for each transition in order.
#[derive(Drop)]
pub struct ToldRows<'a> {
    net: &'a Net,
    numbers: u64,
    dates: &'a [Date],
}

impl<'a> Model for ToldRows<'a> {
    ghost use Rattle.dating_certificates.specs.CheckedRows.{AreRowsOf};
    ghost use Rattle.dating_certificates.specs.ToldRows.{ToldDates, told_dates};

    ghost Value = { ToldDates };

    ghost view = { λ t. told_dates t.net.now t.numbers t.dates.now };

    ghost invariant = { λ t. AreRowsOf t.net.now t.dates.now t.numbers };
}

impl<'a> ToldRows<'a> {
    /// These rows of the net.
    pub fn new(net: &'a Net, numbers: u64, dates: &'a [Date]) -> ToldRows<'a>
        requires { AreRowsOf net.now dates.now numbers }
        ensures { result ≡ told_dates net.now numbers dates.now }
    {
        ToldRows {
            net,
            numbers,
            dates,
        }
    }

    /// The net.
    pub fn net(&self) -> &Net
        ensures { result.now ≡ self.now.net }
    {
        self.net
    }

    /// How many rows there are.
    pub fn numbers(&self) -> u64
        ensures { result ≡ self.now.numbers }
    {
        self.numbers
    }

    /// How many dates a row has.
    pub fn width(&self) -> usize
        ensures value { result ≡ length self.now.net.transitions }
        ensures rules { IsNet self.now.net }
    {
        self.net.transitions().len()
    }

    /// The places of the net.
    pub fn places(&self) -> &[Place]
        ensures value { result.now ≡ self.now.net.places }
        ensures rules { IsNet self.now.net }
    {
        self.net.places()
    }

    /// The date of this firing, and `Never` past the last number.
    pub fn date(&self, transition: usize, number: u64) -> Date
        requires transition { transition < length self.now.net.transitions }
        requires number { 1 ≤ number }
        ensures { result ≡ date_told self.now transition number }
    {
        if number > self.numbers {
            return Date::Never;
        }
        date_in_rows(self.dates, self.width(), transition, number)
    }
}
