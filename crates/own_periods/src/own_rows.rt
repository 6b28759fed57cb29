//! The first rows of a net, with the own periods of its transitions.
ghost use Rattle.std.specs.Prelude.{◌≡◌, ◌≤◌, ◌<◌, length};
ghost use Rattle.own_periods.specs.OwnRows.{AreOwn, AreOwn-prop, AreShortRows, AreShortRows-prop, IsPace};

use crate::periods::OwnPeriod;
use date_rows::Table;
use teg_net::Net;

// The first 10,000 rows of a net, the period of each transition, and the pace at which dates are
// worth something.
#[derive(Clone, Copy, Drop)]
pub(crate) struct OwnRows<'a> {
    pub(crate) net: &'a Net,
    pub(crate) rows: &'a Table,
    pub(crate) owns: &'a [OwnPeriod],
    pub(crate) pace: OwnPeriod,
    ghost short: { AreShortRows rows.now } by { AreShortRows-prop rows.now },
    ghost width: { rows.now.width ≡ length net.now.transitions },
    ghost own: { AreOwn rows.now owns.now } by { AreOwn-prop rows.now owns.now },
    ghost at_pace: { IsPace pace },
}

// The numbers of a period that have this rest by a number that is at most the period.
#[derive(Clone, Copy, Drop)]
pub(crate) struct Rests {
    pub(crate) period: u64,
    pub(crate) apart: u64,
    pub(crate) rest: u64,
    ghost few: { period ≤ 4000 },
    ghost within: { apart ≤ period },
    ghost rest_in: { rest < apart },
}
