//! A row of due dates of a live net beside the net without its inputs, whose rows tell the least
//! dates with all inputs at 0.
ghost use Rattle.std.specs.Prelude.{◌≡◌};
ghost use Rattle.teg_net.specs.Circuits.{IsLive};
ghost use Rattle.teg_net.specs.Nets.{without_inputs};
ghost use Rattle.teg_check.specs.Ranks.{IsRanking};
ghost use Rattle.endless_due.specs.EndlessRows.{IsEndlessRow};
ghost use Rattle.teg_forever.specs.Asked.{IsPlainRow, IsRowOfLive, row_of_net};

use endless_due::EndlessRow;
use std::marker::Model;
use teg_check::Live;
use teg_net::Net;

// A live net, the net without its inputs, the ranks of both, and a row. Contracts see the net and
// the row.
#[derive(Drop)]
pub(crate) struct PlainRow<'a> {
    net: &'a Net,
    plain: &'a Net,
    live: &'a Live,
    row: &'a EndlessRow,
}

impl<'a> Model for PlainRow<'a> {
    ghost use Rattle.teg_forever.specs.Asked.{IsPlainRow, RowOfNet, row_of_net};

    ghost Value = { RowOfNet };

    ghost view = { λ p. row_of_net p.net.now p.row.now };

    ghost invariant = { λ p. IsPlainRow p.net.now p.plain.now p.live.now p.row.now };
}

impl<'a> PlainRow<'a> {
    // These of one net.
    pub(crate) fn new(
        net: &'a Net,
        plain: &'a Net,
        live: &'a Live,
        row: &'a EndlessRow,
    ) -> PlainRow<'a>
        requires { IsPlainRow net.now plain.now live.now row.now }
        ensures { result ≡ row_of_net net.now row.now }
    {
        PlainRow {
            net,
            plain,
            live,
            row,
        }
    }

    // The net.
    pub(crate) fn net(&self) -> &Net
        ensures value { result.now ≡ self.now.net }
        ensures given { IsRowOfLive self.now }
    {
        self.net
    }

    // The net without its inputs.
    pub(crate) fn plain(&self) -> &Net
        ensures value { result.now ≡ without_inputs self.now.net }
        ensures live { IsLive (without_inputs self.now.net) }
        ensures given { IsRowOfLive self.now }
    {
        self.plain
    }

    // Its ranks.
    pub(crate) fn live(&self) -> &Live
        ensures { IsRanking (without_inputs self.now.net) result.now }
    {
        self.live
    }

    // The row.
    pub(crate) fn row(&self) -> &EndlessRow
        ensures value { result.now ≡ self.now.row }
        ensures rules { IsEndlessRow self.now.net result.now }
    {
        self.row
    }
}
