//! The next row of the least dating of a net, by the rows that are kept.
ghost use Rattle.std.specs.Prelude.{ℕ, ◌≡◌, ◌+◌, ◌≤◌, length, map, All};
ghost use Rattle.teg_net.specs.Limits.{most_place_tokens, greatest_firing_number};
ghost use Rattle.teg_model.specs.Datings.{listed_releases, system_of};
ghost use Rattle.date_rows.specs.KeptRows.{StaysWithin};
ghost use Rattle.date_rows.specs.Streams.{CanMakeNextRow, IsLeastRow};

use crate::date_cell::DateCell;
use crate::order::OrderedPlace;
use crate::passes::RowPass;
use crate::past::Past;
use crate::sources::NetInputs;
use teg_model::least_datings_are_one;
use teg_net::Net;

// The greatest number of tokens of a place, and at least 1.
pub(crate) fn most_tokens_of(net: &Net) -> u32
    ensures one { 1 ≤ result }
    ensures most { result ≤ most_place_tokens }
    ensures all { All (λ p. p.tokens ≤ result) net.now.places }
    ensures few { (n : ℕ) → 1 ≤ n → All (λ p. p.tokens ≤ n) net.now.places → result ≤ n }
{
    let mut most = 1;
    for place in net.places() {
        most = most.max(place.tokens);
    }
    most
}

// Writes the next row of the net's least dating, of number `number`. It takes no memory.
pub(crate) fn next_row<C: DateCell, P: Past<C>>(
    net: &Net,
    order: &[OrderedPlace],
    past: &P,
    row: &mut [C],
    number: u64,
)
    requires stands { CanMakeNextRow net.now order.now (P.rows past.now) }
    requires next { number ≡ (P.rows past.now).number + 1 }
    requires few { number ≤ greatest_firing_number }
    requires bounded { StaysWithin C.most number (system_of net.now (listed_releases net.now)) }
    requires full { length row.old ≡ length net.now.transitions }
    ensures row { IsLeastRow net.now number (map C.held row.new) }
    ensures full { length row.new ≡ length net.now.transitions }
{
    least_datings_are_one();
    RowPass::new(net, order, &NetInputs, past, number).fill(row);
}
