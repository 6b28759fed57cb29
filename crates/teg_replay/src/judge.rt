//! Whether a firing may follow a run.
ghost use Rattle.std.specs.Prelude.{◌≡◌, ◌<◌, ◌^◌, IfOk, IfErr, length};
ghost use Rattle.run_laws.specs.Runs.{next_number, IsLegalAfter};
ghost use Rattle.teg_replay.specs.RefusedFirings.{Fails};
ghost use Rattle.run_laws.specs.Earliest.{IsEarliest};
ghost use Rattle.teg_replay.specs.Games.{AreEnds};

use crate::ends::EndLists;
use crate::history::History;
use crate::refusal::FireRefusal;
use crate::waits::{date_before, in_order, next_number, released, tokens_there};
use run_laws::Fired;
use teg_net::Net;

// The earliest date that the firing could have had, where it may follow the run; and else the first
// way in which it fails.
pub(crate) fn judge(
    history: &History,
    ends: &EndLists,
    net: &Net,
    fired: Fired,
) -> Result<u64, FireRefusal>
    requires width { history.now.width ≡ length net.now.transitions }
    requires ends { AreEnds net.now ends.now }
    requires transition { fired.transition.index < length net.now.transitions }
    requires few { length history.now.run < 2 ^ 40 }
    ensures legal { IfOk result (λ _. IsLegalAfter net.now history.now.run fired) }
    ensures earliest { IfOk result (λ date. IsEarliest net.now history.now.run
        fired.transition.index (next_number history.now.run fired.transition.index) date) }
    ensures fails { IfErr result (λ why. Fails net.now history.now.run fired why) }
{
    let number = next_number(history, fired.transition);
    let tokens = tokens_there(history, ends, net, fired)?;
    in_order(history, fired)?;
    let release = released(ends, net, fired, number)?;
    Ok(
        tokens
            .max(release)
            .max(date_before(history, fired.transition)),
    )
}
