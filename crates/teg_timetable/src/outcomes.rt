//! What becomes of delays: they die out, or a circuit without spare time keeps them.
ghost use Rattle.std.specs.Prelude.{◌≡◌, length, IfOk};
ghost use Rattle.delay_laws.specs.SettlingLaws.{AreSettledDelays};
ghost use Rattle.teg_timetable.specs.DelayAnswers.{IsRightOutcome};
ghost use Rattle.teg_timetable.specs.Spreads.{delay_left, outcome_told};
ghost use Rattle.teg_timetable.specs.WaysBack.{AreTopsOf};

use crate::circuits::KeptDelay;
use crate::late::{highest, last_late, tops};
use crate::left::Left;
use delay_laws::Outcome;
use release_nets::Planned;
use std::alloc::Global;
use teg_net::OutOfMemory;

// What becomes of delays of which these are the greatest.
fn outcome_by(alloc: Global, kept: &KeptDelay<'_>, left: &Left) -> Result<Outcome, OutOfMemory>
    requires tops { AreTopsOf left.now kept.now }
    requires width { length left.now.firsts ≡ length kept.now.net.transitions }
    requires settled { AreSettledDelays kept.now.net kept.now.period kept.now.table
        (delay_left left.now) left.now.form.after left.now.form.period }
    ensures { IfOk result (λ outcome. IsRightOutcome kept.now.net kept.now.period
        (delay_left left.now) (outcome_told outcome)) }
{
    if kept.most() == 0 {
        return Ok(Outcome::Recovered {
            after: last_late(left),
        });
    }
    let feeders = kept.feeders(alloc)?;
    let circuit = kept.circuit(alloc, &feeders)?;
    Ok(Outcome::Kept { circuit })
}

// What becomes of the delays of a timetable that the net can keep.
pub(crate) fn outcome(
    alloc: Global,
    planned: &Planned<'_>,
    left: &Left,
) -> Result<Outcome, OutOfMemory>
    requires width { length left.now.firsts ≡ length planned.now.net.now.transitions }
    requires settled { AreSettledDelays planned.now.net.now planned.now.period planned.now.table.now
        (delay_left left.now) left.now.form.after left.now.form.period }
    ensures { IfOk result (λ outcome. IsRightOutcome planned.now.net.now planned.now.period
        (delay_left left.now) (outcome_told outcome)) }
{
    let tops = tops(alloc, left)?;
    let start = highest(&tops);
    let kept = KeptDelay::new(planned, &tops, start);
    outcome_by(alloc, &kept, left)
}
