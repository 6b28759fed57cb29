//! The standard form of a live net.
ghost use Rattle.std.specs.Prelude.{IfOk};
ghost use Rattle.teg_form.specs.StandardForms.{IsStandardFormOf};
ghost use Rattle.teg_report.specs.FormLines.{HasEndsIn};
ghost use Rattle.teg_net_commands.specs.Form.{SaysForm};
ghost use Rattle.teg_outcome.specs.CommandOutcomes.{Tells, outcome_of};

use std::alloc::Global;
use teg_check::LiveNet;
use teg_form::Form;
use teg_net::OutOfMemory;
use teg_outcome::{CommandOutcome, Verdict};
use teg_report::{Answer, report};

// The standard form, whose entries have both ends among the transitions of the net.
fn standard_form(alloc: Global, net: &LiveNet) -> Result<Form, OutOfMemory>
    ensures form { IfOk result (λ form. IsStandardFormOf net.now form) }
    ensures within { IfOk result (λ form. HasEndsIn net.now form) }
{
    // The rules of the net, by which both ends of an entry are among its transitions.
    net.net().rules();
    teg_form::standard_form(alloc, net.net(), net.live())
}

/// The standard form of a live net: the greatest times of paths without tokens, and of those that
/// begin with a place with tokens (chapter 2). It takes time of order n^3 + n p for n transitions
/// and p places.
pub fn tell_form(alloc: Global, net: &LiveNet) -> Result<CommandOutcome, OutOfMemory>
    ensures { Tells (SaysForm net.now) (outcome_of result) }
{
    let form = standard_form(alloc, net)?;
    let text = report(alloc, Some(net.net()), &Answer::Form { form: &form })?;
    let verdict = Verdict::Done;
    Ok(CommandOutcome { verdict, text })
}
