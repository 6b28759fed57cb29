//! The pace of a net, and the latest inputs that meet its due dates.
ghost use Rattle.std.specs.Prelude.{IfErr, IfOk, string_bytes, ◌≡◌, ◌≤◌, length};
ghost use Rattle.teg_jit.specs.csv_records.Records.{most_file_bytes};
ghost use Rattle.pace_example.specs.Advice.{IsAdvice, IsWhyNot, pace_line};

use pace_calls::pace;
use std::alloc::{AllocError, Global};
use teg_check::check;
use teg_due::read_due;
use teg_jit::{Plan, latest_inputs};
use teg_net::Ratio;
use teg_reader::read_net;
use teg_refusals::Refusal;

/// What a planner is told of a net and of due dates.
#[derive(Drop)]
pub struct Advice {
    /// The line of the pace.
    pub pace: String,
    /// The latest dates of the firings.
    pub plan: Plan,
}

// The line of a pace.
fn line_of(alloc: Global, pace: Option<Ratio>) -> Result<String, AllocError>
    ensures { IfOk result (λ line. string_bytes line ≡ pace_line pace) }
{
    match pace {
        None => format!(in alloc; "no circuit"),
        Some(ratio) => format!(in alloc; "pace {}/{}", ratio.time(), ratio.tokens()),
    }
}

/// The line of the pace of the net that a net file says, and the latest inputs that meet the dates
/// of a due file of at most 4,194,304 bytes (chapters 2 and 5). It refuses with the refusal of a
/// call that refuses: the net file says no net, the net has a circuit without tokens, the due file
/// says no due dates, or a firing comes later than it is due whatever the inputs do; or where no
/// memory is found.
pub fn advise(alloc: Global, net: &[u8], due: &[u8]) -> Result<Advice, Refusal>
    requires { length due.now ≤ most_file_bytes }
    ensures advice { IfOk result (λ advice. IsAdvice net.now due.now (string_bytes advice.pace)
        advice.plan) }
    ensures refused { IfErr result (IsWhyNot net.now due.now) }
{
    let net = read_net(alloc, net)?;
    let live = check(alloc, &net)?;
    let due = read_due(alloc, &net, due)?;
    let plan = latest_inputs(alloc, &net, &live, &due)?;
    let pace = pace(alloc, &net, &live)?;
    let pace = line_of(alloc, pace)?;
    Ok(Advice { pace, plan })
}
