//! The texts of slack, and of nets that were made.
ghost use Rattle.std.specs.Prelude.{◌≡◌, ◌++◌, ◌<◌, [], All, IfOk, length, string_bytes};
ghost use Rattle.teg_report.specs.SlackLines.{IsRatioKept, IsSlackKept, IsTrialKept, cycle_time_line, slack_line, slack_lines, trial_lines};
ghost use Rattle.teg_text.specs.Lines.{line_then, written};

use dioid::Date;
use std::alloc::{AllocError, Global};
use teg_critical::{Slack, Slacks};
use teg_net::{Net, OutOfMemory, PlaceId, Ratio};
use teg_text::push_date;

// Appends the line of the greatest ratio.
fn push_cycle_time(text: &mut String, ratio: Ratio) -> Result<(), AllocError>
    ensures text { IfOk result (λ _. string_bytes text.new
        ≡ string_bytes text.old ++ line_then (cycle_time_line ratio) []) }
    ensures kept { IfOk result (λ _. IsRatioKept ratio) }
{
    let time = ratio.time();
    let tokens = ratio.tokens();
    write!(text, "cycle time {time}/{tokens}\n")
}

// Appends the line of the place of this number, counted from 0.
fn push_slack(text: &mut String, net: &Net, index: usize, slack: Slack) -> Result<(), AllocError>
    requires { index < length net.now.places }
    ensures text { IfOk result (λ _. string_bytes text.new ≡
        string_bytes text.old ++ line_then (slack_line net.now index slack) []) }
    ensures kept { IfOk result (λ _. IsSlackKept slack) }
{
    let name = net.places()[index].name.as_str();
    match slack {
        Slack::NoCircuit => write!(text, "place {name} no circuit\n"),
        Slack::Critical => write!(text, "place {name} critical\n"),
        Slack::Rise { by } => write!(text, "place {name} slack {by}\n"),
    }
}

// The greatest ratio, and one line for each place.
pub(crate) fn slack(
    alloc: Global,
    net: &Net,
    ratio: Ratio,
    slacks: &Slacks,
) -> Result<Vec<u8>, OutOfMemory>
    requires { length slacks.now ≡ length net.now.places }
    ensures text { IfOk result (λ text. text.items ≡ written
        (slack_lines net.now ratio slacks.now)) }
    ensures ratio { IfOk result (λ _. IsRatioKept ratio) }
    ensures slacks { IfOk result (λ _. All IsSlackKept slacks.now) }
{
    let mut text = String::new(alloc);
    push_cycle_time(&mut text, ratio)?;
    for index in 0..net.places().len() {
        let place = PlaceId {
            index: index as u32,
        };
        push_slack(&mut text, net, index, slacks.slack(place))?;
    }
    Ok(text.into_bytes())
}

// The summary of a net that was made, with its machines and its places.
pub(crate) fn trial(
    alloc: Global,
    sizes: (u32, u32),
    ratio: Ratio,
    critical: u32,
    last: Date,
) -> Result<Vec<u8>, OutOfMemory>
    ensures text { IfOk result (λ text. text.items ≡ written
        (trial_lines sizes.0 sizes.1 ratio critical last)) }
    ensures kept { IfOk result (λ _. IsTrialKept sizes.0 sizes.1 ratio critical last) }
{
    let (machines, places) = sizes;
    let mut text = format!(in alloc; "trial {machines}\nplaces {places}\n")?;
    push_cycle_time(&mut text, ratio)?;
    write!(text, "critical {critical}\nlast ")?;
    push_date(&mut text, last)?;
    text.push('\n')?;
    Ok(text.into_bytes())
}
