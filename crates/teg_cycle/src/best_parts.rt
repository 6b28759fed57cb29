//! The first part of greatest ratio among the answers of parts.
ghost use Rattle.std.specs.Prelude.{◌↔◌, ◌≤◌, length, IsTrue};
ghost use Rattle.teg_net.specs.Limits.{most_transitions};
ghost use Rattle.teg_net.specs.GreatestRatios.{IsFirstGreatest};
ghost use Rattle.teg_cycle.specs.BestParts.{IsRatioAbove, HaveTokens};

use std::cmp::Ordering;
use teg_net::{PartAnswer, Ratio};

// The best part so far.
#[derive(Clone, Copy)]
pub(crate) struct BestPart {
    pub(crate) part: usize,
    pub(crate) ratio: Ratio,
}

// Whether the ratio is greater than that of the best part so far.
fn is_above(ratio: &Ratio, best: &Option<BestPart>) -> bool
    ensures { IsTrue result ↔ IsRatioAbove ratio.now best.now }
{
    match best {
        None => true,
        Some(best) => best.ratio.compare(ratio) == Ordering::Less,
    }
}

// The first part of greatest ratio; none where no part has a circuit.
pub(crate) fn best_part(answers: &[PartAnswer]) -> Option<usize>
    requires { HaveTokens answers.now }
    ensures { IsFirstGreatest answers.now result }
{
    let mut best: Option<BestPart> = None;
    for (index, answer) in answers.iter().enumerate() {
        if let PartAnswer::Best { ratio, .. } = answer {
            if is_above(ratio, &best) {
                best = Some(BestPart {
                    part: index,
                    ratio: *ratio,
                });
            }
        }
    }
    match best {
        None => None,
        Some(best) => Some(best.part),
    }
}

// The number of the first part of greatest ratio; none where no part has a circuit.
pub(crate) fn best_number(answers: &[PartAnswer]) -> Option<u32>
    requires tokens { HaveTokens answers.now }
    requires few { length answers.now ≤ most_transitions }
    ensures { IsFirstGreatest answers.now result }
{
    match best_part(answers) {
        Some(part) => Some(part as u32),
        None => None,
    }
}
