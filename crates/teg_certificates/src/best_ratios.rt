//! The greatest ratio of a net, read off an answer on its cycle times.
ghost use Rattle.std.specs.Prelude.{◌≡◌};
ghost use Rattle.teg_net.specs.GreatestRatios.{ratio_in};
ghost use Rattle.teg_certificates.specs.BestRatios.{best_ratio_of};

use teg_net::{CycleAnswer, PartAnswer, Ratio};

// The ratio that the answer of a part tells; none where it has no circuit.
pub(crate) fn ratio_of(answer: &PartAnswer) -> Option<Ratio>
    ensures { result ≡ ratio_in answer.now }
{
    match answer {
        PartAnswer::NoCircuit => None,
        PartAnswer::Best { ratio, .. } => Some(*ratio),
    }
}

/// The ratio that an answer on cycle times tells of the net: that of its best part. There is none
/// where no part is named, or the one that is named tells none. It takes no memory.
pub fn best_ratio(answer: &CycleAnswer) -> Option<Ratio>
    ensures { result ≡ best_ratio_of answer.now }
{
    let part = answer.best? as usize;
    if part < answer.parts.len() {
        ratio_of(&answer.parts[part])
    } else {
        None
    }
}
