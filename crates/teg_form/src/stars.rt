//! The star entries, by pairs of transitions.
ghost use Rattle.std.specs.Prelude.{ℕ, ◌≡◌, ◌≢◌, ◌<◌, length, IfOk, IfNone, IfSome};
ghost use Rattle.teg_form.specs.StandardForms.{AreStars, IsStarEntry, IsTimeOfFreePath};
ghost use Rattle.teg_form.specs.Times.{AreFreeTimes};

use dioid::Date;
use dioid_matrix::Matrix;
use std::alloc::{AllocError, Global};
use teg_net::{Net, TransitionId};

/// The greatest time of a path of places without tokens, between two different transitions.
#[derive(Clone, Copy, Debug, Drop, PartialEq, Eq)]
pub struct StarEntry {
    pub to: TransitionId,
    pub from: TransitionId,
    /// In the user's unit: at most 400 times 1,000,000,000.
    pub time: u64,
}

// The star entry of this pair of transitions, where there is one.
fn star_entry(net: &Net, times: &Matrix<Date>, to: usize, from: usize) -> Option<StarEntry>
    requires times { AreFreeTimes net.now times.now }
    requires to { to < length net.now.transitions }
    requires from { from < length net.now.transitions }
    ensures none { IfNone result ((time : ℕ) → to ≢ from → IsTimeOfFreePath net.now from to time
        → ⊥) }
    ensures entry { IfSome result (IsStarEntry net.now) }
    ensures to { IfSome result (λ e. e.to.index ≡ to) }
    ensures from { IfSome result (λ e. e.from.index ≡ from) }
{
    if to == from {
        return None;
    }
    match *times.entry(from, to) {
        Date::At(time) => Some(StarEntry {
            to: TransitionId { index: to as u32 },
            from: TransitionId { index: from as u32 },
            time: time as u64,
        }),
        Date::Early => None,
        Date::Never => None,
    }
}

// For each pair of different transitions that a path without tokens joins, the greatest time of
// one.
pub(crate) fn stars_of(
    alloc: Global,
    net: &Net,
    times: &Matrix<Date>,
) -> Result<Vec<StarEntry>, AllocError>
    requires { AreFreeTimes net.now times.now }
    ensures { IfOk result (λ stars. AreStars net.now stars.items) }
{
    let count = net.transitions().len();
    let mut stars = Vec::new(alloc);
    for pair in 0..count * count {
        let to = pair / count;
        let from = pair % count;
        if let Some(entry) = star_entry(net, times, to, from) {
            stars.push(entry)?;
        }
    }
    Ok(stars)
}
