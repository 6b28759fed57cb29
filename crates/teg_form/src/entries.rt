//! The entries, by the transitions to which their paths lead, and the places with tokens.
ghost use Rattle.std.specs.Prelude.{ℕ, ◌≡◌, ◌<◌, IfOk, IfNone, IfSome, IsTrue, IsFalse, length};
ghost use Rattle.teg_form.specs.Adding.{IsOfKind, last_entry, IsAdded};
ghost use Rattle.teg_form.specs.StandardForms.{AreEntries, IsGreatestTime};
ghost use Rattle.teg_form.specs.Times.{AreFreeTimes, IsTimeFrom, IsFirstPlaceOf};

use crate::order::by_source;
use dioid::Date;
use dioid_matrix::Matrix;
use std::alloc::{AllocError, Global};
use teg_net::{Net, OutOfMemory, PlaceId, TransitionId};

/// The greatest time of a path whose first place has `tokens` tokens, and whose others have none.
#[derive(Clone, Copy, Debug, Drop, PartialEq, Eq)]
pub struct Entry {
    pub to: TransitionId,
    pub from: TransitionId,
    /// At least 1.
    pub tokens: u32,
    /// In the user's unit: at most 400 times 1,000,000,000.
    pub time: u64,
}

// Whether the last entry is of the same kind: of the same ends and tokens.
fn ends_in_kind(entries: &[Entry], entry: &Entry) -> bool
    ensures some { IsTrue result → 0 < length entries.now }
    ensures kind { IsTrue result → IsOfKind (last_entry entries.now) entry.now }
    ensures other { IsFalse result → 0 < length entries.now
        → IsOfKind (last_entry entries.now) entry.now → ⊥ }
{
    let count = entries.len();
    0 < count
        && entries[count - 1].to.index == entry.to.index
        && entries[count - 1].from.index == entry.from.index
        && entries[count - 1].tokens == entry.tokens
}

// Adds an entry behind the others, or in place of the last where that is of the same kind and
// takes less time.
fn add(entries: &mut Vec<Entry>, entry: Entry) -> Result<(), AllocError>
    ensures { IfOk result (λ _. IsAdded entries.old.items entry entries.new.items) }
{
    if ends_in_kind(entries, &entry) {
        let last = entries.len() - 1;
        if entries[last].time < entry.time {
            entries[last] = entry;
        }
        return Ok(());
    }
    entries.push(entry)?;
    Ok(())
}

// The entry of the paths to this transition that begin with this place, where there are any.
fn entry_of(net: &Net, times: &Matrix<Date>, id: PlaceId, to: usize) -> Option<Entry>
    requires times { AreFreeTimes net.now times.now }
    requires place { id.index < length net.now.places }
    requires to { to < length net.now.transitions }
    ensures none { IfNone result ((time : ℕ) → IsTimeFrom net.now id to time → ⊥) }
    ensures to { IfSome result (λ e. e.to.index ≡ to) }
    ensures place { IfSome result (IsFirstPlaceOf net.now id) }
    ensures time { IfSome result (λ e. IsGreatestTime (IsTimeFrom net.now id to) e.time) }
{
    let place = &net.places()[id.index as usize];
    match *times.entry(place.to.index as usize, to) {
        Date::At(time) => Some(Entry {
            to: TransitionId { index: to as u32 },
            from: place.from,
            tokens: place.tokens,
            time: place.hold + time as u64,
        }),
        Date::Early => None,
        Date::Never => None,
    }
}

// For each pair of transitions and number of tokens the greatest time of a path whose first place
// has so many tokens, and whose others have none.
pub(crate) fn entries_of(
    alloc: Global,
    net: &Net,
    times: &Matrix<Date>,
) -> Result<Vec<Entry>, OutOfMemory>
    requires { AreFreeTimes net.now times.now }
    ensures { IfOk result (λ entries. AreEntries net.now entries.items) }
{
    let order = by_source(alloc, net)?;
    let mut entries = Vec::new(alloc);
    for turn in 0..net.transitions().len() * order.len() {
        let to = turn / order.len();
        let marked = order[turn % order.len()];
        if let Some(entry) = entry_of(net, times, marked.place, to) {
            add(&mut entries, entry)?;
        }
    }
    Ok(entries)
}
