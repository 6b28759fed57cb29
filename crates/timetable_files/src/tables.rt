//! Timetables as files say them.
ghost use Rattle.std.specs.Prelude.{ℕ, ◌≡◌, ◌≢◌, ◌≤◌, ◌<◌, ◌∷◌, [], length, None, Ok, Err, IfOk, IfErr, slice_index_or};
ghost use Rattle.csv_records.specs.Records.{most_file_bytes};
ghost use Rattle.delay_laws.specs.PlannedTimetables.{IsTableOf};
ghost use Rattle.teg_net.specs.Limits.{most_transitions};
ghost use Rattle.timetable_files.specs.Departures.{AreDepartures, or_second};
ghost use Rattle.timetable_files.specs.TimetableFiles.{IsTableRefusalIn, delays_of, departure_of, firsts_of, lists_of_table, timetable_of};

use crate::entries::TableEntry;
use crate::reading::read_entries;
use crate::refusals::TableRefusal;
use delay_laws::{Delay, Timetable};
use std::alloc::{AllocError, Global};
use teg_net::{Net, TransitionId};

// Takes down the first departure that the entry gives, if its transition has none yet.
fn take_down(cells: &mut Vec<Option<u64>>, entry: &TableEntry)
    ensures long { length cells.new.items ≡ length cells.old.items }
    ensures each { (t : ℕ) → t < length cells.old.items → slice_index_or cells.new.items t None
        ≡ or_second (slice_index_or cells.old.items t None) (departure_of (entry.now ∷ []) t) }
{
    if let TableEntry::Departure { transition, first } = entry {
        let t = transition.index as usize;
        if t < cells.len() && cells[t].is_none() {
            cells[t] = Some(*first);
        }
    }
}

// For each of the first `width` transitions the first departure that the entries give it.
fn departures(
    alloc: Global,
    width: usize,
    entries: &[TableEntry],
) -> Result<Vec<Option<u64>>, AllocError>
    ensures { IfOk result (λ cells. AreDepartures width entries.now cells.items) }
{
    let mut cells = vec![in alloc; None; width]?;
    for entry in entries {
        take_down(&mut cells, entry);
    }
    Ok(cells)
}

// The first departures of the first `width` transitions, or the lowest of them that has none.
fn firsts(alloc: Global, width: usize, entries: &[TableEntry]) -> Result<Vec<u64>, TableRefusal>
    requires { width ≤ most_transitions }
    ensures firsts { IfOk result (λ firsts. firsts_of entries.now width ≡ Ok firsts.items) }
    ensures missing { IfErr result (λ e. e ≢ TableRefusal.OutOfMemory → firsts_of entries.now width
        ≡ Err e) }
{
    let cells = departures(alloc, width, entries)?;
    let mut firsts = Vec::new(alloc);
    for t in 0..width {
        let Some(first) = cells[t] else {
            let transition = TransitionId { index: t as u32 };
            return Err(TableRefusal::Missing { transition });
        };
        if firsts.push(first).is_err() {
            return Err(TableRefusal::OutOfMemory);
        }
    }
    Ok(firsts)
}

// The delays among the entries, in order.
fn delays(alloc: Global, entries: &[TableEntry]) -> Result<Vec<Delay>, AllocError>
    ensures { IfOk result (λ delays. delays.items ≡ delays_of entries.now) }
{
    let mut delays = Vec::new(alloc);
    for entry in entries {
        if let TableEntry::Late { delay } = entry {
            delays.push(*delay)?;
        }
    }
    Ok(delays)
}

/// The timetable that a file says of a net: rows of two fields, a transition and its first
/// departure, and rows of three, a transition, a number and by how much the departure of this
/// number is late. Refused is the first faulty row with the first of its faults in the order of
/// [`TableRefusal`], and last the lowest numbered transition without a first departure; so an empty
/// file misses the first departure of the first transition. A first record `transition`, `first` is
/// passed over. First departures come in order of transitions, delays in order of rows. Inputs have
/// departures like others. Dates and delays are whole numbers in the user's unit. It takes memory
/// for the rows and 10,001 bytes for each transition of the net, and time of order of the bytes,
/// with the logarithm of the number of transitions for each row; `OutOfMemory` comes only where no
/// memory is found.
pub fn read_timetable(alloc: Global, net: &Net, bytes: &[u8]) -> Result<Timetable, TableRefusal>
    requires { length bytes.now ≤ most_file_bytes }
    ensures table { IfOk result (λ table. timetable_of net.now bytes.now
        ≡ Ok (lists_of_table table)) }
    ensures refused { IfErr result (λ e. e ≢ TableRefusal.OutOfMemory
        → timetable_of net.now bytes.now ≡ Err e) }
    ensures rules { IfOk result (IsTableOf net.now) }
    ensures about { IfErr result (IsTableRefusalIn net.now) }
{
    let entries = read_entries(alloc, net, bytes)?;
    let firsts = firsts(alloc, net.transitions().len(), &entries)?;
    let delays = delays(alloc, &entries)?;
    Ok(Timetable { firsts, delays })
}
