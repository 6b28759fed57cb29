//! The numbers of a record of endless due dates.
ghost use Rattle.std.specs.Prelude.{◌≡◌, ◌≤◌, ◌<◌, [], true, IfOk, length, get_or, option_map, nat_le};
ghost use Rattle.std.specs.List.{list_all};
ghost use Rattle.teg_due.specs.csv.Records.{fields_of};
ghost use Rattle.csv_records.specs.NumberFields.{is_number};
ghost use Rattle.teg_net.specs.Limits.{greatest_input_date};
ghost use Rattle.endless_due.specs.EndlessFiles.{has_numbers, IsLimited, AreDatesOfFields, goes_on, rises_from};

use csv_records::{ByteRecord, is_number, number_up_to};
use std::alloc::Global;
use teg_net::{GREATEST_INPUT_DATE, OutOfMemory};

// The most firings after which dates go on.
pub(crate) const MOST_EVERY: u64 = 1_000;

// The most dates of a row.
pub(crate) const MOST_DATES: usize = 10_000;

/// The numbers of a record that keep their limits.
#[derive(Drop)]
pub struct Limited {
    pub every: u32,
    pub gap: u64,
    pub dates: Vec<u64>,
}

// The field at a place.
pub(crate) fn field_at<'r>(record: &'r ByteRecord, index: usize) -> &'r [u8]
    requires { index < length (fields_of «record».now) }
    ensures { result.now ≡ get_or (fields_of «record».now) index [] }
{
    match record.get(index) {
        Some(field) => field,
        None => unreachable!(),
    }
}

// Whether there are four fields or more, and those from the second on are numbers.
pub(crate) fn has_numbers(record: &ByteRecord) -> bool
    ensures { result ≡ has_numbers (fields_of «record».now) }
{
    if record.len() < 4 {
        return false;
    }
    for index in 1..record.len() {
        if !is_number(field_at(record, index)) {
            return false;
        }
    }
    true
}

// The dates of a record, from its fourth field on, if each keeps its limit.
fn dates_of(alloc: Global, record: &ByteRecord) -> Result<Option<Vec<u64>>, OutOfMemory>
    requires { has_numbers (fields_of «record».now) ≡ true }
    ensures { IfOk result (λ dates. AreDatesOfFields (fields_of «record».now)
        (option_map (λ d. d.items) dates)) }
{
    let mut dates = Vec::new(alloc);
    for index in 3..record.len() {
        let Some(date) = number_up_to(field_at(record, index), GREATEST_INPUT_DATE) else {
            return Ok(None);
        };
        if dates.push(date).is_err() {
            return Err(OutOfMemory);
        }
    }
    Ok(Some(dates))
}

// The numbers of a record, if they keep their limits.
pub(crate) fn limited_numbers(
    alloc: Global,
    record: &ByteRecord,
) -> Result<Option<Limited>, OutOfMemory>
    requires { has_numbers (fields_of «record».now) ≡ true }
    ensures { IfOk result (IsLimited (fields_of «record».now)) }
{
    let Some(every) = number_up_to(field_at(record, 1), MOST_EVERY) else {
        return Ok(None);
    };
    let Some(gap) = number_up_to(field_at(record, 2), GREATEST_INPUT_DATE) else {
        return Ok(None);
    };
    if every < 1 || record.len() > MOST_DATES + 3 {
        return Ok(None);
    }
    let every = every as u32;
    match dates_of(alloc, record)? {
        Some(dates) => Ok(Some(Limited { every, gap, dates })),
        None => Ok(None),
    }
}

// Whether no date is less than the one before it.
fn rises(dates: &[u64]) -> bool
    ensures { result ≡ rises_from 0 dates.now }
{
    let mut before = 0;
    for date in dates {
        if *date < before {
            return false;
        }
        before = *date;
    }
    true
}

// Whether dates never fall, within the list or past it.
pub(crate) fn goes_on(every: u32, gap: u64, dates: &[u64]) -> bool
    requires some { 1 ≤ every }
    requires gap { gap ≤ greatest_input_date }
    requires dates { list_all (λ d. nat_le d greatest_input_date) dates.now ≡ true }
    ensures { result ≡ goes_on every gap dates.now }
{
    let every = every as usize;
    if !rises(dates) || every > dates.len() {
        return false;
    }
    dates[dates.len() - 1] <= dates[dates.len() - every] + gap
}
