//! Nets with the releases of a timetable as inputs, and from where circuits are told.
use crate::kept_delays::{RAILWAY, table};
use delay_laws::{Timetable, is_table_of};
use example_nets::ask_net;
use release_nets::{Planned, Unplanned, release_net};
use settled_check::shown_settled;
use std::alloc::Global;
use std::test::Fail;
use teg_net::{Net, PlaceId, is_circuit};
use witness_check::{begins_lowest, is_seen_live};

// The delayed dates of the railway, of which the first train is late by 10, and its releases.
const DATES: &str = "settled after 2 period 1
transition 0 10 30 60 step 30
transition 1 3 34 66 step 30
transition 2 0 35 65 step 30
transition 3 15 50 80 step 30
transition 4 10 30 60 step 30
transition 5 3 33 63 step 30
transition 6 0 30 60 step 30
transition 7 15 45 75 step 30
";

// The number past which these are shown to go on, as the dates of the net with the releases.
fn shown_after(alloc: Global, railway: &Net, table: &Timetable) -> Result<Option<u64>, Fail> {
    if !is_table_of(railway, table) {
        return Ok(None);
    }
    if !is_seen_live(alloc, railway)? {
        return Ok(None);
    }
    let Ok(planned) = Planned::checked(railway, 30, table) else {
        return Ok(None);
    };
    let releases = release_net(alloc, &planned)?;
    match shown_settled(alloc, &releases, DATES)? {
        Some(shown) => Ok(Some(shown.after)),
        None => Ok(None),
    }
}

// Why delays are not followed where trains leave each 24 minutes.
fn why_not(alloc: Global, railway: &Net, table: &Timetable) -> Result<Option<Unplanned>, Fail> {
    if !is_table_of(railway, table) {
        return Ok(None);
    }
    if !is_seen_live(alloc, railway)? {
        return Ok(None);
    }
    match Planned::checked(railway, 24, table) {
        Ok(_) => Ok(None),
        Err(why) => Ok(Some(why)),
    }
}

// Whether those are shown, and not followed where trains leave so often.
fn are_followed(alloc: Global, railway: &Net) -> Result<bool, Fail> {
    let (table, place) = (table(alloc, 10)?, PlaceId::new(1));
    Ok(
        shown_after(alloc, railway, &table)? == Some(2)
            && why_not(alloc, railway, &table)? == Some(Unplanned::Unworkable { place }),
    )
}

#[test]
fn release_nets_have_delayed_dates(rt: HostRuntime) -> Result<(), Fail> {
    assert!(rt; ask_net(rt.alloc(), RAILWAY, are_followed)?);
    Ok(())
}

const DOWN: PlaceId = PlaceId { index: 2 };

const UP: PlaceId = PlaceId { index: 3 };

// Places of the railway, and whether they are a circuit from its lowest numbered transition on.
const CIRCUITS: [(&[PlaceId], bool); 3] = [
    (&[DOWN, UP], true),
    (&[UP, DOWN], false),
    (&[DOWN], false),
];

// Whether they are.
fn begins_there(railway: &Net, places: &[PlaceId]) -> bool {
    is_circuit(railway, places) && begins_lowest(railway, places)
}

// Whether all rows of `CIRCUITS` are so.
fn are_circuits(_alloc: Global, railway: &Net) -> Result<bool, Fail> {
    for (places, is_so) in &CIRCUITS {
        if begins_there(railway, places) != *is_so {
            return Ok(false);
        }
    }
    Ok(true)
}

#[test]
fn circuits_begin_lowest(rt: HostRuntime) -> Result<(), Fail> {
    assert!(rt; ask_net(rt.alloc(), RAILWAY, are_circuits)?);
    Ok(())
}
