//! The head of a list and a row, and two texts at once.
use crate::told::so;
use dioid::Date;
use example_nets::{LOOP, ask_net};
use std::alloc::Global;
use std::test::Fail;
use teg_net::{Net, OutOfMemory};
use teg_report::{Answer, list_head, list_row, report_both};

// Whether the head of a list of three firings of the net is told so.
fn has_head(alloc: Global, net: &Net) -> Result<bool, OutOfMemory> {
    let head = list_head(alloc, net, 3)?;
    Ok(head.as_slice() == b"dates of 3 firings\ntransition a b\n".as_slice())
}

// Whether a row is told so.
fn has_row(alloc: Global) -> Result<bool, OutOfMemory> {
    let row = list_row(alloc, 3, &[Date::At(10), Date::Never])?;
    Ok(row.as_slice() == b"3 10 never\n".as_slice())
}

// Whether the texts of a live net and of the usage are told at once.
fn has_both(alloc: Global) -> Result<bool, OutOfMemory> {
    let live = Answer::Live {
        transitions: 2,
        places: 2,
    };
    let (first, second) = report_both(alloc, None, &live, None, &Answer::Usage)?;
    Ok(
        first.as_slice() == b"live\ntransitions 2\nplaces 2\n".as_slice()
            && second.starts_with(b"usage: teg check NET\n"),
    )
}

// That all three are told so.
fn tell_texts(alloc: Global, net: &Net) -> Result<(), Fail> {
    so(has_head(alloc, net)?, "the head of a list")?;
    so(has_row(alloc)?, "a row")?;
    so(has_both(alloc)?, "both texts")
}

#[test]
fn texts_are_told(rt: HostRuntime) -> Result<(), Fail> {
    ask_net(rt.alloc(), LOOP, tell_texts)
}
