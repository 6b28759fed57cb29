//! A net is asked in the order of its numbers.
use example_nets::{LOOP, ask_net};
use net_ids::{place_ids, transition_ids};
use std::alloc::Global;
use std::test::Fail;
use teg_net::Net;

// The longest holding time of a place, in the user's unit.
fn longest_hold(net: &Net) -> u64 {
    let mut longest = 0;
    for id in place_ids(net) {
        longest = longest.max(net.place(id).hold);
    }
    longest
}

// Whether some transition is an input.
fn has_input(net: &Net) -> bool {
    for id in transition_ids(net) {
        if net.is_input(id) {
            return true;
        }
    }
    false
}

// Whether the loop is asked so.
fn is_asked(_alloc: Global, net: &Net) -> Result<bool, Fail> {
    Ok(longest_hold(net) == 3 && !has_input(net))
}

#[test]
fn a_net_is_asked_by_its_numbers(rt: HostRuntime) -> Result<(), Fail> {
    assert!(rt; ask_net(rt.alloc(), LOOP, is_asked)?);
    Ok(())
}
