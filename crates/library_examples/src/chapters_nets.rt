//! Chapters of the page on the library: a net that is read, checked, asked for its pace, changed
//! and asked again, and an answer that is checked. What a test asks of a net that it owns stands in
//! functions to which it lends the net.
use example_nets::ask_changed;
use std::alloc::Global;
use std::process::Abort;
use std::test::Fail;
use teg_certificates::check_cycle;
use teg_check::LiveNet;
use teg_cycle::{best_ratio, cycle};
use teg_net::{CycleAnswer, PartAnswer, Ratio};
use teg_parts::split;
use teg_reader::read_net;

// A machine works 3 units on each part that comes in.
const NET: &[u8] = b"transition = [{name = 'in', role = 'input'}, {name = 'work'}]
place = [
  {name = 'belt', from = 'in', to = 'work', hold = 2},
  {name = 'busy', from = 'work', to = 'work', hold = 3, tokens = 1},
]
";

#[test]
fn a_net_is_read_and_checked(rt: HostRuntime) -> Result<(), Fail> {
    let alloc = rt.alloc();
    let net = read_net(alloc, NET)?;
    let held = LiveNet::new(alloc, net)?;
    assert!(rt; held.net().transitions().len() == 2);
    assert!(rt; held.net().find_place("belt").is_some());
    Ok(())
}

// The cycle times of a net that is held, part by part.
fn cycle_times(alloc: Global, held: &LiveNet) -> Result<CycleAnswer, Fail> {
    let parts = split(alloc, held.net())?;
    let answer = cycle(alloc, held.net(), held.live(), &parts)?;
    Ok(answer)
}

// The pace, and the circuit of the part that has one.
fn look_at_answer(rt: &impl Abort, answer: CycleAnswer) {
    assert!(rt; best_ratio(&answer) == Some(Ratio::of(3, 1)));
    for part in answer.parts.iter() {
        if let PartAnswer::Best { circuit, .. } = part {
            assert!(rt; circuit.places.len() == 1);
        }
    }
}

// The same of a net that is held.
fn look_at_pace(rt: &impl Abort, alloc: Global, held: &LiveNet) -> Result<(), Fail> {
    let answer = cycle_times(alloc, held)?;
    look_at_answer(rt, answer);
    Ok(())
}

#[test]
fn a_net_has_a_pace_and_a_bottleneck(rt: HostRuntime) -> Result<(), Fail> {
    let alloc = rt.alloc();
    let held = LiveNet::new(alloc, read_net(alloc, NET)?)?;
    look_at_pace(&rt, alloc, &held)
}

// The machine takes 5 units for a part from now on.
fn slow_down(held: &mut LiveNet) -> Result<(), Fail> {
    let busy = held.net().find_place("busy").ok_or("no such place")?;
    held.set_hold(busy, 5);
    Ok(())
}

// The pace of the net where it is so slow.
fn pace_when_slower(alloc: Global, held: &mut LiveNet) -> Result<Option<Ratio>, Fail> {
    slow_down(held)?;
    Ok(best_ratio(&cycle_times(alloc, held)?))
}

#[test]
fn a_net_is_changed_and_asked_again(rt: HostRuntime) -> Result<(), Fail> {
    let pace = ask_changed(rt.alloc(), NET, pace_when_slower)?;
    assert!(rt; pace == Some(Ratio::of(5, 1)));
    Ok(())
}

// The answer is a certificate of the net, and no longer where the net is slower.
fn check_twice(rt: &impl Abort, held: &mut LiveNet, answer: &CycleAnswer) -> Result<(), Fail> {
    assert!(rt; check_cycle(held.net(), &answer));
    slow_down(held)?;
    assert!(rt; !check_cycle(held.net(), &answer));
    Ok(())
}

// The same of what is answered on the net.
fn check_answer(rt: &impl Abort, alloc: Global, held: &mut LiveNet) -> Result<(), Fail> {
    let answer = cycle_times(alloc, held)?;
    check_twice(rt, held, &answer)
}

#[test]
fn an_answer_is_checked(rt: HostRuntime) -> Result<(), Fail> {
    let alloc = rt.alloc();
    let mut held = LiveNet::new(alloc, read_net(alloc, NET)?)?;
    check_answer(&rt, alloc, &mut held)
}
