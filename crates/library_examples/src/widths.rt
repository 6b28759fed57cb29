//! How many transitions or places a value tells of: whoever keeps one tests a number against it.
ghost use Rattle.std.specs.Prelude.{IfOk};
ghost use Rattle.teg_net.specs.Certificates.{IsCertificate};

use date_rows::{Rows, first_dates};
use example_nets::{KANBAN, ask_held, due_rows};
use std::alloc::Global;
use std::test::Fail;
use teg_check::{Live, LiveNet};
use teg_critical::critical;
use teg_cycle::cycle;
use teg_dates::Stream;
use teg_jit::latest_inputs;
use teg_net::{CycleAnswer, OutOfMemory, PlaceEnd, PlacesOf, TransitionId};
use teg_parts::split;
use teg_settle::settle;
use teg_state::History;

// The rank of a transition, where the ranks have one of it.
fn rank_of(live: &Live, transition: TransitionId) -> Option<u32> {
    if transition.index() < live.width() {
        Some(live.rank(transition))
    } else {
        None
    }
}

// Whether the lists of places, the ranks and the parts are those of so many transitions.
fn are_parts_of(alloc: Global, held: &LiveNet, count: usize) -> Result<bool, Fail> {
    let lists = PlacesOf::new(alloc, held.net(), PlaceEnd::From)?.width();
    let parts = split(alloc, held.net())?.width();
    Ok(lists == count && held.live().width() == count && parts == count)
}

// Whether tables, rows and streams of dates are those of so many transitions.
fn are_dates_of(alloc: Global, held: &LiveNet, count: usize) -> Result<bool, Fail> {
    let table = first_dates(alloc, held.net(), held.live(), 1)?.width();
    let stream = Stream::of_live(alloc, held.net(), held.live())?.width();
    let rows = Rows::new(alloc, held.net()).width();
    Ok(table == count && stream == count && rows == count)
}

// Whether the settled form and what happened so far are those of so many transitions.
fn goes_on_with(alloc: Global, held: &LiveNet, count: usize) -> Result<bool, Fail> {
    let form = settle(alloc, held.net(), held.live())?.width();
    let history = History::new(alloc, held.net())?.width();
    Ok(form == count && history == count)
}

// Of how many transitions a plan is, where work of the last machine is due.
fn plan_width(alloc: Global, held: &LiveNet) -> Result<usize, Fail> {
    let due = due_rows(alloc, held.net(), b"m3,1,100\n")?;
    Ok(latest_inputs(alloc, held.net(), held.live(), &due)?.width())
}

// The cycle times of a net that is held, by its parts.
fn answer_of(alloc: Global, held: &LiveNet) -> Result<CycleAnswer, OutOfMemory>
    ensures { IfOk result (IsCertificate held.now) }
{
    let parts = split(alloc, held.net())?;
    cycle(alloc, held.net(), held.live(), &parts)
}

// How many places have a slack.
fn slack_count(alloc: Global, held: &LiveNet) -> Result<usize, Fail> {
    let answer = answer_of(alloc, held)?;
    Ok(critical(alloc, held.net(), &answer)?.width())
}

// Whether all is told so of three machines with seven places, and of no fourth machine.
fn has_widths(alloc: Global, held: &LiveNet) -> Result<bool, Fail> {
    let last = rank_of(held.live(), TransitionId::new(2));
    let beyond = rank_of(held.live(), TransitionId::new(3));
    Ok(
        last == Some(2)
            && beyond.is_none()
            && are_parts_of(alloc, held, 3)?
            && are_dates_of(alloc, held, 3)?
            && goes_on_with(alloc, held, 3)?
            && plan_width(alloc, held)? == 3
            && slack_count(alloc, held)? == 7,
    )
}

#[test]
fn values_tell_their_widths(rt: HostRuntime) -> Result<(), Fail> {
    assert!(rt; ask_held(rt.alloc(), KANBAN, has_widths)?);
    Ok(())
}
