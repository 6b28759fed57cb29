//! A plan that is asked for in the middle of the work, and a run that leaves no net.
ghost use Rattle.std.specs.Prelude.{◌<◌};

use crate::chapters_states::{NET, ask_at_8, fired};
use crate::told::so;
use example_nets::{ask_net, due_rows, transition_named};
use std::alloc::Global;
use std::test::Fail;
use teg_check::LiveNet;
use teg_jit::{LatestDate, Plan, latest_inputs};
use teg_net::{Net, PlaceId, TransitionId};
use teg_state::{NotLeft, net_after};

// Whether the next two parts come in at 18 and at 21 at the latest.
fn has_inputs(plan: &Plan, entry: TransitionId) -> bool
    requires { entry.index < plan.now.width }
{
    plan.numbers() == 3
        && matches!(plan.latest(entry, 1), LatestDate::At { date: 18, .. })
        && matches!(plan.latest(entry, 2), LatestDate::At { date: 21, .. })
}

// That they do where work on them is due at 20 and at 23.
fn are_planned(alloc: Global, rest: &LiveNet) -> Result<(), Fail> {
    let entry = transition_named(rest.net(), "in")?;
    let due = due_rows(alloc, rest.net(), b"work,2,20\nwork,3,23\n")?;
    let plan = latest_inputs(alloc, rest.net(), rest.live(), &due)?;
    so(has_inputs(&plan, entry), "latest inputs from 8 on")
}

// That no net is left where work began on a part that had not come in.
fn is_unpaid(alloc: Global, shop: &Net) -> Result<(), Fail> {
    let run = [fired(transition_named(shop, "work")?, 2)];
    let unpaid = NotLeft::Unpaid {
        place: PlaceId::new(0),
    };
    so(
        net_after(alloc, shop, &run, 8).err() == Some(unpaid),
        "work too early",
    )
}

#[test]
fn plans_go_on_from_now_and_a_run_too_early_leaves_no_net(rt: HostRuntime) -> Result<(), Fail> {
    ask_at_8(rt.alloc(), are_planned)?;
    ask_net(rt.alloc(), NET, is_unpaid)
}
