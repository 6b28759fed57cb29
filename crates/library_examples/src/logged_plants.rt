//! The log of a machine, asked in the middle of its work.
ghost use Rattle.teg_due.specs.RowRules.{IsDueOf};

use crate::told::so;
use dioid::Date;
use dispatcher::{Outlook, Plant};
use example_nets::{due_rows, held, place_named, transition_named};
use std::alloc::Global;
use std::test::Fail;
use teg_due::Due;

const NET: &[u8] = b"transition = [{name = 'in', role = 'input'}, {name = 'work'}]
place = [
  {name = 'belt', from = 'in', to = 'work', hold = 2},
  {name = 'busy', from = 'work', to = 'work', hold = 3, tokens = 1},
]
input = [{transition = 'in', dates = [0], every = 1, gap = 4}]
";

// Two parts came in, the second late, and the first was worked at sooner than the belt allows.
fn plant(alloc: Global) -> Result<Plant, Fail> {
    Ok(Plant::of_log(
        alloc,
        held(alloc, NET)?,
        b"transition,date\nin,0\nwork,1\nin,7\n",
    )?)
}

// How often the machine fired and when first, and how many parts are on the belt.
fn told(plant: &Plant) -> Result<(u64, Option<u64>, u64), Fail> {
    let work = transition_named(plant.net(), "work")?;
    let belt = place_named(plant.net(), "belt")?;
    Ok((plant.fired(work), plant.date(work, 1), plant.tokens(belt)))
}

// When the machine next works.
fn next_date(alloc: Global, outlook: &Outlook) -> Result<Date, Fail> {
    let work = transition_named(outlook.net(), "work")?;
    Ok(outlook.first_dates(alloc, 2)?.date(work, 1))
}

// How many firings from now on are planned for these due dates.
fn planned_for(alloc: Global, outlook: &Outlook, due: &Due) -> Result<u32, Fail>
    requires { IsDueOf outlook.now due.now.rows.items }
{
    Ok(outlook.latest_inputs(alloc, due)?.numbers())
}

// The same where its second one is due at 20.
fn planned(alloc: Global, outlook: &Outlook) -> Result<u32, Fail> {
    let due = due_rows(alloc, outlook.net(), b"work,2,20\n")?;
    planned_for(alloc, outlook, &due)
}

// The same for due dates that count from the plant's beginning.
fn still_planned(alloc: Global, plant: &Plant) -> Result<u32, Fail> {
    let due = due_rows(alloc, plant.net(), b"work,1,2\nwork,3,20\n")?;
    let outlook = plant.from_now_on(alloc, 8)?;
    let left = plant.due_left(alloc, &outlook, &due)?;
    planned_for(alloc, &outlook, &left)
}

// That it next works at 9, two firings are planned, and all goes on in a period of 1.
fn goes_on(alloc: Global, outlook: &Outlook) -> Result<(), Fail> {
    so(next_date(alloc, outlook)? == Date::At(9), "the next date")?;
    so(planned(alloc, outlook)? == 2, "two firings")?;
    so(outlook.settle(alloc)?.period() == 1, "a period of 1")
}

// That the log tells what stands where, and what is left at 8, for which due rows are numbered anew.
fn is_asked(alloc: Global, plant: &Plant) -> Result<(), Fail> {
    so(told(plant)? == (1, Some(1), 1), "what stands where")?;
    so(still_planned(alloc, plant)? == 2, "due rows by new numbers")?;
    let outlook = plant.from_now_on(alloc, 8)?;
    goes_on(alloc, &outlook)
}

#[test]
fn a_log_tells_what_stands_where_and_goes_on(rt: HostRuntime) -> Result<(), Fail> {
    is_asked(rt.alloc(), &plant(rt.alloc())?)
}
