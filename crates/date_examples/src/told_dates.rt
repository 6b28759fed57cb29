//! Tables of dates that are told, and checked by the net and the due dates alone: latest dates,
//! plans, and rows that show how dates go on for ever. With one number changed they show nothing.
ghost use Rattle.teg_due.specs.RowRules.{IsDueOf};

use dioid::Date;
use example_nets::{KANBAN, LOOP, SHOP, ask_net, due_rows};
use latest_certificates::{check_latest, check_plan};
use settled_certificates::{check_settled, check_shortest};
use std::alloc::Global;
use std::test::Fail;
use teg_due::Due;
use teg_net::{Net, OutOfMemory};

// A line of three machines, of which the drill is down until 40 before its third job.
const BROKEN: &[u8] = b"version = 2
transition = [{ name = 'cut' }, { name = 'drill' }, { name = 'paint' }]
place = [
    { name = 'cut_free', from = 'cut', to = 'cut', hold = 4, tokens = 1 },
    { name = 'drill_free', from = 'drill', to = 'drill', hold = 7, tokens = 1 },
    { name = 'paint_free', from = 'paint', to = 'paint', hold = 5, tokens = 1 },
    { name = 'to_drill', from = 'cut', to = 'drill', hold = 5 },
    { name = 'to_paint', from = 'drill', to = 'paint', hold = 8 },
    { name = 'drill_room', from = 'drill', to = 'cut', tokens = 2 },
    { name = 'paint_room', from = 'paint', to = 'drill', tokens = 2 },
    { name = 'drill_down', from = 'drill', to = 'drill', tokens = 3, ready = [0, 0, 40] },
]
";

// The dates of a text, row after row; a word that is no number is never.
fn dates_of(alloc: Global, text: &str) -> Result<Vec<Date>, Fail> {
    let mut dates = Vec::new(alloc);
    for word in text.split_whitespace() {
        dates.push(match word.parse::<i128>() {
            Ok(date) => Date::At(date),
            Err(_) => Date::Never,
        })?;
    }
    Ok(dates)
}

// A net, what is due in it, a number, dates of so many numbers, and whether these are the latest
// ones, and a plan.
type Latest<'a> = (&'a [u8], &'a [u8], u32, &'a str, bool, bool);

const DUE: &[u8] = b"ship,2,40\ndrill,3,36\n";

const LATEST: [Latest<'static>; 8] = [
    (
        SHOP,
        DUE,
        3,
        "15 17 22 40  22 24 29 40  29 31 36 never",
        true,
        true,
    ),
    (
        SHOP,
        DUE,
        2,
        "15 17 22 40  22 24 29 40  29 31 36 never",
        false,
        false,
    ),
    (
        SHOP,
        DUE,
        3,
        "14 17 22 40  22 24 29 40  29 31 36 never",
        false,
        false,
    ),
    (
        SHOP,
        DUE,
        3,
        "15 17 22 40  22 24 29 40  29 32 36 never",
        false,
        false,
    ),
    // latest dates that no inputs keep, or some: only their starts tell
    (
        BROKEN,
        b"paint,3,45\n",
        3,
        "18 23 35  25 30 40  32 37 45",
        true,
        false,
    ),
    (
        BROKEN,
        b"paint,3,48\n",
        3,
        "21 26 38  28 33 43  35 40 48",
        true,
        true,
    ),
    (
        SHOP,
        b"ship,2,25\ndrill,3,21\n",
        3,
        "0 2 7 25  7 9 14 25  14 16 21 never",
        true,
        true,
    ),
    (
        SHOP,
        b"ship,2,24\ndrill,3,20\n",
        3,
        "-1 1 6 24  6 8 13 24  13 15 20 never",
        true,
        false,
    ),
];

// Whether the dates are the latest ones, and whether they are a plan, as the row says.
fn are_latest(
    alloc: Global,
    net: &Net,
    due: &Due,
    dates: &[Date],
    row: &Latest<'_>,
) -> Result<bool, OutOfMemory>
    requires { IsDueOf net.now due.now.rows.items }
{
    let (_, _, numbers, _, is_latest, is_plan) = *row;
    Ok(
        check_latest(alloc, net, due, numbers, dates)? == is_latest
            && check_plan(alloc, net, due, numbers, dates)? == is_plan,
    )
}

// The same of the dates of the row's text.
fn is_latest_text(alloc: Global, net: &Net, due: &Due, row: &Latest<'_>) -> Result<bool, Fail>
    requires { IsDueOf net.now due.now.rows.items }
{
    let dates = dates_of(alloc, row.3)?;
    let are_latest = are_latest(alloc, net, due, &dates, row);
    Ok(are_latest?)
}

// The same of what is due in the net.
fn is_latest(alloc: Global, net: &Net, row: &Latest<'_>) -> Result<bool, Fail> {
    let due = due_rows(alloc, net, row.1)?;
    is_latest_text(alloc, net, &due, row)
}

#[test]
fn latest_dates_and_plans_are_checked(rt: HostRuntime) -> Result<(), Fail> {
    for row in &LATEST {
        let (file, _, _, text, _, _) = *row;
        let is_so = ask_net(rt.alloc(), file, |alloc, net| is_latest(alloc, net, row))?;
        assert!(rt; is_so, "{text}");
    }
    Ok(())
}

// A net, the number after which its dates go on, by which period, their rows up to there, the step
// of the last transition, and whether the rows show so, and that neither can be less.
type Settled<'a> = (&'a [u8], u64, u64, &'a str, &'a [i128], bool, bool);

// The rows of the kanban line of the guide.
const GOING_ON: &str = "0 4 10  4 10 16  8 16 22  12 22 28  16 28 34  22 34 40  28 40 46  34 46 52";

// The rows of the loop, which go on by 5 from the first number on.
const ROUNDS: &str = "0 3  5 8  10 13  15 18  20 23";

const SETTLED: [Settled<'static>; 8] = [
    (KANBAN, 4, 1, GOING_ON, &[6, 6, 6], true, true),
    (KANBAN, 3, 1, GOING_ON, &[6, 6, 6], false, false),
    (KANBAN, 4, 1, GOING_ON, &[6, 6, 7], false, false),
    (
        KANBAN,
        4,
        1,
        "0 4 10  4 10 16  8 16 22  12 22 28  16 28 34  22 34 40  28 40 46  34 46 53",
        &[6, 6, 6],
        false,
        false,
    ),
    (LOOP, 0, 1, ROUNDS, &[5, 5], true, true),
    (LOOP, 1, 1, ROUNDS, &[5, 5], true, false),
    (LOOP, 0, 2, ROUNDS, &[10, 10], true, false),
    (LOOP, 0, 1, ROUNDS, &[6, 6], false, false),
];

// Whether the rows show how the dates of the net go on, and that neither number can be less, as the
// row says.
fn are_shown(
    alloc: Global,
    net: &Net,
    dates: &[Date],
    row: &Settled<'_>,
) -> Result<bool, OutOfMemory> {
    let (_, after, period, _, steps, is_settled, is_shortest) = *row;
    Ok(
        check_settled(alloc, net, after, period, dates, steps)? == is_settled
            && check_shortest(alloc, net, after, period, dates, steps)? == is_shortest,
    )
}

// The same of the rows of its text.
fn is_settled(alloc: Global, net: &Net, row: &Settled<'_>) -> Result<bool, Fail> {
    let dates = dates_of(alloc, row.3)?;
    let are_shown = are_shown(alloc, net, &dates, row);
    Ok(are_shown?)
}

#[test]
fn settled_and_shortest_rows_are_checked(rt: HostRuntime) -> Result<(), Fail> {
    for row in &SETTLED {
        let (file, _, _, text, _, _, _) = *row;
        let is_so = ask_net(rt.alloc(), file, |alloc, net| is_settled(alloc, net, row))?;
        assert!(rt; is_so, "{text}");
    }
    Ok(())
}
