//! Releases without end that are shown to meet what is due, and to be the latest that do; and firings
//! that are shown to come late, the first of its row by `least_late` of `endless_laws`.
use endless_due::{EndlessRow, read_endless};
use example_nets::{SHOP, ask_net};
use forever_check::{shown_endless_late, shown_forever, shown_met};
use std::alloc::Global;
use std::test::Fail;
use teg_net::Net;

// Two parts are due every 15, and a part every 7.
const ORDERS: &str = "ship,2,15,30,35\n";

const STEADY: &str = "ship,1,7,30\n";

// A part is due at 30, one at 31, and then one every 9.
const LATER: &str = "ship,1,9,30,31,40\n";

// Due dates, what is told of the input, whether that is shown to meet them, and whether to be the
// latest that does.
const TEXTS: [(&str, &str, bool, bool); 13] = [
    (
        ORDERS,
        "input material 13 20 period 2 step 15\n",
        true,
        true,
    ),
    (STEADY, "input material 15 period 1 step 7\n", true, true),
    (LATER, "input material 9 16 period 1 step 9\n", true, true),
    // Sooner ones meet them too, and so does another form of the same, which is not the shortest.
    (
        ORDERS,
        "input material 13 19 period 2 step 15\n",
        true,
        false,
    ),
    (STEADY, "input material 15 period 1 step 6\n", true, false),
    (LATER, "input material 8 16 period 1 step 9\n", true, false),
    (
        ORDERS,
        "input material 13 20 28 35 period 2 step 15\n",
        true,
        false,
    ),
    // Later ones do not: the first, or some that are far off.
    (
        ORDERS,
        "input material 14 20 period 2 step 15\n",
        false,
        false,
    ),
    (
        LATER,
        "input material 10 16 period 1 step 9\n",
        false,
        false,
    ),
    (STEADY, "input material 0 period 1 step 8\n", false, false),
    // Nor does an input that never fires, or one that is not told.
    (ORDERS, "input material free\n", false, false),
    (ORDERS, "", false, false),
    // The text is looked at as it is written.
    (
        ORDERS,
        "input material 13 20 period 2 step 15",
        false,
        false,
    ),
];

// A part is due every 6, one sooner than the drill gives it.
const RUSH: &str = "ship,1,6,30\n";

// The first is due late enough for 10^12 parts.
const FAR: &str = "ship,1,6,1000000000000\n";

// Of two rows the first is never late, or the second would be sooner.
const SECOND: &str = "drill,1,7,30\nship,1,6,30\n";

const FIRST: &str = "ship,1,6,30\ndrill,1,6,8\n";

// Due dates, the text of a firing that comes late, and whether it is shown to be the first.
const LATE: [(&str, &str, bool); 18] = [
    (RUSH, "late ship 17 due 126 least 127\n", true),
    (SECOND, "late ship 17 due 126 least 127\n", true),
    (FIRST, "late ship 17 due 126 least 127\n", true),
    (
        FAR,
        "late ship 999999999987 due 6999999999916 least 6999999999917\n",
        true,
    ),
    ("ship,2,14,9,16\n", "late ship 1 due 9 least 15\n", true),
    // A firing that is late, and not the first of its row or its row not the first that has one.
    (RUSH, "late ship 18 due 132 least 134\n", false),
    (
        FAR,
        "late ship 999999999988 due 6999999999922 least 6999999999924\n",
        false,
    ),
    ("ship,2,14,9,16\n", "late ship 2 due 16 least 22\n", false),
    (FIRST, "late drill 3 due 20 least 21\n", false),
    // One that comes just when it is due, or is never due.
    (RUSH, "late ship 16 due 120 least 120\n", false),
    (RUSH, "late drill 17 due 126 least 127\n", false),
    (STEADY, "late ship 17 due 142 least 127\n", false),
    // Other dates, and other words.
    (RUSH, "late ship 17 due 125 least 127\n", false),
    (RUSH, "late ship 17 due 126 least 128\n", false),
    (RUSH, "late ship 17 due 126 least 0127\n", false),
    (RUSH, "late ship 17 due 126 before 127\n", false),
    (RUSH, "late ship 17 due 126 least 127", false),
    (RUSH, "late ship 17 due 126 least 127\nno more\n", false),
];

// The rows of a file of due dates without end.
fn rows_of(alloc: Global, net: &Net, file: &str) -> Result<Vec<EndlessRow>, Fail> {
    if file.len() > 4_194_304 {
        return Err(Fail::new("a file that is too long"));
    }
    match read_endless(alloc, net, file.as_bytes()) {
        Ok(rows) => Ok(rows),
        Err(_) => Err(Fail::new(file)),
    }
}

// Whether all texts show so of the shop; otherwise the line of the first that does not.
fn are_met(alloc: Global, shop: &Net) -> Result<(), Fail> {
    for (file, line, meets, latest) in &TEXTS {
        let rows = rows_of(alloc, shop, file)?;
        let text = format!(in alloc; "latest inputs forever\n{line}")?;
        if shown_met(alloc, shop, &rows, text.as_str())? != *meets {
            return Err(Fail::new(*line));
        }
        if shown_forever(alloc, shop, &rows, text.as_str())? != *latest {
            return Err(Fail::new(*line));
        }
    }
    Ok(())
}

#[test]
fn releases_are_shown_to_meet(rt: HostRuntime) -> Result<(), Fail> {
    ask_net(rt.alloc(), SHOP, are_met)
}

// Whether each text shows so of the shop what is late; otherwise the line of the first that does not.
fn are_late(alloc: Global, shop: &Net) -> Result<(), Fail> {
    for (file, line, shown) in &LATE {
        let rows = rows_of(alloc, shop, file)?;
        if shown_endless_late(alloc, shop, &rows, *line)? != *shown {
            return Err(Fail::new(*line));
        }
    }
    Ok(())
}

#[test]
fn late_firings_are_shown(rt: HostRuntime) -> Result<(), Fail> {
    ask_net(rt.alloc(), SHOP, are_late)
}
