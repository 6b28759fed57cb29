//! The table of latest dates.
use dating_check::{TableFault, shown_table, table_fault};
use example_nets::{SHOP, ask_net, due_rows};
use std::alloc::Global;
use std::test::Fail;
use teg_due::Due;
use teg_net::{Net, OutOfMemory, TransitionId};

// What `jit` tells of the shop where the second part is due to be shipped at 40.
pub(crate) const PLAN: &str = "latest inputs for 3 firings
input material 1 15 by feed
input material 2 22 by feed
input material 3 29 by feed
latest saw 1 17 by to_drill
latest saw 2 24 by to_drill
latest saw 3 31 by to_drill
latest drill 1 22 by drill_free
latest drill 2 29 by drill_free
latest drill 3 36 due
latest ship 1 40 next
latest ship 2 40 due
latest ship 3 free
";

// Due dates, a text, the number that it shows, and what is false in it.
type Table<'a> = (&'a str, &'a str, Option<u32>, Option<TableFault>);

// That the line of the first firing of material is false, which is the first line.
const MATERIAL: TableFault = TableFault::Line {
    transition: TransitionId { index: 0 },
    number: 1,
    line: 1,
};

// That the line of the first firing of the saw is, of a table of first firings.
const SAW: TableFault = TableFault::Line {
    transition: TransitionId { index: 1 },
    number: 1,
    line: 2,
};

// That the line of its third firing is, of a table of three firings.
const THIRD_SAW: TableFault = TableFault::Line {
    transition: TransitionId { index: 1 },
    number: 3,
    line: 6,
};

const TABLES: [Table<'static>; 13] = [
    ("ship,2,40\ndrill,3,36\n", PLAN, Some(3), None),
    ("ship,2,40\ndrill,3,37\n", PLAN, None, Some(MATERIAL)),
    (
        "ship,2,40\ndrill,3,36\nship,4,90\n",
        PLAN,
        None,
        Some(TableFault::OtherNumbers),
    ),
    ("", PLAN, None, Some(TableFault::OtherNumbers)),
    (
        "ship,2,40\ndrill,3,36\n",
        "latest inputs for 3 firings
input material 1 15 by feed
input material 2 22 by feed
input material 3 29 by feed
latest saw 1 17 by to_drill
latest saw 2 24 by to_drill
latest saw 3 30 by to_drill
latest drill 1 22 by drill_free
latest drill 2 29 by drill_free
latest drill 3 35 due
latest ship 1 40 next
latest ship 2 40 due
latest ship 3 free
",
        None,
        Some(THIRD_SAW),
    ),
    // what no inputs keep shows nothing, and no table with another step, date or role
    (
        "ship,1,15\n",
        "latest inputs for 1 firings
input material 1 0 by feed
latest saw 1 2 by to_drill
latest drill 1 7 by to_ship
latest ship 1 15 due
",
        Some(1),
        None,
    ),
    (
        "ship,1,14\n",
        "latest inputs for 1 firings
input material 1 -1 by feed
latest saw 1 1 by to_drill
latest drill 1 6 by to_ship
latest ship 1 14 due
",
        None,
        Some(TableFault::Late),
    ),
    (
        "ship,1,15\n",
        "latest inputs for 1 firings
input material 1 0 by feed
latest saw 1 1 by to_drill
latest drill 1 7 by to_ship
latest ship 1 15 due
",
        None,
        Some(SAW),
    ),
    (
        "ship,1,15\n",
        "latest inputs for 1 firings
input material 1 0
latest saw 1
latest drill 1 soon
latest ship 1 15 due
",
        None,
        Some(SAW),
    ),
    (
        "ship,1,15\n",
        "latest inputs for 1 firings
input material 1 free
latest saw 1 2 by to_drill
latest drill 1 7 by to_ship
latest ship 1 15 due
",
        None,
        Some(MATERIAL),
    ),
    (
        "ship,1,15\n",
        "latest inputs for 1 firings
latest saw 1 1 by to_drill
input material 1 0 by feed
latest drill 1 7 by to_ship
latest ship 1 15 due
",
        None,
        None,
    ),
    (
        "ship,1,15\n",
        "latest inputs for 1 firings
input material 1 0 by feed
latest saw 1 2 by to_drill
latest drill 1 7 next
latest ship 1 15 due
",
        None,
        None,
    ),
    (
        "ship,1,15\n",
        "latest inputs for 1 firings
latest material 1 0 by feed
latest saw 1 2 by to_drill
latest drill 1 7 by to_ship
latest ship 1 15 due
",
        None,
        None,
    ),
];

// Whether the text of a row shows so of the shop with these due dates.
fn is_so(alloc: Global, shop: &Net, due: &Due, row: &Table<'_>) -> Result<bool, OutOfMemory> {
    let (_, text, number, fault) = *row;
    Ok(
        shown_table(alloc, shop, due, text)? == number
            && table_fault(alloc, shop, due, text)? == fault,
    )
}

// Whether all do as they say; otherwise the text of the first that does not.
fn are_so(alloc: Global, shop: &Net) -> Result<(), Fail> {
    for row in &TABLES {
        let due = due_rows(alloc, shop, row.0.as_bytes())?;
        let is_so = is_so(alloc, shop, &due, row);
        if !is_so? {
            return Err(Fail::new(row.1));
        }
    }
    Ok(())
}

#[test]
fn tables_are_shown(rt: HostRuntime) -> Result<(), Fail> {
    ask_net(rt.alloc(), SHOP, are_so)
}
