//! The first row that comes late.
use dating_check::shown_first_late;
use example_nets::{SHOP, ask_net, due_rows};
use std::alloc::Global;
use std::test::Fail;
use teg_due::Due;
use teg_net::{Net, OutOfMemory};

const LATE: &str = "late ship 2 due 20 least 22
path material 1 by feed saw 1 by to_drill drill 1 by drill_free drill 2 by to_ship ship 2
";

// A walk that does not lead to the firing as late as it comes.
const SOONER: &str = "late ship 2 due 10 least 15
path drill 1 by drill_free drill 2 by to_ship ship 2
";

// Due dates, texts, and the least date that these show.
const TEXTS: [(&str, &str, Option<u128>); 4] = [
    ("ship,1,15\nship,2,20\n", LATE, Some(22)),
    // An earlier row comes late too, or the row is not due then.
    ("ship,1,3\nship,2,20\n", LATE, None),
    ("ship,2,21\n", LATE, None),
    ("ship,2,10\n", SOONER, None),
];

// The least date that the text shows of the shop with these due dates.
fn least(alloc: Global, shop: &Net, due: &Due, text: &str) -> Result<Option<u128>, OutOfMemory> {
    Ok(match shown_first_late(alloc, shop, due, text)? {
        Some(late) => Some(late.least),
        None => None,
    })
}

// Whether all texts show so of the shop; otherwise the due dates of the first that does not.
fn are_so(alloc: Global, shop: &Net) -> Result<(), Fail> {
    for (file, text, wanted) in &TEXTS {
        let due = due_rows(alloc, shop, file.as_bytes())?;
        let least = least(alloc, shop, &due, text);
        if least? != *wanted {
            return Err(Fail::new(*file));
        }
    }
    Ok(())
}

#[test]
fn late_rows_are_shown(rt: HostRuntime) -> Result<(), Fail> {
    ask_net(rt.alloc(), SHOP, are_so)
}
