//! Texts of settled dates.
use example_nets::{KANBAN, tells_all};
use settled_check::shown_settled;
use std::alloc::Global;
use std::test::Fail;
use teg_net::{Net, OutOfMemory};

const TRAINS: &[u8] =
    b"transition = [{ name = \"North\" }, { name = \"Centre>North\" }, { name = \"Centre>South\" }, { name = \"South\" }]
place = [
 { name = \"north_down\", from = \"North\", to = \"Centre>North\", hold = 24, tokens = 1 },
 { name = \"north_up\", from = \"Centre>North\", to = \"North\", hold = 24, tokens = 1 },
 { name = \"south_down\", from = \"Centre>South\", to = \"South\", hold = 15 },
 { name = \"south_up\", from = \"South\", to = \"Centre>South\", hold = 15, tokens = 2 },
 { name = \"change_to_south\", from = \"North\", to = \"Centre>South\", hold = 25, tokens = 1 },
 { name = \"change_to_north\", from = \"South\", to = \"Centre>North\", hold = 16, tokens = 1 },
]
";

const ENDS: &[u8] = b"transition = [{ name = \"feed\", role = \"input\" }, { name = \"saw\" }]
input = [{ transition = \"feed\", dates = [0, 3] }]
place = [{ name = \"to_saw\", from = \"feed\", to = \"saw\", hold = 2 }]
";

// Nets, texts, and the number and the period that these show.
const TEXTS: [(&[u8], &str, Option<(u64, u64)>); 12] = [
    (
        KANBAN,
        "settled after 4 period 1
transition m1 0 4 8 12 16 step 6
transition m2 4 10 16 22 28 step 6
transition m3 10 16 22 28 34 step 6
",
        Some((4, 1)),
    ),
    // a date, a step and a number changed, a line less, and another name
    (
        KANBAN,
        "settled after 4 period 1
transition m1 0 4 8 12 16 step 6
transition m2 4 10 17 22 28 step 6
transition m3 10 16 22 28 34 step 6
",
        None,
    ),
    (
        KANBAN,
        "settled after 4 period 1
transition m1 0 4 8 12 16 step 6
transition m2 4 10 16 22 28 step 6
transition m3 10 16 22 28 34 step 7
",
        None,
    ),
    (
        KANBAN,
        "settled after 3 period 1
transition m1 0 4 8 12 step 6
transition m2 4 10 16 22 step 6
transition m3 10 16 22 28 step 6
",
        None,
    ),
    (
        KANBAN,
        "settled after 4 period 1
transition m1 0 4 8 12 16 step 6
transition m2 4 10 16 22 28 step 6
",
        None,
    ),
    (
        KANBAN,
        "settled after 4 period 1
transition m1 0 4 8 12 16 step 6
transition m3 4 10 16 22 28 step 6
transition m3 10 16 22 28 34 step 6
",
        None,
    ),
    (
        TRAINS,
        "settled after 0 period 3
transition North 0 24 55 step 80
transition Centre>North 0 31 56 step 80
transition Centre>South 0 25 49 step 80
transition South 15 40 64 step 80
",
        Some((0, 3)),
    ),
    (
        TRAINS,
        "settled after 0 period 3
transition North 0 24 55 step 80
transition Centre>North 0 31 56 step 80
transition Centre>South 0 25 49 step 80
transition South 15 40 65 step 80
",
        None,
    ),
    // numbers or periods that are not the least
    (
        KANBAN,
        "settled after 5 period 1
transition m1 0 4 8 12 16 22 step 6
transition m2 4 10 16 22 28 34 step 6
transition m3 10 16 22 28 34 40 step 6
",
        None,
    ),
    (
        KANBAN,
        "settled after 4 period 2
transition m1 0 4 8 12 16 22 step 12
transition m2 4 10 16 22 28 34 step 12
transition m3 10 16 22 28 34 40 step 12
",
        None,
    ),
    (
        ENDS,
        "settled after 2 period 1
transition feed 0 3 never step 0
transition saw 2 5 never step 0
",
        Some((2, 1)),
    ),
    (
        ENDS,
        "settled after 2 period 1
transition feed 0 3 never step 0
transition saw 2 5 8 step 0
",
        None,
    ),
];

// The number and the period that the text shows.
fn form(alloc: Global, net: &Net, text: &str) -> Result<Option<(u64, u64)>, OutOfMemory> {
    Ok(match shown_settled(alloc, net, text)? {
        Some(shown) => Some((shown.after, shown.period)),
        None => None,
    })
}

#[test]
fn dates_are_shown(rt: HostRuntime) -> Result<(), Fail> {
    tells_all(rt.alloc(), &TEXTS, &form)
}
