//! Texts of bounds.
use bound_check::{refutes_bound, shown_bound};
use example_nets::{KANBAN, LOOP, SHOP, tells_all};
use std::alloc::Global;
use std::test::Fail;
use teg_net::{Net, OutOfMemory};

// A line with two trains, of which each waits for the other: the dates repeat in periods of 3.
const TRAINS: &[u8] = b"transition = [{ name = \"a\" }, { name = \"b\" }]
place = [
 { name = \"out\", from = \"a\", to = \"b\", hold = 24, tokens = 1 },
 { name = \"back\", from = \"b\", to = \"a\", hold = 25, tokens = 2 },
 { name = \"free\", from = \"a\", to = \"a\", hold = 2, tokens = 1 },
]
";

const STILL: &[u8] = b"transition = [{ name = \"a\" }, { name = \"b\" }]
place = [{ name = \"out\", from = \"a\", to = \"b\", tokens = 1 }, { name = \"back\", from = \"b\", to = \"a\" }]
";

const BARE: &[u8] = b"transition = [{ name = \"a\" }]
";

const WAITS: &[u8] = b"transition = [{ name = \"a\" }]
place = [{ name = \"own\", from = \"a\", to = \"a\", hold = 3, tokens = 1, ready = [2] }]
";

const APART: &[u8] = b"transition = [{ name = \"a\" }, { name = \"b\" }]
place = [
 { name = \"own\", from = \"a\", to = \"a\", hold = 3, tokens = 1 },
 { name = \"out\", from = \"a\", to = \"b\", hold = 3 },
]
";

// A net that is not live.
const DEAD: &[u8] = b"transition = [{ name = \"a\" }]
place = [{ name = \"own\", from = \"a\", to = \"a\", hold = 3 }]
";

// What is found of a text.
#[derive(Clone, Copy, PartialEq, Eq)]
enum Verdict {
    Shown,
    Refuted,
    Nothing,
}

// Nets, texts, and what is found of these.
const TEXTS: [(&[u8], &str, Verdict); 26] = [
    (
        KANBAN,
        "bound 437\nsettled after 4 period 1\n",
        Verdict::Shown,
    ),
    (LOOP, "bound 38\nsettled after 0 period 1\n", Verdict::Shown),
    (
        TRAINS,
        "bound 1479\nsettled after 0 period 3\n",
        Verdict::Shown,
    ),
    (STILL, "bound 0\nsettled after 0 period 1\n", Verdict::Shown),
    (SHOP, "no bound: has inputs\n", Verdict::Shown),
    (BARE, "no bound: no place\n", Verdict::Shown),
    (APART, "no bound: not strongly connected\n", Verdict::Shown),
    (WAITS, "no bound: ready dates\n", Verdict::Shown),
    // another number, in each place
    (
        KANBAN,
        "bound 436\nsettled after 4 period 1\n",
        Verdict::Nothing,
    ),
    (
        KANBAN,
        "bound 437\nsettled after 5 period 1\n",
        Verdict::Nothing,
    ),
    (
        KANBAN,
        "bound 437\nsettled after 3 period 1\n",
        Verdict::Nothing,
    ),
    (
        KANBAN,
        "bound 437\nsettled after 4 period 2\n",
        Verdict::Nothing,
    ),
    (
        TRAINS,
        "bound 1479\nsettled after 0 period 1\n",
        Verdict::Nothing,
    ),
    (
        STILL,
        "bound 1\nsettled after 0 period 1\n",
        Verdict::Nothing,
    ),
    // more rows than are found
    (
        KANBAN,
        "bound 437\nsettled after 99998 period 1\n",
        Verdict::Nothing,
    ),
    // a line less, a line more, and a word
    (KANBAN, "bound 437\n", Verdict::Nothing),
    (
        KANBAN,
        "bound 437\nsettled after 4 period 1\n\n",
        Verdict::Nothing,
    ),
    (
        KANBAN,
        "bound +437\nsettled after 4 period 1\n",
        Verdict::Nothing,
    ),
    // a cause that is not there, and a number where there is a cause
    (KANBAN, "no bound: ready dates\n", Verdict::Refuted),
    (SHOP, "no bound: not strongly connected\n", Verdict::Refuted),
    (BARE, "no bound: not strongly connected\n", Verdict::Refuted),
    (
        WAITS,
        "bound 4\nsettled after 0 period 1\n",
        Verdict::Refuted,
    ),
    (APART, "no bound: has inputs\n", Verdict::Refuted),
    (SHOP, "no bound: has inputs", Verdict::Refuted),
    // no net that runs
    (
        DEAD,
        "bound 1\nsettled after 0 period 1\n",
        Verdict::Nothing,
    ),
    (DEAD, "no bound: has inputs\n", Verdict::Nothing),
];

// What is found of the text.
fn verdict_of(alloc: Global, net: &Net, text: &str) -> Result<Verdict, OutOfMemory> {
    if shown_bound(alloc, net, text)?.is_some() {
        Ok(Verdict::Shown)
    } else if refutes_bound(alloc, net, text)? {
        Ok(Verdict::Refuted)
    } else {
        Ok(Verdict::Nothing)
    }
}

#[test]
fn bounds_are_shown(rt: HostRuntime) -> Result<(), Fail> {
    tells_all(rt.alloc(), &TEXTS, &verdict_of)
}
