//! Answers of the guide, checked by what they print alone; with one digit changed they show
//! nothing.
use crate::tables::PLAN;
use dating_check::{ShownLatest, shown_late, shown_latest};
use example_nets::{SHOP, ask_net, tells_all};
use late_lines::LateFiring;
use pace_check::{ShownSize, shown_pace, shown_size};
use std::alloc::Global;
use std::test::Fail;
use teg_due::DueRow;
use teg_net::{Net, OutOfMemory, PlaceId, TransitionId};
use witness_check::{shows_deadlock, shows_live};

const LINE: &[u8] = b"transition = [{ name = \"cut\" }, { name = \"drill\" }, { name = \"paint\" }]
place = [
 { name = \"cut_free\", from = \"cut\", to = \"cut\", hold = 4, tokens = 1 },
 { name = \"drill_free\", from = \"drill\", to = \"drill\", hold = 7, tokens = 1 },
 { name = \"paint_free\", from = \"paint\", to = \"paint\", hold = 5, tokens = 1 },
 { name = \"to_drill\", from = \"cut\", to = \"drill\", hold = 5 },
 { name = \"to_paint\", from = \"drill\", to = \"paint\", hold = 8 },
 { name = \"drill_room\", from = \"drill\", to = \"cut\", tokens = 2 },
 { name = \"paint_room\", from = \"paint\", to = \"drill\", tokens = 1 },
]
";

const NO_CARDS: &[u8] = b"transition = [{ name = \"a\" }, { name = \"b\" }]
place = [
 { name = \"parts\", from = \"a\", to = \"b\", hold = 3 },
 { name = \"cards\", from = \"b\", to = \"a\", hold = 1 },
]
";

// The cycle times of the line as they are told.
const PACE: &str = "cycle time 8/1
circuit to_paint paint_room
part 1 ratio 8/1
circuit to_paint paint_room
potential cut -16
potential drill 0
potential paint 8
";

// The same with another cycle time.
const SLOWER: &str = "cycle time 9/1
circuit to_paint paint_room
part 1 ratio 8/1
circuit to_paint paint_room
potential cut -16
potential drill 0
potential paint 8
";

// The same with another potential.
const LIFTED: &str = "cycle time 8/1
circuit to_paint paint_room
part 1 ratio 8/1
circuit to_paint paint_room
potential cut -16
potential drill 1
potential paint 8
";

// The same with a potential that no place exceeds, and that is not the earliest.
const LOOSE: &str = "cycle time 8/1
circuit to_paint paint_room
part 1 ratio 8/1
circuit to_paint paint_room
potential cut -14
potential drill 0
potential paint 8
";

// The same with all potentials later by one.
const MOVED: &str = "cycle time 8/1
circuit to_paint paint_room
part 1 ratio 8/1
circuit to_paint paint_room
potential cut -15
potential drill 1
potential paint 9
";

// The same from the other place of the circuit on.
const TURNED: &str = "cycle time 8/1
circuit paint_room to_paint
part 1 ratio 8/1
circuit paint_room to_paint
potential cut -16
potential drill 0
potential paint 8
";

// Two machines that do not wait for each other, and what is told of them.
const APART: &[u8] = b"transition = [{ name = \"a\" }, { name = \"b\" }, { name = \"c\" }]
place = [
 { name = \"own_a\", from = \"a\", to = \"a\", hold = 3, tokens = 1 },
 { name = \"own_b\", from = \"b\", to = \"b\", hold = 5, tokens = 1 },
 { name = \"bc\", from = \"b\", to = \"c\", hold = 1 },
]
";

const PARTS: &str = "cycle time 5/1
circuit own_b
part 1 ratio 3/1
circuit own_a
potential a 0
part 2 ratio 5/1
circuit own_b
potential b 0
part 3 no circuit
member c
";

// The parts in another order.
const PARTS_TURNED: &str =
    "cycle time 5/1\ncircuit own_b\npart 1 ratio 5/1\ncircuit own_b\npotential b 0
part 2 ratio 3/1\ncircuit own_a\npotential a 0\npart 3 no circuit\nmember c\n";

// One more part, which has no member.
const PARTS_AND_MORE: &str =
    "cycle time 5/1\ncircuit own_b\npart 1 ratio 3/1\ncircuit own_a\npotential a 0
part 2 ratio 5/1\ncircuit own_b\npotential b 0\npart 3 no circuit\nmember c\npart 4 no circuit\n";

// Two parts that are taken as one.
const PARTS_JOINED: &str =
    "cycle time 5/1\ncircuit own_b\npart 1 ratio 5/1\ncircuit own_b\npotential a 0
potential b 0\npart 2 no circuit\nmember c\n";

// Nets, texts, and the cycle time that these show, with its tokens.
const PACES: [(&[u8], &str, Option<(u64, u64)>); 10] = [
    (LINE, PACE, Some((8, 1))),
    (LINE, SLOWER, None),
    (LINE, LIFTED, None),
    (LINE, LOOSE, None),
    (LINE, MOVED, None),
    (LINE, TURNED, None),
    (APART, PARTS, Some((5, 1))),
    (APART, PARTS_TURNED, None),
    (APART, PARTS_AND_MORE, None),
    (APART, PARTS_JOINED, None),
];

// The cycle time that the text shows, and its tokens.
fn pace(alloc: Global, net: &Net, text: &str) -> Result<Option<(u64, u64)>, OutOfMemory> {
    Ok(match shown_pace(alloc, net, text)? {
        Some(ratio) => Some((ratio.time(), ratio.tokens())),
        None => None,
    })
}

#[test]
fn paces_are_shown_by_parts_in_order(rt: HostRuntime) -> Result<(), Fail> {
    tells_all(rt.alloc(), &PACES, &pace)
}

// Nets, texts, and whether these show that the net is live, and that it is not.
const LIVES: [(&[u8], &str, (bool, bool)); 6] = [
    (LINE, "live\ntransitions 3\nplaces 7\n", (true, false)),
    (LINE, "live\ntransitions 3\nplaces 6\n", (false, false)),
    (NO_CARDS, "live\ntransitions 2\nplaces 2\n", (false, false)),
    (
        NO_CARDS,
        "refused: token-free circuit parts cards\n",
        (false, true),
    ),
    // the same circuit, told from its other place on
    (
        NO_CARDS,
        "refused: token-free circuit cards parts\n",
        (false, true),
    ),
    (
        NO_CARDS,
        "refused: token-free circuit parts\n",
        (false, false),
    ),
];

// Whether the text shows that the net is live, and whether that it is not.
fn life(alloc: Global, net: &Net, text: &str) -> Result<(bool, bool), OutOfMemory> {
    let is_live = shows_live(alloc, net, text)?;
    Ok((is_live, shows_deadlock(alloc, net, text)?))
}

#[test]
fn it_is_shown_whether_a_net_is_live(rt: HostRuntime) -> Result<(), Fail> {
    tells_all(rt.alloc(), &LIVES, &life)
}

// A target for `paint_room` of the line, and further tokens that are enough for it, if any are.
type Further = (u64, u64, Option<u64>);

// Texts of sizes of places of the line, and what they show of `paint_room`.
const SIZES: [(&[u8], &str, Option<Further>); 7] = [
    (
        LINE,
        "size paint_room 7/1 extra 1\ncircuit to_paint paint_room\n",
        Some((7, 1, Some(1))),
    ),
    (LINE, "size paint_room 8/1 extra 0\n", Some((8, 1, Some(0)))),
    (
        LINE,
        "size paint_room 6/1 impossible\ncircuit drill_free\n",
        Some((6, 1, None)),
    ),
    // one too many, a target that more tokens reach alone, a circuit to which they come
    (
        LINE,
        "size paint_room 7/1 extra 2\ncircuit to_paint paint_room\n",
        None,
    ),
    (LINE, "size paint_room 7/1 extra 0\n", None),
    // a target that is not in lowest terms
    (LINE, "size paint_room 16/2 extra 0\n", None),
    (
        LINE,
        "size paint_room 6/1 impossible\ncircuit to_paint paint_room\n",
        None,
    ),
];

// What is shown of `paint_room`.
fn further(shown: &ShownSize) -> Option<Further> {
    match shown {
        ShownSize::Enough {
            place,
            target,
            extra,
        } if *place == PlaceId::new(6) => Some((target.time(), target.tokens(), Some(*extra))),
        ShownSize::Impossible { place, target } if *place == PlaceId::new(6) => {
            Some((target.time(), target.tokens(), None))
        }
        _ => None,
    }
}

// What the text shows of it.
fn size(alloc: Global, net: &Net, text: &str) -> Result<Option<Further>, OutOfMemory> {
    Ok(match shown_size(alloc, net, text)? {
        Some(shown) => further(&shown),
        None => None,
    })
}

#[test]
fn sizes_are_shown(rt: HostRuntime) -> Result<(), Fail> {
    tells_all(rt.alloc(), &SIZES, &size)
}

// That the second part is due to be shipped at 40.
const SHIPPED: DueRow = DueRow {
    row: 1,
    transition: TransitionId { index: 3 },
    number: 2,
    date: 40,
};

// That the third part is due to be drilled at 36.
const DRILLED: DueRow = DueRow {
    row: 2,
    transition: TransitionId { index: 2 },
    number: 3,
    date: 36,
};

// That the first part comes in at 15 at the latest.
const MATERIAL: ShownLatest = ShownLatest {
    transition: TransitionId { index: 0 },
    number: 1,
    date: 15,
};

// That the first part is shipped at 40 at the latest.
const SHIP: ShownLatest = ShownLatest {
    transition: TransitionId { index: 3 },
    number: 1,
    date: 40,
};

// What is due, lines, and what these show of the shop by the plan.
const LATEST: [(DueRow, &str, Option<ShownLatest>); 4] = [
    (DRILLED, "input material 1 15 by feed\n", Some(MATERIAL)),
    (DRILLED, "input material 1 14 by feed\n", None),
    (SHIPPED, "input material 1 15 by feed\n", None),
    (SHIPPED, "latest ship 1 40 next\n", Some(SHIP)),
];

// Whether each row of `LATEST` shows so; otherwise the line of the first that does not.
fn are_latest(alloc: Global, shop: &Net) -> Result<(), Fail> {
    for (row, line, wanted) in &LATEST {
        if shown_latest(alloc, shop, row, line, PLAN)? != *wanted {
            return Err(Fail::new(*line));
        }
    }
    Ok(())
}

#[test]
fn latest_dates_are_shown(rt: HostRuntime) -> Result<(), Fail> {
    ask_net(rt.alloc(), SHOP, are_latest)
}

const LATE: &str = "late ship 2 due 20 least 22
path material 1 by feed saw 1 by to_drill drill 1 by drill_free drill 2 by to_ship ship 2
";

// The same with another least date.
const LATER: &str = "late ship 2 due 20 least 23
path material 1 by feed saw 1 by to_drill drill 1 by drill_free drill 2 by to_ship ship 2
";

// That the second part is shipped late.
const SECOND: LateFiring = LateFiring {
    transition: TransitionId { index: 3 },
    number: 2,
    due: 20,
    least: 22,
    start: 0,
};

// The late firing that the text shows.
fn late_firing(alloc: Global, net: &Net, text: &str) -> Result<Option<LateFiring>, OutOfMemory> {
    shown_late(alloc, net, text)
}

#[test]
fn a_late_firing_is_shown(rt: HostRuntime) -> Result<(), Fail> {
    let rows = [(SHOP, LATE, Some(SECOND)), (SHOP, LATER, None)];
    tells_all(rt.alloc(), &rows, &late_firing)
}
