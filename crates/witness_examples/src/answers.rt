//! Lists of dates, one date, numbers that rise, nets without a circuit, and slack.
use answer_check::{
    ShownDate, refutes_date, refutes_list, shown_date, shown_list, shown_no_circuit, shown_slack,
};
use dioid::Date;
use example_nets::{KANBAN, tells_all};
use std::alloc::Global;
use std::test::Fail;
use teg_net::{Net, OutOfMemory, TransitionId};
use witness_check::rising_numbers;

const LOOSE: &[u8] = b"transition = [{ name = \"a\" }, { name = \"b\" }, { name = \"c\" }]
place = [
 { name = \"own\", from = \"a\", to = \"a\", hold = 3, tokens = 2 },
 { name = \"there\", from = \"a\", to = \"b\", hold = 1 },
 { name = \"back\", from = \"b\", to = \"a\", hold = 1, tokens = 3 },
 { name = \"out\", from = \"b\", to = \"c\", hold = 5 },
]
";

const PLAIN: &[u8] = b"transition = [{ name = \"a\" }, { name = \"b\" }, { name = \"c\" }]
place = [
 { name = \"bc\", from = \"b\", to = \"c\", hold = 5, tokens = 1 },
 { name = \"ab\", from = \"a\", to = \"b\", hold = 1 },
 { name = \"ac\", from = \"a\", to = \"c\", hold = 1, tokens = 3 },
]
";

const DEAD: &[u8] = b"transition = [{ name = \"a\" }, { name = \"b\" }]
place = [
 { name = \"ab\", from = \"a\", to = \"b\" },
 { name = \"ba\", from = \"b\", to = \"a\" },
]
";

// Nets, texts of lists, how many firings these show, and which row of them is wrong.
const LISTS: [(&[u8], &str, (Option<u32>, Option<u32>)); 11] = [
    (
        KANBAN,
        "dates of 3 firings\ntransition m1 m2 m3\n1 0 4 10\n2 4 10 16\n3 8 16 22\n",
        (Some(3), None),
    ),
    (
        KANBAN,
        "dates of 0 firings\ntransition m1 m2 m3\n",
        (Some(0), None),
    ),
    (
        KANBAN,
        "dates of 2 firings\ntransition m1 m2 m3\n1 0 4 10\n2 4 10 17\n",
        (None, Some(2)),
    ),
    (
        KANBAN,
        "dates of 3 firings\ntransition m1 m2 m3\n1 0 4 10\n2 4 never 16\n3 8 -16 22\n",
        (None, Some(2)),
    ),
    // words that are no dates, or not as dates are printed
    (
        KANBAN,
        "dates of 2 firings\ntransition m1 m2 m3\n1 0 x 10\n2 4 10 16\n",
        (None, Some(1)),
    ),
    (
        KANBAN,
        "dates of 2 firings\ntransition m1 m2 m3\n1 0 4 10\n2 04 10 16\n",
        (None, Some(2)),
    ),
    // a number past all dates
    (
        KANBAN,
        "dates of 1 firings\ntransition m1 m2 m3\n1 0 4 999999999999999999999999999999999999999999\n",
        (None, Some(1)),
    ),
    // texts that are no lists: another number, other names, a date too few
    (
        KANBAN,
        "dates of 2 firings\ntransition m1 m2 m3\n1 0 4 10\n3 4 10 16\n",
        (None, None),
    ),
    (
        KANBAN,
        "dates of 1 firings\ntransition m1 m3 m2\n1 0 4 11\n",
        (None, None),
    ),
    (
        KANBAN,
        "dates of 1 firings\ntransition m1 m2 m3\n1 0 4\n",
        (None, None),
    ),
    (
        DEAD,
        "dates of 1 firings\ntransition a b\n1 5 5\n",
        (None, None),
    ),
];

// The list of two firings of the kanban line.
const LIST: &str = "dates of 2 firings\ntransition m1 m2 m3\n1 0 4 10\n2 4 10 16\n";

// That the second firing of m3 is at 16.
const SECOND: ShownDate = ShownDate {
    transition: TransitionId { index: 2 },
    number: 2,
    date: Date::At(16),
};

// Texts of dates, which date each shows of the kanban line with that list, and whether it is another.
const DATES: [(&[u8], &str, (Option<ShownDate>, bool)); 5] = [
    (KANBAN, "date m3 2 16\n", (Some(SECOND), false)),
    (KANBAN, "date m3 2 17\n", (None, true)),
    (KANBAN, "date m3 2 soon\n", (None, true)),
    // a number past the list, and no transition
    (KANBAN, "date m3 3 22\n", (None, false)),
    (KANBAN, "date m9 2 16\n", (None, false)),
];

// How many firings the text of a list shows, and which row of it is wrong.
fn list(alloc: Global, net: &Net, text: &str) -> Result<(Option<u32>, Option<u32>), OutOfMemory> {
    let firings = shown_list(alloc, net, text)?;
    Ok((firings, refutes_list(alloc, net, text)?))
}

// The date that the text shows with the list of two firings, and whether it tells another.
fn date(alloc: Global, net: &Net, text: &str) -> Result<(Option<ShownDate>, bool), OutOfMemory> {
    let shown = shown_date(alloc, net, LIST, text)?;
    Ok((shown, refutes_date(alloc, net, LIST, text)?))
}

#[test]
fn lists_and_dates_are_shown(rt: HostRuntime) -> Result<(), Fail> {
    tells_all(rt.alloc(), &LISTS, &list)?;
    tells_all(rt.alloc(), &DATES, &date)
}

// The numbers of three transitions.
type Three = (Option<u32>, Option<u32>, Option<u32>);

// Nets, which places count, and the numbers that rise along these.
const RISING: [(&[u8], &str, Option<Three>); 5] = [
    (PLAIN, "each", Some((Some(0), Some(1), Some(2)))),
    (PLAIN, "without tokens", Some((Some(0), Some(1), Some(0)))),
    (KANBAN, "each", None),
    (KANBAN, "without tokens", Some((Some(0), Some(1), Some(2)))),
    (DEAD, "without tokens", None),
];

// The numbers that are found to rise; none where a circuit is in the way.
fn rise(alloc: Global, net: &Net, places: &str) -> Result<Option<Three>, OutOfMemory> {
    Ok(match rising_numbers(alloc, net, places == "each")? {
        Some(numbers) => Some((
            numbers.get(0).copied(),
            numbers.get(1).copied(),
            numbers.get(2).copied(),
        )),
        None => None,
    })
}

// Nets, texts, and whether these show that the net has no circuit.
const NO_CIRCUITS: [(&[u8], &str, bool); 3] = [
    (PLAIN, "no circuit\n", true),
    (PLAIN, "no circuit\nno circuit\n", false),
    (LOOSE, "no circuit\n", false),
];

// Nets, texts of slacks, and the time and the tokens of the ratio that these show.
const SLACKS: [(&[u8], &str, Option<(u64, u64)>); 5] = [
    (
        KANBAN,
        "cycle time 6/1
place s1 slack 2
place s2 critical
place s3 slack 1
place f12 slack 8
place f23 slack 6
place c21 slack 8
place c32 slack 6
",
        Some((6, 1)),
    ),
    (
        LOOSE,
        "cycle time 3/2
place own critical
place there slack 2
place back slack 2
place out no circuit
",
        Some((3, 2)),
    ),
    // a slack less, one more, and another pace
    (
        LOOSE,
        "cycle time 3/2
place own critical
place there slack 1
place back slack 2
place out no circuit
",
        None,
    ),
    (
        LOOSE,
        "cycle time 3/2
place own critical
place there slack 3
place back slack 2
place out no circuit
",
        None,
    ),
    (
        LOOSE,
        "cycle time 2/1
place own critical
place there slack 4
place back slack 4
place out no circuit
",
        None,
    ),
];

// Whether the text shows that the net has no circuit.
fn no_circuit(alloc: Global, net: &Net, text: &str) -> Result<bool, OutOfMemory> {
    shown_no_circuit(alloc, net, text)
}

// The time and the tokens of the ratio that the text of slacks shows.
fn pace(alloc: Global, net: &Net, text: &str) -> Result<Option<(u64, u64)>, OutOfMemory> {
    Ok(match shown_slack(alloc, net, text)? {
        Some(ratio) => Some((ratio.time(), ratio.tokens())),
        None => None,
    })
}

#[test]
fn nets_without_a_circuit_and_slacks_are_shown(rt: HostRuntime) -> Result<(), Fail> {
    tells_all(rt.alloc(), &RISING, &rise)?;
    tells_all(rt.alloc(), &NO_CIRCUITS, &no_circuit)?;
    tells_all(rt.alloc(), &SLACKS, &pace)
}
