//! Delays that a timetable keeps.
use delay_check::shown_kept;
use delay_laws::{Delay, Timetable};
use example_nets::read;
use std::alloc::{AllocError, Global};
use std::test::Fail;
use teg_net::{Net, OutOfMemory, TransitionId};

pub(crate) const RAILWAY: &[u8] =
    b"transition = [{ name = \"North\" }, { name = \"Centre>North\" }, { name = \"Centre>South\" }, { name = \"South\" }]
place = [
 { name = \"north_down\", from = \"North\", to = \"Centre>North\", hold = 24, tokens = 1 },
 { name = \"north_up\", from = \"Centre>North\", to = \"North\", hold = 24, tokens = 1 },
 { name = \"south_down\", from = \"Centre>South\", to = \"South\", hold = 15 },
 { name = \"south_up\", from = \"South\", to = \"Centre>South\", hold = 15, tokens = 1 },
 { name = \"change_to_south\", from = \"North\", to = \"Centre>South\", hold = 25, tokens = 1 },
 { name = \"change_to_north\", from = \"South\", to = \"Centre>North\", hold = 16, tokens = 1 },
]
";

const KEPT: &str = "settled after 2 period 1
kept
circuit south_down south_up
delays North 10 0 0
delays Centre>North 0 1 3
delays Centre>South 0 5 5
delays South 0 5 5
";

// A period and a delay, a text, and what this shows of the railway.
pub(crate) type Told = (u64, u64, &'static str, Option<u64>);

// The timetable of the railway, with the first train from North late by so much, or on time.
pub(crate) fn table(alloc: Global, by: u64) -> Result<Timetable, AllocError> {
    let mut delays = Vec::new(alloc);
    if by >= 1 {
        delays.push(Delay {
            row: 5,
            transition: TransitionId::new(0),
            number: 1,
            by,
        })?;
    }
    Ok(Timetable {
        firsts: Vec::from_slice(alloc, &[0, 3, 0, 15])?,
        delays,
    })
}

// What the checker tells of the text of a row.
fn told_of<F>(alloc: Global, row: &Told, checker: &F) -> Result<Option<u64>, Fail>
where
    F: Fn(Global, &Net, u64, &Timetable, &str) -> Result<Option<u64>, OutOfMemory>,
    requires { F.IsAlwaysCallable checker.now }
{
    let (period, by, text, _) = *row;
    let railway = read(alloc, RAILWAY)?;
    let table = table(alloc, by)?;
    let told = checker(alloc, &railway, period, &table, text);
    Ok(told?)
}

// Whether the checker tells of all rows what they say; otherwise the text of the first of which it
// does not.
pub(crate) fn tells_rows<F>(alloc: Global, rows: &[Told], checker: &F) -> Result<(), Fail>
where
    F: Fn(Global, &Net, u64, &Timetable, &str) -> Result<Option<u64>, OutOfMemory>,
    requires { F.IsAlwaysCallable checker.now }
{
    for row in rows {
        if told_of(alloc, row, checker)? != row.3 {
            return Err(Fail::new(row.2));
        }
    }
    Ok(())
}

// The first lines alone.
const SHORT: &str = "settled after 2 period 1\nkept\ncircuit south_down south_up\n";

// The text with a delay more at the end, and one that misses a line.
const OTHER_DELAY: &str = "settled after 2 period 1
kept
circuit south_down south_up
delays North 10 0 0
delays Centre>North 0 1 3
delays Centre>South 0 5 5
delays South 0 5 6
";

const LINE_LESS: &str = "settled after 2 period 1
kept
circuit south_down south_up
delays North 10 0 0
delays Centre>North 0 1 3
delays Centre>South 0 5 5
";

// The same delays in another order, and with a blank more.
const OTHER_ORDER: &str = "settled after 2 period 1
kept
circuit south_down south_up
delays Centre>North 0 1 3
delays North 10 0 0
delays Centre>South 0 5 5
delays South 0 5 5
";

const BLANK_MORE: &str = "settled after 2 period 1
kept
circuit south_down south_up
delays North 10  0 0
delays Centre>North 0 1 3
delays Centre>South 0 5 5
delays South 0 5 5
";

// True delays by a number and a period that are greater than they need be, and up to less than the
// number.
const LATER: &str = "settled after 3 period 1
kept
circuit south_down south_up
delays North 10 0 0 0
delays Centre>North 0 1 3 3
delays Centre>South 0 5 5 5
delays South 0 5 5 5
";

const LONGER: &str = "settled after 2 period 2
kept
circuit south_down south_up
delays North 10 0 0 0
delays Centre>North 0 1 3 3
delays Centre>South 0 5 5 5
delays South 0 5 5 5
";

const SOONER: &str = "settled after 1 period 1
kept
circuit south_down south_up
delays North 10 0
delays Centre>North 0 1
delays Centre>South 0 5
delays South 0 5
";

// The circuit begun elsewhere, one with time to spare, and delays that are over.
const TURNED: &str = "settled after 2 period 1
kept
circuit south_up south_down
delays North 10 0 0
delays Centre>North 0 1 3
delays Centre>South 0 5 5
delays South 0 5 5
";

const SPARE: &str = "settled after 2 period 1
kept
circuit north_down north_up
delays North 10 0 0
delays Centre>North 0 1 3
delays Centre>South 0 5 5
delays South 0 5 5
";

const RECOVERED: &str =
    "settled after 2 period 1\nrecovered after 2\ncircuit south_down south_up\n";

// Numbers past all that a text can tell.
const HUGE: &str = "settled after 18446744073709551615 period 18446744073709551615
kept
circuit south_down south_up
";

// Periods, delays, texts, and how many places has the circuit that these show.
const TEXTS: [Told; 18] = [
    (30, 10, KEPT, Some(2)),
    // Other delays are left of another one; the plan leaves 5 of them to spare on the way to
    // Centre>South.
    (30, 11, KEPT, None),
    (30, 5, KEPT, None),
    (30, 0, KEPT, None),
    // No train has the time that it takes, or each has time to spare.
    (24, 10, KEPT, None),
    (31, 10, KEPT, None),
    (30, 10, SHORT, None),
    (30, 10, OTHER_DELAY, None),
    (30, 10, LINE_LESS, None),
    (30, 10, OTHER_ORDER, None),
    (30, 10, BLANK_MORE, None),
    (30, 10, LATER, None),
    (30, 10, LONGER, None),
    (30, 10, SOONER, None),
    (30, 10, TURNED, None),
    (30, 10, SPARE, None),
    (30, 10, RECOVERED, None),
    (30, 10, HUGE, None),
];

// How many places has the circuit that the text shows.
fn kept_places(
    alloc: Global,
    railway: &Net,
    period: u64,
    table: &Timetable,
    text: &str,
) -> Result<Option<u64>, OutOfMemory> {
    Ok(match shown_kept(alloc, railway, period, table, text)? {
        Some(circuit) => Some(circuit.places.len() as u64),
        None => None,
    })
}

#[test]
fn kept_delays_are_shown(rt: HostRuntime) -> Result<(), Fail> {
    tells_rows(rt.alloc(), &TEXTS, &kept_places)
}
