//! Delays of a timetable that die out.
use crate::kept_delays::{Told, tells_rows};
use delay_check::shown_recovered;
use delay_laws::Timetable;
use std::alloc::Global;
use std::test::Fail;
use teg_net::{Net, OutOfMemory};

const OVER: &str = "settled after 3 period 1
recovered after 3
delays North 10 0 0 0
delays Centre>North 0 0 0 0
delays Centre>South 0 3 1 0
delays South 0 3 1 0
";

// With less time to spare, without a delay, and with one that no other train waits for.
const SLOWER: &str = "settled after 5 period 1
recovered after 5
delays North 10 0 0 0 0 0
delays Centre>North 0 0 1 0 0 0
delays Centre>South 0 4 3 2 1 0
delays South 0 4 3 2 1 0
";

const ON_TIME: &str = "settled after 0 period 1
recovered after 0
delays North 0
delays Centre>North 0
delays Centre>South 0
delays South 0
";

const ALONE: &str = "settled after 1 period 1
recovered after 1
delays North 5 0
delays Centre>North 0 0
delays Centre>South 0 0
delays South 0 0
";

// Other numbers after which no delay is left, and the right one in other words.
const ONE_LESS: &str = "settled after 3 period 1
recovered after 2
delays North 10 0 0 0
delays Centre>North 0 0 0 0
delays Centre>South 0 3 1 0
delays South 0 3 1 0
";

const ONE_MORE: &str = "settled after 3 period 1
recovered after 4
delays North 10 0 0 0
delays Centre>North 0 0 0 0
delays Centre>South 0 3 1 0
delays South 0 3 1 0
";

const FIRST_LATE: &str = "settled after 0 period 1
recovered after 1
delays North 0
delays Centre>North 0
delays Centre>South 0
delays South 0
";

const ZERO_BEFORE: &str = "settled after 3 period 1
recovered after 03
delays North 10 0 0 0
delays Centre>North 0 0 0 0
delays Centre>South 0 3 1 0
delays South 0 3 1 0
";

// Another delay, a line less, the lines in another order, and a blank more.
const OTHER_DELAY: &str = "settled after 3 period 1
recovered after 3
delays North 10 0 0 0
delays Centre>North 0 0 0 0
delays Centre>South 0 3 1 0
delays South 0 3 2 0
";

const LINE_LESS: &str = "settled after 3 period 1
recovered after 3
delays North 10 0 0 0
delays Centre>North 0 0 0 0
delays Centre>South 0 3 1 0
";

const OTHER_ORDER: &str = "settled after 3 period 1
recovered after 3
delays Centre>North 0 0 0 0
delays North 10 0 0 0
delays Centre>South 0 3 1 0
delays South 0 3 1 0
";

const BLANK_MORE: &str = "settled after 3 period 1
recovered after 3
delays North 10 0 0  0
delays Centre>North 0 0 0 0
delays Centre>South 0 3 1 0
delays South 0 3 1 0
";

// True delays by a number and a period that are greater than they need be, and up to less than the
// number.
const LATER: &str = "settled after 4 period 1
recovered after 3
delays North 10 0 0 0 0
delays Centre>North 0 0 0 0 0
delays Centre>South 0 3 1 0 0
delays South 0 3 1 0 0
";

const LONGER: &str = "settled after 3 period 2
recovered after 3
delays North 10 0 0 0 0
delays Centre>North 0 0 0 0 0
delays Centre>South 0 3 1 0 0
delays South 0 3 1 0 0
";

const SOONER: &str = "settled after 2 period 1
recovered after 2
delays North 10 0 0
delays Centre>North 0 0 0
delays Centre>South 0 3 1
delays South 0 3 1
";

// Delays that are kept, and the same as if they were over.
const KEPT: &str = "settled after 2 period 1
kept
circuit south_down south_up
delays North 10 0 0
delays Centre>North 0 1 3
delays Centre>South 0 5 5
delays South 0 5 5
";

const KEPT_AS_OVER: &str = "settled after 2 period 1
recovered after 2
delays North 10 0 0
delays Centre>North 0 1 3
delays Centre>South 0 5 5
delays South 0 5 5
";

// The first lines alone, and numbers past all that a text can tell.
const SHORT: &str = "settled after 3 period 1\nrecovered after 3\n";

const HUGE: &str =
    "settled after 18446744073709551615 period 18446744073709551615\nrecovered after 3\n";

const HUGE_LAST: &str = "settled after 3 period 1
recovered after 18446744073709551615
delays North 10 0 0 0
delays Centre>North 0 0 0 0
delays Centre>South 0 3 1 0
delays South 0 3 1 0
";

// The number after which these show that no delay is left, by period, delay and text.
const TEXTS: [Told; 28] = [
    (32, 10, OVER, Some(3)),
    (31, 10, SLOWER, Some(5)),
    (32, 0, ON_TIME, Some(0)),
    (32, 5, ALONE, Some(1)),
    // Other delays are left of another one, and with another period.
    (32, 9, OVER, None),
    (32, 11, OVER, None),
    (32, 0, OVER, None),
    (31, 10, OVER, None),
    (33, 10, OVER, None),
    // Delays are kept, or no train has the time that it takes.
    (30, 10, OVER, None),
    (24, 10, OVER, None),
    (32, 10, ON_TIME, None),
    (32, 10, ONE_LESS, None),
    (32, 10, ONE_MORE, None),
    (32, 0, FIRST_LATE, None),
    (32, 10, ZERO_BEFORE, None),
    (32, 10, OTHER_DELAY, None),
    (32, 10, LINE_LESS, None),
    (32, 10, OTHER_ORDER, None),
    (32, 10, BLANK_MORE, None),
    (32, 10, LATER, None),
    (32, 10, LONGER, None),
    (32, 10, SOONER, None),
    (30, 10, KEPT, None),
    (30, 10, KEPT_AS_OVER, None),
    (32, 10, SHORT, None),
    (32, 10, HUGE, None),
    (32, 10, HUGE_LAST, None),
];

// The number after which the text shows that no delay is left.
fn last_late(
    alloc: Global,
    net: &Net,
    period: u64,
    table: &Timetable,
    text: &str,
) -> Result<Option<u64>, OutOfMemory> {
    shown_recovered(alloc, net, period, table, text)
}

#[test]
fn delays_that_die_out_are_shown(rt: HostRuntime) -> Result<(), Fail> {
    tells_rows(rt.alloc(), &TEXTS, &last_late)
}
