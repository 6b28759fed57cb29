//! Texts of the calculator that mean one series. Texts with their answers, series at the limits and
//! the deepest trees are rows of `tools/rows`, in `calc.rows` and `series.rows`.
use crate::bench::{Bench, WIDE};
use std::alloc::Global;
use std::test::Fail;
use teg_run::Status;

// Two texts each that mean one series. Those of the first have long lists of few pieces.
const PIECES: [(&str, &str); 5] = [
    ("g2000d7.g2000d5", "g4000d12"),
    ("left(g600d7,g1200d12)", "g600d5"),
    (
        "(star(g2d3)+g3000d6000).(star(g2d3)+g3000d6000)",
        "star(g2d3)+g3000d6000.star(g2d3)+g6000d12000",
    ),
    (
        "left(star(g1d1)+g3000d4500,star(g1d1)+g3000d4500)",
        "e+g1500d0.star(g1d1)",
    ),
    ("star(star(g1d1)+g4500d0.never)", "star(g1d1)+g4500d0.never"),
];

// A bench at which a text is worked out.
fn bench_of(alloc: Global, text: &str) -> Result<Bench, Fail> {
    Bench::new(alloc, &["calc", text], (b"", b""), &[], WIDE)
}

// Whether the text is answered by this line.
fn is_answered(alloc: Global, text: &str, line: &[u8]) -> Result<bool, Fail> {
    let mut bench = bench_of(alloc, text)?;
    Ok(bench.run(alloc, Vec::new(alloc)) == Status::Done && bench.written() == line)
}

// Whether the answer is a series, and that of the other text too.
fn is_answer_of(alloc: Global, bench: &mut Bench, other: &str) -> Result<bool, Fail> {
    let is_done = bench.run(alloc, Vec::new(alloc)) == Status::Done;
    let line = bench.written();
    Ok(is_done && line.starts_with(b"series ") && is_answered(alloc, other, line)?)
}

// Whether both texts are answered by one series.
fn are_equal(alloc: Global, first: &str, second: &str) -> Result<bool, Fail> {
    let mut bench = bench_of(alloc, first)?;
    is_answer_of(alloc, &mut bench, second)
}

#[test]
fn lists_of_few_pieces(rt: HostRuntime) -> Result<(), Fail> {
    for (first, second) in &PIECES {
        assert!(rt; are_equal(rt.alloc(), first, second)?, "{first}");
    }
    Ok(())
}
