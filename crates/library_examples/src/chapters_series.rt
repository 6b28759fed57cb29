//! A chapter of the page on the library: series.
use dioid::Date;
use series_form::Series;
use series_ops::{left, product, star};
use std::alloc::Global;
use std::process::Abort;
use std::test::Fail;

// Orders go out each 4 units from 10 on.
fn look_at_releases(rt: &impl Abort, alloc: Global, line: Series) -> Result<(), Fail> {
    let orders = star(alloc, &Series::monomial(alloc, 1, 4)?)?;
    let due = product(alloc, &Series::monomial(alloc, 0, 10)?, &orders)?;
    let releases = left(alloc, &line, &due)?;
    assert!(rt; releases.at(1) == Date::At(12));
    Ok(())
}

#[test]
fn a_line_is_a_series(rt: HostRuntime) -> Result<(), Fail> {
    let alloc = rt.alloc();
    let machine = star(alloc, &Series::monomial(alloc, 1, 3)?)?;
    let line = product(alloc, &Series::monomial(alloc, 0, 2)?, &machine)?;
    assert!(rt; line.at(4) == Date::At(14));
    look_at_releases(&rt, alloc, line)
}
