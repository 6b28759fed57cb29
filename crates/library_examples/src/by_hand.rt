//! Answers on dates and matrices that were worked out by hand, where no command shows them.
use crate::matrices::{is, square};
use dioid::{Date, Misfit};
use dioid_matrix::{Matrix, MatrixRefused};
use std::alloc::{AllocError, Global};
use std::cmp::Ordering;
use std::test::Fail;

// Whether a sum past the greatest date is told with both its dates, and a difference is a date.
fn keeps_misfits() -> bool {
    let (left, right) = (Date::At(i128::MAX), Date::At(1));
    let is_told = left.add(right) == Err(Misfit { left, right });
    is_told && left.earlier(right) == right && right.less(right) == Ok(Date::At(0))
}

// Whether dates come in the order of time, by `<` and its like, by `max` and by `compare`.
fn come_in_order() -> bool {
    let (early, first, second) = (Date::Early, Date::At(-3), Date::At(2));
    let is_less = early < first && first < second && second < Date::Never;
    let is_last = first.max(second) == second && Date::Never.min(second) == second;
    is_less && is_last && second.compare(first) == Ordering::Greater
}

// The row of two entries.
fn row_of(alloc: Global, entries: &[Date; 2]) -> Result<Matrix<Date>, Fail> {
    Ok(Matrix::new(1, 2, Vec::from_slice(alloc, entries)?)?)
}

// Whether a matrix is written with its shape and its entries.
fn is_shown(alloc: Global) -> Result<bool, Fail> {
    let row = row_of(alloc, &[Date::At(1), Date::Early])?;
    let text = format!(in alloc; "{row:?}")?;
    Ok(text.as_str() == "Matrix { rows: 1, columns: 2, entries: [At(1), Early] }")
}

// Why the row is not multiplied with the other.
fn why_no_product(
    alloc: Global,
    row: &Matrix<Date>,
    other: &Matrix<Date>,
) -> Option<MatrixRefused> {
    row.times(alloc, other).err()
}

// Whether these are the entries of the sum of two matrices of one shape.
fn has_sum(alloc: Global, row: &Matrix<Date>, other: &Matrix<Date>, sum: &[Date]) -> bool {
    if row.rows() != other.rows() {
        return false;
    }
    if row.columns() != other.columns() {
        return false;
    }
    is(row.plus(alloc, other), sum)
}

// Whether a row is not multiplied with a row, and its sum with another is the later of each.
fn is_a_row(alloc: Global) -> Result<bool, Fail> {
    let row = row_of(alloc, &[Date::At(1), Date::Early])?;
    let other = row_of(alloc, &[Date::At(2), Date::Never])?;
    let refused = MatrixRefused::Shape {
        left_columns: 2,
        right_rows: 1,
    };
    Ok(
        why_no_product(alloc, &row, &other) == Some(refused)
            && has_sum(alloc, &row, &other, &[Date::At(2), Date::Never]),
    )
}

// Whether three entries are too few for two rows and columns.
fn asks_for_four(alloc: Global) -> Result<bool, AllocError> {
    let entries = Vec::from_slice(alloc, &[Date::Early; 3])?;
    let refused = MatrixRefused::Count {
        wanted: 4,
        given: 3,
    };
    Ok(match Matrix::new(2, 2, entries) {
        Ok(_) => false,
        Err(why) => why == refused,
    })
}

// Whether the star of a matrix with a circuit above 0 is never.
fn star_is_never(alloc: Global) -> Result<bool, Fail> {
    let entries = [Date::Early, Date::At(2), Date::At(-1), Date::Early];
    let matrix = square(alloc, &entries)?;
    Ok(is(matrix.star(alloc), &[Date::Never; 4]))
}

#[test]
fn answers_that_were_worked_out(rt: HostRuntime) -> Result<(), Fail> {
    let alloc = rt.alloc();
    assert!(rt; keeps_misfits() && come_in_order());
    assert!(rt; is_shown(alloc)?);
    assert!(rt; is_a_row(alloc)?);
    assert!(rt; asks_for_four(alloc)?);
    assert!(rt; star_is_never(alloc)?);
    Ok(())
}
