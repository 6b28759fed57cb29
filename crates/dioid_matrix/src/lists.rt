//! Lists of entries: which are elements, and the sums of two.
ghost use Rattle.std.specs.Prelude.{◌≡◌, IfOk, ◌≤◌, ◌*◌, length};
ghost use Rattle.dioid.specs.ElementAnswers.{Answers};
ghost use Rattle.dioid_matrix.specs.EntryLists.{AnswersList};
ghost use Rattle.dioid_matrix.specs.Sums.{IsSum, SumRefused};
ghost use Rattle.dioid_matrix.specs.Tables.{table_of, AreElements};
ghost use Rattle.dioid_matrix.specs.Turns.{WayFits};

use crate::refusals::{Cell, MatrixRefused};
use dioid::{Dioid, Refused};
use std::alloc::Global;

// Each value of the list is an element. It takes no memory.
pub(crate) fn known<D: Dioid>(values: &[D])
    ensures { AreElements D.Dioid values.now }
{
    for value in values {
        let _ = value.same(value);
    }
}

// The sums of two lists of entries by rows, place by place.
pub(crate) fn sums<D: Dioid>(
    alloc: Global,
    left: &[D],
    right: &[D],
    rows: usize,
    columns: usize,
) -> Result<Vec<D>, MatrixRefused>
    requires some_columns { 1 ≤ columns }
    requires left_size { length left.now ≡ rows * columns }
    requires right_size { length right.now ≡ rows * columns }
    ensures { let a = table_of rows columns left.now in let b = table_of rows columns right.now in
        AnswersList D.Dioid rows columns (IsSum D.Dioid a b) (SumRefused D.Dioid a b) result }
{
    let mut values = Vec::new(alloc);
    for place in 0..left.len() {
        let sum = Cell::of(left[place].plus(alloc, &right[place]), 0);
        let value = sum.at(place / columns, place % columns)?;
        values.push(value)?;
    }
    Ok(values)
}

// The sum of an element and a product.
pub(crate) fn plus_product<D: Dioid>(
    alloc: Global,
    before: &D,
    left: &D,
    right: &D,
) -> Result<D, Refused>
    ensures answer { Answers D.TAKES_MEMORY (WayFits D.Dioid before.now left.now right.now)
        (D.sum before.now (D.product left.now right.now)) result }
    ensures element { IfOk result D.is_element }
{
    let product = left.times(alloc, right)?;
    before.plus(alloc, &product)
}
