//! Kleene's recursion on the entries of a square matrix, one pivot after another. Each step makes
//! the star of its pivot and the pivot's row of loops once, so that the whole takes n^3 sums and
//! products.
ghost use Rattle.std.specs.Prelude.{◌≡◌, cond, IsTrue, IfOk, ◌≤◌, ◌<◌, ◌+◌, ◌*◌, ◌^◌, length};
ghost use Rattle.dioid.specs.ElementAnswers.{Answers};
ghost use Rattle.dioid_matrix.specs.EntryLists.{AnswersList, AreLoops, IsAfterPass, PassRefused, IsAfterLastPass, LastRefused};
ghost use Rattle.dioid_matrix.specs.Tables.{entry_of, table_of, AreElements};
ghost use Rattle.dioid_matrix.specs.Turns.{IsStar, StarRefused};

use crate::lists::plus_product;
use crate::refusals::{Cell, MatrixRefused};
use dioid::{Dioid, Kleene, Refused};
use std::alloc::{AllocError, Global};

// The loops of row `k` by columns: the star of the pivot by each entry of its row, up to the first
// that does not fit.
pub(crate) fn loops<D: Kleene>(
    alloc: Global,
    entries: &[D],
    size: usize,
    k: usize,
) -> Result<Vec<D>, AllocError>
    requires step { k < size }
    requires filled { length entries.now ≡ size * size }
    requires fits { size * size < 2 ^ 64 }
    ensures { IfOk result (λ loops. AreLoops D.Dioid D.Kleene.own size
        (entry_of D.Dioid (table_of size size entries.now)) k loops.items) }
{
    let mut loops = Vec::new(alloc);
    let star = match entries[k * size + k].star(alloc) {
        Ok(star) => star,
        Err(Refused::Range) => return Ok(loops),
        Err(Refused::OutOfMemory) => return Err(AllocError),
    };
    for column in 0..size {
        match star.times(alloc, &entries[k * size + column]) {
            Ok(value) => loops.push(value)?,
            Err(Refused::Range) => return Ok(loops),
            Err(Refused::OutOfMemory) => return Err(AllocError),
        }
    }
    Ok(loops)
}

// Step `k + 1` of the recursion, which eliminates pivot `k`, by the loops of its row.
pub(crate) fn eliminated<D: Kleene>(
    alloc: Global,
    entries: &[D],
    loops: &[D],
    size: usize,
    k: usize,
) -> Result<Vec<D>, MatrixRefused>
    requires step { k < size }
    requires filled { length entries.now ≡ size * size }
    requires fits { size * size < 2 ^ 64 }
    requires loops { AreLoops D.Dioid D.Kleene.own size
        (entry_of D.Dioid (table_of size size entries.now)) k loops.now }
    ensures { let r = entry_of D.Dioid (table_of size size entries.now) in
        AnswersList D.Dioid size size (IsAfterPass D.Dioid D.Kleene.own size r k)
        (PassRefused D.Dioid D.Kleene.own size r k) result }
{
    let mut values = Vec::new(alloc);
    for place in 0..size * size {
        let row = place / size;
        let column = place % size;
        if loops.len() <= column {
            return Err(MatrixRefused::Range {
                step: k + 1,
                row,
                column,
            });
        }
        let into = &entries[row * size + k];
        let sum = plus_product(alloc, &entries[place], into, &loops[column]);
        let value = Cell::of(sum, k + 1).at(row, column)?;
        values.push(value)?;
    }
    Ok(values)
}

// Step `k + 1` of the recursion, on the entries of a square matrix.
pub(crate) fn pass<D: Kleene>(
    alloc: Global,
    entries: &[D],
    size: usize,
    k: usize,
) -> Result<Vec<D>, MatrixRefused>
    requires step { k < size }
    requires filled { length entries.now ≡ size * size }
    requires fits { size * size < 2 ^ 64 }
    ensures { let r = entry_of D.Dioid (table_of size size entries.now) in
        AnswersList D.Dioid size size (IsAfterPass D.Dioid D.Kleene.own size r k)
        (PassRefused D.Dioid D.Kleene.own size r k) result }
{
    let loops = loops(alloc, entries, size, k)?;
    eliminated(alloc, entries, loops.as_slice(), size, k)
}

// An entry's last value: one is added on the diagonal.
pub(crate) fn ended<D: Dioid>(
    alloc: Global,
    entry: &D,
    one: &D,
    is_diagonal: bool,
) -> Result<D, Refused>
    ensures answer { Answers D.TAKES_MEMORY (IsTrue is_diagonal → D.sum_fits entry.now one.now)
        (cond is_diagonal (D.sum entry.now one.now) entry.now) result }
    ensures element { IfOk result D.is_element }
{
    if is_diagonal {
        entry.plus(alloc, one)
    } else {
        entry.duplicate(alloc)
    }
}

// The last step of the recursion.
pub(crate) fn finish<D: Kleene>(
    alloc: Global,
    entries: &[D],
    size: usize,
) -> Result<Vec<D>, MatrixRefused>
    requires some { 1 ≤ size }
    requires few { size ≤ 4096 }
    requires filled { length entries.now ≡ size * size }
    requires fits { size * size < 2 ^ 64 }
    ensures { let r = entry_of D.Dioid (table_of size size entries.now) in
        AnswersList D.Dioid size size (IsAfterLastPass D.Dioid size r)
        (LastRefused D.Dioid size r) result }
{
    let Ok(one) = D::one(alloc) else {
        return Err(MatrixRefused::OutOfMemory);
    };
    let mut values = Vec::new(alloc);
    for place in 0..size * size {
        let row = place / size;
        let column = place % size;
        let last = ended(alloc, &entries[place], &one, row == column);
        let value = Cell::of(last, size + 1).at(row, column)?;
        values.push(value)?;
    }
    Ok(values)
}

// The entries of the star of a square matrix.
pub(crate) fn star_entries<D: Kleene>(
    alloc: Global,
    entries: &[D],
    size: usize,
) -> Result<Vec<D>, MatrixRefused>
    requires some { 1 ≤ size }
    requires few { size ≤ 4096 }
    requires filled { length entries.now ≡ size * size }
    requires fits { size * size < 2 ^ 64 }
    requires elements { AreElements D.Dioid entries.now }
    ensures { let a = table_of size size entries.now in
        AnswersList D.Dioid size size (IsStar D.Dioid D.Kleene.own a)
        (StarRefused D.Dioid D.Kleene.own a) result }
{
    let mut table = pass(alloc, entries, size, 0)?;
    for k in 1..size {
        table = pass(alloc, table.as_slice(), size, k)?;
    }
    finish(alloc, table.as_slice(), size)
}
