//! The greatest sums over lists of which the first goes on by equal steps, piece by piece: each is
//! found from the one of half as many places, so that the work grows with the number of pieces and
//! not with the number of places.
ghost use Rattle.std.specs.Prelude.{◌≡◌, ◌≤◌, ◌<◌, ◌+◌, ◌-◌, ◌*◌, IfOk, IfSome, length, min, true};
ghost use Rattle.std.specs.Int.RustNames.{unsigned_abs};
ghost use Rattle.dioid.specs.declared.dates.Date.TheVariants.{Early, At};
ghost use Rattle.dioid.specs.Dates.{move};
ghost use Rattle.series_laws.specs.Periodic.{times};
ghost use Rattle.series_laws.specs.SeriesForms.{table};
ghost use Rattle.series_form.specs.NumberBounds.{IsMagnitudeUpTo};
ghost use Rattle.series_form.specs.SeriesLimits.{greatest_listed, greatest_value_ahead, greatest_value_far_ahead, greatest_moderate, greatest_part_product};
ghost use Rattle.series_ops.specs.Pieces.{joined_at, window, ArePieceSums, IsPiece, IsSpanOf};
ghost use Rattle.series_ops.specs.ListFunctions.{value_listed, AreUpTo};

use crate::anchors::many;
use crate::cells::{Cells, dates_of};
use crate::splits::{Span, added};
use crate::tables::repeated;
use dioid::Date;
use std::alloc::{AllocError, Global};

// Places of a list one after another: `turns` times `size` of them, each turn a step above the one
// before.
#[derive(Clone, Copy)]
struct Piece {
    size: usize,
    turns: usize,
    step: i128,
}

// The later of each sum and of the sum of a date with another list `back` shifts before.
fn joined(
    alloc: Global,
    sums: &[Date],
    others: &[Date],
    back: usize,
    date: Date,
) -> Result<Vec<Date>, AllocError>
    requires size { length sums.now ≡ length others.now }
    requires date { IsMagnitudeUpTo greatest_part_product date }
    requires others { AreUpTo greatest_moderate others.now }
    ensures { IfOk result (λ values. values.items ≡ table (joined_at (value_listed sums.now)
        (value_listed others.now) back date) (length sums.now)) }
{
    let mut values = Vec::with_capacity(alloc, sums.len())?;
    for shift in 0..sums.len() {
        let carried = if shift < back {
            Date::Early
        } else {
            added(date, others[shift - back])
        };
        values.push(sums[shift].later(carried))?;
    }
    Ok(values)
}

// The greatest sums whose first part is at one of `count` places from `from` on, place by place.
fn sums_by_places(
    alloc: Global,
    first: &[Date],
    second: &[Date],
    from: usize,
    count: usize,
) -> Result<Vec<Date>, AllocError>
    requires places { from + count ≤ length first.now }
    requires first { AreUpTo greatest_value_ahead first.now }
    requires second { AreUpTo greatest_listed second.now }
    ensures { IfOk result (λ values. values.items ≡ table (window (value_listed first.now)
        (value_listed second.now) from count) (length second.now)) }
{
    let mut sums = repeated(alloc, Date::Early, second.len())?;
    for place in 0..count {
        let date = first[from + place];
        let next = joined(alloc, sums.as_slice(), second, from + place, date)?;
        sums = next;
    }
    Ok(sums)
}

// The same of a piece.
fn sums_by_turns(
    alloc: Global,
    first: &[Date],
    second: &[Date],
    from: usize,
    piece: Piece,
) -> Result<Vec<Date>, AllocError>
    requires piece { IsPiece (value_listed first.now) from piece }
    requires places { from + piece.size * piece.turns ≤ length first.now }
    requires short { length first.now ≤ 20000 }
    requires first { AreUpTo greatest_value_ahead first.now }
    requires second { AreUpTo greatest_listed second.now }
    ensures { IfOk result (λ values. values.items ≡ table (window (value_listed first.now)
        (value_listed second.now) from (piece.size * piece.turns)) (length second.now)) }
{
    let mut sums = sums_by_places(alloc, first, second, from, piece.size)?;
    let mut done = 1;
    for _turn in 0..piece.turns {
        if done == piece.turns {
            return Ok(sums);
        }
        let more = done.min(piece.turns - done);
        let known = sums.as_slice();
        let date = Date::At(many(more, piece.step));
        let next = joined(alloc, known, known, piece.size * more, date)?;
        sums = next;
        done += more;
    }
    Ok(sums)
}

// What the second date is above the first, 0 unless both are numbers.
fn step_between(first: Date, second: Date) -> i128
    requires first { IsMagnitudeUpTo greatest_value_ahead first }
    requires second { IsMagnitudeUpTo greatest_value_ahead second }
    ensures { unsigned_abs result ≤ 40002000000000000000000 }
{
    match (first, second) {
        (Date::At(first), Date::At(second)) => second - first,
        _ => 0,
    }
}

// Whether the second date is the first, moved by a step.
pub(crate) fn is_moved(first: Date, second: Date, step: i128) -> bool
    requires first { IsMagnitudeUpTo greatest_value_far_ahead first }
    requires step { unsigned_abs step ≤ 40002000000000000000000 }
    ensures { result ≡ true → second ≡ move step first }
{
    match (first, second) {
        (Date::At(first), Date::At(second)) => second == first + step,
        (Date::Early, Date::Early) | (Date::Never, Date::Never) => true,
        _ => false,
    }
}

// The piece from a place on: so many turns as go on by one step, within `most` places.
fn piece_from(first: &[Date], from: usize, most: usize, period: usize) -> Piece
    requires places { from + most ≤ length first.now }
    requires some { 0 < most }
    requires period { 0 < period }
    requires first { AreUpTo greatest_value_ahead first.now }
    ensures piece { IsPiece (value_listed first.now) from result }
    ensures room { result.size * result.turns ≤ most }
    ensures fits { result.size ≤ most }
{
    let size = if period < most { period } else { 1 };
    let step = if size < most {
        step_between(first[from], first[from + size])
    } else {
        0
    };
    for place in 0..most - size {
        if !is_moved(first[from + place], first[from + place + size], step) {
            let turns = 1 + place / size;
            return Piece { size, turns, step };
        }
    }
    let turns = most / size;
    Piece { size, turns, step }
}

// How many places are gone through in the time of a pass over all sums.
const PLACES_A_PASS: usize = 40;

// How many in that of the passes over a piece, besides those over its first turn.
const PLACES_A_PIECE: usize = 600;

// Whether so many places have so few pieces that these take less time.
fn is_short_in_pieces(first: &[Date], span: Span) -> bool
    requires { IsSpanOf first.now span }
{
    let count = span.count;
    let mut done = 0;
    let mut work = 0;
    for _place in 0..count {
        if done < count && work < count {
            let piece = piece_from(first, span.from + done, count - done, span.period);
            done += piece.size * piece.turns;
            work += PLACES_A_PASS * piece.size + PLACES_A_PIECE;
        }
    }
    work < count
}

// The greatest sums whose first part is at one of the places of the span, piece by piece.
fn sums_by_pieces(
    alloc: Global,
    first: &[Date],
    second: &[Date],
    span: Span,
) -> Result<Vec<Date>, AllocError>
    requires span { IsSpanOf first.now span }
    requires second { AreUpTo greatest_listed second.now }
    ensures { IfOk result (λ values. values.items ≡ table (window (value_listed first.now)
        (value_listed second.now) span.from span.count) (length second.now)) }
{
    let mut sums = repeated(alloc, Date::Early, second.len())?;
    let mut done = 0;
    for _place in 0..span.count {
        if done == span.count {
            return Ok(sums);
        }
        let at = span.from + done;
        let piece = piece_from(first, at, span.count - done, span.period);
        let more = sums_by_turns(alloc, first, second, at, piece)?;
        let known = sums.as_slice();
        let next = joined(alloc, known, more.as_slice(), 0, Date::At(0))?;
        sums = next;
        done += piece.size * piece.turns;
    }
    Ok(sums)
}

// The span by the stride of its few pieces: 1, or the period; none where there are many.
fn in_few_pieces(first: &[Date], span: Span) -> Option<Span>
    requires { IsSpanOf first.now span }
    ensures from { IfSome result (λ own. own.from ≡ span.from) }
    ensures count { IfSome result (λ own. own.count ≡ span.count) }
    ensures stride { IfSome result (λ own. 0 < own.period) }
{
    let each = Span {
        from: span.from,
        count: span.count,
        period: 1,
    };
    if is_short_in_pieces(first, each) {
        return Some(each);
    }
    if is_short_in_pieces(first, span) {
        return Some(span);
    }
    None
}

// The greatest sums whose first part is at one of the places of the span, at the first `size`
// shifts, where the first list is short and has few pieces there, of equal steps from place to place
// or from period to period; and else none.
pub(crate) fn sums_in_few_pieces(
    alloc: Global,
    first: &Cells,
    second: &Cells,
    size: usize,
    span: Span,
) -> Result<Vec<Date>, AllocError>
    requires fits { span.from + span.count ≤ length first.now }
    requires period { 0 < span.period }
    requires values { length first.now ≤ 20000 → AreUpTo greatest_value_ahead first.now }
    ensures { IfOk result (λ values. ArePieceSums values.items first.now second.now span.from
        span.count) }
{
    if first.len() > 20_000 {
        return Ok(Vec::new(alloc));
    }
    let dates = dates_of(alloc, first, first.len())?;
    let own = dates.as_slice();
    match in_few_pieces(own, span) {
        None => Ok(Vec::new(alloc)),
        Some(few) => {
            let others = dates_of(alloc, second, size)?;
            let sums = sums_by_pieces(alloc, own, others.as_slice(), few)?;
            Ok(sums)
        }
    }
}
