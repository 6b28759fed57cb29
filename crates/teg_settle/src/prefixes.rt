//! How far the moves of a transition's dates, counted from the last row back, are those of so many
//! numbers before: of each number of periods at once.
ghost use Rattle.std.specs.Prelude.{◌≡◌, ◌+◌, ◌-◌, ◌<◌, ◌≤◌, ◌^◌, IfOk, length, slice_index_or};
ghost use Rattle.periodic_laws.specs.teg_model.DateBounds.{IsDateWithin};
ghost use Rattle.teg_settle.specs.Prefixes.{AreCommonPrefixes, HasMoves, IsAgreeing, IsCommonPrefix, move_back, moved_by};

use date_rows::Rows;
use dioid::Date;
use std::alloc::{AllocError, Global};
use teg_net::TransitionId;

// By what the early date moves to the late one: 0 where both are Early or both Never, and -1 where
// one of them alone is a number, or they are Early and Never.
fn moved_by(early: Date, late: Date) -> i128
    requires early { IsDateWithin (2 ^ 126) early }
    requires late { IsDateWithin (2 ^ 126) late }
    ensures { result ≡ moved_by early late }
{
    match (early, late) {
        (Date::Early, Date::Early) => 0,
        (Date::At(early), Date::At(late)) => late - early,
        (Date::Never, Date::Never) => 0,
        _ => -1,
    }
}

// The move of the transition behind which there are so many later ones.
fn move_back(rows: &Rows, transition: TransitionId, back: u64) -> i128
    requires moves { HasMoves rows.now transition.index }
    requires back { back + 1 < rows.now.count }
    ensures { result ≡ move_back rows.now transition.index back }
{
    let late = rows.count() - back;
    moved_by(rows.date(transition, late - 1), rows.date(transition, late))
}

// How many of the moves from `at` back on are the last ones, of which so many are known to be.
fn common_from(rows: &Rows, transition: TransitionId, at: u64, known: u64) -> u64
    requires moves { HasMoves rows.now transition.index }
    requires within { at + known < rows.now.count }
    requires known { IsAgreeing (move_back rows.now transition.index) at known }
    ensures { IsCommonPrefix (move_back rows.now transition.index) (rows.now.count - 1) at result }
{
    let all = rows.count() - 1;
    let mut length = known;
    'common: while at + length < all
        && move_back(rows, transition, at + length) == move_back(rows, transition, length)
    {
        length += 1;
    }
    length
}

// How many of the moves from `at` back on are known to be the last ones, where those from `from` on
// are as far as `end`, and lengths before tell of those within.
fn known_length(lengths: &[u64], from: u64, end: u64, at: u64) -> u64
    requires before { from < at }
    requires later { at < end → 1 ≤ from }
    requires lengths { length lengths.now ≡ at }
    ensures within { result ≤ end - at }
    ensures known { 0 < result → result ≤ slice_index_or lengths.now (at - from) 0 }
{
    if at >= end {
        return 0;
    }
    lengths[(at - from) as usize].min(end - at)
}

// Of the moves so many back, up to `count`, how many from there on are the last ones.
pub(crate) fn common_lengths(
    alloc: Global,
    rows: &Rows,
    transition: TransitionId,
    count: u64,
) -> Result<Vec<u64>, AllocError>
    requires moves { HasMoves rows.now transition.index }
    requires some { 1 ≤ count }
    requires count { count < rows.now.count }
    ensures { IfOk result (λ lengths. AreCommonPrefixes (move_back rows.now transition.index)
        (rows.now.count - 1)
        count lengths.items) }
{
    let mut lengths = Vec::new(alloc);
    lengths.push(rows.count() - 1)?;
    let mut from = 0;
    let mut end = 0;
    for at in 1..count {
        let known = known_length(&lengths, from, end, at);
        let length = common_from(rows, transition, at, known);
        lengths.push(length)?;
        if at + length <= end {
            continue;
        }
        from = at;
        end = at + length;
    }
    Ok(lengths)
}
