//! The latest releases of the inputs under endless due dates.
ghost use Rattle.std.specs.Prelude.{◌≡◌, IfOk, IfErr, IsTrue};
ghost use Rattle.teg_check.specs.Ranks.{IsRanking};
ghost use Rattle.teg_net.specs.Nets.{without_inputs};
ghost use Rattle.endless_due.specs.EndlessRows.{IsEndlessOf};
ghost use Rattle.forever_laws.specs.settled_laws.SettledForms.{IsSettledFormOf};
ghost use Rattle.teg_forever.specs.Asked.{AreMetAtZero};
ghost use Rattle.teg_forever.specs.LatestReleases.{AreEndlessReleases, ForeverRefused};

use crate::asked::DueRows;
use crate::inputs::releases_of;
use crate::late::{LateFiring, late_in_row};
use crate::releases::{ForeverRefusal, Release};
use crate::settled_row::SettledRow;
use crate::together::{Told, told_together};
use endless_due::EndlessRow;
use forever_laws::{
    late_is_soon, latest_at_inputs_are_latest, no_rows_are_met, turns_tell_late,
    zero_inputs_are_no_lists, zero_meets_where_none_late,
};
use std::alloc::Global;
use teg_check::{Live, ranked_nets_are_live};
use teg_net::{Net, PlaceEnd, PlacesOf};
use teg_settle::{SettleRefusal, SettledDates, settle_dates, settle_dates_within};

// The longest settled form that is looked for before rows alone are asked.
const SHORT_FORM: u32 = 20_000;

// The refusal of a row at its least late number.
fn refused_at(row: &EndlessRow, late: LateFiring) -> ForeverRefusal
    ensures { result ≡ ForeverRefusal.Late row.now.transition late.number late.due late.least }
{
    ForeverRefusal::Late {
        transition: row.transition,
        number: late.number,
        due: late.due,
        least: late.least,
    }
}

// Refuses the first row that has a late number, with its least one, by the settled form of the
// least dating with all inputs at 0.
fn keep_rows(due: &DueRows<'_>, settled: &SettledDates) -> Result<(), ForeverRefusal>
    requires { IsSettledFormOf (without_inputs due.now.net) settled.now }
    ensures meet { IfOk result (λ _. AreMetAtZero due.now) }
    ensures late { IfErr result (ForeverRefused due.now.net due.now.rows) }
{
    zero_inputs_are_no_lists();
    turns_tell_late();
    zero_meets_where_none_late();
    settled.after();
    for row in due.rows() {
        if let Some(late) = late_in_row(&SettledRow::new(settled, row))? {
            return Err(refused_at(row, late));
        }
    }
    Ok(())
}

// Refuses the first row that has a late number, as far as rows alone tell it. Whether they tell it
// of all rows.
fn keep_rows_alone(alloc: Global, due: &DueRows<'_>, plain: &Net) -> Result<bool, ForeverRefusal>
    requires { plain.now ≡ without_inputs due.now.net }
    ensures meet { IfOk result (λ told. IsTrue told → AreMetAtZero due.now) }
    ensures late { IfErr result (ForeverRefused due.now.net due.now.rows) }
{
    no_rows_are_met();
    zero_meets_where_none_late();
    late_is_soon();
    due.net();
    match told_together(alloc, due, plain)? {
        Told::Late(first) => Err(refused_at(due.row(first.place), first.late)),
        Told::None => Ok(true),
        Told::Nothing => Ok(false),
    }
}

// Refuses due dates that inputs at 0 do not meet. A settled form is dropped here.
fn keep_dues(alloc: Global, due: &DueRows<'_>) -> Result<(), ForeverRefusal>
    ensures meet { IfOk result (λ _. AreMetAtZero due.now) }
    ensures late { IfErr result (ForeverRefused due.now.net due.now.rows) }
{
    no_rows_are_met();
    zero_meets_where_none_late();
    let rows = due.rows();
    if rows.is_empty() {
        return Ok(());
    }
    let plain = due.net().without_inputs(alloc)?;
    match settle_dates_within(alloc, &plain, due.live(), SHORT_FORM) {
        Ok(settled) => return keep_rows(due, &settled),
        Err(SettleRefusal::TooLong { .. }) => {}
        Err(SettleRefusal::OutOfMemory) => return Err(ForeverRefusal::OutOfMemory),
    }
    if keep_rows_alone(alloc, due, &plain)? {
        return Ok(());
    }
    let settled = settle_dates(alloc, &plain, due.live())?;
    keep_rows(due, &settled)
}

/// The latest releases of the inputs of a live net, one for each input in order, with which no
/// firing comes after a date at which it is due; the input lists of the net play no part. Or why
/// they are not told, by the order of [`ForeverRefusal`]: the first row, and its least number, that
/// comes late whatever the inputs are; or the first input, in order, whose walk times have no
/// settled form of at most 20,000 numbers, or for which a residual or a meet over the rows does not
/// fit. `OutOfMemory` comes only where no memory is found.
///
/// The order of the work, for n transitions and p places: without rows nothing is asked of the
/// net's dates. Else the least dating with all inputs at 0 is settled within 20,000 numbers, if its
/// form is so short: for a settling length l this takes rows of order l, each in time of order `n +
/// p`, and each due row is held against it: by two lines for each class of numbers, in time of
/// order `l + e` for a row that goes on after e firings; where these cross, as far as due dates
/// that rise faster take to catch up; else as far as the dates of its transition take to repeat
/// with it, at most in time of order `1,000 l + 10,000`; the divisors of the net's period are tried
/// for the period of the transition's own, each mostly for a few numbers. Where it is longer, as
/// for rates that nearly agree, the rows of the net are gone through once more, without keeping
/// them, for all due rows together: up to the greatest `d + e n m + m`, for a list of d dates that
/// goes on after e, and places of at most m tokens; past a late row no further than those before it
/// ask. They tell all, where one of the firings is late or no circuit that leads to the due
/// transition gains on the row, which is found in time of order `n p` for each; only where they do
/// not, or would be more than some seconds take, the form is looked for without a limit, with eight
/// bytes a date. Then for each input the walk times are settled likewise; for a settling length k
/// each due row takes a residual of at most 20,000 values, each in time of order k, less the
/// numbers at which no walk arrives yet; where its due dates rise by the same step from each firing
/// to the next, all of it in time of order k. Where a row goes on by the same step after its list
/// of d dates, and few of the first walk times tell its residual, as all later ones are earlier than
/// these and the steps since by more than the due dates ever fall behind their steps, this is found
/// by those few: in time of order `k + d` for one of them. Other rows that ask the same dates take
/// one residual for all inputs that reach their transitions alike, as long as the series that are kept for that
/// have fewer than three million values, which take some 100 MB; then a row takes time of the order
/// of its series. An input whose places have the ends and the tokens of those of an input before it,
/// in any order, and are all held longer by one difference, or shorter, or as long, takes no more
/// than that one's release with each date moved, in time of order k, as long as its numbers fit;
/// inputs are compared for that in time of order `p^2` at most for all of them, mostly of order `i
/// p` for i inputs.
pub fn forever(
    alloc: Global,
    net: &Net,
    live: &Live,
    rows: &[EndlessRow],
) -> Result<Vec<Release>, ForeverRefusal>
    requires stands { IsRanking net.now live.now }
    requires rows { IsEndlessOf net.now rows.now }
    ensures releases { IfOk result (λ releases. AreEndlessReleases net.now rows.now
        releases.items) }
    ensures refused { IfErr result (ForeverRefused net.now rows.now) }
{
    net.transitions();
    ranked_nets_are_live();
    latest_at_inputs_are_latest();
    let leaving = PlacesOf::new(alloc, net, PlaceEnd::From)?;
    let due = DueRows::new(net, live, rows, &leaving);
    keep_dues(alloc, &due)?;
    releases_of(alloc, &due)
}
