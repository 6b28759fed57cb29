//! The witness of `teg bound`: rows of dates, and a circuit and potentials, which its text does not
//! tell.
ghost use Rattle.std.specs.Prelude.{◌≡◌, ◌∷◌, ◌<◌, ◌^◌, ◌↔◌, [], IfNone, IfOk, IfSome, IsTrue};
ghost use Rattle.teg_net.specs.Circuits.{IsLive};
ghost use Rattle.teg_text.specs.Lines.{written};
ghost use Rattle.bound_check.specs.Formulas.{CanBeBounded, IsBoundNumber};
ghost use Rattle.bound_check.specs.ShownBounds.{IsFirstCause, IsRefutedBound, IsShownBound, SettlesBy, ShowsNoCause, number_lines, words_of_cause};

use crate::cause::{WhyNone, cause_of};
use crate::formula::{is_number, most_told};
use crate::reading::{ToldNumbers, numbers_in};
use crate::settled_pace::PeriodicRows;
use crate::texts::{cause_text, number_text};
use dating_certificates::least_dates;
use dioid::Date;
use settled_certificates::check_shortest;
use std::alloc::{AllocError, Global};
use teg_certificates::{best_ratio, certificates_tell, check_cycle};
use teg_net::{CycleAnswer, Net, OutOfMemory};
use teg_parts::split;
use witness_check::is_seen_live;

/// What the text of `teg bound` shows of a live net.
#[derive(Clone, Copy, Debug, PartialEq, Eq)]
pub enum ShownBound {
    /// A bound, and the number and the period of the shortest settled form, in firings.
    Number {
        number: u128,
        after: u64,
        period: u64,
    },
    /// The first cause why there is no bound.
    Without {
        cause: WhyNone,
    },
}

// The most rows that are found.
const MOST_ROWS: u64 = 100_000;

// Whether the number is the bound of the net, by an answer on its cycle times.
fn is_bound(net: &Net, answer: &CycleAnswer, number: u128) -> bool
    requires { CanBeBounded net.now }
    ensures number { IsTrue result → IsBoundNumber net.now number }
    ensures small { IsTrue result → number < 10 ^ 24 }
{
    net.rules();
    certificates_tell();
    if !check_cycle(net, answer) {
        return false;
    }
    match best_ratio(answer) {
        Some(ratio) => is_number(net, ratio, number),
        None => false,
    }
}

// How many rows show a form of this number and this period, where they are not too many.
fn rows_for(net: &Net, told: ToldNumbers) -> Option<u32> {
    let first = told.after.checked_add(u64::from(most_told(net)))?;
    let rows = first.checked_add(told.period.checked_mul(2)?)?;
    if rows > MOST_ROWS {
        return None;
    }
    u32::try_from(rows).ok()
}

// Whether these rows and steps show that the net settles by the numbers.
fn settles(
    alloc: Global,
    net: &Net,
    told: ToldNumbers,
    dates: &[Date],
    steps: &[i128],
) -> Result<bool, OutOfMemory>
    requires { IsLive net.now }
    ensures { IfOk result (λ yes. IsTrue yes → SettlesBy net.now told.after told.period) }
{
    let sure = check_shortest(alloc, net, told.after, told.period, dates, steps)?;
    Ok(sure)
}

// Whether rows that are found show the numbers.
fn holds(alloc: Global, net: &Net, told: ToldNumbers, rows: u32) -> Result<bool, OutOfMemory>
    requires live { IsLive net.now }
    requires bounded { CanBeBounded net.now }
    ensures form { IfOk result (λ yes. IsTrue yes → SettlesBy net.now told.after told.period) }
    ensures number { IfOk result (λ yes. IsTrue yes → IsBoundNumber net.now told.number) }
    ensures small { IfOk result (λ yes. IsTrue yes → told.number < 10 ^ 24) }
{
    let dates = least_dates(alloc, net, rows)?;
    let periodic = PeriodicRows {
        net,
        after: told.after,
        period: told.period,
        dates: &dates,
    };
    let steps = periodic.steps(alloc)?;
    if !settles(alloc, net, told, &dates, &steps)? {
        return Ok(false);
    }
    match periodic.cycle_times(alloc)? {
        Some(answer) => Ok(is_bound(net, &answer, told.number)),
        None => Ok(false),
    }
}

// Whether the whole text is that of the numbers.
fn tells_numbers(
    alloc: Global,
    number: u128,
    after: u64,
    period: u64,
    text: &str,
) -> Result<bool, AllocError>
    ensures told { IfOk result (λ yes. IsTrue yes
        → text.now ≡ written (number_lines number after period)) }
    ensures after { IfOk result (λ _. after < 2 ^ 64) }
    ensures period { IfOk result (λ _. period < 2 ^ 64) }
{
    let lines = number_text(alloc, number, after, period)?;
    Ok(lines.as_str() == text)
}

// The bound that the text tells, where it is shown.
#[tactic(auto, using(crate::proofs::OneAnswer::number_is_shown))]
fn shown_number(alloc: Global, net: &Net, text: &str) -> Result<Option<ShownBound>, OutOfMemory>
    requires live { IsLive net.now }
    requires bounded { CanBeBounded net.now }
    ensures shown { IfOk result (λ shown. IfSome shown (IsShownBound net.now text.now)) }
{
    let Some(told) = numbers_in(alloc, text)? else {
        return Ok(None);
    };
    let Some(rows) = rows_for(net, told) else {
        return Ok(None);
    };
    let (number, after, period) = (told.number, told.after, told.period);
    if !holds(alloc, net, told, rows)? || !tells_numbers(alloc, number, after, period, text)? {
        return Ok(None);
    }
    Ok(Some(ShownBound::Number {
        number,
        after,
        period,
    }))
}

// Whether the whole text is the line of the cause.
fn tells_cause(cause: WhyNone, text: &str) -> bool
    ensures { IsTrue result ↔ (text.now ≡ written (words_of_cause cause ∷ [])) }
{
    text == cause_text(cause)
}

// The cause, where the text tells it.
#[tactic(auto, using(crate::proofs::OneAnswer::hidden_cause))]
fn shown_cause(net: &Net, cause: WhyNone, text: &str) -> Option<ShownBound>
    requires live { IsLive net.now }
    requires cause { IsFirstCause net.now cause }
    ensures shown { IfSome result (IsShownBound net.now text.now) }
    ensures none { IfNone result (ShowsNoCause net.now text.now) }
{
    if tells_cause(cause, text) {
        Some(ShownBound::Without { cause })
    } else {
        None
    }
}

// The same, of a net that can be bounded: no cause is shown of it.
#[tactic(auto, using(crate::proofs::OneAnswer::bounded_shows_none))]
fn shown_without_cause(
    alloc: Global,
    net: &Net,
    text: &str,
) -> Result<Option<ShownBound>, OutOfMemory>
    requires live { IsLive net.now }
    requires bounded { CanBeBounded net.now }
    ensures shown { IfOk result (λ shown. IfSome shown (IsShownBound net.now text.now)) }
    ensures none { ShowsNoCause net.now text.now }
{
    shown_number(alloc, net, text)
}

/// What the text of `teg bound` tells, where the whole text is shown to be right (chapter 3): the
/// net is seen to be live, and it is the first cause why it has no bound; or the net has none of
/// them, the number is that of its bound, at the greatest ratio of its circuits, and number and
/// period of the second line are those of the shortest settled form of its least dating. Rows of
/// dates are found for that, and the ratio by them, with a circuit and potentials. A form for which
/// more than 100,000 rows have to be found, those up to its number, two periods and the most tokens
/// of a place, is not shown; a right cause always is. It takes memory for the rows, at most 1.3 GB for a net of 400
/// transitions, and time of the order transitions times places a row. `OutOfMemory` comes only where
/// no memory is found.
#[tactic(auto, using(crate::proofs::OneAnswer::dead_shows_none))]
pub fn shown_bound(alloc: Global, net: &Net, text: &str) -> Result<Option<ShownBound>, OutOfMemory>
    ensures shown { IfOk result (λ shown. IfSome shown (IsShownBound net.now text.now)) }
    ensures causes { IfOk result (λ shown. IfNone shown (ShowsNoCause net.now text.now)) }
{
    if !is_seen_live(alloc, net)? {
        return Ok(None);
    }
    let parts = split(alloc, net)?;
    match cause_of(net, &parts) {
        Some(cause) => Ok(shown_cause(net, cause, text)),
        None => shown_without_cause(alloc, net, text),
    }
}

// Whether the whole text is not the line of the cause.
fn tells_other(cause: WhyNone, text: &str) -> bool
    ensures { IsTrue result → text.now ≡ written (words_of_cause cause ∷ []) → ⊥ }
{
    text != cause_text(cause)
}

// Whether the text does not tell the cause that the net has.
fn hides_cause(net: &Net, cause: WhyNone, text: &str) -> bool
    requires live { IsLive net.now }
    requires cause { IsFirstCause net.now cause }
    ensures { IsTrue result → IsRefutedBound net.now text.now }
{
    tells_other(cause, text)
}

// Whether the text tells this cause, of a net that has none.
fn invents_cause(net: &Net, cause: WhyNone, text: &str) -> bool
    requires live { IsLive net.now }
    requires bounded { CanBeBounded net.now }
    ensures { IsTrue result → IsRefutedBound net.now text.now }
{
    tells_cause(cause, text)
}

// Whether the text tells some cause, of a net that has none.
fn invents_some(net: &Net, text: &str) -> bool
    requires live { IsLive net.now }
    requires bounded { CanBeBounded net.now }
    ensures { IsTrue result → IsRefutedBound net.now text.now }
{
    invents_cause(net, WhyNone::HasInputs, text)
        || invents_cause(net, WhyNone::NoPlace, text)
        || invents_cause(net, WhyNone::NotStrong, text)
        || invents_cause(net, WhyNone::ReadyDates, text)
}

/// Whether the text is no text of `teg bound` for the net, by its cause (chapter 3): the net is seen
/// to be live, and it has a cause that the text does not tell, or it has none and the text tells
/// one. A no says nothing. It takes time of the order transitions times places. `OutOfMemory` comes
/// only where no memory is found.
pub fn refutes_bound(alloc: Global, net: &Net, text: &str) -> Result<bool, OutOfMemory>
    ensures { IfOk result (λ yes. IsTrue yes → IsRefutedBound net.now text.now) }
{
    if !is_seen_live(alloc, net)? {
        return Ok(false);
    }
    let parts = split(alloc, net)?;
    match cause_of(net, &parts) {
        Some(cause) => Ok(hides_cause(net, cause, text)),
        None => Ok(invents_some(net, text)),
    }
}
