//! The dates that the input lists of a net give, and from where on they go on evenly.
ghost use Rattle.std.specs.Prelude.{◌≡◌, ◌+◌, ◌<◌, ◌≤◌, ◌^◌, IfOk, IsTrue, ℕ};
ghost use Rattle.dioid.specs.Dates.{delayed};
ghost use Rattle.teg_net.specs.Limits.{greatest_every, greatest_firing_number, most_input_dates};
ghost use Rattle.settled_laws.specs.teg_model.DateBounds.{IsDateWithin};
ghost use Rattle.list_spans.specs.ListDates.{date_of_list, list_number};
ghost use Rattle.list_spans.specs.Spans.{AreSpans, IsSpan};

use dioid::Date;
use std::alloc::{AllocError, Global};
use teg_net::{Net, TransitionId};

/// Past a number the dates go on evenly: in each so many numbers by a gap.
#[derive(Clone, Copy, Debug, Drop)]
pub struct Span {
    /// The number, 0 or more.
    pub after: u64,
    /// How many numbers, at least 1.
    pub every: u64,
    /// By how much later the dates are, in the user's unit.
    pub gap: u64,
}

impl Span {
    /// Each date is that of the first number.
    pub fn from_start() -> Span
        ensures { result ≡ record { after = 0; every = 1; gap = 0 } }
    {
        Span {
            after: 0,
            every: 1,
            gap: 0,
        }
    }
}

/// The number of the transition's list, or the number of all lists where it has none.
pub fn list_number(net: &Net, transition: TransitionId) -> usize
    ensures { result ≡ list_number net.now transition.index }
{
    let lists = net.inputs();
    match lists
        .iter()
        .position(|list| list.transition.index == transition.index)
    {
        Some(number) => number,
        None => lists.len(),
    }
}

/// The date that the list of this number gives the firing (chapter 1), and 0 where the net has no
/// such list; `Never` past the end of a list that does not go on.
pub fn date_of_list(net: &Net, list: usize, number: u64) -> Date
    requires first { 1 ≤ number }
    requires last { number ≤ greatest_firing_number }
    ensures value { result ≡ date_of_list net.now list number }
    ensures within { IsDateWithin (2 ^ 126) result }
{
    match net.inputs().get(list) {
        None => Date::At(0),
        Some(list) => match list.date(number) {
            Some(date) => Date::At(date as i128),
            None => Date::Never,
        },
    }
}

// The span of a list as it is given: past its dates, and from the first on where the net has no
// list of this number.
fn span_of_list(net: &Net, list: usize) -> Span
    ensures { IsSpan (date_of_list net.now list) result }
{
    match net.inputs().get(list) {
        None => Span::from_start(),
        Some(list) => {
            let after = list.dates.as_slice().len() as u64;
            match list.again {
                None => Span {
                    after,
                    every: 1,
                    gap: 0,
                },
                Some(again) => Span {
                    after,
                    every: again.every as u64,
                    gap: again.gap,
                },
            }
        }
    }
}

// Whether the date of this number goes on by the span.
fn goes_on(net: &Net, list: usize, number: u64, span: Span) -> bool
    requires first { 1 ≤ number }
    requires last { number + span.every ≤ greatest_firing_number }
    ensures { IsTrue result → date_of_list net.now list (number + span.every)
        ≡ delayed span.gap (date_of_list net.now list number) }
{
    let early = date_of_list(net, list, number);
    let late = date_of_list(net, list, number + span.every);
    match (early, late) {
        (Date::At(early), Date::At(late)) => late - early == i128::from(span.gap),
        (Date::Never, Date::Never) => true,
        _ => false,
    }
}

// Whether so many dates past its number go on by the span.
fn goes_on_for(net: &Net, list: usize, span: Span, count: u64) -> bool
    requires after { span.after ≤ most_input_dates }
    requires every { span.every ≤ greatest_every }
    requires count { count ≤ greatest_every }
    ensures { IsTrue result → (k : ℕ) → span.after < k → k ≤ span.after + count
        → date_of_list net.now list (k + span.every)
        ≡ delayed span.gap (date_of_list net.now list k) }
{
    for number in span.after + 1..span.after + count + 1 {
        if !goes_on(net, list, number, span) {
            return false;
        }
    }
    true
}

// The same span with the least `every` by which the dates past its number go on.
fn with_least_every(net: &Net, list: usize) -> Span
    ensures { IsSpan (date_of_list net.now list) result }
{
    let span = span_of_list(net, list);
    for every in 1..span.every {
        if span.every % every == 0 {
            let gap = span.gap * every / span.every;
            let after = span.after;
            let shorter = Span { after, every, gap };
            if goes_on_for(net, list, shorter, span.every) {
                return shorter;
            }
        }
    }
    span
}

// The span of the list of this number: the least by which its dates go on, from the least number
// on.
fn least_span(net: &Net, list: usize) -> Span
    ensures { IsSpan (date_of_list net.now list) result }
{
    let mut span = with_least_every(net, list);
    while span.after > 0 && goes_on(net, list, span.after, span) {
        span.after -= 1;
    }
    span
}

/// Of each input list of the net from where on its dates go on evenly, by the least number of dates
/// in which they do, from the least number on. It comes to `AllocError` only where no memory is
/// found.
pub fn spans_of(alloc: Global, net: &Net) -> Result<Vec<Span>, AllocError>
    ensures { IfOk result (λ spans. AreSpans net.now spans.items) }
{
    let mut spans = Vec::new(alloc);
    for list in 0..net.inputs().len() {
        spans.push(least_span(net, list))?;
    }
    Ok(spans)
}
