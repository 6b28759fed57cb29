//! What firings wait for beside the tokens of earlier firings: the net's own initial tokens and
//! input lists, or one input alone.
ghost use Rattle.std.specs.Prelude.{◌≡◌, ◌≤◌, ◌^◌, IfOk};
ghost use Rattle.teg_net.specs.Limits.{greatest_firing_number};
ghost use Rattle.periodic_laws.specs.teg_model.DateBounds.{IsDateWithin};
ghost use Rattle.teg_settle.specs.Alone.{IsReleasedAlone};
ghost use Rattle.list_spans.specs.ListDates.{list_number};
ghost use Rattle.teg_settle.specs.InitialReleases.{release_by, wait_by_role, wait_in};
ghost use Rattle.list_spans.specs.Spans.{AreSpans, IsSpan};
ghost use Rattle.teg_settle.specs.Steps.{AreOwnReleases};

use date_rows::Source;
use dioid::Date;
use list_spans::{Span, date_of_list, list_number, spans_of};
use std::alloc::{AllocError, Global};
use teg_net::{Net, PlaceId, Role, TransitionId};

// What the firings of a transition wait for beside tokens.
#[derive(Clone, Copy, Debug, Drop)]
pub(crate) enum Wait {
    // For nothing.
    Nothing,
    // For the dates of the net's input list of this number, or for date 0 where it has none of it.
    Dates(usize),
}

// Whether there are initial tokens.
#[derive(Clone, Copy, Debug, Drop)]
pub(crate) enum Tokens {
    // Each is there from its ready date on.
    Ready,
    // There are none, so that what takes one waits for nothing.
    Absent,
}

/// Past a number the dates go on evenly.
#[derive(Clone, Copy, Debug, Drop)]
pub struct Repetition {
    /// The number, 0 or more.
    pub after: u64,
    /// In so many numbers, at least 1.
    pub period: u64,
}

/// The ready dates and the input lists of a net, or one input alone. With the places of a net they
/// make a system: each list is found once, and not for each firing, and so is from where on its
/// dates go on evenly. Contracts see them by `AreOwnReleases`.
#[derive(Debug, Drop)]
pub struct Releases {
    tokens: Tokens,
    waits: Vec<Wait>,
    spans: Vec<Span>,
}

// What a transition of this role waits for.
fn wait_of(net: &Net, transition: TransitionId, role: Role) -> Wait
    ensures { result ≡ wait_by_role role (list_number net.now transition.index) }
{
    match role {
        Role::Internal | Role::Output => Wait::Nothing,
        Role::Input => Wait::Dates(list_number(net, transition)),
    }
}

impl Releases {
    // Each initial token from its ready date on, and each input by its list.
    pub(crate) fn of_net(alloc: Global, net: &Net) -> Result<Releases, AllocError>
        ensures { IfOk result (AreOwnReleases net.now) }
    {
        let mut waits = Vec::new(alloc);
        for (index, transition) in net.transitions().iter().enumerate() {
            let id = TransitionId {
                index: index as u32,
            };
            waits.push(wait_of(net, id, transition.role))?;
        }
        let spans = spans_of(alloc, net)?;
        let tokens = Tokens::Ready;
        Ok(Releases {
            tokens,
            waits,
            spans,
        })
    }

    // No initial token, and one input from date 0 on.
    pub(crate) fn of_input(
        alloc: Global,
        net: &Net,
        input: TransitionId,
    ) -> Result<Releases, AllocError>
        ensures { IfOk result (IsReleasedAlone net.now input.index) }
    {
        let none = net.inputs().len();
        let mut waits = Vec::new(alloc);
        for index in 0..net.transitions().len() {
            let wait = if index as u32 == input.index {
                Wait::Dates(none)
            } else {
                Wait::Nothing
            };
            waits.push(wait)?;
        }
        let tokens = Tokens::Absent;
        let spans = spans_of(alloc, net)?;
        Ok(Releases {
            tokens,
            waits,
            spans,
        })
    }

    // What the transition waits for.
    fn wait(&self, transition: TransitionId) -> Wait
        ensures { result ≡ wait_in self.now.waits.items transition.index }
    {
        let index = transition.index as usize;
        if index < self.waits.len() {
            self.waits[index]
        } else {
            Wait::Nothing
        }
    }

    // The date before which this firing is not released.
    pub(crate) fn date(&self, net: &Net, transition: TransitionId, number: u64) -> Date
        requires first { 1 ≤ number }
        requires last { number ≤ greatest_firing_number }
        ensures value { result ≡ release_by self.now.waits.items net.now transition.index number }
        ensures within { IsDateWithin (2 ^ 126) result }
    {
        match self.wait(transition) {
            Wait::Nothing => Date::Early,
            Wait::Dates(list) => date_of_list(net, list, number),
        }
    }

    // From where on, and by which gap in how many numbers, these dates go on evenly.
    pub(crate) fn span(&self, net: &Net, transition: TransitionId) -> Span
        requires { AreSpans net.now self.now.spans.items }
        ensures { IsSpan (release_by self.now.waits.items net.now transition.index) result }
    {
        match self.wait(transition) {
            Wait::Nothing => Span::from_start(),
            Wait::Dates(list) => {
                if list < self.spans.len() {
                    self.spans[list]
                } else {
                    Span::from_start()
                }
            }
        }
    }
}

impl Source for Releases {
    ghost use Rattle.teg_settle.specs.InitialReleases.{initial_by, release_by};

    ghost initial = { λ r. initial_by r.tokens };

    ghost release = { λ r net. release_by r.waits.items net };

    fn initial(&self, net: &Net, place: PlaceId, token: u32) -> Date {
        match self.tokens {
            Tokens::Ready => Date::At(i128::from(net.ready(place, token))),
            Tokens::Absent => Date::Early,
        }
    }

    fn first(&self, net: &Net, transition: TransitionId) -> Date {
        match self.tokens {
            Tokens::Ready => Date::At(0),
            Tokens::Absent => Date::Early,
        }
    }

    fn release(&self, net: &Net, transition: TransitionId, number: u64) -> Date {
        self.date(net, transition, number)
    }
}
