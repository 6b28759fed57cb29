//! What happened in a net: a run, with the dates of each transition beside it.
ghost use Rattle.std.specs.Prelude.{◌≡◌, ◌<◌, ◌≤◌, ◌++◌, ◌∷◌, [], IfOk, is_ok, if◌then◌else◌, length, replicate};
ghost use Rattle.teg_net.specs.Circuits.{place_at};
ghost use Rattle.run_laws.specs.Earliest.{tokens_in};
ghost use Rattle.run_laws.specs.Runs.{dates_of_transition, firing_date};
ghost use Rattle.state_laws.specs.NetsLeft.{count_in};

use run_laws::Fired;
use std::alloc::{AllocError, Global};
use std::marker::Model;
use teg_net::{Net, PlaceId, TransitionId};

// The dates of the firings of one transition, in order.
#[derive(Debug, Drop)]
struct Column {
    dates: Vec<u64>,
}

impl Model for Column {
    ghost use Rattle.std.specs.Prelude.{ℕ, List};

    ghost Value = { List ℕ };

    ghost view = { λ c. c.dates.items };
}

impl Column {
    // No dates.
    fn new(alloc: Global) -> Column
        ensures { result ≡ [] }
    {
        Column {
            dates: Vec::new(alloc),
        }
    }

    // The dates.
    fn as_slice(&self) -> &[u64]
        ensures { result.now ≡ self.now }
    {
        &self.dates
    }

    // Appends a date, or changes nothing.
    fn push(&mut self, date: u64) -> Result<(), AllocError>
        ensures { self.new ≡ (if is_ok result then self.old ++ date ∷ [] else self.old) }
    {
        self.dates.push(date)?;
        Ok(())
    }
}

// So many columns without dates.
#[tactic(auto, using(std::proofs::lemmas::List::replicate_more))]
fn empty_columns(alloc: Global, width: usize) -> Result<Vec<Column>, AllocError>
    ensures { IfOk result (λ columns. columns.items ≡ replicate width []) }
{
    let mut columns = Vec::new(alloc);
    for _index in 0..width {
        columns.push(Column::new(alloc))?;
    }
    Ok(columns)
}

/// What happened in a net: the firings in the order in which they were taken down, whether or not
/// they were legal, with how often each transition fired and when (chapter 2). Contracts see the
/// run, and the number of transitions that it is kept for.
#[derive(Debug, Drop)]
pub struct History {
    run: Vec<Fired>,
    columns: Vec<Column>,
}

impl Model for History {
    ghost use Rattle.std.specs.Prelude.{length};
    ghost use Rattle.teg_state.specs.Histories.{AreDatesByTransition, Past};

    ghost Value = { Past };

    ghost view = { λ h. record { width = length h.columns.items; run = h.run.items } };

    ghost invariant = { λ h. AreDatesByTransition h.run.items h.columns.items };
}

impl History {
    /// The net, in which nothing happened yet. `AllocError` comes only where no memory is found. It
    /// takes a step for each transition.
    pub fn new(alloc: Global, net: &Net) -> Result<History, AllocError>
        ensures { IfOk result
            (λ history. history ≡ record { width = length net.now.transitions; run = [] }) }
    {
        let columns = empty_columns(alloc, net.transitions().len())?;
        Ok(History {
            run: Vec::new(alloc),
            columns,
        })
    }

    /// The net after this run. `AllocError` comes only where no memory is found. It takes time of
    /// order n + r for n transitions and r firings.
    pub fn of(alloc: Global, net: &Net, run: &[Fired]) -> Result<History, AllocError>
        ensures { IfOk result
            (λ history. history ≡ record { width = length net.now.transitions; run = run.now }) }
    {
        let mut history = History::new(alloc, net)?;
        for fired in run {
            history.push(*fired)?;
        }
        Ok(history)
    }

    /// Takes a firing down behind those that happened; of a transition that the net has not it is
    /// kept in the run alone. Where no memory is found nothing changes.
    pub fn push(&mut self, fired: Fired) -> Result<(), AllocError>
        ensures { self.new ≡ (if is_ok result then record self.old
            { run = self.old.run ++ fired ∷ [] } else self.old) }
    {
        self.run.reserve(1)?;
        let index = fired.transition.index as usize;
        if index < self.columns.len() {
            self.columns[index].push(fired.date)?;
        }
        self.run.push_reserved(fired);
        Ok(())
    }

    /// What happened, in the order in which it was taken down. It takes no memory.
    pub fn run(&self) -> &[Fired]
        ensures { result.now ≡ self.now.run }
    {
        &self.run
    }

    /// For how many transitions the dates are kept: those of the net. It takes no memory.
    pub fn width(&self) -> usize
        ensures { result ≡ self.now.width }
    {
        self.columns.len()
    }

    /// The dates at which the transition fired, in the user's unit and in the order in which they
    /// were taken down. It takes no memory.
    pub fn dates(&self, transition: TransitionId) -> &[u64]
        requires { transition.index < self.now.width }
        ensures { result.now ≡ dates_of_transition self.now.run transition.index }
    {
        self.columns[transition.index as usize].as_slice()
    }

    /// How often the transition fired. It takes no memory.
    #[tactic(auto, using(crate::proofs::RunSteps::count_few))]
    pub fn fired(&self, transition: TransitionId) -> u64
        requires { transition.index < self.now.width }
        ensures count { result ≡ count_in self.now.run transition.index }
        ensures few { result ≤ length self.now.run }
    {
        self.dates(transition).len() as u64
    }

    /// The date of firing `number` of the transition, from 1 on, in the user's unit; none where it
    /// did not happen. It takes no memory.
    pub fn date(&self, transition: TransitionId, number: u64) -> Option<u64>
        requires transition { transition.index < self.now.width }
        requires number { 1 ≤ number }
        ensures { result ≡ firing_date self.now.run transition.index number }
    {
        self.dates(transition).get(number as usize - 1).copied()
    }

    /// The tokens that now stand in the place: those that it had at first and got, less those that
    /// it gave; none where it gave more (chapter 2). It takes no memory.
    pub fn tokens(&self, net: &Net, place: PlaceId) -> u64
        requires place { place.index < length net.now.places }
        requires width { self.now.width ≡ length net.now.transitions }
        ensures { result ≡ tokens_in self.now.run (place_at net.now place) }
    {
        net.rules();
        let place = net.place(place);
        let got = self.dates(place.from).len() as u64;
        let given = self.fired(place.to);
        (u64::from(place.tokens) + got).saturating_sub(given)
    }
}
