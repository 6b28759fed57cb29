//! A live net with what happened in it.
ghost use Rattle.std.specs.Prelude.{◌≡◌, ◌<◌, ◌≤◌, ◌^◌, ◌++◌, ◌∷◌, [], All, IfErr, IfOk, Ok, OnErr, OnOk, length, map};
ghost use Rattle.run_laws.specs.Earliest.{tokens_in};
ghost use Rattle.run_laws.specs.Runs.{firing_date};
ghost use Rattle.state_laws.specs.NetsLeft.{IsNetAfter, count_in};
ghost use Rattle.state_laws.specs.Rests.{ArePaid};
ghost use Rattle.teg_due.specs.Logs.{log_of};
ghost use Rattle.teg_due.specs.csv_records.Records.{most_file_bytes};
ghost use Rattle.teg_due.specs.RowRules.{IsDueOf};
ghost use Rattle.teg_net.specs.Circuits.{place_at};
ghost use Rattle.teg_state.specs.LeftLists.{AreNear};
ghost use Rattle.teg_state.specs.LeftRows.{rows_left};
ghost use Rattle.teg_state.specs.WhyNotLeft.{IsWhyNotLeft};
ghost use Rattle.dispatcher.specs.Plants.{AreFiringsOf, IsWhyNotTaken, fired_of};

use crate::outlook::Outlook;
use run_laws::Fired;
use std::alloc::{AllocError, Global};
use std::error::Error;
use std::fmt;
use std::marker::Model;
use teg_check::LiveNet;
use teg_due::{Due, LogRefusal, LogRow, read_log};
use teg_net::{Net, OutOfMemory, PlaceId, TransitionId};
use teg_state::{History, NotLeft, live_net_after};

/// A live net with the firings that happened in it, whether or not they were legal. Contracts see
/// the net and the firings.
#[derive(Drop)]
pub struct Plant {
    held: LiveNet,
    history: History,
}

impl Model for Plant {
    ghost use Rattle.dispatcher.specs.Plants.{IsPlantOf, PlantState};

    ghost Value = { PlantState };

    ghost view = { λ p. record { net = p.held; run = p.history.run } };

    ghost invariant = { λ p. IsPlantOf p.held p.history };
}

/// Why a firing is not taken down; what happened stays as it was.
#[derive(Clone, Copy, Debug, PartialEq, Eq)]
pub enum NotTaken {
    /// The net has no such transition.
    NoTransition,
    /// The date is past 10^18, or 2^40 firings are taken down already.
    Limit,
    /// No memory was found.
    OutOfMemory,
}

impl fmt::Display for NotTaken {
    fn fmt<W: fmt::Write>(&self, f: &mut fmt::Formatter<W>) -> fmt::Result {
        match self {
            NotTaken::NoTransition => write!(f, "the net has no such transition"),
            NotTaken::Limit => write!(f, "a date or the number of firings is past its limit"),
            NotTaken::OutOfMemory => write!(f, "no memory was found"),
        }
    }
}

impl Error for NotTaken {}

// The firings of the rows of a log.
fn firings(alloc: Global, rows: &[LogRow]) -> Result<Vec<Fired>, AllocError>
    requires { All (λ row. row.date ≤ 10 ^ 18) rows.now }
    ensures run { IfOk result (λ run. run.items ≡ map fired_of rows.now) }
    ensures dates { IfOk result (λ run. All (λ f. f.date ≤ 10 ^ 18) run.items) }
    ensures count { IfOk result (λ run. length run.items ≡ length rows.now) }
{
    rows.iter()
        .map(|row| Fired {
            transition: row.transition,
            date: row.date,
        })
        .collect(alloc)
}

impl Plant {
    /// The net, in which nothing happened yet. `OutOfMemory` comes only where no memory is found.
    pub fn new(alloc: Global, held: LiveNet) -> Result<Plant, OutOfMemory>
        ensures net { IfOk result (λ plant. plant.net ≡ held) }
        ensures empty { IfOk result (λ plant. plant.run ≡ []) }
    {
        let history = History::new(alloc, held.net())?;
        Ok(Plant { held, history })
    }

    /// Takes a firing of the transition at this date down, in the user's unit, whether or not the
    /// holding times allow it.
    ///
    /// `NoTransition` comes where the net has no such transition, `Limit` where the date is past
    /// 10^18 or 2^40 firings are taken down; `OutOfMemory` comes only where no memory is found. What
    /// happened is then as it was.
    pub fn record(&mut self, transition: TransitionId, date: u64) -> Result<(), NotTaken>
        ensures net { self.new.net ≡ self.old.net }
        ensures appended { OnOk result (self.new.run
            ≡ self.old.run ++ (record { transition = transition; date = date }) ∷ []) }
        ensures refused { IfErr result
            (λ why. IsWhyNotTaken self.old (record { transition = transition; date = date }) why) }
        ensures unchanged { OnErr result (self.new ≡ self.old) }
    {
        if !self.held.net().contains_transition(transition) {
            return Err(NotTaken::NoTransition);
        }
        if 1_000_000_000_000_000_000 < date || 1 << 40 <= self.history.run().len() {
            return Err(NotTaken::Limit);
        }
        match self.history.push(Fired { transition, date }) {
            Ok(()) => Ok(()),
            Err(_) => Err(NotTaken::OutOfMemory),
        }
    }

    /// The net with the firings of a log of at most 4,194,304 bytes (rules of logs), or why it is no
    /// log. `OutOfMemory` comes only where no memory is found. It takes the time of `read_log`.
    pub fn of_log(alloc: Global, held: LiveNet, log: &[u8]) -> Result<Plant, LogRefusal>
        requires { length log.now ≤ most_file_bytes }
        ensures net { IfOk result (λ plant. plant.net ≡ held) }
        ensures run { IfOk result (λ plant. AreFiringsOf held log.now plant.run) }
        ensures refused { IfErr result (λ e. (e ≡ LogRefusal.OutOfMemory → ⊥) → log_of held log.now
            ≡ Err e) }
    {
        let rows = read_log(alloc, held.net(), log)?;
        let Ok(run) = firings(alloc, &rows) else {
            return Err(LogRefusal::OutOfMemory);
        };
        match History::of(alloc, held.net(), &run) {
            Ok(history) => Ok(Plant { held, history }),
            Err(_) => Err(LogRefusal::OutOfMemory),
        }
    }

    /// The net, as it was before anything happened. It takes no memory.
    pub fn net(&self) -> &Net
        ensures { result.now ≡ self.now.net }
    {
        self.held.net()
    }

    /// What happened, in the order in which it was taken down, within the limits that
    /// `live_net_after` asks. It takes no memory.
    pub fn run(&self) -> &[Fired]
        ensures run { result.now ≡ self.now.run }
        ensures dates { All (λ f. f.date ≤ 10 ^ 18) result.now }
        ensures few { length result.now ≤ 2 ^ 40 }
    {
        self.history.run()
    }

    /// How often the transition fired. It takes no memory.
    pub fn fired(&self, transition: TransitionId) -> u64
        requires { transition.index < length self.now.net.transitions }
        ensures { result ≡ count_in self.now.run transition.index }
    {
        self.history.fired(transition)
    }

    /// The date of firing `number` of the transition, from 1 on, in the user's unit; none where it
    /// did not happen. It takes no memory.
    pub fn date(&self, transition: TransitionId, number: u64) -> Option<u64>
        requires transition { transition.index < length self.now.net.transitions }
        requires number { 1 ≤ number }
        ensures { result ≡ firing_date self.now.run transition.index number }
    {
        self.history.date(transition, number)
    }

    /// The tokens that now stand in the place (chapter 2). It takes no memory.
    pub fn tokens(&self, place: PlaceId) -> u64
        requires { place.index < length self.now.net.places }
        ensures { result ≡ tokens_in self.now.run (place_at self.now.net place) }
    {
        self.history.tokens(self.held.net(), place)
    }

    /// What is left to do from now on, a date in the user's unit: the net that the firings leave,
    /// in which no token and no input's date is before now (chapter 2). No place gave more tokens
    /// than it had and got. It is refused as `live_net_after` is, and takes its time, of order
    /// n + p + r for n transitions, p places and r firings beside the tokens and dates that are left.
    pub fn from_now_on(&self, alloc: Global, now: u64) -> Result<Outlook, NotLeft>
        ensures net { IfOk result (IsNetAfter self.now.net self.now.run now) }
        ensures paid { IfOk result (λ _. ArePaid (count_in self.now.run) self.now.net.places) }
        ensures near { IfOk result
            (λ _. AreNear self.now.net self.now.run now (length self.now.net.transitions)) }
        ensures refused { IfErr result (IsWhyNotLeft self.now.net self.now.run now) }
    {
        let rest = live_net_after(alloc, &self.held, self.history.run(), now)?;
        Ok(Outlook::of(rest))
    }

    /// The due rows of the firings that are still to come, in their order, each with its number from
    /// now on, as this outlook of the plant asks for them (chapter 5): the row of firing `k` of a
    /// transition that fired `n` times becomes that of firing `k - n`, and is left out where its
    /// firing came. `AllocError` comes only where no memory is found. It takes a step for each row.
    pub fn due_left(&self, alloc: Global, outlook: &Outlook, due: &Due) -> Result<Due, AllocError>
        requires due { IsDueOf self.now.net due.now.rows.items }
        requires outlook { outlook.now.transitions ≡ self.now.net.transitions }
        ensures rows { IfOk result
            (λ left. left.rows.items ≡ rows_left self.now.run due.now.rows.items) }
        ensures rules { IfOk result (λ left. IsDueOf outlook.now left.rows.items) }
    {
        self.history
            .due_left(alloc, self.held.net(), outlook.net(), due)
    }
}
