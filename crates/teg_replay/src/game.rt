//! The token game.
ghost use Rattle.std.specs.Prelude.{◌≡◌, ◌<◌, ◌≤◌, ◌^◌, ◌++◌, ◌∷◌, [], IfOk, IfErr, length};
ghost use Rattle.run_laws.specs.Runs.{next_number, IsLegalAfter};
ghost use Rattle.run_laws.specs.Earliest.{IsEarliest, tokens_after};
ghost use Rattle.teg_replay.specs.RefusedFirings.{IsRightFireRefusal, IsFailure};
ghost use Rattle.teg_replay.specs.Firings.{IsFiringOf};
ghost use Rattle.teg_replay.specs.Games.{GameState, IsGameOf};
ghost use Rattle.teg_replay.specs.RunsAndLeastDates.{StandsToLeastDates};

use crate::ends::EndLists;
use crate::history::History;
use crate::judge::judge;
use crate::refusal::FireRefusal;
use crate::waits::next_number;
use run_laws::Fired;
use std::alloc::Global;
use std::marker::Model;
use teg_net::{Net, OutOfMemory, TransitionId};
use teg_outside::Firing;

/// The token game of a net: the list of its accepted firings, which is a legal run. Contracts see
/// this list and what is kept beside it; it stands for each net of which that is true (`IsGameOf`).
#[derive(Debug, Drop)]
pub struct Game {
    history: History,
    ends: EndLists,
    tokens: u64,
}

impl Model for Game {
    ghost use Rattle.teg_replay.specs.Games.{GameState};

    ghost Value = { GameState };

    ghost view = { λ g. record {
      run = g.history.run;
      width = g.history.width;
      ends = g.ends;
      tokens = g.tokens;
    } };
}

// The initial tokens in all places.
fn initial_tokens(net: &Net) -> u64
    ensures { result ≡ tokens_after net.now [] }
{
    let mut tokens = 0;
    for place in net.places() {
        tokens += u64::from(place.tokens);
    }
    tokens
}

impl Game {
    /// No firing yet. `OutOfMemory` comes only where no memory is found. It takes time of order
    /// n m + p for n transitions and p places with at most m tokens, 1,000, and 8 bytes of memory for
    /// each n m while it is made.
    pub fn new(alloc: Global, net: &Net) -> Result<Game, OutOfMemory>
        ensures empty { IfOk result (λ game. game.run ≡ []) }
        ensures stands { IfOk result (λ game. IsGameOf net.now game) }
    {
        let history = History::new(alloc, net.transitions().len())?;
        let ends = EndLists::new(alloc, net)?;
        Ok(Game {
            history,
            ends,
            tokens: initial_tokens(net),
        })
    }

    /// The accepted firings, in order. It takes no memory.
    pub fn run(&self) -> &[Fired]
        ensures { result.now ≡ self.now.run }
    {
        self.history.run()
    }

    // The tokens in all places after one more firing, which may follow the run.
    fn tokens_with(&self, net: &Net, fired: Fired) -> u64
        requires stands { IsGameOf net.now self.now }
        requires few { length self.now.run < 2 ^ 40 }
        requires legal { IsLegalAfter net.now self.now.run fired }
        ensures { result ≡ tokens_after net.now (self.now.run ++ fired ∷ []) }
    {
        let brought = u64::from(self.ends.leaving(fired.transition));
        let taken = self.ends.entering(fired.transition).len() as u64;
        self.tokens + brought - taken
    }

    // Appends a firing that may follow the run, or changes nothing.
    fn accept(&mut self, net: &Net, fired: Fired, earliest: u64) -> Result<Firing, FireRefusal>
        requires stands { IsGameOf net.now self.old }
        requires few { length self.old.run < 2 ^ 40 }
        requires legal { IsLegalAfter net.now self.old.run fired }
        requires earliest { IsEarliest net.now self.old.run fired.transition.index
            (next_number self.old.run fired.transition.index) earliest }
        ensures appended { IfOk result (λ _. self.new.run ≡ self.old.run ++ fired ∷ []) }
        ensures told { IfOk result (λ firing. IsFiringOf net.now self.old.run fired firing) }
        ensures memory { IfErr result (λ why. IsRightFireRefusal net.now self.old.run fired why) }
        ensures unchanged { IfErr result (λ _. self.new ≡ self.old) }
        ensures stands { IsGameOf net.now self.new }
    {
        let number = next_number(&self.history, fired.transition);
        let tokens = self.tokens_with(net, fired);
        self.history.push(fired)?;
        self.tokens = tokens;
        Ok(Firing {
            transition: fired.transition.index,
            number,
            date: fired.date,
            earliest,
            tokens,
        })
    }

    /// Fires the transition at the date, in the user's unit of time, where this may follow the
    /// accepted firings: the tokens of the places into it are there, the date is not before that of
    /// the last firing, and an input is released.
    ///
    /// Otherwise the first of these that fails is told, and nothing changes, as where no memory is
    /// found. The transition is one of the net for which the game was made, the date at most 10^18,
    /// and fewer than 2^40 firings were accepted. It takes time in proportion to the places into
    /// the transition, past its first 1,000 firings of one place only for each upstream transition
    /// and number of tokens.
    pub fn fire(
        &mut self,
        _alloc: Global,
        net: &Net,
        transition: TransitionId,
        date: u64,
    ) -> Result<Firing, FireRefusal>
        requires stands { IsGameOf net.now self.old }
        requires transition { transition.index < length net.now.transitions }
        requires few { length self.old.run < 2 ^ 40 }
        requires date { date ≤ 10 ^ 18 }

        // what an accepted firing is, and what is told of it
        ensures legal { IfOk result
            (λ _. IsLegalAfter net.now self.old.run
            (record { transition = transition; date = date })) }
        ensures appended { IfOk result
            (λ _. self.new.run
            ≡ self.old.run ++ (record { transition = transition; date = date }) ∷ []) }
        ensures told { IfOk result
            (λ firing. IsFiringOf net.now self.old.run
            (record { transition = transition; date = date }) firing) }

        ensures least { IfOk result (λ firing. StandsToLeastDates net.now self.old.run firing) }

        // why one is refused, which changes nothing; a legal one is refused for want of memory
        // alone
        ensures refused { IfErr result
            (λ why. IsRightFireRefusal net.now self.old.run
            (record { transition = transition; date = date }) why) }
        ensures failure { IfErr result
            (λ why. IsFailure why
            → IsLegalAfter net.now self.old.run
            (record { transition = transition; date = date }) → ⊥) }
        ensures unchanged { IfErr result (λ _. self.new ≡ self.old) }

        ensures stands { IsGameOf net.now self.new }
    {
        let fired = Fired { transition, date };
        match judge(&self.history, &self.ends, net, fired) {
            Ok(earliest) => self.accept(net, fired, earliest),
            Err(why) => Err(why),
        }
    }
}
