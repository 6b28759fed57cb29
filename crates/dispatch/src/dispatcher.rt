//! A live net with what happened in it.
ghost use Rattle.std.specs.Prelude.{◌≡◌, ◌≤◌, ◌^◌, ◌++◌, ◌∷◌, [], IfErr, IfOk, length};
ghost use Rattle.run_laws.specs.Runs.{IsLegalAfter};
ghost use Rattle.std.specs.List.{filter};
ghost use Rattle.teg_net.specs.Limits.{most_rows};
ghost use Rattle.date_rows.specs.KeptRows.{AreLeastRows};
ghost use Rattle.teg_due.specs.RowRules.{IsDueOf};
ghost use Rattle.state_laws.specs.NetsLeft.{system_after};
ghost use Rattle.teg_replay.specs.Firings.{IsFiringOf};
ghost use Rattle.dispatch.specs.Outlooks.{IsWhyNotFired, is_missed};

use date_rows::Rows;
use run_laws::Fired;
use std::alloc::{AllocError, Global};
use std::marker::Model;
use teg_check::LiveNet;
use teg_due::{Due, DueRow};
use teg_net::{OutOfMemory, TransitionId};
use teg_outside::Firing;
use teg_replay::{FireRefusal, Game};

/// A live net and the firings that happened in it, in the order in which they were taken down.
/// Contracts see the net and the firings.
#[derive(Drop)]
pub struct Dispatcher {
    held: LiveNet,
    game: Game,
}

impl Model for Dispatcher {
    ghost use Rattle.std.specs.Prelude.{All, ◌≤◌, ◌^◌};
    ghost use Rattle.teg_replay.specs.Games.{IsGameOf};
    ghost use Rattle.dispatch.specs.Outlooks.{ShopState, IsShopOf};

    ghost Value = { ShopState };

    ghost view = { λ a. record { net = a.held; run = a.game.run } };

    ghost invariant = { λ a. IsShopOf a.held a.game };
}

/// Why a firing is not taken down; what happened stays as it was.
#[derive(Debug, Drop)]
pub enum NotFired {
    /// The net has no such transition.
    NoTransition,
    /// The date is past 10^18, or 2^40 firings are taken down already.
    Limit,
    /// It may not follow what happened, or no memory was found: `FireRefusal` says why.
    Refused { refusal: FireRefusal },
}

impl Dispatcher {
    /// The net, in which nothing happened yet. `OutOfMemory` comes only where no memory is found.
    pub fn new(alloc: Global, held: LiveNet) -> Result<Dispatcher, OutOfMemory>
        ensures net { IfOk result (λ shop. shop.net ≡ held) }
        ensures empty { IfOk result (λ shop. shop.run ≡ []) }
    {
        let game = Game::new(alloc, held.net())?;
        Ok(Dispatcher { held, game })
    }

    /// Takes a firing of the transition at this date down, in the user's unit, exactly where it may
    /// follow what happened (chapter 2). It tells its number, the date from which it could come, and
    /// the tokens that then stand in the net.
    ///
    /// `NoTransition` comes where the net has no such transition, `Limit` where the date is past
    /// 10^18 or 2^40 firings are taken down, and else `Refused` with the first way in which the
    /// firing may not follow, or with `OutOfMemory` where no memory is found. What happened is then
    /// as it was. It takes the time of `Game::fire`.
    pub fn fire(
        &mut self,
        alloc: Global,
        transition: TransitionId,
        date: u64,
    ) -> Result<Firing, NotFired>
        ensures net { self.new.net ≡ self.old.net }
        ensures legal { IfOk result
            (λ _. IsLegalAfter self.old.net self.old.run
            (record { transition = transition; date = date })) }
        ensures appended { IfOk result
            (λ _. self.new.run
            ≡ self.old.run ++ (record { transition = transition; date = date }) ∷ []) }
        ensures told { IfOk result
            (λ firing. IsFiringOf self.old.net self.old.run
            (record { transition = transition; date = date }) firing) }
        ensures refused { IfErr result
            (λ why. IsWhyNotFired self.old (record { transition = transition; date = date }) why) }
        ensures unchanged { IfErr result (λ _. self.new ≡ self.old) }
    {
        if !self.held.net().contains_transition(transition) {
            return Err(NotFired::NoTransition);
        }
        if 1_000_000_000_000_000_000 < date || 1 << 40 <= self.game.run().len() {
            return Err(NotFired::Limit);
        }
        match self.game.fire(alloc, self.held.net(), transition, date) {
            Ok(firing) => Ok(firing),
            Err(refusal) => Err(NotFired::Refused { refusal }),
        }
    }

    /// What happened, in the order in which it was taken down. It takes no memory.
    pub fn run(&self) -> &[Fired]
        ensures { result.now ≡ self.now.run }
    {
        self.game.run()
    }

    /// The dates of the first `count` firings of each transition, those that happened with them,
    /// as [`crate::outlook`] tells them.
    pub fn outlook(&self, alloc: Global, now: u64, count: u64) -> Result<Rows, OutOfMemory>
        requires now { now ≤ 10 ^ 18 }
        requires few { count ≤ most_rows }
        ensures count { IfOk result (λ rows. rows.count ≡ count) }
        ensures rows { IfOk result
            (AreLeastRows self.now.net (system_after self.now.net self.now.run now)) }
    {
        crate::forecast::outlook(alloc, &self.held, self.game.run(), now, count)
    }

    /// The due rows that these dates miss, as [`crate::missed`] tells them.
    pub fn missed(&self, alloc: Global, rows: &Rows, due: &Due) -> Result<Vec<DueRow>, AllocError>
        requires width { rows.now.width ≡ length self.now.net.transitions }
        requires due { IsDueOf self.now.net due.now.rows.items }
        ensures { IfOk result (λ missed. missed.items
            ≡ filter (is_missed rows.now) due.now.rows.items) }
    {
        crate::forecast::missed(alloc, &self.held, rows, due)
    }
}
