//! What a game leaves: the net from now on.
ghost use Rattle.std.specs.Prelude.{ℕ, ◌≤◌, ◌^◌, All, IfOk, length};
ghost use Rattle.state_laws.specs.NetsLeft.{count_in, date_in, system_after, system_from, IsFed, IsLeastFromNow};
ghost use Rattle.state_laws.specs.Rests.{dating_left, rest_of, ArePaid};
ghost use Rattle.teg_check.specs.Ranks.{IsRanking};
ghost use Rattle.teg_model.specs.Datings.{IsLeastDating};
ghost use Rattle.teg_model.specs.Systems.{IsLeastIn};
ghost use Rattle.teg_model.specs.dioid.declared.dates.Date.{Date};
ghost use Rattle.teg_replay.specs.Games.{IsGameOf};

use run_laws::Fired;
use state_laws::{least_datings_go_on, legal_runs_go_on};
use std::alloc::Global;
use teg_check::{Live, ranked_nets_are_live};
use teg_net::Net;
use teg_replay::Game;
use teg_state::{NotLeft, net_after};

/// The net that a game leaves, of which the least dating is, from now on, that of the old net in
/// which no firing is before it happened.
pub fn net_after_game(
    alloc: Global,
    net: &Net,
    live: &Live,
    game: &Game,
    now: u64,
) -> Result<Net, NotLeft>
    requires live { IsRanking net.now live.now }
    requires game { IsGameOf net.now game.now }
    requires fed { IsFed net.now }
    requires over { All (λ f. f.date ≤ now) game.now.run }
    requires dates { All (λ f. f.date ≤ 10 ^ 18) game.now.run }
    requires few { length game.now.run ≤ 2 ^ 40 }
    ensures { IfOk result (λ rest. (x : ℕ → ℕ → Date)
        → IsLeastIn (system_after net.now game.now.run now) x
        → IsLeastDating rest (dating_left (count_in game.now.run) x)) }
{
    net.rules();
    ranked_nets_are_live();
    legal_runs_go_on();
    let rest = net_after(alloc, net, game.run(), now)?;
    Ok(rest)
}

/// From there on, the least dating from now on is that of the rest of the system.
pub fn rest_is_least(net: &Net, run: &[Fired], now: u64)
    requires paid { ArePaid (count_in run.now) (system_from net.now now).places }
    ensures { (x : ℕ → ℕ → Date) → IsLeastFromNow net.now run.now now x
        → IsLeastIn (rest_of (system_from net.now now) (count_in run.now) (date_in run.now))
        (dating_left (count_in run.now) x) }
{
    least_datings_go_on();
}
