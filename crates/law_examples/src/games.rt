//! Tokens along the game of a net.
ghost use Rattle.std.specs.Prelude.{ℕ, ◌⊎◌, ◌<◌, ◌≤◌, ◌≡◌, List, length, sum_by, All, Contains, []};
ghost use Rattle.teg_net.specs.Circuits.{from_of, place_at, IsCircuit, IsLive, tokens_of};
ghost use Rattle.teg_replay.specs.Games.{IsGameOf};
ghost use Rattle.run_laws.specs.Runs.{dates_of_transition, next_number, IsLegalAfter, IsLegalRun};
ghost use Rattle.run_laws.specs.Earliest.{tokens_in, IsEarliest};
ghost use Rattle.game_laws.specs.FiringOutcomes.{FailsAfter};
ghost use Rattle.game_laws.specs.LiveByTheGame.{FiresEach, NoInputListEnds};
ghost use Rattle.teg_check.specs.Ranks.{IsRanking};

use game_laws::{
    earliest_dates_exist, firings_are_legal_or_fail, live_nets_fire_on, places_fill_up,
    places_hold_within_circuits, token_free_circuits_never_fire, tokens_on_circuits_stay,
};
use run_laws::Fired;
use teg_check::{Live, ranked_nets_are_live};
use teg_net::{Net, PlaceId};
use teg_replay::Game;

/// The tokens on a circuit of the net are those that it began with.
pub fn tokens_stay(net: &Net, game: &Game, circuit: &[PlaceId])
    requires game { IsGameOf net.now game.now }
    requires circuit { IsCircuit net.now circuit.now }
    ensures { sum_by (λ p. tokens_in game.now.run (place_at net.now p)) circuit.now
        ≡ tokens_of net.now circuit.now }
{
    tokens_on_circuits_stay();
}

/// A place of a circuit holds no more tokens than the circuit has.
pub fn place_is_within(net: &Net, game: &Game, circuit: &[PlaceId], place: PlaceId)
    requires game { IsGameOf net.now game.now }
    requires circuit { IsCircuit net.now circuit.now }
    requires place { Contains circuit.now place }
    ensures { tokens_in game.now.run (place_at net.now place) ≤ tokens_of net.now circuit.now }
{
    places_hold_within_circuits();
}

/// Some run fills a place with as many tokens as each circuit through it has at least.
pub fn place_fills_up(net: &Net, live: &Live, place: PlaceId, most: u64)
    requires live { IsRanking net.now live.now }
    requires lists { NoInputListEnds net.now }
    requires place { place.index < length net.now.places }
    requires most { (ps : List PlaceId) → IsCircuit net.now ps → Contains ps place
        → most ≤ tokens_of net.now ps }
    ensures { (run : List Fired) × IsLegalRun net.now run
        × (most ≤ tokens_in run (place_at net.now place)) }
{
    net.rules();
    ranked_nets_are_live();
    places_fill_up();
}

/// A firing may follow the game, or fails in one of the three ways.
pub fn may_fire_or_fails(net: &Net, game: &Game, fired: Fired)
    requires transition { fired.transition.index < length net.now.transitions }
    ensures { IsLegalAfter net.now game.now.run fired ⊎ FailsAfter net.now game.now.run fired }
{
    firings_are_legal_or_fail();
}

/// A firing that may follow the game has an earliest date.
pub fn has_earliest_date(net: &Net, game: &Game, fired: Fired)
    requires game { IsGameOf net.now game.now }
    requires legal { IsLegalAfter net.now game.now.run fired }
    ensures { (date : ℕ) × (date ≤ fired.date)
        × IsEarliest net.now game.now.run fired.transition.index
        (next_number game.now.run fired.transition.index) date }
{
    earliest_dates_exist();
}

/// No transition of a circuit without tokens has fired.
pub fn never_fired(net: &Net, game: &Game, circuit: &[PlaceId])
    requires game { IsGameOf net.now game.now }
    requires circuit { IsCircuit net.now circuit.now }
    requires free { tokens_of net.now circuit.now ≡ 0 }
    ensures { All (λ p. dates_of_transition game.now.run (from_of net.now p) ≡ []) circuit.now }
{
    token_free_circuits_never_fire();
}

/// A game in which each transition has fired shows that its net is live.
pub fn shows_life(net: &Net, game: &Game)
    requires game { IsGameOf net.now game.now }
    requires fired { (t : ℕ) → t < length net.now.transitions
        → 1 ≤ length (dates_of_transition game.now.run t) }
    ensures { IsLive net.now }
{
    token_free_circuits_never_fire();
}

/// A live net in which no input list ends can fire on and on.
pub fn fires_on(net: &Net, live: &Live)
    requires live { IsRanking net.now live.now }
    requires endless { NoInputListEnds net.now }
    ensures { (most : ℕ) → (run : List Fired) × IsLegalRun net.now run × FiresEach net.now most run }
{
    net.rules();
    ranked_nets_are_live();
    live_nets_fire_on();
}
