//! A longer hold and fewer tokens: later dates and a slower pace.
ghost use Rattle.std.specs.Prelude.{ℕ, ◌*◌, ◌<◌, ◌≤◌, ◌≡◌, ◌++◌, length};
ghost use Rattle.teg_model.specs.Datings.{IsLeastUnder};
ghost use Rattle.teg_model.specs.dioid.declared.dates.Date.{Date};
ghost use Rattle.teg_model.specs.dioid.Dates.{IsAtMostDate};
ghost use Rattle.change_laws.specs.SlowerNets.{IsSlowerNet};
ghost use Rattle.teg_net.specs.Changes.{MayHaveTokens};
ghost use Rattle.teg_net.specs.Circuits.{place_at};
ghost use Rattle.teg_net.specs.GreatestRatios.{IsAnyPlace, IsGreatestRatio};
ghost use Rattle.teg_net.specs.Limits.{greatest_hold};
ghost use Rattle.teg_net.specs.Nets.{lists_of, IsInput};

use change_laws::{
    fewer_tokens_make_slower_nets, further_places_make_slower_nets, holds_go_back,
    longer_holds_make_slower_nets, slower_nets_are_ordered, slower_nets_have_slower_places,
    tokens_go_back,
};
use dating_laws::dates_rise_with_the_net;
use pace_laws::pace_rises_with_the_net;
use teg_net::{Net, Place, PlaceId, Ratio};

/// Gives a place a longer hold, which makes the net slower.
pub fn hold_longer(net: &mut Net, place: PlaceId, hold: u64)
    requires place { place.index < length net.old.places }
    requires hold { hold ≤ greatest_hold }
    requires longer { (place_at net.old place).hold ≤ hold }
    ensures { IsSlowerNet net.old net.new }
{
    longer_holds_make_slower_nets();
    net.set_hold(place, hold);
}

/// Takes tokens out of a place, which makes the net slower.
pub fn take_tokens(net: &mut Net, place: PlaceId, tokens: u32)
    requires place { place.index < length net.old.places }
    requires tokens { MayHaveTokens (place_at net.old place) tokens }
    requires fewer { tokens ≤ (place_at net.old place).tokens }
    ensures { IsSlowerNet net.old net.new }
{
    fewer_tokens_make_slower_nets();
    net.set_tokens(place, tokens);
}

/// A hold that is tried and taken back leaves the net as it was.
pub fn try_hold(net: &mut Net, place: PlaceId, hold: u64)
    requires place { place.index < length net.old.places }
    requires hold { hold ≤ greatest_hold }
    ensures { net.new ≡ net.old }
{
    net.rules();
    holds_go_back();
    let before = net.place(place).hold;
    net.set_hold(place, hold);
    net.set_hold(place, before);
}

/// Tokens that are tried and taken back leave the net as it was.
pub fn try_tokens(net: &mut Net, place: PlaceId, tokens: u32)
    requires place { place.index < length net.old.places }
    requires tokens { MayHaveTokens (place_at net.old place) tokens }
    ensures { net.new ≡ net.old }
{
    net.rules();
    tokens_go_back();
    let before = net.place(place).tokens;
    net.set_tokens(place, tokens);
    net.set_tokens(place, before);
}

/// Further places make a net slower.
pub fn further_places(net: &Net, places: &[Place])
    ensures { IsSlowerNet net.now
        (lists_of net.now.transitions (net.now.places ++ places.now) net.now.inputs) }
{
    further_places_make_slower_nets();
}

/// Changes that make a net slower may follow each other.
pub fn slower_twice(before: &Net, middle: &Net, after: &Net)
    requires first { IsSlowerNet before.now middle.now }
    requires second { IsSlowerNet middle.now after.now }
    ensures { IsSlowerNet before.now after.now }
{
    middle.rules();
    slower_nets_are_ordered();
}

/// No least date of a slower net is earlier, under later releases.
pub fn dates_are_later(before: &Net, after: &Net)
    requires slower { IsSlowerNet before.now after.now }
    ensures { (u v x y : ℕ → ℕ → Date)
        → ((t k : ℕ) → 1 ≤ k → IsInput before.now t → IsAtMostDate (u t k) (v t k))
        → IsLeastUnder before.now u x → IsLeastUnder after.now v y
        → (t k : ℕ) → t < length before.now.transitions → 1 ≤ k → IsAtMostDate (x t k) (y t k) }
{
    after.rules();
    dates_rise_with_the_net();
}

/// A slower net has no smaller cycle time.
pub fn pace_is_no_better(before: &Net, after: &Net, first: Ratio, second: Ratio)
    requires slower { IsSlowerNet before.now after.now }
    requires first { IsGreatestRatio before.now IsAnyPlace first }
    requires second { IsGreatestRatio after.now IsAnyPlace second }
    ensures { first.time * second.tokens ≤ second.time * first.tokens }
{
    slower_nets_have_slower_places();
    pace_rises_with_the_net();
}
