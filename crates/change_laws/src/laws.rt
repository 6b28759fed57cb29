//! The laws of changed nets. Each is a function that does nothing when it runs: its contract is the
//! law.
ghost use Rattle.change_laws.specs.ChangesAreSlower.{FewerTokensAreSlower, FurtherPlacesAreSlower, LongerHoldsAreSlower, SlowerNetsAreOrdered, SlowerNetsHaveSlowerPlaces};
ghost use Rattle.change_laws.specs.ChangesBack.{HoldsGoBack, TokensGoBack};

/// A net is slower with a longer holding time of a place, in the user's unit, and with a shorter
/// one the net is slower than it (chapter 2): a machine that takes 7 instead of 5, say. The number
/// may be that of no place, which changes nothing.
pub fn longer_holds_make_slower_nets()
    ensures { LongerHoldsAreSlower }
{}

/// A net is slower with fewer tokens in a place, and with more the net is slower than it (chapter
/// 2): two pallets instead of three, say. The place keeps its ready dates, whatever their number.
pub fn fewer_tokens_make_slower_nets()
    ensures { FewerTokensAreSlower }
{}

/// A net is slower with further places: one more wait, or a loop of cards (chapter 2).
pub fn further_places_make_slower_nets()
    ensures { FurtherPlacesAreSlower }
{}

/// A net is slower than itself, and changes that make it slower may follow each other (chapter 2).
/// No place of the net between may have more ready dates than tokens, as none of a net file has: a
/// token that it lacks counts as ready at 0, so ready dates past its tokens would tell too much.
pub fn slower_nets_are_ordered()
    ensures { SlowerNetsAreOrdered }
{}

/// A slower net has slower places, so what is said of its pace holds, whatever the ready dates
/// (chapter 2).
pub fn slower_nets_have_slower_places()
    ensures { SlowerNetsHaveSlowerPlaces }
{}

/// A place that gets another holding time and then its own again leaves the net as it was, and its
/// own keeps the limit of holding times in a net that keeps the rules (chapter 2). So a trial of
/// `LiveNet::set_hold` is taken back by one more call: of a place with hold 3, set to 5 and to 3.
pub fn holds_go_back()
    ensures { HoldsGoBack }
{}

/// A place that gets another number of tokens and then its own again leaves the net as it was, and it
/// may have its own again where the net keeps the rules (chapter 2).
pub fn tokens_go_back()
    ensures { TokensGoBack }
{}
