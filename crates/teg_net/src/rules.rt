//! Whether lists keep the rules of a net, and which they break, tested when the program runs.
ghost use Rattle.std.specs.Prelude.{◌≡◌, ◌≢◌, ◌↔◌, ◌<◌, ◌≤◌, ◌⊎◌, List, IsTrue, IsFalse, All, AllPairs, Any, IfSome, IfNone, IfOk, IfErr, IsOk, length};
ghost use Rattle.std.specs.List.Sorted.{IsNonDecreasing};
ghost use Rattle.teg_net.specs.declared.entries.InputList.{InputList};
ghost use Rattle.teg_net.specs.declared.entries.Place.{Place};
ghost use Rattle.teg_net.specs.declared.entries.Transition.{Transition};
ghost use Rattle.teg_net.specs.Limits.{greatest_input_date, most_places, most_transitions};
ghost use Rattle.teg_net.specs.Names.{is_name};
ghost use Rattle.teg_net.specs.NetFaults.{AreNamedApart, ArePlacesApart, IsAgainFault, IsFirstBreach, IsFirstRepeat, IsInputFault, IsNetFault, IsOfNetSize, IsPlaceFault, StandsBetween};
ghost use Rattle.teg_net.specs.Nets.{IsInput, IsInputOf, IsNet, IsPlaceOf, ListGoesOn, lists_of, transitions_alone};

use crate::entries::{Again, InputList, Place, PlaceId, Role, Transition, TransitionId};
use crate::faults::{InputFault, NetFault, PlaceFault};
use crate::limits::{
    GREATEST_EVERY, GREATEST_HOLD, GREATEST_INPUT_DATE, MOST_INPUT_DATES, MOST_PLACE_TOKENS,
    MOST_PLACES, MOST_TRANSITIONS,
};
use crate::net::Net;

// Whether the transition of this number is an input.
fn is_input_among(transitions: &[Transition], id: TransitionId) -> bool
    ensures { IsTrue result ↔ IsInput (transitions_alone transitions.now) id.index }
{
    match transitions.get(id.index()) {
        Some(transition) => transition.role == Role::Input,
        None => false,
    }
}

// Whether some date is past the limit of dates.
fn any_late(dates: &[u64]) -> bool
    ensures yes { IsTrue result ↔ Any (λ d. greatest_input_date < d) dates.now }
    ensures no { IsFalse result → All (λ d. d ≤ greatest_input_date) dates.now }
{
    dates.iter().any(|date| GREATEST_INPUT_DATE < *date)
}

// Whether the place has no ready date, or one for each token.
fn are_all_ready(place: &Place) -> bool
    ensures { IsTrue result ↔ (length place.now.ready ≡ 0) ⊎ (length place.now.ready ≡ place.now.tokens) }
{
    let dates = place.ready.as_slice();
    dates.is_empty() || dates.len() == place.tokens as usize
}

// The first rule of its ends that the place breaks.
fn ends_fault(transitions: &[Transition], place: &Place) -> Option<PlaceFault>
    ensures some { IfSome result (IsPlaceFault (transitions_alone transitions.now) place.now) }
    ensures none { IfNone result (StandsBetween (transitions_alone transitions.now) place.now) }
{
    if transitions.len() <= place.from.index() {
        return Some(PlaceFault::UnknownFrom);
    }
    if transitions.len() <= place.to.index() {
        return Some(PlaceFault::UnknownTo);
    }
    if is_input_among(transitions, place.to) {
        return Some(PlaceFault::EntersInput);
    }
    None
}

/// The first rule that the place breaks, in the order of [`PlaceFault`]; `None` exactly where it may
/// stand in a net of these transitions. That its name is that of no other place is no rule of a
/// place alone. It takes no memory, and a step a ready date.
pub fn place_fault(transitions: &[Transition], place: &Place) -> Option<PlaceFault>
    ensures some { IfSome result (IsPlaceFault (transitions_alone transitions.now) place.now) }
    ensures none { IfNone result (IsPlaceOf (transitions_alone transitions.now) place.now) }
{
    if let Some(fault) = ends_fault(transitions, place) {
        return Some(fault);
    }
    if GREATEST_HOLD < place.hold {
        return Some(PlaceFault::LongHold);
    }
    if MOST_PLACE_TOKENS < place.tokens {
        return Some(PlaceFault::ManyTokens);
    }
    if !are_all_ready(place) {
        return Some(PlaceFault::ReadyCount);
    }
    if any_late(place.ready.as_slice()) {
        return Some(PlaceFault::LateReady);
    }
    None
}

// Whether the dates never fall.
fn never_fall(dates: &[u64]) -> bool
    ensures { IsTrue result ↔ IsNonDecreasing dates.now }
{
    dates.is_sorted()
}

// The first rule that the way breaks in which the list goes on.
fn again_fault(dates: &[u64], again: Again) -> Option<InputFault>
    ensures some { IfSome result (IsAgainFault dates.now again) }
    ensures none { IfNone result (ListGoesOn dates.now again) }
{
    let every = again.every as usize;
    if every < 1 {
        return Some(InputFault::EveryZero);
    }
    if GREATEST_EVERY < every {
        return Some(InputFault::GreatEvery);
    }
    if GREATEST_INPUT_DATE < again.gap {
        return Some(InputFault::GreatGap);
    }
    if dates.len() < every {
        return Some(InputFault::FewDates);
    }
    let last = u128::from(dates[dates.len() - 1]);
    let next = u128::from(dates[dates.len() - every]) + u128::from(again.gap);
    if next < last {
        return Some(InputFault::EarlyNext);
    }
    None
}

/// The first rule that the input list breaks, in the order of [`InputFault`]; `None` exactly where it
/// may stand in a net of these transitions. That its transition has no other list is no rule of a
/// list alone. It takes no memory, and a step a date.
pub fn input_fault(transitions: &[Transition], list: &InputList) -> Option<InputFault>
    ensures some { IfSome result (IsInputFault (transitions_alone transitions.now) list.now) }
    ensures none { IfNone result (IsInputOf (transitions_alone transitions.now) list.now) }
{
    let dates = list.dates.as_slice();
    if !is_input_among(transitions, list.transition) {
        return Some(InputFault::NoInput);
    }
    if MOST_INPUT_DATES < dates.len() {
        return Some(InputFault::ManyDates);
    }
    if any_late(dates) {
        return Some(InputFault::LateDate);
    }
    if !never_fall(dates) {
        return Some(InputFault::FallingDates);
    }
    again_fault(dates, list.again?)
}

// Whether one of the transitions has the name.
fn any_transition_named(transitions: &[Transition], name: &str) -> bool
    ensures { IsTrue result ↔ Any (λ t. t.name ≡ name.now) transitions.now }
{
    transitions
        .iter()
        .any(|transition| transition.name.as_str() == name)
}

// Whether one of the places has the name.
fn any_place_named(places: &[Place], name: &str) -> bool
    ensures { IsTrue result ↔ Any (λ p. p.name ≡ name.now) places.now }
{
    places.iter().any(|place| place.name.as_str() == name)
}

// Whether one of the lists is that of the transition.
fn any_list_of(inputs: &[InputList], id: TransitionId) -> bool
    ensures { IsTrue result ↔ Any (λ l. l.transition.index ≡ id.index) inputs.now }
{
    inputs.iter().any(|list| list.transition.index == id.index)
}

// The first transition that has the name of an earlier one.
fn same_transition(transitions: &[Transition]) -> Option<TransitionId>
    requires few { length transitions.now ≤ most_transitions }
    ensures some { IfSome result (λ id. IsFirstRepeat (λ (t : Transition). t.name) transitions.now
        id.index) }
    ensures none { IfNone result (AreNamedApart transitions.now) }
{
    for (index, transition) in transitions.iter().enumerate() {
        if any_transition_named(&transitions[..index], transition.name.as_str()) {
            return Some(TransitionId::new(index as u32));
        }
    }
    None
}

// The first place that has the name of an earlier one.
fn same_place(places: &[Place]) -> Option<PlaceId>
    requires few { length places.now ≤ most_places }
    ensures some { IfSome result (λ id. IsFirstRepeat (λ (p : Place). p.name) places.now id.index) }
    ensures none { IfNone result (ArePlacesApart places.now) }
{
    for (index, place) in places.iter().enumerate() {
        if any_place_named(&places[..index], place.name.as_str()) {
            return Some(PlaceId::new(index as u32));
        }
    }
    None
}

// The position of the first list of a transition that has an earlier list.
fn same_input(inputs: &[InputList]) -> Option<usize>
    ensures some { IfSome result (IsFirstRepeat (λ (l : InputList). l.transition.index) inputs.now) }
    ensures none { IfNone result (AllPairs (λ l m. l.transition.index ≢ m.transition.index) inputs.now) }
{
    for (index, list) in inputs.iter().enumerate() {
        if any_list_of(&inputs[..index], list.transition) {
            return Some(index);
        }
    }
    None
}

// The first place that may not stand in a net of these transitions, and the first rule that it
// breaks.
fn bad_place(transitions: &[Transition], places: &[Place]) -> Option<(PlaceId, PlaceFault)>
    requires few { length places.now ≤ most_places }
    ensures some { IfSome result (λ bad. IsFirstBreach (IsPlaceOf (transitions_alone transitions.now))
        (λ p. IsPlaceFault (transitions_alone transitions.now) p bad.1) places.now bad.0.index) }
    ensures none { IfNone result (All (IsPlaceOf (transitions_alone transitions.now)) places.now) }
{
    for (index, place) in places.iter().enumerate() {
        if let Some(fault) = place_fault(transitions, place) {
            return Some((PlaceId::new(index as u32), fault));
        }
    }
    None
}

// The position of the first list that may not stand in a net of these transitions, and the first
// rule that it breaks.
fn bad_input(transitions: &[Transition], inputs: &[InputList]) -> Option<(usize, InputFault)>
    ensures some { IfSome result (λ bad. IsFirstBreach (IsInputOf (transitions_alone transitions.now))
        (λ l. IsInputFault (transitions_alone transitions.now) l bad.1) inputs.now bad.0) }
    ensures none { IfNone result (All (IsInputOf (transitions_alone transitions.now)) inputs.now) }
{
    for (index, list) in inputs.iter().enumerate() {
        if let Some(fault) = input_fault(transitions, list) {
            return Some((index, fault));
        }
    }
    None
}

// The first rule that the numbers of transitions and places break.
fn size_fault(transitions: &[Transition], places: &[Place]) -> Option<NetFault>
    ensures some { IfSome result (λ fault. (ls : List InputList) → IsNetFault (lists_of transitions.now
        places.now ls) fault) }
    ensures none { IfNone result ((ls : List InputList) → IsOfNetSize (lists_of transitions.now
        places.now ls)) }
{
    if transitions.is_empty() {
        return Some(NetFault::NoTransition);
    }
    if MOST_TRANSITIONS < transitions.len() {
        return Some(NetFault::ManyTransitions);
    }
    if MOST_PLACES < places.len() {
        return Some(NetFault::ManyPlaces);
    }
    None
}

// That each transition has a name, as its type says. It does nothing but read them.
fn transitions_are_named(transitions: &[Transition])
    ensures { All (λ t. IsTrue (is_name t.name)) transitions.now }
{
    for transition in transitions {
        let _name = transition.name.as_str();
    }
}

// That each place has a name, as its type says. It does nothing but read them.
fn places_are_named(places: &[Place])
    ensures { All (λ p. IsTrue (is_name p.name)) places.now }
{
    for place in places {
        let _name = place.name.as_str();
    }
}

// The first rule of nets that the lists break, and where; none where they keep all of them.
fn net_fault(transitions: &[Transition], places: &[Place], inputs: &[InputList]) -> Option<NetFault>
    ensures some { IfSome result (IsNetFault (lists_of transitions.now places.now inputs.now)) }
    ensures none { IfNone result (IsNet (lists_of transitions.now places.now inputs.now)) }
{
    if let Some(fault) = size_fault(transitions, places) {
        return Some(fault);
    }
    if let Some(id) = same_transition(transitions) {
        return Some(NetFault::SameTransition(id));
    }
    if let Some(id) = same_place(places) {
        return Some(NetFault::SamePlace(id));
    }
    if let Some((id, fault)) = bad_place(transitions, places) {
        return Some(NetFault::BadPlace(id, fault));
    }
    if let Some(position) = same_input(inputs) {
        return Some(NetFault::SameInput(position));
    }
    if let Some((position, fault)) = bad_input(transitions, inputs) {
        return Some(NetFault::BadInput(position, fault));
    }
    transitions_are_named(transitions);
    places_are_named(places);
    None
}

/// Whether these lists keep the rules of a net, which [`Net`] tells (chapter 2). It takes no
/// memory, and as many steps as the squares of the numbers of transitions and of places, and one a
/// date.
#[tactic(auto, using(crate::proofs::NetFaultLaws::fault_breaks))]
pub fn is_net(transitions: &[Transition], places: &[Place], inputs: &[InputList]) -> bool
    ensures { IsTrue result ↔ IsNet (lists_of transitions.now places.now inputs.now) }
{
    net_fault(transitions, places, inputs).is_none()
}

impl Net {
    /// The net of these lists, exactly where they keep the rules of nets (chapter 2).
    ///
    /// The refusal is the first rule that they break, in the order of [`NetFault`], at the first
    /// entry that breaks it. It takes no memory, and as many steps as the squares of the numbers of
    /// transitions and of places, and one a date.
    #[tactic(auto, using(crate::proofs::NetFaultLaws::fault_breaks))]
    pub fn checked(
        transitions: Vec<Transition>,
        places: Vec<Place>,
        inputs: Vec<InputList>,
    ) -> Result<Net, NetFault>
        ensures ok { IsOk result ↔ IsNet (lists_of transitions.items places.items inputs.items) }
        ensures net { IfOk result (λ net. net ≡ lists_of transitions.items places.items
            inputs.items) }
        ensures fault { IfErr result (IsNetFault (lists_of transitions.items places.items
            inputs.items)) }
    {
        match net_fault(&transitions, &places, &inputs) {
            None => Ok(Net::new(transitions, places, inputs)),
            Some(fault) => Err(fault),
        }
    }
}
