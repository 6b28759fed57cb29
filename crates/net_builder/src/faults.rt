//! Which rule of nets the lists of a net would break with one more entry.
ghost use Rattle.std.specs.Prelude.{◌≡◌, ◌↔◌, ◌++◌, ◌∷◌, [], List, Any, IfSome, IfNone, IsTrue};
ghost use Rattle.teg_net.specs.declared.entries.InputList.{InputList};
ghost use Rattle.teg_net.specs.declared.entries.Place.{Place};
ghost use Rattle.teg_net.specs.NetFaults.{IsNetFault};
ghost use Rattle.teg_net.specs.Nets.{IsNet, lists_of};

use teg_net::{
    InputList, NetFault, Place, PlaceId, Transition, TransitionId, input_fault, place_fault,
};

// The most transitions of a net.
const MOST_TRANSITIONS: usize = 400;

// The most places of a net.
const MOST_PLACES: usize = 4_000;

// Whether one of the transitions has the name.
fn is_transition_named(transitions: &[Transition], name: &str) -> bool
    ensures { IsTrue result ↔ Any (λ t. t.name ≡ name.now) transitions.now }
{
    transitions
        .iter()
        .any(|transition| transition.name.as_str() == name)
}

// Whether one of the places has the name.
fn is_place_named(places: &[Place], name: &str) -> bool
    ensures { IsTrue result ↔ Any (λ p. p.name ≡ name.now) places.now }
{
    places.iter().any(|place| place.name.as_str() == name)
}

// Whether one of the lists is that of the transition.
fn has_list(inputs: &[InputList], id: TransitionId) -> bool
    ensures { IsTrue result ↔ Any (λ l. l.transition.index ≡ id.index) inputs.now }
{
    inputs.iter().any(|list| list.transition.index == id.index)
}

// The first rule that the lists of a net of these transitions break with one more of them; none
// where they are those of a net still.
pub(crate) fn transition_fault(
    transitions: &[Transition],
    transition: &Transition,
) -> Option<NetFault>
    ensures some { IfSome result (λ fault. (ps : List Place) (ls : List InputList)
        → IsNet (lists_of transitions.now ps ls)
        → IsNetFault (lists_of (transitions.now ++ transition.now ∷ []) ps ls) fault) }
    ensures none { IfNone result ((ps : List Place) (ls : List InputList)
        → IsNet (lists_of transitions.now ps ls)
        → IsNet (lists_of (transitions.now ++ transition.now ∷ []) ps ls)) }
{
    if MOST_TRANSITIONS <= transitions.len() {
        return Some(NetFault::ManyTransitions);
    }
    if is_transition_named(transitions, transition.name.as_str()) {
        return Some(NetFault::SameTransition(TransitionId {
            index: transitions.len() as u32,
        }));
    }
    None
}

// The first rule that the lists of a net of these transitions and places break with one more place;
// none where they are those of a net still.
pub(crate) fn one_place_fault(
    transitions: &[Transition],
    places: &[Place],
    place: &Place,
) -> Option<NetFault>
    ensures some { IfSome result (λ fault. (ls : List InputList)
        → IsNet (lists_of transitions.now places.now ls)
        → IsNetFault (lists_of transitions.now (places.now ++ place.now ∷ []) ls) fault) }
    ensures none { IfNone result ((ls : List InputList)
        → IsNet (lists_of transitions.now places.now ls)
        → IsNet (lists_of transitions.now (places.now ++ place.now ∷ []) ls)) }
{
    if MOST_PLACES <= places.len() {
        return Some(NetFault::ManyPlaces);
    }
    let id = PlaceId {
        index: places.len() as u32,
    };
    if is_place_named(places, place.name.as_str()) {
        return Some(NetFault::SamePlace(id));
    }
    if let Some(fault) = place_fault(transitions, place) {
        return Some(NetFault::BadPlace(id, fault));
    }
    None
}

// The first rule that the lists of a net of these transitions and input lists break with one more
// list; none where they are those of a net still.
pub(crate) fn list_fault(
    transitions: &[Transition],
    inputs: &[InputList],
    list: &InputList,
) -> Option<NetFault>
    ensures some { IfSome result (λ fault. (ps : List Place)
        → IsNet (lists_of transitions.now ps inputs.now)
        → IsNetFault (lists_of transitions.now ps (inputs.now ++ list.now ∷ [])) fault) }
    ensures none { IfNone result ((ps : List Place)
        → IsNet (lists_of transitions.now ps inputs.now)
        → IsNet (lists_of transitions.now ps (inputs.now ++ list.now ∷ []))) }
{
    if has_list(inputs, list.transition) {
        return Some(NetFault::SameInput(inputs.len()));
    }
    if let Some(fault) = input_fault(transitions, list) {
        return Some(NetFault::BadInput(inputs.len(), fault));
    }
    None
}
