//! A net that grows by an entry at a time.
ghost use Rattle.std.specs.Prelude.{◌≡◌, ◌∷◌, [], IfErr, IfOk, IsTrue, OnErr, OnOk, length};
ghost use Rattle.teg_net.specs.Names.{is_name};
ghost use Rattle.teg_net.specs.Nets.{IsNet, lists_of};
ghost use Rattle.net_builder.specs.Builds.{IsEntryRefusal, IsNamedRefusal, IsNameRefusal, adding_input, adding_place, adding_transition, named_place, named_transition};

use crate::faults::{list_fault, one_place_fault, transition_fault};
use crate::refusal::BuildRefusal;
use std::alloc::Global;
use std::marker::Model;
use teg_net::{
    DateList, InputList, Name, NameRefused, Net, Place, PlaceId, Role, Transition, TransitionId,
};

/// A net that a program builds (chapter 2): its lists keep the rules of nets at each step, and a
/// call that is refused leaves them as they were. Contracts see the lists.
#[derive(Debug, Drop)]
pub struct NetBuilder {
    transitions: Vec<Transition>,
    places: Vec<Place>,
    inputs: Vec<InputList>,
}

impl Model for NetBuilder {
    ghost use Rattle.teg_net.specs.Nets.{NetLists, IsNet, lists_of};

    ghost Value = { NetLists };

    ghost view = { λ b. lists_of b.transitions.items b.places.items b.inputs.items };

    ghost invariant = { λ b. IsNet (lists_of b.transitions.items b.places.items b.inputs.items) };
}

// The name of this text.
fn name_of(alloc: Global, text: &str) -> Result<Name, BuildRefusal>
    ensures text { IfOk result (λ name. name ≡ text.now) }
    ensures name { IfOk result (λ _. IsTrue (is_name text.now)) }
    ensures refused { IfErr result (IsNameRefusal text.now) }
{
    match Name::new(alloc, text) {
        Ok(name) => Ok(name),
        Err(NameRefused::Bad) => Err(BuildRefusal::BadName),
        Err(NameRefused::OutOfMemory) => Err(BuildRefusal::OutOfMemory),
    }
}

// The lists of one transition alone.
fn begin(alloc: Global, transition: Transition) -> Result<NetBuilder, BuildRefusal>
    ensures net { IfOk result (λ b. b ≡ lists_of (transition ∷ []) [] []) }
    ensures refused { IfErr result (λ why. why ≡ BuildRefusal.OutOfMemory) }
{
    let _name = transition.name.as_str();
    let mut transitions = Vec::new(alloc);
    match transitions.push(transition) {
        Ok(()) => Ok(NetBuilder {
            transitions,
            places: Vec::new(alloc),
            inputs: Vec::new(alloc),
        }),
        Err(_) => Err(BuildRefusal::OutOfMemory),
    }
}

impl NetBuilder {
    /// A net of this transition alone, whose number is 0: a net has one at least.
    ///
    /// `BadName` comes exactly where the text is no name, and `OutOfMemory` only where no memory is
    /// found; nothing else is refused.
    pub fn new(alloc: Global, name: &str, role: Role) -> Result<NetBuilder, BuildRefusal>
        ensures net { IfOk result (λ b. b ≡ lists_of (named_transition name.now role ∷ []) [] []) }
        ensures refused { IfErr result (IsNameRefusal name.now) }
    {
        let name = name_of(alloc, name)?;
        begin(alloc, Transition { name, role })
    }

    /// That the lists keep the rules of nets. It does nothing when it runs: it is called where a
    /// caller's own promise needs the rules.
    pub fn rules(&self)
        ensures { IsNet self.now }
    {
        let _own = self.transitions();
    }

    /// The transitions so far, in order. It takes no memory.
    pub fn transitions(&self) -> &[Transition]
        ensures value { result.now ≡ self.now.transitions }
        ensures rules { IsNet self.now }
    {
        &self.transitions
    }

    /// The places so far, in order. It takes no memory.
    pub fn places(&self) -> &[Place]
        ensures { result.now ≡ self.now.places }
    {
        &self.places
    }

    /// The input lists so far, in order. It takes no memory.
    pub fn inputs(&self) -> &[InputList]
        ensures { result.now ≡ self.now.inputs }
    {
        &self.inputs
    }

    /// Adds a transition behind the others, and tells its number.
    ///
    /// `Breaks` comes exactly where the lists would be no net with it: there are 400 transitions, or
    /// one has its name. `OutOfMemory` comes only where no memory is found. What is refused changes
    /// nothing. It takes a step a transition.
    pub fn add_transition(&mut self, transition: Transition) -> Result<TransitionId, BuildRefusal>
        ensures added { OnOk result (self.new ≡ adding_transition self.old transition) }
        ensures number { IfOk result (λ id. id.index ≡ length self.old.transitions) }
        ensures rules { IsNet self.new }
        ensures kept { OnErr result (self.new ≡ self.old) }
        ensures refused { IfErr result (IsEntryRefusal (adding_transition self.old transition)) }
    {
        if let Some(fault) = transition_fault(&self.transitions, &transition) {
            return Err(BuildRefusal::Breaks { fault });
        }
        let index = self.transitions.len() as u32;
        match self.transitions.push(transition) {
            Ok(()) => Ok(TransitionId { index }),
            Err(_) => Err(BuildRefusal::OutOfMemory),
        }
    }

    /// Adds a place behind the others, and tells its number.
    ///
    /// `Breaks` comes exactly where the lists would be no net with it: there are 4,000 places, one
    /// has its name, or it may not stand among these transitions, as `PlaceFault` says: of its two
    /// ends, its holding time, its tokens and its ready dates. `OutOfMemory` comes only where no
    /// memory is found. What is refused changes nothing. It takes a step a place and one a ready
    /// date.
    pub fn add_place(&mut self, place: Place) -> Result<PlaceId, BuildRefusal>
        ensures added { OnOk result (self.new ≡ adding_place self.old place) }
        ensures number { IfOk result (λ id. id.index ≡ length self.old.places) }
        ensures rules { IsNet self.new }
        ensures kept { OnErr result (self.new ≡ self.old) }
        ensures refused { IfErr result (IsEntryRefusal (adding_place self.old place)) }
    {
        if let Some(fault) = one_place_fault(&self.transitions, &self.places, &place) {
            return Err(BuildRefusal::Breaks { fault });
        }
        let index = self.places.len() as u32;
        match self.places.push(place) {
            Ok(()) => Ok(PlaceId { index }),
            Err(_) => Err(BuildRefusal::OutOfMemory),
        }
    }

    /// Adds the list of an input's dates behind the others.
    ///
    /// `Breaks` comes exactly where the lists would be no net with it: the transition has a list, or
    /// the list may not stand among these transitions, as `InputFault` says. `OutOfMemory` comes
    /// only where no memory is found. What is refused changes nothing. It takes a step a list and
    /// one a date.
    pub fn add_input(&mut self, list: InputList) -> Result<(), BuildRefusal>
        ensures added { OnOk result (self.new ≡ adding_input self.old list) }
        ensures rules { IsNet self.new }
        ensures kept { OnErr result (self.new ≡ self.old) }
        ensures refused { IfErr result (IsEntryRefusal (adding_input self.old list)) }
    {
        if let Some(fault) = list_fault(&self.transitions, &self.inputs, &list) {
            return Err(BuildRefusal::Breaks { fault });
        }
        match self.inputs.push(list) {
            Ok(()) => Ok(()),
            Err(_) => Err(BuildRefusal::OutOfMemory),
        }
    }

    /// Adds a transition of this name and role, as [`NetBuilder::add_transition`] does, and tells
    /// its number. `BadName` comes exactly where the text is no name.
    pub fn transition(
        &mut self,
        alloc: Global,
        name: &str,
        role: Role,
    ) -> Result<TransitionId, BuildRefusal>
        ensures added { OnOk result
            (self.new ≡ adding_transition self.old (named_transition name.now role)) }
        ensures number { IfOk result (λ id. id.index ≡ length self.old.transitions) }
        ensures rules { IsNet self.new }
        ensures kept { OnErr result (self.new ≡ self.old) }
        ensures refused { IfErr result (IsNamedRefusal name.now
            (adding_transition self.old (named_transition name.now role))) }
    {
        self.rules();
        let name = name_of(alloc, name)?;
        self.add_transition(Transition { name, role })
    }

    /// Adds a place of this name, as [`NetBuilder::add_place`] does, and tells its number: it leaves
    /// `from` and enters `to`, `hold` is its holding time in the user's unit, and its tokens are
    /// ready at 0. A place with ready dates is handed to `add_place`. `BadName` comes exactly where
    /// the text is no name.
    pub fn place(
        &mut self,
        alloc: Global,
        name: &str,
        from: TransitionId,
        to: TransitionId,
        hold: u64,
        tokens: u32,
    ) -> Result<PlaceId, BuildRefusal>
        ensures added { OnOk result
            (self.new ≡ adding_place self.old (named_place name.now from to hold tokens)) }
        ensures number { IfOk result (λ id. id.index ≡ length self.old.places) }
        ensures rules { IsNet self.new }
        ensures kept { OnErr result (self.new ≡ self.old) }
        ensures refused { IfErr result (IsNamedRefusal name.now
            (adding_place self.old (named_place name.now from to hold tokens))) }
    {
        self.rules();
        let name = name_of(alloc, name)?;
        let ready = DateList::new(Vec::new(alloc));
        self.add_place(Place {
            name,
            from,
            to,
            hold,
            tokens,
            ready,
        })
    }

    /// The net of the entries so far; nothing is refused or tested again. It takes no memory.
    pub fn finish(self) -> Net
        ensures { result ≡ self }
    {
        Net::new(self.transitions, self.places, self.inputs)
    }
}
