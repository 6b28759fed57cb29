//! Nets that a program makes from lists of its own: the first rule that lists break.
use example_nets::{place, says, transition, transitions};
use std::alloc::Global;
use std::test::Fail;
use teg_net::{
    Again, DateList, InputFault, InputList, Net, NetFault, Place, PlaceFault, PlaceId, Role,
    Transition, TransitionId,
};

// The fault of these lists, none where they are a net.
fn fault(
    transitions: Vec<Transition>,
    places: Vec<Place>,
    inputs: Vec<InputList>,
) -> Option<NetFault> {
    Net::checked(transitions, places, inputs).err()
}

// The fault of so many transitions of one name, and of so many places of one name.
fn fault_of_names(alloc: Global, transitions: u32, places: u32) -> Result<Option<NetFault>, Fail> {
    let mut made = Vec::new(alloc);
    for _ in 0..transitions {
        made.push(transition(alloc, "a", Role::Internal)?)?;
    }
    let mut between = Vec::new(alloc);
    for _ in 0..places {
        between.push(place(alloc, "p", 0, 0)?)?;
    }
    Ok(fault(made, between, Vec::new(alloc)))
}

// Numbers of transitions and of places, and the fault.
const COUNTS: [(u32, u32, NetFault); 5] = [
    (0, 0, NetFault::NoTransition),
    (401, 0, NetFault::ManyTransitions),
    (400, 0, NetFault::SameTransition(TransitionId { index: 1 })),
    (1, 4_001, NetFault::ManyPlaces),
    (1, 4_000, NetFault::SamePlace(PlaceId { index: 1 })),
];

// The fault of the input and the machine with this place alone.
fn fault_of_one(alloc: Global, one: Place) -> Result<Option<NetFault>, Fail> {
    let mut places = Vec::new(alloc);
    places.push(one)?;
    Ok(fault(transitions(alloc)?, places, Vec::new(alloc)))
}

// The same of a place that has these ends, this hold, these tokens and these ready dates.
fn fault_of_place(
    alloc: Global,
    ends: (u32, u32),
    hold: u64,
    tokens: u32,
    ready: &[u64],
) -> Result<Option<NetFault>, Fail> {
    let (from, to) = ends;
    let mut one = place(alloc, "p", from, to)?;
    one.hold = hold;
    one.tokens = tokens;
    one.ready = DateList::new(Vec::from_slice(alloc, ready)?);
    fault_of_one(alloc, one)
}

// Ends, a hold, tokens and ready dates of a place, and its fault.
type BadPlace<'a> = ((u32, u32), u64, u32, &'a [u64], PlaceFault);

const PLACES: [BadPlace<'static>; 7] = [
    ((2, 1), 2, 1, &[], PlaceFault::UnknownFrom),
    ((1, 2), 2, 1, &[], PlaceFault::UnknownTo),
    ((1, 0), 2, 1, &[], PlaceFault::EntersInput),
    ((0, 1), 1_000_000_001, 1, &[], PlaceFault::LongHold),
    ((0, 1), 2, 1_001, &[], PlaceFault::ManyTokens),
    ((0, 1), 2, 1, &[3, 4], PlaceFault::ReadyCount),
    ((0, 1), 2, 1, &[1_000_000_000_001], PlaceFault::LateReady),
];

#[test]
fn counts_names_and_places_are_tested(rt: HostRuntime) -> Result<(), Fail> {
    for (transitions, places, fault) in &COUNTS {
        let told = fault_of_names(rt.alloc(), *transitions, *places)?;
        assert!(rt; told == Some(*fault), "{transitions} {places}");
    }
    for (ends, hold, tokens, ready, fault) in &PLACES {
        let told = fault_of_place(rt.alloc(), *ends, *hold, *tokens, ready)?;
        assert!(rt;
            told == Some(NetFault::BadPlace(PlaceId::new(0), *fault)),
            "{hold} {tokens}"
        );
    }
    Ok(())
}

// The fault of the input and the machine with the list of this transition alone; it goes on by the
// gap each so many dates, where it is to go on.
fn fault_of_list(
    alloc: Global,
    number: u32,
    dates: &[u64],
    onward: Option<(u32, u64)>,
) -> Result<Option<NetFault>, Fail> {
    let again = match onward {
        Some((every, gap)) => Some(Again { every, gap }),
        None => None,
    };
    let list = InputList {
        transition: TransitionId::new(number),
        dates: DateList::new(Vec::from_slice(alloc, dates)?),
        again,
    };
    let mut inputs = Vec::new(alloc);
    inputs.push(list)?;
    Ok(fault(transitions(alloc)?, Vec::new(alloc), inputs))
}

// The transition of a list, its dates, by how many dates and how much it goes on, and its fault.
type Listed<'a> = (u32, &'a [u64], Option<(u32, u64)>, Option<InputFault>);

const LISTS: [Listed<'static>; 9] = [
    (1, &[], None, Some(InputFault::NoInput)),
    (0, &[1_000_000_000_001], None, Some(InputFault::LateDate)),
    (0, &[5, 4], None, Some(InputFault::FallingDates)),
    (0, &[1, 9], Some((0, 1)), Some(InputFault::EveryZero)),
    (0, &[1, 9], Some((1_001, 1)), Some(InputFault::GreatEvery)),
    (
        0,
        &[1, 9],
        Some((2, 1_000_000_000_001)),
        Some(InputFault::GreatGap),
    ),
    (0, &[1, 9], Some((3, 9)), Some(InputFault::FewDates)),
    (0, &[1, 9], Some((2, 7)), Some(InputFault::EarlyNext)),
    (0, &[1, 9], Some((2, 8)), None),
];

// Whether the fault is this one of the first list.
fn is_of_list(told: Option<NetFault>, fault: Option<InputFault>) -> bool {
    match fault {
        Some(why) => told == Some(NetFault::BadInput(0, why)),
        None => told.is_none(),
    }
}

// A list without dates of the first transition.
fn empty_list(alloc: Global) -> InputList {
    InputList {
        transition: TransitionId::new(0),
        dates: DateList::new(Vec::new(alloc)),
        again: None,
    }
}

// The fault of a third transition with the name of the first.
fn fault_of_name(alloc: Global) -> Result<Option<NetFault>, Fail> {
    let mut lists = transitions(alloc)?;
    lists.push(transition(alloc, "in", Role::Internal)?)?;
    Ok(fault(lists, Vec::new(alloc), Vec::new(alloc)))
}

// The fault of two lists of one input.
fn fault_of_two(alloc: Global) -> Result<Option<NetFault>, Fail> {
    let mut twice = Vec::new(alloc);
    twice.push(empty_list(alloc))?;
    twice.push(empty_list(alloc))?;
    Ok(fault(transitions(alloc)?, Vec::new(alloc), twice))
}

// The fault of one date more than a list may have.
fn fault_of_many(alloc: Global) -> Result<Option<NetFault>, Fail> {
    let dates = vec![in alloc; 5u64; 100_001]?;
    fault_of_list(alloc, 0, dates.as_slice(), None)
}

#[test]
fn input_lists_are_tested(rt: HostRuntime) -> Result<(), Fail> {
    for (number, dates, onward, fault) in &LISTS {
        let told = fault_of_list(rt.alloc(), *number, dates, *onward)?;
        assert!(rt; is_of_list(told, *fault), "{number}");
    }
    let told = fault_of_many(rt.alloc())?;
    assert!(rt; is_of_list(told, Some(InputFault::ManyDates)));
    let name = NetFault::SameTransition(TransitionId::new(2));
    assert!(rt; fault_of_name(rt.alloc())? == Some(name));
    assert!(rt; fault_of_two(rt.alloc())? == Some(NetFault::SameInput(1)));
    Ok(())
}

#[test]
fn faults_have_lines(rt: HostRuntime) {
    let list = Err::<u8, NetFault>(NetFault::SameInput(1));
    let line = "input list 1 is of a transition that has an earlier one";
    assert!(rt; says(rt.alloc(), list, line));
    let hold = NetFault::BadPlace(PlaceId::new(3), PlaceFault::LongHold);
    let line = "place 3 has a hold past 1000000000";
    assert!(rt; says(rt.alloc(), Err::<u8, NetFault>(hold), line));
}
