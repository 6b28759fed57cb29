//! The laws of the pace. Each is a function that does nothing when it runs: its contract is the
//! law.
ghost use Rattle.pace_laws.specs.Eigenspaces.{BegunPotentialsAreTight, BegunPotentialsExist, CriticalPartsMoveAsOne, GreaterPotentialsAreTight, MovedPotentialsAreTight, NoneCanBeLeftOut, OneBeginsForEachPart, OneCriticalPartTellsAll, OneOfEachPartSpans, PotentialsAreSpanned};
ghost use Rattle.pace_laws.specs.RatiosExist.{NetsHaveRatios, PartsHaveRatios, StrongPartsHaveAPace};
ghost use Rattle.pace_laws.specs.SlowerNets.{LiveBySlower, SlowerNetsHaveMore, SlowerPartsHaveMore};
ghost use Rattle.pace_laws.specs.TightPotentials.{BestPotentialsAreTight, CriticalPlacesAreTight, CriticalTransitionsTell, TightJustAtTheRatio, TightPotentialsArePaced, TightPotentialsExist, TightPotentialsTellTheRatio, TightRatiosAreOne};

/// A live net has no circuit, or a greatest ratio, and so does each part of it; and a strong part
/// with a circuit has with its ratio potentials that are tight at it (chapters 2 and 3).
///
/// The net has to be live: a circuit with time and without tokens has no ratio. Strong parts are
/// told of nets whose places begin and end at transitions of the net: a way back by way of a number
/// that is none is a way out of the part.
pub fn greatest_ratios_exist()
    ensures nets { NetsHaveRatios }
    ensures parts { PartsHaveRatios }
    ensures potentials { StrongPartsHaveAPace }
{}

/// A net is live where one with slower places is: for each place one between the same transitions,
/// with no shorter holding time and no more tokens, and perhaps further places. And its greatest
/// ratio is at most that of the other, and so is that of each part (chapter 2).
pub fn pace_rises_with_the_net()
    ensures nets { SlowerNetsHaveMore }
    ensures parts { SlowerPartsHaveMore }
    ensures live { LiveBySlower }
{}

/// The potentials told of a part are tight at its greatest ratio: that of each member is the
/// greatest that a place of the part offers it, so they are an eigenvector of the part. Any tight
/// potentials of a live net at a ratio, told or not, tell that it is the greatest of the part, as some
/// circuit has it, so the part has them at one ratio only; and the dates that go on from them
/// by the ratio keep each place of the part, and for each member just keep one place into it, at
/// every firing (chapters 2 and 3).
///
/// The part needs a member, as one without has tight potentials at every ratio. For the ratio the
/// net has to be live, since those around a circuit without time and without tokens are tight at
/// every ratio.
pub fn tight_potentials_tell_the_ratio()
    ensures best { BestPotentialsAreTight }
    ensures tell { TightPotentialsTellTheRatio }
    ensures one { TightRatiosAreOne }
    ensures paced { TightPotentialsArePaced }
{}

/// The spectral theorem: a strong part has tight potentials at its greatest ratio, and if the net is
/// live at no other ratio (chapter 3).
///
/// The part has to be strong: two transitions with a place from each to itself, of one token, that
/// hold for 1 and for 2, have the greatest ratio 2, at which the first has no tight potential.
pub fn tight_potentials_exist()
    ensures exist { TightPotentialsExist }
    ensures just { TightJustAtTheRatio }
{}

/// Potentials that no place exceeds are just met by each place of a critical circuit, one that has
/// the ratio. Tight potentials that are equal at the transitions of critical circuits are equal
/// (chapter 3).
pub fn critical_circuits_tell_potentials()
    ensures places { CriticalPlacesAreTight }
    ensures transitions { CriticalTransitionsTell }
{}

/// The eigenspace: tight potentials moved by a number are tight, and so are the greater of two; and
/// all of a part are told by those that begin at its critical transitions, the greatest reduced
/// times of paths from there: each is the greatest of them, each of these moved by the potential of
/// where it begins (chapter 3). A strong part has them from each member.
pub fn potentials_are_spanned()
    ensures moved { MovedPotentialsAreTight }
    ensures greater { GreaterPotentialsAreTight }
    ensures begun { BegunPotentialsAreTight }
    ensures exist { BegunPotentialsExist }
    ensures spanned { PotentialsAreSpanned }
{}

/// One begins for each critical part, the transitions between which ways there and back have the
/// ratio: those that begin at two of its transitions differ by one number, and from transition to
/// transition of it all tight potentials of the part differ by the same. So where the critical
/// transitions are in one critical part, there is one potential up to a number (chapter 3).
///
/// With two critical parts there may be more: of two transitions with a place from each to itself
/// that holds for 1, and from each to the other that holds for 0, all of one token, both 0, 0 and
/// 0, 1 are tight at the ratio 1.
pub fn critical_parts_tell_potentials()
    ensures as_one { CriticalPartsMoveAsOne }
    ensures begun { OneBeginsForEachPart }
    ensures one { OneCriticalPartTellsAll }
{}

/// The eigenspace has a basis: potentials that begin at a critical transition are not the greatest
/// of others, however these are moved, that begin outside of its critical part (`left_out`). So
/// transitions span all tight potentials of a strong part just where each critical part has one of
/// them (`each`), and the least number that does is that of the critical parts (chapter 3).
///
/// Two transitions with a place from each to itself that holds for 1, and from each to the other
/// that holds for 0, all of one token, have two critical parts at the ratio 1: 0, -1 begins at the
/// first, -1, 0 at the second, and neither is the other moved.
pub fn critical_parts_are_a_basis()
    ensures left_out { NoneCanBeLeftOut }
    ensures each { OneOfEachPartSpans }
{}
