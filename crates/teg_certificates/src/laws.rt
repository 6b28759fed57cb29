//! What certificates, potentials, ranks and circuits show, as laws. Each is a function that does
//! nothing when it runs: its contract is the law.
ghost use Rattle.teg_certificates.specs.Weights.{PotentialsBoundWeights};
ghost use Rattle.teg_certificates.specs.CircuitsInParts.{CircuitsLieInOnePart};
ghost use Rattle.teg_certificates.specs.CertifiedNets.{CertificatesTellOfNets, CertificatesTellOfParts, PotentialsBoundRatios};
ghost use Rattle.teg_certificates.specs.RisingRanks.{ListedRanksShowLive, RisingRanksShowLive};
ghost use Rattle.teg_certificates.specs.SlackWitnesses.{CriticalCircuitsTell, RisePotentialsTell, RisingNumbersShowNoCircuit};
ghost use Rattle.teg_certificates.specs.Sizes.{AlwaysAboveShowsNone, FewestAreShown, NeverEnoughIsShown, StillAboveShowsMore, TargetPotentialsShowEnough};

/// Whatever places weigh, a circuit of which no place lifts its end above the potential there
/// weighs at most 0 (chapter 3).
pub fn potentials_bound_weights()
    ensures { PotentialsBoundWeights }
{}

/// Potentials that no place of a part exceeds at a ratio bound the ratio of each circuit in the
/// part (chapter 3).
pub fn potentials_bound_ratios()
    ensures { PotentialsBoundRatios }
{}

/// Where numbers of transitions never fall along a place, each circuit lies in one part (chapter
/// 2).
pub fn circuits_lie_in_one_part()
    ensures { CircuitsLieInOnePart }
{}

/// Where an answer is a certificate, the ratio of the best part is the greatest over all circuits
/// of the net, and that of each part the greatest over its circuits; no part is named exactly where
/// there is no circuit (chapters 2 and 3). Nothing else is asked of the answer, and of the net only
/// that its places begin and end at its transitions: not that it is live. The circuit told has a
/// token, so that no net has two such ratios.
pub fn certificates_tell()
    ensures nets { CertificatesTellOfNets }
    ensures parts { CertificatesTellOfParts }
{}

/// A net is live where a rank of its transitions rises strictly along each place without tokens,
/// whatever the ranks are made of (chapter 2).
pub fn rising_ranks_show_live()
    ensures function { RisingRanksShowLive }
    ensures list { ListedRanksShowLive }
{}

/// Where a circuit that passes a place is still above the target with so many extra tokens of it,
/// each number that is enough is greater; and the circuit that is told with the least number that
/// is enough is so with one token less (chapters 2 and 3).
pub fn still_above_shows_more()
    ensures more { StillAboveShowsMore }
    ensures fewest { FewestAreShown }
{}

/// Where a circuit is above the target and extra tokens of a place do not help it, no number of
/// them is enough; and the circuit that is told where no number is enough is so (chapters 2 and 3).
pub fn always_above_shows_none()
    ensures none { AlwaysAboveShowsNone }
    ensures never { NeverEnoughIsShown }
{}

/// Potentials that no place exceeds at a target, where one place has so many extra tokens, show
/// that these are enough (chapters 2 and 3).
pub fn target_potentials_show_enough()
    ensures { TargetPotentialsShowEnough }
{}

/// Where an answer is a certificate, a circuit that passes a place and has the ratio of the best
/// part has the greatest ratio of the net, so that the place is critical (chapters 2 and 3).
pub fn critical_circuits_tell()
    ensures { CriticalCircuitsTell }
{}

/// Potentials that no place exceeds at a ratio, where the hold of one place is longer, show that
/// no circuit that passes this place is above the ratio with that hold, and that as it is each is
/// below (chapters 2 and 3).
pub fn rise_potentials_tell()
    ensures { RisePotentialsTell }
{}

/// Where numbers of transitions never fall along a place, no circuit passes a place along which
/// they rise (chapter 2).
pub fn rising_numbers_show_no_circuit()
    ensures { RisingNumbersShowNoCircuit }
{}
