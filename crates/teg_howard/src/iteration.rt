//! The rounds of a part, from the first to the one that no place improves.
ghost use Rattle.std.specs.Prelude.{◌≡◌, ◌≢◌, ◌++◌, ◌∷◌, [], IfOk, IfSome, IfNone, map};
ghost use Rattle.teg_net.specs.PartAnswers.{IsPartAnswer};
ghost use Rattle.policy_rounds.specs.PolicyRounds.{BeginsBy, IsFirstRound, IsPolicyRun, IsLastRound};
ghost use Rattle.policy_rounds.specs.RunAnswers.{potential_of, IsAnswerOf, IsAnswerOfLast, EndsRun, KeepsLimits};
ghost use Rattle.teg_howard.specs.PolicyRuns.{AllRise, RiseByCase};
ghost use Rattle.teg_howard.specs.FoundCircuits.{IsBeginning};
ghost use Rattle.policy_rounds.specs.PolicyLists.{policy_of};
ghost use Rattle.teg_howard.specs.InnerPlaces.{AreInner};
ghost use Rattle.teg_howard.specs.RoundStates.{IsRoundState, HasCircuit, SettlesTo, IsFirstState, IsImproved, IsNextRoundState, IsIteration, GoesOn, StaysAtLast};

use crate::beginnings::policy_after;
use crate::inside::{InnerPlaces, Part, inner_places};
use crate::policies::{improve, is_any, lowest_places};
use crate::policy_circuits::best_circuit;
use crate::settling::{RoundState, settle};
use std::alloc::{AllocError, Global};
use std::mem;
use teg_net::{Choice, Circuit, Net, PartAnswer, PlaceId, Potential, Ratio, Round};

// The ratio and the circuit of the first round, of the policy to begin with.
fn first_circuit(
    alloc: Global,
    part: &Part,
    policy: &[PlaceId],
) -> Result<(Ratio, Vec<PlaceId>), AllocError>
    requires circuit { HasCircuit part.now.net.now part.now.parts.now part.now.number }
    requires begins { IsBeginning part.now.net.now part.now.parts.now part.now.number policy.now }
    ensures { IfOk result (λ w. SettlesTo part.now.net.now part.now.parts.now part.now.number
        policy.now w.0 w.1.items (IsFirstState part.now.net.now part.now.parts.now
        part.now.number (policy_of policy.now))) }
{
    let everywhere = vec![in alloc; true; part.parts.len()]?;
    let found = best_circuit(alloc, part, policy, &everywhere)?.unwrap();
    Ok((Ratio::of(found.time, found.tokens), found.places))
}

// The first round, of the policy to begin with.
fn first_state(alloc: Global, part: &Part, policy: &mut [PlaceId]) -> Result<RoundState, AllocError>
    requires inner { AreInner part.now.net.now part.now.parts.now part.now.number part.now.ids.now
        part.now.exits.now }
    requires circuit { HasCircuit part.now.net.now part.now.parts.now part.now.number }
    requires begins { IsBeginning part.now.net.now part.now.parts.now part.now.number policy.old }
    ensures { IfOk result (IsFirstState part.now.net.now part.now.parts.now part.now.number
        (policy_of policy.old) policy.new) }
{
    let (ratio, circuit) = first_circuit(alloc, part, policy)?;
    settle(alloc, part, policy, ratio, circuit)
}

// The ratio and the circuit of the next round: those of the better policy's best circuit through a
// changed member, and where it has none those of the round before.
fn next_circuit(
    alloc: Global,
    part: &Part,
    state: &RoundState,
    policy: &[PlaceId],
    changed: &[bool],
) -> Result<(Ratio, Vec<PlaceId>), AllocError>
    requires circuit { HasCircuit part.now.net.now part.now.parts.now part.now.number }
    requires improved { IsImproved part.now.net.now part.now.parts.now part.now.number state.now
        policy.now changed.now }
    ensures { IfOk result (λ w. SettlesTo part.now.net.now part.now.parts.now part.now.number
        policy.now w.0 w.1.items (λ routed next. IsNextRoundState part.now.net.now
        part.now.parts.now part.now.number routed state.now next)) }
{
    match best_circuit(alloc, part, policy, changed)? {
        Some(found) => Ok((Ratio::of(found.time, found.tokens), found.places)),
        None => {
            let circuit = state.round.circuit.places.clone()?;
            Ok((state.round.ratio, circuit))
        }
    }
}

// The round that follows, unless no place improves.
fn next_state(
    alloc: Global,
    part: &Part,
    state: &RoundState,
    policy: &mut [PlaceId],
) -> Result<Option<RoundState>, AllocError>
    requires inner { AreInner part.now.net.now part.now.parts.now part.now.number part.now.ids.now
        part.now.exits.now }
    requires circuit { HasCircuit part.now.net.now part.now.parts.now part.now.number }
    requires standing { IsRoundState part.now.net.now part.now.parts.now part.now.number policy.old
        state.now }
    ensures some { IfOk result (λ o. IfSome o (λ next. IsNextRoundState part.now.net.now
        part.now.parts.now part.now.number policy.new state.now next)) }
    ensures none { IfOk result (λ o. IfNone o (IsLastRound part.now.net.now part.now.parts.now
        part.now.number state.now.round)) }
{
    let changed = improve(alloc, part, state.round.ratio, &state.values, policy)?;
    if !is_any(&changed) {
        return Ok(None);
    }
    let (ratio, circuit) = next_circuit(alloc, part, state, policy, &changed)?;
    let next = settle(alloc, part, policy, ratio, circuit)?;
    Ok(Some(next))
}

// The potentials of the choices.
fn potentials_of(alloc: Global, choices: &[Choice]) -> Result<Vec<Potential>, AllocError>
    ensures { IfOk result (λ ps. ps.items ≡ map potential_of choices.now) }
{
    choices
        .iter()
        .map(|choice| Potential {
            transition: choice.transition,
            value: choice.value,
        })
        .collect(alloc)
}

// The answer that a round gives.
fn answer_of(alloc: Global, round: &Round) -> Result<PartAnswer, AllocError>
    ensures { IfOk result (λ answer. IsAnswerOf round.now answer) }
{
    let places = round.circuit.places.clone()?;
    let potentials = potentials_of(alloc, &round.choices)?;
    Ok(PartAnswer::Best {
        ratio: round.ratio,
        circuit: Circuit { places },
        potentials,
    })
}

// Where the rounds of a part stand: the latest one, and the policy that it gives.
#[derive(Drop)]
struct Iteration {
    inner: InnerPlaces,
    policy: Vec<PlaceId>,
    state: RoundState,
}

impl Iteration {
    // The latest round.
    fn into_round(self) -> Round
        ensures { result ≡ self.state.round }
    {
        let Iteration {
            inner: _inner,
            policy: _policy,
            state,
        } = self;
        let RoundState {
            round,
            values: _values,
        } = state;
        round
    }
}

// The rounds of a part, at the one of the policy to begin with.
fn begin_with(
    alloc: Global,
    net: &Net,
    parts: &[u32],
    part: u32,
    mut policy: Vec<PlaceId>,
) -> Result<Iteration, AllocError>
    requires circuit { HasCircuit net.now parts.now part }
    requires begins { IsBeginning net.now parts.now part policy.items }
    ensures standing { IfOk result (IsIteration net.now parts.now part) }
    ensures first { IfOk result (λ at. BeginsBy net.now parts.now part (policy_of policy.items)
        at.state.round) }
{
    let inner = inner_places(alloc, net, parts, part)?;
    let own = Part {
        net,
        parts,
        number: part,
        ids: &inner.ids,
        exits: &inner.exits,
    };
    let state = first_state(alloc, &own, &mut policy)?;
    Ok(Iteration {
        inner,
        policy,
        state,
    })
}

// The rounds of a part, at the first of its policy run: each member takes its lowest numbered
// place.
fn begin(alloc: Global, net: &Net, parts: &[u32], part: u32) -> Result<Iteration, AllocError>
    requires { HasCircuit net.now parts.now part }
    ensures standing { IfOk result (IsIteration net.now parts.now part) }
    ensures first { IfOk result (λ at. IsFirstRound net.now parts.now part at.state.round) }
{
    let policy = lowest_places(alloc, net, parts, part)?;
    begin_with(alloc, net, parts, part, policy)
}

// Goes on to the next round, and gives the one before. Where no place improves it stays, and gives
// none.
fn advance(
    alloc: Global,
    net: &Net,
    parts: &[u32],
    part: u32,
    at: &mut Iteration,
) -> Result<Option<Round>, AllocError>
    requires circuit { HasCircuit net.now parts.now part }
    requires standing { IsIteration net.now parts.now part at.old }
    ensures some { IfOk result (λ o. IfSome o (GoesOn net.now parts.now part at.old at.new)) }
    ensures none { IfOk result (λ o. IfNone o (StaysAtLast net.now parts.now part at.old at.new)) }
{
    let own = Part {
        net,
        parts,
        number: part,
        ids: &at.inner.ids,
        exits: &at.inner.exits,
    };
    match next_state(alloc, &own, &at.state, &mut at.policy)? {
        Some(next) => {
            let RoundState {
                round,
                values: _values,
            } = mem::replace(&mut at.state, next);
            Ok(Some(round))
        }
        None => Ok(None),
    }
}

// The answer that the last round gives, and the rounds with it behind them.
fn ended_run(
    alloc: Global,
    mut rounds: Vec<Round>,
    round: Round,
) -> Result<(PartAnswer, Vec<Round>), AllocError>
    ensures { IfOk result (λ w. IsAnswerOf round w.0 × (w.1.items ≡ rounds.items ++ round ∷ [])) }
{
    let answer = answer_of(alloc, &round)?;
    rounds.push(round)?;
    Ok((answer, rounds))
}

// The policy run of a part, and the answer that its last round gives.
pub(crate) fn policy_run(
    alloc: Global,
    net: &Net,
    parts: &[u32],
    part: u32,
) -> Result<(PartAnswer, Vec<Round>), AllocError>
    requires { HasCircuit net.now parts.now part }
    ensures run { IfOk result (λ w. IsPolicyRun net.now parts.now part w.1.items) }
    ensures best { IfOk result (λ w. IsPartAnswer net.now parts.now part w.0) }
    ensures answer { IfOk result (λ w. IsAnswerOfLast w.1.items w.0) }
    ensures limits { IfOk result (λ w. KeepsLimits w.0) }
    ensures rises { IfOk result (λ w. AllRise w.1.items) }
    ensures cases { IfOk result (λ w. RiseByCase net.now parts.now part w.1.items) }
{
    let mut at = begin(alloc, net, parts, part)?;
    let mut rounds = Vec::new(alloc);
    'rounds: while let Some(before) = advance(alloc, net, parts, part, &mut at)? {
        rounds.push(before)?;
    }
    ended_run(alloc, rounds, at.into_round())
}

// The answer that the last round of a part's policy run gives. One round is kept.
pub(crate) fn last_answer(
    alloc: Global,
    net: &Net,
    parts: &[u32],
    part: u32,
) -> Result<PartAnswer, AllocError>
    requires { HasCircuit net.now parts.now part }
    ensures best { IfOk result (λ answer. IsPartAnswer net.now parts.now part answer) }
    ensures run { IfOk result (λ answer. EndsRun net.now parts.now part answer) }
    ensures limits { IfOk result (λ answer. KeepsLimits answer) }
{
    let mut at = begin(alloc, net, parts, part)?;
    'rounds: while let Some(_before) = advance(alloc, net, parts, part, &mut at)? {}
    let round = at.into_round();
    let answer = answer_of(alloc, &round)?;
    Ok(answer)
}

// The answer of the last of the rounds that begin with the policy which an earlier answer gives.
// One round is kept.
pub(crate) fn answer_after(
    alloc: Global,
    net: &Net,
    parts: &[u32],
    part: u32,
    before: &PartAnswer,
) -> Result<PartAnswer, AllocError>
    requires { HasCircuit net.now parts.now part }
    ensures best { IfOk result (λ answer. IsPartAnswer net.now parts.now part answer) }
    ensures told { IfOk result (λ answer. answer ≢ PartAnswer.NoCircuit) }
    ensures limits { IfOk result (λ answer. KeepsLimits answer) }
{
    let policy = policy_after(alloc, net, parts, part, before)?;
    let mut at = begin_with(alloc, net, parts, part, policy)?;
    'rounds: while let Some(_before) = advance(alloc, net, parts, part, &mut at)? {}
    let round = at.into_round();
    let answer = answer_of(alloc, &round)?;
    Ok(answer)
}
