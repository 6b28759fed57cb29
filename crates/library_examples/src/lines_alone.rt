//! The texts of cycle times and of a circuit without tokens, written on `teg_lines` without the
//! other crates of answers.
use crate::told::so;
use example_nets::{LOOP, ask_held, read};
use std::alloc::Global;
use std::test::Fail;
use teg_certificates::check_cycle;
use teg_check::{CheckRefusal, LiveNet, NotHeld};
use teg_cycle::cycle;
use teg_lines::{certificates_can_be_told, cycle_text, token_free_text};
use teg_net::{CycleAnswer, Net, OutOfMemory, is_circuit};
use teg_parts::split;

// Two transitions that follow each other by 3 and by 2, without a token.
const STUCK: &[u8] = b"transition = [{name = 'a'}, {name = 'b'}]
place = [
  {name = 'ab', from = 'a', to = 'b', hold = 3},
  {name = 'ba', from = 'b', to = 'a', hold = 2},
]
";

// The cycle times of a net that is held, by its parts.
fn answer_of(alloc: Global, held: &LiveNet) -> Result<CycleAnswer, OutOfMemory> {
    let parts = split(alloc, held.net())?;
    cycle(alloc, held.net(), held.live(), &parts)
}

// The text of an answer that is a certificate with a best part; of any other nothing.
fn told(alloc: Global, net: &Net, answer: &CycleAnswer) -> Result<Vec<u8>, OutOfMemory> {
    // The law that such an answer can be told.
    certificates_can_be_told();
    match answer.best {
        Some(_) if check_cycle(net, answer) => cycle_text(alloc, net, answer, None),
        _ => Ok(Vec::new(alloc)),
    }
}

// The text of the circuit of the refusal; of another refusal nothing.
fn told_refusal(alloc: Global, refused: &NotHeld) -> Result<Vec<u8>, OutOfMemory> {
    match &refused.refusal {
        CheckRefusal::TokenFree { circuit } if is_circuit(&refused.net, &circuit.places) => {
            token_free_text(alloc, &refused.net, circuit)
        }
        _ => Ok(Vec::new(alloc)),
    }
}

// Whether the text of the cycle times of a net that is held begins so.
fn has_cycle_times(alloc: Global, held: &LiveNet) -> Result<bool, OutOfMemory> {
    let answer = answer_of(alloc, held)?;
    let text = told(alloc, held.net(), &answer)?;
    Ok(text.starts_with(b"cycle time 5/1\ncircuit ab ba\n"))
}

// That it does.
fn tells_cycle_times(alloc: Global, held: &LiveNet) -> Result<(), Fail> {
    so(has_cycle_times(alloc, held)?, "cycle times")
}

// Whether a net is not held, for which the text is this.
fn is_refused(alloc: Global, net: Net) -> Result<bool, OutOfMemory> {
    match LiveNet::new(alloc, net) {
        Ok(_) => Ok(false),
        Err(refused) => {
            let text = told_refusal(alloc, &refused)?;
            Ok(text.as_slice() == b"refused: token-free circuit ab ba\n".as_slice())
        }
    }
}

#[test]
fn cycle_times_and_a_circuit_without_tokens_are_told(rt: HostRuntime) -> Result<(), Fail> {
    let alloc = rt.alloc();
    so(
        is_refused(alloc, read(alloc, STUCK)?)?,
        "a circuit without tokens",
    )?;
    ask_held(alloc, LOOP, tells_cycle_times)
}
