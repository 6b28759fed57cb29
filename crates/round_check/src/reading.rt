//! The lines of rounds of a text of `teg cycle --rounds`. Nothing rests on what is read: it is checked.
use std::alloc::{AllocError, Global};
use teg_net::{Choice, Circuit, Net, Ratio, Round};
use witness_check::{places_named, ratio_in};

// What was read: the lines before those of rounds, and the rounds of each part with a circuit.
#[derive(Drop)]
pub(crate) struct RoundsTold {
    pub(crate) times: String,
    pub(crate) runs: Vec<Vec<Round>>,
}

// What was read so far.
#[derive(Drop)]
struct Reading {
    runs: Vec<Vec<Round>>,
    run: Vec<Round>,
    round: Option<Round>,
}

impl Reading {
    // Ends the round that is being read.
    fn end_round(&mut self) -> Result<(), AllocError> {
        if let Some(round) = self.round.take() {
            self.run.push(round)?;
        }
        Ok(())
    }

    // Ends the rounds of the part that is being read.
    fn end_run(&mut self, alloc: Global) -> Result<(), AllocError> {
        self.end_round()?;
        if !self.run.is_empty() {
            let run = std::mem::replace(&mut self.run, Vec::new(alloc));
            self.runs.push(run)?;
        }
        Ok(())
    }

    // Begins a round of this ratio, the first of its part or a further one.
    fn begin(&mut self, alloc: Global, is_first: bool, ratio: Ratio) -> Result<(), AllocError> {
        if is_first {
            self.end_run(alloc)?;
        } else {
            self.end_round()?;
        }
        self.round = Some(Round {
            ratio,
            circuit: Circuit {
                places: Vec::new(alloc),
            },
            choices: Vec::new(alloc),
        });
        Ok(())
    }

    // Gives the round that is being read a choice.
    fn choose(&mut self, net: &Net, words: (&str, &str, &str)) -> Result<bool, AllocError> {
        let (Some(transition), Some(place)) = (net.find(words.0), net.find_place(words.1)) else {
            return Ok(false);
        };
        let Ok(value) = words.2.parse::<i128>() else {
            return Ok(false);
        };
        if let Some(round) = &mut self.round {
            round.choices.push(Choice {
                transition,
                place,
                value,
            })?;
        }
        Ok(true)
    }

    // Gives the round that is being read its circuit.
    fn close(&mut self, alloc: Global, net: &Net, line: &str) -> Result<bool, AllocError> {
        let names = line.strip_prefix("circuit").unwrap_or("");
        let Some(places) = places_named(alloc, net, names)? else {
            return Ok(false);
        };
        if let Some(round) = &mut self.round {
            round.circuit.places = places;
        }
        Ok(true)
    }

    // Reads a line.
    fn line(&mut self, alloc: Global, net: &Net, line: &str) -> Result<bool, AllocError> {
        let words: Vec<&str> = line.split_whitespace().collect(alloc)?;
        match words.as_slice() {
            ["part", _, "round", turn, "ratio", ratio] => {
                let Some(ratio) = ratio_in(ratio) else {
                    return Ok(false);
                };
                self.begin(alloc, *turn == "1", ratio)?;
                Ok(true)
            }
            ["circuit", ..] => self.close(alloc, net, line),
            ["choice", transition, place, value] => self.choose(net, (transition, place, value)),
            _ => Ok(false),
        }
    }
}

// Whether the line begins a round.
fn begins_round(alloc: Global, line: &str) -> Result<bool, AllocError> {
    let words: Vec<&str> = line.split_whitespace().collect(alloc)?;
    Ok(matches!(words.as_slice(), ["part", _, "round", ..]))
}

// The rounds that the text of `teg cycle --rounds` tells, and the lines before them; none where a
// line behind the first of a round is none of rounds.
pub(crate) fn rounds_in(
    alloc: Global,
    net: &Net,
    text: &str,
) -> Result<Option<RoundsTold>, AllocError> {
    let mut times = String::new(alloc);
    let mut reading = Reading {
        runs: Vec::new(alloc),
        run: Vec::new(alloc),
        round: None,
    };
    let mut began = false;
    for line in text.lines() {
        if !began {
            began = begins_round(alloc, line)?;
        }
        if !began {
            times.push_str(line)?;
            times.push('\n')?;
        } else if !reading.line(alloc, net, line)? {
            return Ok(None);
        }
    }
    reading.end_run(alloc)?;
    Ok(Some(RoundsTold {
        times,
        runs: reading.runs,
    }))
}
