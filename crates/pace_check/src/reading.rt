//! The answer that a text of `teg cycle` tells. Nothing rests on it: what is read is checked.
use std::alloc::{AllocError, Global};
use teg_net::{Circuit, CycleAnswer, Net, PartAnswer, PlaceId, Potential, Ratio};
use witness_check::{places_named, ratio_in};

// A part that is being read.
#[derive(Drop)]
struct Part {
    ratio: Option<Ratio>,
    places: Vec<PlaceId>,
    potentials: Vec<Potential>,
}

impl Part {
    fn new(alloc: Global, ratio: Option<Ratio>) -> Part {
        Part {
            ratio,
            places: Vec::new(alloc),
            potentials: Vec::new(alloc),
        }
    }

    fn answer(self) -> PartAnswer {
        match self.ratio {
            None => PartAnswer::NoCircuit,
            Some(ratio) => PartAnswer::Best {
                ratio,
                circuit: Circuit {
                    places: self.places,
                },
                potentials: self.potentials,
            },
        }
    }
}

// What was read so far.
#[derive(Drop)]
struct Reading {
    part_of: Vec<u32>,
    parts: Vec<PartAnswer>,
    pace: Option<Ratio>,
    best: Option<u32>,
    part: Option<Part>,
}

impl Reading {
    // Ends the part that is being read.
    fn end_part(&mut self) -> Result<(), AllocError> {
        if let Some(part) = self.part.take() {
            if self.best.is_none() && part.ratio.is_some() && part.ratio == self.pace {
                self.best = u32::try_from(self.parts.len()).ok();
            }
            self.parts.push(part.answer())?;
        }
        Ok(())
    }

    // Gives the transition the part that is being read.
    fn put(&mut self, index: u32) {
        let at = index as usize;
        if at < self.part_of.len() {
            self.part_of[at] = u32::try_from(self.parts.len()).unwrap_or(u32::MAX);
        }
    }

    // Reads a line.
    fn line(&mut self, alloc: Global, net: &Net, line: &str) -> Result<bool, AllocError> {
        let words: Vec<&str> = line.split_whitespace().collect(alloc)?;
        match words.as_slice() {
            ["cycle", "time", ratio] => self.pace = ratio_in(ratio),
            ["part", _, "ratio", ratio] => {
                self.end_part()?;
                self.part = Some(Part::new(alloc, ratio_in(ratio)));
            }
            ["part", _, "no", "circuit"] => {
                self.end_part()?;
                self.part = Some(Part::new(alloc, None));
            }
            ["member", name] => match net.find(name) {
                Some(id) => self.put(id.index),
                None => return Ok(false),
            },
            ["potential", name, value] => {
                let Some(transition) = net.find(name) else {
                    return Ok(false);
                };
                let Ok(value) = value.parse::<i128>() else {
                    return Ok(false);
                };
                self.put(transition.index);
                if let Some(part) = &mut self.part {
                    part.potentials.push(Potential { transition, value })?;
                }
            }
            ["circuit", ..] => {
                if let Some(part) = &mut self.part {
                    let Some(rest) = line.strip_prefix("circuit") else {
                        return Ok(false);
                    };
                    match places_named(alloc, net, rest)? {
                        Some(places) => part.places = places,
                        None => return Ok(false),
                    }
                }
            }
            _ => return Ok(false),
        }
        Ok(true)
    }
}

// The answer that the text of `teg cycle` tells; none where a line is none of its lines.
pub(crate) fn answer_in(
    alloc: Global,
    net: &Net,
    text: &str,
) -> Result<Option<CycleAnswer>, AllocError> {
    let mut reading = Reading {
        part_of: vec![in alloc; 0u32; net.transitions().len()]?,
        parts: Vec::new(alloc),
        pace: None,
        best: None,
        part: None,
    };
    for line in text.lines() {
        if !reading.line(alloc, net, line)? {
            return Ok(None);
        }
    }
    reading.end_part()?;
    Ok(Some(CycleAnswer {
        part_of: reading.part_of,
        parts: reading.parts,
        best: reading.best,
    }))
}
