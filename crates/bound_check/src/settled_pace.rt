//! The greatest ratio of a net in which each transition reaches each, by rows that repeat. Nothing
//! rests on it: what is found is checked.
use dioid::Date;
use std::alloc::{AllocError, Global};
use teg_net::{
    Circuit, CycleAnswer, Net, PartAnswer, Place, PlaceId, Potential, Ratio, TransitionId,
};

// Rows of dates, one after another from number 1 on with one date for each transition in order, and
// the number past which and the period in which they repeat.
#[derive(Clone, Copy)]
pub(crate) struct PeriodicRows<'a> {
    pub(crate) net: &'a Net,
    pub(crate) after: u64,
    pub(crate) period: u64,
    pub(crate) dates: &'a [Date],
}

// A ratio, and for each transition the greatest over a period of how far its date is ahead of it.
#[derive(Drop)]
struct Heights {
    ratio: Ratio,
    values: Vec<i128>,
}

impl Heights {
    // That of this transition, counted from 0.
    fn at(&self, index: usize) -> i128 {
        self.values.get(index).copied().unwrap_or(0)
    }

    // Whether the place lifts the value of its start to just that of its end.
    fn is_tight(&self, place: &Place) -> bool {
        let gain = i128::from(self.ratio.tokens()).saturating_mul(i128::from(place.hold));
        let loss = i128::from(self.ratio.time()).saturating_mul(i128::from(place.tokens));
        let lifted = self
            .at(place.from.index())
            .saturating_add(gain)
            .saturating_sub(loss);
        lifted == self.at(place.to.index())
    }

    // The first tight place that ends there.
    fn tight_into(&self, net: &Net, index: usize) -> Option<PlaceId> {
        for (number, place) in net.places().iter().enumerate() {
            if place.to.index() == index && self.is_tight(place) {
                return Some(PlaceId::new(number as u32));
            }
        }
        None
    }

    // Tight places back from the first transition, as many as there are transitions, in the order of
    // a path.
    fn path_back(&self, alloc: Global, net: &Net) -> Result<Vec<PlaceId>, AllocError> {
        let mut path = Vec::new(alloc);
        let mut at = 0;
        for _ in 0..self.values.len() {
            let Some(place) = self.tight_into(net, at) else {
                break;
            };
            path.push(place)?;
            at = net
                .places()
                .get(place.index())
                .map_or(0, |own| own.from.index());
        }
        path.reverse();
        Ok(path)
    }

    // The value of each transition, less that of the first.
    fn potentials(&self, alloc: Global, net: &Net) -> Result<Vec<Potential>, AllocError> {
        let mut told = Vec::new(alloc);
        for index in 0..net.transitions().len() {
            let transition = TransitionId {
                index: index as u32,
            };
            let value = self.at(index).saturating_sub(self.at(0));
            told.push(Potential { transition, value })?;
        }
        Ok(told)
    }
}

// The circuit that a path of places begins with: up to where it first comes back to its start.
fn first_round(alloc: Global, net: &Net, path: &[PlaceId]) -> Result<Vec<PlaceId>, AllocError> {
    let mut round = Vec::new(alloc);
    let start = path
        .first()
        .and_then(|first| net.places().get(first.index()))
        .map_or(0, |own| own.from.index());
    for place in path {
        round.push(*place)?;
        let end = net.places().get(place.index()).map(|own| own.to.index());
        if end == Some(start) {
            break;
        }
    }
    Ok(round)
}

impl PeriodicRows<'_> {
    // The date of the transition at this number, 0 where it is none.
    fn date(&self, index: usize, number: usize) -> i128 {
        let start = number
            .saturating_sub(1)
            .saturating_mul(self.net.transitions().len());
        match self.dates.get(start.saturating_add(index)) {
            Some(Date::At(date)) => *date,
            _ => 0,
        }
    }

    // By how much the dates of the transition move in a period.
    fn step(&self, index: usize) -> i128 {
        let first = (self.after as usize).saturating_add(1);
        let later = first.saturating_add(self.period as usize);
        self.date(index, later)
            .saturating_sub(self.date(index, first))
    }

    // The same of each.
    pub(crate) fn steps(&self, alloc: Global) -> Result<Vec<i128>, AllocError> {
        let mut steps = Vec::new(alloc);
        for index in 0..self.net.transitions().len() {
            steps.push(self.step(index))?;
        }
        Ok(steps)
    }

    // The step of the first transition over the period.
    fn ratio(&self) -> Option<Ratio> {
        if self.period == 0 {
            return None;
        }
        let time = u64::try_from(self.step(0)).ok()?;
        Some(Ratio::of(time, self.period))
    }

    // How far the date at this number is ahead of the ratio.
    fn ahead(&self, ratio: Ratio, index: usize, number: usize) -> i128 {
        let gain = i128::from(ratio.tokens()).saturating_mul(self.date(index, number));
        let loss = i128::from(ratio.time()).saturating_mul(number as i128);
        gain.saturating_sub(loss)
    }

    // The greatest over the first period.
    fn height(&self, ratio: Ratio, index: usize) -> i128 {
        let first = (self.after as usize).saturating_add(1);
        let mut most = self.ahead(ratio, index, first);
        for further in 1..self.period as usize {
            most = most.max(self.ahead(ratio, index, first.saturating_add(further)));
        }
        most
    }

    // That of each transition.
    fn heights(&self, alloc: Global, ratio: Ratio) -> Result<Heights, AllocError> {
        let mut values = Vec::new(alloc);
        for index in 0..self.net.transitions().len() {
            values.push(self.height(ratio, index))?;
        }
        Ok(Heights { ratio, values })
    }

    // The net as one part of the ratio, with a circuit that has it.
    pub(crate) fn cycle_times(&self, alloc: Global) -> Result<Option<CycleAnswer>, AllocError> {
        let Some(ratio) = self.ratio() else {
            return Ok(None);
        };
        let heights = self.heights(alloc, ratio)?;
        let path = heights.path_back(alloc, self.net)?;
        let places = first_round(alloc, self.net, &path)?;
        let mut parts = Vec::new(alloc);
        parts.push(PartAnswer::Best {
            ratio,
            circuit: Circuit { places },
            potentials: heights.potentials(alloc, self.net)?,
        })?;
        Ok(Some(CycleAnswer {
            part_of: vec![in alloc; 0u32; self.net.transitions().len()]?,
            parts,
            best: Some(0),
        }))
    }
}
