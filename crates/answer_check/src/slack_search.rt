//! A search for what shows the slack of places. Nothing rests on it: what it finds is checked.
ghost use Rattle.std.specs.Prelude.{◌≡◌, length};

use crate::heights::{heights_at, losses_of};
use crate::paths::Paths;
use crate::slack::ShownSlack;
use std::alloc::{AllocError, Global};
use teg_net::{
    Circuit, CycleAnswer, Net, OutOfMemory, PartAnswer, PlaceEnd, PlaceId, PlacesOf, Potential,
    Ratio, TransitionId,
};

// A net, a ratio, potentials that no place lifts at it where it is the greatest, what each place loses
// against them, and from each transition on the paths that lose least.
#[derive(Drop)]
pub(crate) struct SlackSearch<'n> {
    net: &'n Net,
    ratio: Ratio,
    potentials: Vec<i128>,
    losses: Vec<i128>,
    paths: Vec<Paths>,
}

// From each transition on the paths that lose least.
fn all_paths(
    alloc: Global,
    net: &Net,
    losses: &[i128],
    outgoing: &PlacesOf,
) -> Result<Vec<Paths>, AllocError>
    requires { length outgoing.now ≡ length net.now.transitions }
{
    let mut paths = Vec::new(alloc);
    for index in 0..net.transitions().len() {
        let first = TransitionId {
            index: index as u32,
        };
        paths.push(Paths::from(alloc, net, losses, outgoing, first)?)?;
    }
    Ok(paths)
}

impl<'n> SlackSearch<'n> {
    // The search at this ratio.
    pub(crate) fn new(
        alloc: Global,
        net: &'n Net,
        ratio: Ratio,
    ) -> Result<SlackSearch<'n>, OutOfMemory> {
        let outgoing = PlacesOf::new(alloc, net, PlaceEnd::From)?;
        let potentials = heights_at(alloc, net, ratio)?;
        let losses = losses_of(alloc, net, ratio, &potentials)?;
        let paths = all_paths(alloc, net, &losses, &outgoing)?;
        Ok(SlackSearch {
            net,
            ratio,
            potentials,
            losses,
            paths,
        })
    }

    // The paths from the end of the place on.
    fn paths_behind(&self, place: PlaceId) -> Option<&Paths> {
        let own = self.net.places().get(place.index())?;
        self.paths.get(own.to.index())
    }

    // The circuit that loses least of those that pass the place, where one does.
    pub(crate) fn best_circuit(
        &self,
        alloc: Global,
        place: PlaceId,
    ) -> Result<Circuit, AllocError> {
        match self.paths_behind(place) {
            Some(paths) => paths.closed_by(alloc, self.net, place),
            None => Ok(Circuit {
                places: Vec::new(alloc),
            }),
        }
    }

    // For each transition 1 where a path leads there from the end of the place, and else 0.
    pub(crate) fn numbers_behind(
        &self,
        alloc: Global,
        place: PlaceId,
    ) -> Result<Vec<u32>, AllocError> {
        let mut numbers = Vec::new(alloc);
        if let Some(paths) = self.paths_behind(place) {
            for least in &paths.least {
                numbers.push(if least.is_some() { 1u32 } else { 0 })?;
            }
        }
        Ok(numbers)
    }

    // How much the place lifts its end by where its hold is longer by so much, or it gains 1.
    fn rise_at(&self, place: PlaceId, by: u64) -> i128 {
        let gain = i128::from(self.ratio.tokens()).saturating_mul(i128::from(by));
        let loss = self.losses.get(place.index()).copied().unwrap_or(0);
        gain.max(1).saturating_sub(loss)
    }

    // Potentials that no place lifts where the hold of this one is longer by so much: each is lifted
    // by as much as the end of the place is, less what the way there loses.
    pub(crate) fn raised_potentials(
        &self,
        alloc: Global,
        place: PlaceId,
        by: u64,
    ) -> Result<Vec<i128>, AllocError> {
        let mut raised = Vec::from_slice(alloc, &self.potentials)?;
        let rise = self.rise_at(place, by);
        if let Some(paths) = self.paths_behind(place) {
            for (potential, least) in raised.iter_mut().zip(&paths.least) {
                if let Some(least) = *least {
                    let more = rise.saturating_sub(least).max(0);
                    *potential = potential.saturating_add(more);
                }
            }
        }
        Ok(raised)
    }

    // The potentials as those of transitions in order.
    fn potentials_told(&self, alloc: Global) -> Result<Vec<Potential>, AllocError> {
        let mut told = Vec::new(alloc);
        for index in 0..self.net.transitions().len() {
            let transition = TransitionId {
                index: index as u32,
            };
            let value = self.potentials.get(index).copied().unwrap_or(0);
            told.push(Potential { transition, value })?;
        }
        Ok(told)
    }

    // The net as one part of this ratio, with a circuit that passes the first place that is told to
    // be critical.
    pub(crate) fn cycle_times(
        &self,
        alloc: Global,
        slacks: &[ShownSlack],
    ) -> Result<CycleAnswer, AllocError> {
        let first = slacks
            .iter()
            .position(|slack| *slack == ShownSlack::Critical);
        let place = PlaceId::new(u32::try_from(first.unwrap_or(0)).unwrap_or(0));
        let part = PartAnswer::Best {
            ratio: self.ratio,
            circuit: self.best_circuit(alloc, place)?,
            potentials: self.potentials_told(alloc)?,
        };
        let mut parts = Vec::new(alloc);
        parts.push(part)?;
        Ok(CycleAnswer {
            part_of: vec![in alloc; 0u32; self.net.transitions().len()]?,
            parts,
            best: Some(0),
        })
    }
}
