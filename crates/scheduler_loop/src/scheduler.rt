//! A net that is held, changed and asked again.
ghost use Rattle.std.specs.Prelude.{◌≡◌, ◌≤◌, length, IfErr, IfOk, OnOk, OnErr, Ok};
ghost use Rattle.teg_due.specs.csv_records.Records.{most_file_bytes};
ghost use Rattle.teg_net.specs.Circuits.{IsLive};
ghost use Rattle.pace_calls.specs.Paces.{IsPaceWithCircuit};
ghost use Rattle.teg_reader.specs.Documents.{document};
ghost use Rattle.scheduler_loop.specs.Answers.{IsHoldChanged, IsLatestPlan, IsWhyNoPlan, IsWhyNone, IsWhyNotChanged};

use crate::refusals::NoAnswer;
use pace_calls::{PaceWithCircuit, bottleneck};
use std::alloc::Global;
use std::marker::Model;
use teg_check::LiveNet;
use teg_due::read_due;
use teg_jit::{Plan, latest_inputs};
use teg_net::{GREATEST_HOLD, Net, OutOfMemory};
use teg_reader::read_net;

/// A live net that is held, changed and asked again. Contracts see the net as it then is.
#[derive(Drop)]
pub struct Scheduler {
    net: LiveNet,
}

impl Model for Scheduler {
    ghost use Rattle.teg_net.specs.Nets.{NetLists};

    ghost Value = { NetLists };

    ghost view = { λ s. s.net };
}

impl Scheduler {
    /// The scheduler of the net that the bytes of a net file say, at most 4,194,304 of them.
    ///
    /// `NoNet` comes where they say none, with the first fault; `NotLive` where some circuit has no
    /// tokens; `OutOfMemory` only where no memory is found.
    pub fn new(alloc: Global, bytes: &[u8]) -> Result<Scheduler, NoAnswer>
        requires { length bytes.now ≤ most_file_bytes }
        ensures net { IfOk result (λ s. document bytes.now ≡ Ok s) }
        ensures live { IfOk result IsLive }
        ensures refused { IfErr result (IsWhyNone bytes.now) }
    {
        let net = read_net(alloc, bytes)?;
        match LiveNet::new(alloc, net) {
            Ok(net) => Ok(Scheduler { net }),
            Err(not_held) => Err(NoAnswer::from(not_held.refusal)),
        }
    }

    /// The net as it is. It takes no memory.
    pub fn net(&self) -> &Net
        ensures net { result.now ≡ self.now }
        ensures live { IsLive self.now }
    {
        self.net.net()
    }

    /// The pace of the net as it is, and its bottleneck; none where it has no circuit. It answers
    /// `OutOfMemory` only where no memory is found. It takes the time of `split` and of `cycle`.
    pub fn pace(&self, alloc: Global) -> Result<Option<PaceWithCircuit>, OutOfMemory>
        ensures { IfOk result (IsPaceWithCircuit self.now) }
    {
        bottleneck(alloc, self.net.net(), self.net.live())
    }

    /// Gives the place of this name another holding time, in the user's unit; all else stays.
    ///
    /// `NoPlace` comes only where no place has the name, and `HoldTooLong` only where the holding
    /// time is past 1,000,000,000. The net is then as it was. It takes no memory.
    pub fn set_hold(&mut self, place: &str, hold: u64) -> Result<(), NoAnswer>
        ensures changed { OnOk result (IsHoldChanged self.old place.now hold self.new) }
        ensures kept { OnErr result (self.new ≡ self.old) }
        ensures refused { IfErr result (IsWhyNotChanged self.old place.now hold) }
    {
        let Some(id) = self.net.net().find_place(place) else {
            return Err(NoAnswer::NoPlace);
        };
        if GREATEST_HOLD < hold {
            return Err(NoAnswer::HoldTooLong);
        }
        self.net.set_hold(id, hold);
        Ok(())
    }

    /// The latest dates of the firings of the net as it is, by which the due dates are met that the
    /// bytes of a due file say, at most 4,194,304 of them (chapter 5).
    ///
    /// `NoDue` comes where they say none, with the first fault; `Late` where a firing comes later
    /// than it is due, whatever the inputs do; `OutOfMemory` only where no memory is found. It
    /// takes the time of `read_due` and of `latest_inputs`.
    pub fn latest(&self, alloc: Global, bytes: &[u8]) -> Result<Plan, NoAnswer>
        requires { length bytes.now ≤ most_file_bytes }
        ensures plan { IfOk result (IsLatestPlan self.now bytes.now) }
        ensures refused { IfErr result (IsWhyNoPlan self.now bytes.now) }
    {
        let net = self.net.net();
        let due = read_due(alloc, net, bytes)?;
        let plan = latest_inputs(alloc, net, self.net.live(), &due)?;
        Ok(plan)
    }
}
