//! Runs of dates in memory: one turn of dates of each transition, and by what each moves in a turn.
ghost use Rattle.std.specs.Prelude.{◌≡◌, ◌+◌, ◌-◌, ◌*◌, ◌/◌, ◌%◌, ◌*ℤ◌, ◌+ℤ◌, ◌<◌, ◌≤◌, ◌^◌, ◌++◌, ◌∷◌, [], IfOk, Decides, pos};
ghost use Rattle.dioid.specs.Dates.{move};
ghost use Rattle.teg_model.specs.DateBounds.{IsDateWithin, greatest_least_date};
ghost use Rattle.jump_laws.specs.Runs.{IsInRun, date_by_runs, kept_date, kept_step, run_date};
ghost use Rattle.run_rows.specs.RoomyRuns.{IsRoomy, end_of, residue_of, run_of, step_of};

use dioid::Date;
use std::alloc::{AllocError, Global};
use std::marker::Model;
use teg_net::TransitionId;

// So many turns of so many numbers each, from the number `first` on: the dates of the first turn
// of each transition, and by what each of them moves in a turn. Rows are a run of one turn.
#[derive(Debug, Drop)]
pub(crate) struct EvenRun {
    pub(crate) first: u64,
    pub(crate) turn: u64,
    pub(crate) turns: u64,
    pub(crate) dates: Vec<Vec<Date>>,
    pub(crate) steps: Vec<Vec<i128>>,
}

impl Model for EvenRun {
    ghost use Rattle.std.specs.Prelude.{map};
    ghost use Rattle.jump_laws.specs.Runs.{Run};
    ghost use Rattle.run_rows.specs.RoomyRuns.{IsRoomy, run_of};

    ghost Value = { Run };

    ghost view = { λ a. run_of a.first a.turn a.turns (map (λ r. r.items) a.dates.items)
        (map (λ r. r.items) a.steps.items) };

    ghost invariant = { λ a. IsRoomy (run_of a.first a.turn a.turns
        (map (λ r. r.items) a.dates.items) (map (λ r. r.items) a.steps.items)) };
}

// The date some steps on.
fn moved(date: Date, turns: u64, step: i128) -> Date
    requires from { IsDateWithin greatest_least_date date }
    requires to { IsDateWithin greatest_least_date (move (pos turns *ℤ step) date) }
    ensures { result ≡ move (pos turns *ℤ step) date }
{
    match date {
        Date::At(date) => Date::At(date + turns as i128 * step),
        other => other,
    }
}

// The place of a number in its turn.
pub(crate) fn residue_of(first: u64, turn: u64, number: u64) -> u64
    requires some { 1 ≤ turn }
    requires first { first + turn < 2 ^ 62 }
    requires number { number < 2 ^ 62 }
    ensures value { result ≡ residue_of first turn number }
    ensures within { result < turn }
{
    (number + (turn - first % turn)) % turn
}

impl EvenRun {
    // The date at this place of the first turn.
    pub(crate) fn kept_date(&self, transition: TransitionId, place: u64) -> Date
        ensures { result ≡ kept_date self.now transition.index place }
    {
        match self.dates.get(transition.index as usize) {
            None => Date::Early,
            Some(dates) => match dates.get(place as usize) {
                None => Date::Early,
                Some(date) => *date,
            },
        }
    }

    // By what it moves in a turn.
    pub(crate) fn kept_step(&self, transition: TransitionId, place: u64) -> i128
        ensures { result ≡ kept_step self.now transition.index place }
    {
        match self.steps.get(transition.index as usize) {
            None => 0,
            Some(steps) => match steps.get(place as usize) {
                None => 0,
                Some(step) => *step,
            },
        }
    }

    // By what the date of this number moves in a turn, if it does so by the steps of the run.
    pub(crate) fn step(&self, transition: TransitionId, number: u64) -> i128
        requires first { self.now.first + self.now.turn < 2 ^ 62 }
        requires number { number < 2 ^ 62 }
        ensures { result ≡ step_of self.now transition.index number }
    {
        self.kept_step(transition, residue_of(self.first, self.turn, number))
    }

    // The last number of the run.
    pub(crate) fn end(&self) -> u64
        requires first { 1 ≤ self.now.first }
        requires fits { self.now.first + self.now.turns * self.now.turn < 2 ^ 62 }
        ensures { result ≡ end_of self.now }
    {
        self.first + self.turns * self.turn - 1
    }

    // The run for so many turns.
    pub(crate) fn lasting(self, turns: u64) -> EvenRun
        requires { IsRoomy (run_of self.first self.turn turns self.dates self.steps) }
        ensures { result ≡ run_of self.first self.turn turns self.dates self.steps }
    {
        EvenRun {
            first: self.first,
            turn: self.turn,
            turns,
            dates: self.dates,
            steps: self.steps,
        }
    }

    // Whether this number is one of the run.
    fn has(&self, number: u64) -> bool
        ensures { Decides result (IsInRun self.now number) }
    {
        if number < self.first {
            return false;
        }
        (number - self.first) / self.turn < self.turns
    }

    // The date of this number, which is one of the run.
    fn date(&self, transition: TransitionId, number: u64) -> Date
        requires { IsInRun self.now number }
        ensures value { result ≡ run_date self.now transition.index number }
        ensures within { IsDateWithin greatest_least_date result }
    {
        let place = (number - self.first) % self.turn;
        let turns = (number - self.first) / self.turn;
        moved(
            self.kept_date(transition, place),
            turns,
            self.kept_step(transition, place),
        )
    }
}

/// Dates as runs, one after another: rows near the numbers at which one circuit of a net overtakes
/// another, and between them turns, of which one is kept, with the steps by which its dates move
/// (chapter 3). Contracts see the list of runs, which tell each date up to a number where they are
/// those of a least dating (`jump_laws::runs_tell_dates`, `rows`).
#[derive(Debug, Drop)]
pub struct RunRows {
    runs: Vec<EvenRun>,
}

impl Model for RunRows {
    ghost use Rattle.run_rows.specs.RoomyRuns.{RunDates};

    ghost Value = { RunDates };

    ghost view = { λ a. record { runs = a.runs.items } };
}

// The date by the first of the runs that has the number.
fn date_in(runs: &[EvenRun], transition: TransitionId, number: u64) -> Date
    ensures value { result ≡ date_by_runs runs.now transition.index number }
    ensures within { IsDateWithin greatest_least_date result }
{
    for run in runs {
        if run.has(number) {
            return run.date(transition, number);
        }
    }
    Date::Early
}

impl RunRows {
    // No runs.
    pub(crate) fn new(alloc: Global) -> RunRows
        ensures { result.runs ≡ [] }
    {
        RunRows {
            runs: Vec::new(alloc),
        }
    }

    // The runs with one more behind them.
    pub(crate) fn with(self, run: EvenRun) -> Result<RunRows, AllocError>
        ensures { IfOk result (λ rows. rows.runs ≡ self.runs ++ run ∷ []) }
    {
        let mut runs = self.runs;
        runs.push(run)?;
        Ok(RunRows { runs })
    }

    /// The date, in the user's unit, of the firing of this number of a transition: that of the first
    /// of the runs that has the number, and `Early` where none has it. It takes no memory, and a
    /// step a run.
    pub fn date(&self, transition: TransitionId, number: u64) -> Date
        ensures value { result ≡ date_by_runs self.now.runs transition.index number }
        ensures within { IsDateWithin greatest_least_date result }
    {
        date_in(&self.runs, transition, number)
    }
}
