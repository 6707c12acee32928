//! How a run of the program ended, where programs are run too.

ghost use Rattle.std.specs.Prelude.{◌≡◌};
ghost use Rattle.sepref_runs.specs.Replays.{status_of_answer, status_of_cause};
ghost use Rattle.sepref_runs.specs.Runs.{code_of, status_of};

use program_run::RunEnd;
use replay::ReplayEnd;
use replay_causes::Cause;
use sepref_top::Status;

/// How a run of the program ended. Each status but those of results, of a failed write and of want of memory has written
/// its line.
#[derive(Clone, Copy)]
pub enum RunStatus {
    /// As it ends where no program is run, or before one is.
    Calm(Status),
    /// A leaf of the program is stuck; the line tells where and why.
    Stuck,
    /// A path took as many steps as it may take; the line tells which.
    OutOfSteps,
    /// A block does not fit the heap; the line tells the words claimed before and those that are asked for.
    HeapFull,
    /// A leaf touches, frees, hands or lends what it does not hold as it must; the line tells where and what.
    Unowned,
    /// A result represents no value; the line tells which is the first.
    NoValue,
    /// A call or a fork would pass a limit of depth; the line tells the path.
    Depth,
    /// A line of the input is none of a schedule, or is the 20,001st; the line tells which.
    NoSchedule,
    /// A step of a schedule cannot be made; the line tells which and why.
    BadStep,
}

impl RunStatus {
    /// The number with which the program ends.
    pub fn code(self) -> u8
        ensures { result ≡ code_of self }
    {
        match self {
            RunStatus::Calm(status) => status.code(),
            RunStatus::Stuck => 6,
            RunStatus::OutOfSteps => 7,
            RunStatus::HeapFull => 8,
            RunStatus::Unowned => 10,
            RunStatus::NoValue => 12,
            RunStatus::Depth => 13,
            RunStatus::NoSchedule => 17,
            RunStatus::BadStep => 18,
        }
    }

    /// The status of the end of a run.
    pub(crate) fn of_end(end: &RunEnd) -> RunStatus
        ensures { result ≡ status_of end.now }
    {
        match end {
            RunEnd::Values(_) => RunStatus::Calm(Status::Done),
            RunEnd::NoValue(_) => RunStatus::NoValue,
            RunEnd::Stuck { .. } => RunStatus::Stuck,
            RunEnd::Unowned { .. } => RunStatus::Unowned,
            RunEnd::OutOfSteps { .. } => RunStatus::OutOfSteps,
            RunEnd::HeapFull { .. } => RunStatus::HeapFull,
            RunEnd::Depth { .. } => RunStatus::Depth,
        }
    }

    /// The status of an answer along a schedule.
    pub(crate) fn of_answer(end: &ReplayEnd) -> RunStatus
        ensures { result ≡ status_of_answer end.now }
    {
        match end {
            ReplayEnd::Depth { .. } => RunStatus::Depth,
            ReplayEnd::BadStep { .. } => RunStatus::BadStep,
            _ => RunStatus::Calm(Status::Done),
        }
    }

    /// The status of what an input of `replay` is answered.
    pub(crate) fn of_cause(cause: &Cause) -> RunStatus
        ensures { result ≡ status_of_cause cause.now }
    {
        match cause {
            Cause::NotProgram(line) => RunStatus::Calm(Status::NotProgram(*line)),
            Cause::Syntax(place) => RunStatus::Calm(Status::Syntax(*place)),
            Cause::NoSchedule(_) => RunStatus::NoSchedule,
            Cause::Input { .. } => RunStatus::Calm(Status::Input),
            Cause::HeapFull { .. } => RunStatus::HeapFull,
            Cause::NoValue(_) => RunStatus::NoValue,
            Cause::Told { end, .. } => RunStatus::of_answer(end),
        }
    }
}
