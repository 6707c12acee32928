//! A schedule followed from the beginning of a program on values.

ghost use Rattle.std.specs.Prelude.{◌≡◌, IfOk, List};
ghost use Rattle.run_begins.specs.Beginning.{AreHeld};
ghost use Rattle.run_inputs.specs.Placing.{AllFit};
ghost use Rattle.sepref_replay.specs.Follows.{Ended, Follows, TellsEnd};
ghost use Rattle.target_code.specs.Formed.{Formed};
ghost use Rattle.target_code.specs.declared.tree.Proc.{Proc};
ghost use Rattle.target_meaning.specs.States.{state_of};

use nres_core::Value;
use replay::{Move, ReplayEnd, replay};
use replay_causes::Cause;
use run_inputs::Unplaced;
use run_results::Shown;
use sqlite_items::Items;
use state_values::{begin, results};
use std::alloc::{AllocError, Global};
use target_code::{Program, Rep};
use target_meaning::State;

/// The values that the results represent where this step ended the root, or the first result that represents none.
fn ended(alloc: Global, outs: &[Rep], state: &State, at: u64) -> Result<Cause, AllocError>
    ensures { IfOk result (λ told. (procs : List Proc) → Ended outs.now (state_of procs state.now) at told) }
{
    // A root that ended has results.
    let Some(regs) = state.result() else {
        return Err(AllocError);
    };
    match results(alloc, state, outs, regs)? {
        Shown::Values(values) => Ok(Cause::Told {
            end: ReplayEnd::End { at },
            values,
        }),
        Shown::NoValue(number) => Ok(Cause::NoValue(number)),
    }
}

/// What is told of an answer that left a state.
fn told(alloc: Global, outs: &[Rep], state: &State, end: ReplayEnd) -> Result<Cause, AllocError>
    ensures { IfOk result (λ told. (procs : List Proc) → TellsEnd outs.now (state_of procs state.now) end told) }
{
    match end {
        ReplayEnd::End { at } => ended(alloc, outs, state, at),
        other => Ok(Cause::Told {
            end: other,
            values: Items::new(alloc),
        }),
    }
}

/// Follows a schedule from the beginning of a program on values, in a heap of this capacity.
pub fn replay_values(
    alloc: Global,
    program: &Program,
    values: &[Value],
    steps: &[Move],
    cap: u64,
) -> Result<Cause, AllocError>
    requires formed { Formed program.now }
    requires held { AreHeld values.now }
    requires fit { AllFit program.now.ins values.now }
    ensures { IfOk result (λ told. Follows program.now values.now steps.now cap told) }
{
    let mut state = match begin(alloc, program, values, cap) {
        Ok(state) => state,
        Err(Unplaced::Full { at, len }) => return Ok(Cause::HeapFull { at, len }),
        Err(Unplaced::Memory) => return Err(AllocError),
    };
    let end = replay(alloc, program, &mut state, steps)?;
    told(alloc, program.outs.as_slice(), &state, end)
}
