//! Following a schedule, step by step.

ghost use Rattle.std.specs.Prelude.{◌≡◌, ◌∷◌, ◌<◌, ◌-◌, ◌^◌, ℕ, List, [], false, IfOk, OnErr};
ghost use Rattle.target_code.specs.declared.tree.Proc.{Proc};
ghost use Rattle.replay.specs.Told.{Replays, IsAfter, or_else, leaves_told, end_told, steps_of};
ghost use Rattle.replay.specs.Turns as turns;
ghost use Rattle.target_meaning.specs.States.{state_of};
ghost use Rattle.target_meaning.specs.LeftFirst.{has_ended};

use crate::answer::ReplayEnd;
use crate::schedule::Move;
use crate::sight::{passes_at, sight};
use std::alloc::{AllocError, Global};
use target_code::Program;
use target_meaning::{LeafView, Path, State, StepAnswer, step};

/// What a state tells after so many steps, by its leaves or by the end of its root.
fn told(
    alloc: Global,
    state: &State,
    views: &[LeafView],
    made: u64,
) -> Result<Option<ReplayEnd>, AllocError>
    ensures { IfOk result (λ told. (procs : List Proc) → told ≡ or_else (leaves_told made views.now)
        (end_told made (has_ended (state_of procs state.now).tree))) }
{
    match sight(alloc, views, made)? {
        Some(end) => Ok(Some(end)),
        None if state.result().is_some() => Ok(Some(ReplayEnd::End { at: made })),
        None => Ok(None),
    }
}

/// That the next step of the leaf at a path would pass a limit of depth, where it would.
fn depth(alloc: Global, views: &[LeafView], path: &Path) -> Result<Option<ReplayEnd>, AllocError>
    ensures { IfOk result (λ told. told ≡ turns.depth_told path.now views.now) }
{
    if !passes_at(path.sides(), views) {
        return Ok(None);
    }
    let path = path.copy(alloc)?;
    Ok(Some(ReplayEnd::Depth { path }))
}

/// What is told after so many steps before the next one is made at this path.
fn before(
    alloc: Global,
    program: &Program,
    state: &State,
    made: u64,
    path: &Path,
) -> Result<Option<ReplayEnd>, AllocError>
    ensures { IfOk result (λ told. told ≡ turns.before_told program.now.procs made path.now
        (state_of program.now.procs state.now).tree (state_of program.now.procs state.now).heap) }
{
    let views = state.leaves(alloc, program)?;
    match told(alloc, state, views.as_slice(), made)? {
        Some(end) => Ok(Some(end)),
        None => depth(alloc, views.as_slice(), path),
    }
}

/// What the machine's answer to a step of this number tells. A step of a root that has ended has no leaf.
fn answered(at: u64, answer: StepAnswer) -> Option<ReplayEnd>
    ensures { result ≡ turns.answered at answer }
{
    match answer {
        StepAnswer::Moved => None,
        StepAnswer::Full => Some(ReplayEnd::Full { at }),
        StepAnswer::NameUsed => Some(ReplayEnd::BadStep { at, used: true }),
        _ => Some(ReplayEnd::BadStep { at, used: false }),
    }
}

/// What is told after so many steps where this is the next one, which is made where nothing is told before.
fn turn(
    alloc: Global,
    program: &Program,
    state: &mut State,
    made: u64,
    next: &Move,
) -> Result<Option<ReplayEnd>, AllocError>
    requires { made < 2 ^ 64 - 1 }
    ensures ok { IfOk result (λ told. turns.Turns program.now.procs made (next.now.path, next.now.name)
        (state_of program.now.procs state.old) (state_of program.now.procs state.new) told) }
    ensures err { OnErr result (state_of program.now.procs state.new ≡ state_of program.now.procs state.old) }
{
    match before(alloc, program, state, made, &next.path)? {
        Some(end) => Ok(Some(end)),
        None => {
            let answer = step(alloc, program, state, next.path.sides(), next.name)?;
            Ok(answered(made + 1, answer))
        }
    }
}

/// What is told after so many steps where there is no further one.
fn last(
    alloc: Global,
    program: &Program,
    state: &State,
    steps: u64,
) -> Result<ReplayEnd, AllocError>
    ensures { IfOk result (λ end. turns.IsLast program.now.procs steps
        (state_of program.now.procs state.now) end) }
{
    let views = state.leaves(alloc, program)?;
    match told(alloc, state, views.as_slice(), steps)? {
        Some(end) => Ok(end),
        None => Ok(ReplayEnd::Open { steps }),
    }
}

/// Follows a schedule from a state of a program, and answers what is told first: after each number of steps a race of two
/// leaves, then a stuck leaf, then the end of the root, then what the next step tells: that it would pass a limit of
/// depth, that it cannot be made, or that it makes the machine full. The state is then the one that the steps made reach.
///
/// The program is formed and the state is at its beginning; of this only that the machine is not full is needed for what
/// is promised here. Where memory is wanted the state is one that the first steps of the schedule reach.
pub fn replay(
    alloc: Global,
    program: &Program,
    state: &mut State,
    schedule: &[Move],
) -> Result<ReplayEnd, AllocError>
    ensures ok { IfOk result (λ end. (state_of program.now.procs state.old).full ≡ false →
        Replays program.now.procs (steps_of schedule.now) (state_of program.now.procs state.old) end
        (state_of program.now.procs state.new)) }
    ensures err { OnErr result ((state_of program.now.procs state.old).full ≡ false → (made : ℕ) ×
        IsAfter program.now.procs (steps_of schedule.now) (state_of program.now.procs state.old) made false
        (state_of program.now.procs state.new)) }
{
    for (made, next) in schedule.iter().enumerate() {
        if let Some(end) = turn(alloc, program, state, made as u64, next)? {
            return Ok(end);
        }
    }
    last(alloc, program, state, schedule.len() as u64)
}
