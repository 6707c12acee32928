//! A whole run on one thread.

ghost use Rattle.std.specs.Prelude.{ℕ, List, ◌≤◌, ◌^◌, IfOk};
ghost use Rattle.nres_core.specs.declared.value.Value.{Value as ValueOf};
ghost use Rattle.target_code.specs.Formed.{Formed};
ghost use Rattle.run_begins.specs.Beginning.{AreHeld, HasBegun};
ghost use Rattle.run_inputs.specs.Placing.{AllFit};
ghost use Rattle.program_run.specs.Ends.{IsUnfit, RootEnds, RunMeans};

use crate::end::{RunEnd, told};
use branch_exec::branch::run_branch;
use branch_exec::end::BranchEnd;
use nres_core::Value;
use run_inputs::{Unplaced, put_inputs};
use run_stores::RunStore;
use std::alloc::{AllocError, Global};
use store_blocks::root::root_leaf;
use target_code::{Proc, Program};

/// Runs the first procedure on these words to its end, in at most so many steps on each path.
fn run_root<S: RunStore>(
    alloc: Global,
    procs: &[Proc],
    regs: &[u64],
    steps: u64,
    store: &mut S,
) -> BranchEnd
    requires { steps ≤ 2 ^ 62 }
    ensures { RootEnds procs.now regs.now steps (S.kept store.old) (S.kept store.new) result }
{
    match root_leaf(alloc, procs, regs, steps) {
        Ok(leaf) => run_branch(alloc, procs, leaf, store),
        Err(_) => BranchEnd::Memory,
    }
}

/// Runs a program whose inputs stand in a store, with these registers.
fn run_begun<S: RunStore>(
    alloc: Global,
    program: &Program,
    regs: &[u64],
    steps: u64,
    store: &mut S,
) -> Result<RunEnd, AllocError>
    requires { steps ≤ 2 ^ 62 }
    ensures { IfOk result (λ end. (us : List ValueOf) (cap : ℕ) → HasBegun program.now us cap regs.now (S.kept store.old) →
        RunMeans program.now us cap steps end) }
{
    let end = run_root(alloc, program.procs.as_slice(), regs, steps, store);
    told(alloc, program.outs.as_slice(), end, store)
}

/// The end of a run whose inputs do not stand in the store.
fn unfit(unplaced: Unplaced) -> Result<RunEnd, AllocError>
    ensures { IfOk result (λ end. IsUnfit unplaced end) }
{
    match unplaced {
        Unplaced::Full { at, len } => Ok(RunEnd::HeapFull { at, len }),
        Unplaced::Memory => Err(AllocError),
    }
}

/// Runs a program on values to its end, on one thread, in an empty heap of so many words, and in at most so many steps on
/// each path. The inputs are claimed first, in order; then the run is the left-first run from the beginning on them, and a
/// bad end has its cause.
pub fn run_whole<S: RunStore + Drop>(
    alloc: Global,
    program: &Program,
    values: &[Value],
    cap: u64,
    steps: u64,
) -> Result<RunEnd, AllocError>
    requires formed { Formed program.now }
    requires held { AreHeld values.now }
    requires fit { AllFit program.now.ins values.now }
    requires few { steps ≤ 2 ^ 62 }
    ensures { IfOk result (λ end. RunMeans program.now values.now cap steps end) }
{
    let mut store = S::empty(alloc, cap)?;
    match put_inputs(alloc, &mut store, program.ins.as_slice(), values) {
        Ok(regs) => run_begun(alloc, program, regs.as_slice(), steps, &mut store),
        Err(unplaced) => unfit(unplaced),
    }
}
