//! Inputs, results and procedures that are the same.

ghost use Rattle.std.specs.Prelude.{◌≡◌, cond, not, IfOk};
ghost use Rattle.fits.specs.Programs.{same_reps};
ghost use Rattle.rule_table.specs.Library.{library};
ghost use Rattle.same_procs.specs.Same.{same_proc};
ghost use Rattle.unfit_line.specs.Tests.{are_of, is_of, same_ins};
ghost use Rattle.proof_check.specs.Whole.{same_in};

use branch_merge::same_rep;
use rule_table::library;
use same_procs::same_proc;
use std::alloc::{AllocError, Global};
use target_code::{InParam, Proc, Rep};

fn same_mark(left: bool, right: bool) -> bool
    ensures { result ≡ cond left right (not right) }
{
    if left { right } else { !right }
}

/// Whether an input is the same as another one.
fn same_input(input: &InParam, other: &InParam) -> bool
    ensures { result ≡ same_in input.now other.now }
{
    input.name.bytes() == other.name.bytes()
        && same_rep(input.rep, other.rep)
        && same_mark(input.kept, other.kept)
}

/// Whether inputs are the same.
pub(crate) fn same_inputs(inputs: &[InParam], others: &[InParam]) -> bool
    ensures { result ≡ same_ins inputs.now others.now }
{
    let mut rest = others;
    let mut left = inputs;
    while let [input, inputs @ ..] = left {
        match rest {
            [other, others @ ..] => {
                if !same_input(input, other) {
                    return false;
                }
                rest = others;
            }
            [] => return false,
        }
        left = inputs;
    }
    rest.is_empty()
}

/// Whether results are the same.
pub(crate) fn same_results(results: &[Rep], others: &[Rep]) -> bool
    ensures { result ≡ same_reps results.now others.now }
{
    let mut rest = others;
    let mut left = results;
    while let [rep, results @ ..] = left {
        match rest {
            [other, others @ ..] => {
                if !same_rep(*rep, *other) {
                    return false;
                }
                rest = others;
            }
            [] => return false,
        }
        left = results;
    }
    rest.is_empty()
}

/// Whether a procedure is one of these.
fn is_of(proc: &Proc, procs: &[Proc]) -> bool
    ensures { result ≡ is_of same_proc proc.now procs.now }
{
    for other in procs {
        if same_proc(other, proc) {
            return true;
        }
    }
    false
}

/// Whether each procedure is one of those.
fn are_of(procs: &[Proc], others: &[Proc]) -> bool
    ensures { result ≡ are_of same_proc procs.now others.now }
{
    for proc in procs {
        if !is_of(proc, others) {
            return false;
        }
    }
    true
}

/// Whether each procedure is one of the library's, word for word.
pub(crate) fn in_library(alloc: Global, procs: &[Proc]) -> Result<bool, AllocError>
    ensures { IfOk result (λ yes. yes ≡ are_of same_proc procs.now library) }
{
    let all = library(alloc)?;
    Ok(are_of(procs, all.as_slice()))
}
