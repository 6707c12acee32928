//! Whether a program stands as a whole.

ghost use Rattle.std.specs.Prelude.{◌≡◌, ◌-◌, ◌&&◌, ℕ, nat_le, length, take, codes, IfOk};
ghost use Rattle.std.specs.Str.{bytes_eq};
ghost use Rattle.fits.specs.Programs.{same_reps};
ghost use Rattle.nres_core.specs.FlatTree.{flat_whole_of};
ghost use Rattle.rule_table.specs.Library.{library};
ghost use Rattle.same_procs.specs.Same.{same_proc};
ghost use Rattle.target_code.specs.Formed.{Formed};
ghost use Rattle.unfit_line.specs.Tests.{same_ins, stands_at};
ghost use Rattle.proof_check.specs.Verdict.{StandsWith};
ghost use Rattle.proof_check.specs.Whole.{HaveNames, called_stand, is_count, numbered_front, procs_stand};

use crate::called::{are_called, call_known};
use crate::calls::in_procs;
use crate::names::{are_rising, numbered_front};
use crate::parts::{in_library, same_inputs, same_results};
use nres_core::Flat;
use std::alloc::{AllocError, Global};
use target_code::{Proc, Program};

/// Whether these are the procedures of the library that `own` and others call, in order.
fn called_stand(
    alloc: Global,
    own: &[Proc],
    ours: &[Proc],
    called: &[Proc],
) -> Result<bool, AllocError>
    ensures { IfOk result (λ yes. yes ≡ called_stand own.now ours.now called.now) }
{
    if !are_rising(called) || !in_library(alloc, called)? {
        return Ok(false);
    }
    if !call_known(alloc, own, called, ours)? || !call_known(alloc, own, called, called)? {
        return Ok(false);
    }
    let names = in_procs(alloc, ours)?;
    are_called(alloc, names.as_slice(), called)
}

/// Whether `main` and so many procedures behind it have their names.
fn have_names(alloc: Global, count: usize, main: &Proc, others: &[Proc]) -> Result<bool, AllocError>
    ensures { IfOk result (λ yes. yes ≡ (bytes_eq main.now.name (codes "main") && nat_le count (numbered_front (codes "p") 1 others.now))) }
{
    let front = numbered_front(alloc, b'p', others)?;
    Ok(main.name.bytes() == b"main".as_slice() && count <= front)
}

/// What stands before so many last ones.
fn before<'a>(procs: &'a [Proc], last: &[Proc]) -> &'a [Proc]
    ensures { result.now ≡ take (length procs.now - length last.now) procs.now }
{
    let (front, _) = procs.split_at(procs.len().saturating_sub(last.len()));
    front
}

/// With how many branches procedures stand, where so many are the text's and have their names, behind `main`.
fn named_standing(
    alloc: Global,
    count: usize,
    others: &[Proc],
    procs: &[Proc],
) -> Result<Option<usize>, AllocError>
    requires { HaveNames count procs.now others.now }
    ensures { IfOk result (λ said. (m : ℕ) → procs_stand count procs.now m ≡ is_count m said) }
{
    let (own, behind) = others.split_at(count);
    let branches = numbered_front(alloc, b'b', behind)?;
    let (_, called) = behind.split_at(branches);
    let ours = before(procs, called);
    if called_stand(alloc, own, ours, called)? {
        Ok(Some(branches))
    } else {
        Ok(None)
    }
}

/// With how many branches procedures stand, where so many are the text's.
fn procs_standing(alloc: Global, count: usize, procs: &[Proc]) -> Result<Option<usize>, AllocError>
    ensures { IfOk result (λ said. (m : ℕ) → procs_stand count procs.now m ≡ is_count m said) }
{
    let [main, others @ ..] = procs else {
        return Ok(None);
    };
    if have_names(alloc, count, main, others)? {
        named_standing(alloc, count, others, procs)
    } else {
        Ok(None)
    }
}

/// With how many branches a formed program stands as a whole that is to fit a specification: it has the specification's
/// inputs and results, the procedures `main`, p1, p2 and so on, the branches b1, b2 and so on, and then the procedures of
/// the library that are called, by name and word for word. `None` where it does not stand.
pub fn standing(alloc: Global, flat: &Flat, program: &Program) -> Result<Option<usize>, AllocError>
    requires { Formed program.now }
    ensures { IfOk result (λ said. StandsWith (flat_whole_of flat.now) program.now said) }
{
    if same_inputs(program.ins.as_slice(), flat.params.as_slice())
        && same_results(program.outs.as_slice(), flat.shown.as_slice())
    {
        procs_standing(alloc, flat.funs.len(), program.procs.as_slice())
    } else {
        Ok(None)
    }
}
