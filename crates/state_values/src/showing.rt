//! The values that the results of a program represent in a state.

ghost use Rattle.std.specs.Prelude.{◌≡◌, ◌↔◌, IfOk, List, Some, drop, length, take, true};
ghost use Rattle.relations.specs.Values.{live};
ghost use Rattle.run_results.specs.Results.{AreShown, Shows};
ghost use Rattle.target_code.specs.Formed.{is_container};
ghost use Rattle.target_code.specs.Reps.{width};
ghost use Rattle.target_code.specs.declared.tree.Proc.{Proc};
ghost use Rattle.target_meaning.specs.States.{state_of};

use decoding::decode;
use nres_core::Value;
use run_results::Shown;
use sqlite_items::Items;
use std::alloc::{AllocError, Global};
use target_code::Rep;
use target_meaning::State;

/// Whether a representation has a block.
fn has_block(rep: Rep) -> bool
    ensures { result ≡ is_container rep }
{
    !matches!(rep, Rep::Word | Rep::Flag)
}

/// The value that registers represent, with the live block that the first of them names.
fn value_in_block(
    alloc: Global,
    state: &State,
    rep: Rep,
    regs: &[u64],
) -> Result<Option<Value>, AllocError>
    requires container { is_container rep ≡ true }
    requires wide { length regs.now ≡ width rep }
    ensures { IfOk result (λ value. (procs : List Proc) (x : _) →
        (value ≡ Some x) ↔ Shows (live (state_of procs state.now).heap) rep regs.now x) }
{
    match state.block(regs[0]) {
        None => Ok(None),
        Some(words) => decode(alloc, rep, regs, Some(words)),
    }
}

/// The value that a result represents, by its registers and by what is live.
fn value_of(
    alloc: Global,
    state: &State,
    rep: Rep,
    regs: &[u64],
) -> Result<Option<Value>, AllocError>
    ensures { IfOk result (λ value. (procs : List Proc) (x : _) →
        (value ≡ Some x) ↔ Shows (live (state_of procs state.now).heap) rep regs.now x) }
{
    if regs.len() != rep.width() {
        return Ok(None);
    }
    if has_block(rep) {
        value_in_block(alloc, state, rep, regs)
    } else {
        decode(alloc, rep, regs, None)
    }
}

/// So many registers, or all where there are fewer, and the others.
fn split_registers(regs: &[u64], count: usize) -> (&[u64], &[u64])
    ensures first { result.0.now ≡ take count regs.now }
    ensures others { result.1.now ≡ drop count regs.now }
{
    regs.split_at(count.min(regs.len()))
}

/// The values that results represent in a state: each by its registers, which stand in order, and by the live block that the
/// first of them names. Answers an error where memory runs out.
pub fn results(
    alloc: Global,
    state: &State,
    outs: &[Rep],
    regs: &[u64],
) -> Result<Shown, AllocError>
    ensures { IfOk result (λ shown. (procs : List Proc) →
        AreShown (live (state_of procs state.now).heap) outs.now regs.now shown) }
{
    let mut values = Vec::new(alloc);
    let mut rest = regs;
    for (index, rep) in outs.iter().enumerate() {
        let (own, others) = split_registers(rest, rep.width());
        match value_of(alloc, state, *rep, own)? {
            Some(value) => values.push(value)?,
            None => return Ok(Shown::NoValue(index as u64 + 1)),
        }
        rest = others;
    }
    Ok(Shown::Values(Items::from_vec(values)))
}
