//! The values that results represent.

ghost use Rattle.std.specs.Prelude.{◌≡◌, ◌↔◌, IfOk, Some, length, take, drop, true};
ghost use Rattle.target_code.specs.Formed.{is_container};
ghost use Rattle.target_code.specs.Reps.{width};
ghost use Rattle.run_results.specs.Results.{AreShown, Shows};

use crate::block::held_words;
use decoding::decode;
use nres_core::Value;
use run_stores::RunStore;
use sqlite_items::Items;
use std::alloc::{AllocError, Global};
use target_code::Rep;

/// What results are.
#[derive(Drop)]
pub enum Shown {
    /// The values that they represent, in order.
    Values(Items<Value>),
    /// This one, counted from 1, is the first that represents no value.
    NoValue(u64),
}

/// Whether a representation has a block.
fn has_block(rep: Rep) -> bool
    ensures { result ≡ is_container rep }
{
    !matches!(rep, Rep::Word | Rep::Flag)
}

/// The value that registers and the block that the first of them names represent, where a store holds this block whole.
fn value_in_block<S: RunStore>(
    alloc: Global,
    store: &S,
    rep: Rep,
    regs: &[u64],
) -> Result<Option<Value>, AllocError>
    requires container { is_container rep ≡ true }
    requires wide { length regs.now ≡ width rep }
    ensures { IfOk result (λ value. (x : _) → (value ≡ Some x) ↔ Shows (S.kept store.now).top rep regs.now x) }
{
    match held_words(alloc, store, regs[0])? {
        None => Ok(None),
        Some(words) => decode(alloc, rep, regs, Some(words.as_slice())),
    }
}

/// The value that a result represents, by its registers and by what a store holds whole.
fn value_of<S: RunStore>(
    alloc: Global,
    store: &S,
    rep: Rep,
    regs: &[u64],
) -> Result<Option<Value>, AllocError>
    ensures { IfOk result (λ value. (x : _) → (value ≡ Some x) ↔ Shows (S.kept store.now).top rep regs.now x) }
{
    if regs.len() != rep.width() {
        return Ok(None);
    }
    if has_block(rep) {
        value_in_block(alloc, store, rep, regs)
    } else {
        decode(alloc, rep, regs, None)
    }
}

/// So many registers, or all where there are fewer, and the others.
fn split_registers(regs: &[u64], count: usize) -> (&[u64], &[u64])
    ensures first { result.0.now ≡ take count regs.now }
    ensures others { result.1.now ≡ drop count regs.now }
{
    regs.split_at(count.min(regs.len()))
}

/// The values that the results of an ended run represent: each by its registers, which stand in order, and by the block
/// that the first of them names, where the store holds it whole. Answers an error where memory runs out.
pub fn results<S: RunStore>(
    alloc: Global,
    store: &S,
    outs: &[Rep],
    regs: &[u64],
) -> Result<Shown, AllocError>
    ensures { IfOk result (λ shown. AreShown (S.kept store.now).top outs.now regs.now shown) }
{
    let mut values = Vec::new(alloc);
    let mut rest = regs;
    for (index, rep) in outs.iter().enumerate() {
        let (own, others) = split_registers(rest, rep.width());
        match value_of(alloc, store, *rep, own)? {
            Some(value) => values.push(value)?,
            None => return Ok(Shown::NoValue(index as u64 + 1)),
        }
        rest = others;
    }
    Ok(Shown::Values(Items::from_vec(values)))
}
