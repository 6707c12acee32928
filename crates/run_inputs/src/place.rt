//! Images of values, put into a store one after the other.

ghost use Rattle.std.specs.Prelude.{◌≡◌, ◌∷◌, ◌++◌, OnOk, Some, drop};
ghost use Rattle.images.specs.Encoding.{seen};
ghost use Rattle.run_inputs.specs.Placing.{AllFit, ArePlaced, Fits, IsPlaced, IsPlacedAs, IsPutAs};

use branch_exec::store::{Got, Store};
use images::encode;
use nres_core::Value;
use sqlite_items::Items;
use std::alloc::{AllocError, Global};
use store_blocks::put::put_block;
use target_code::{Image, InParam, Rep};

/// Why inputs do not stand in a store.
#[derive(Clone, Copy)]
pub enum Unplaced {
    /// The block of an input does not fit.
    Full {
        /// The number that its claim walked over.
        at: u64,
        /// Its words.
        len: u64,
    },
    /// There was no memory.
    Memory,
}

impl From<AllocError> for Unplaced {
    ghost use Rattle.std.specs.Prelude.{◌≡◌};
    ghost use Rattle.run_inputs.specs.declared.place.Unplaced.TheVariants.{Memory};

    ghost from_gives = { λ _ e. e ≡ Memory };

    fn from(_: AllocError) -> Self {
        Unplaced::Memory
    }
}

/// Puts the registers of a container behind others, with its block's name in the place of the first.
fn push_named(regs: &mut Vec<u64>, name: u64, own: &[u64]) -> Result<(), AllocError>
    ensures { OnOk result (regs.new.items ≡ regs.old.items ++ name ∷ drop 1 own.now) }
{
    regs.push(name)?;
    if let [_, others @ ..] = own {
        regs.extend_from_slice(others)?;
    }
    Ok(())
}

/// Puts a block into a store, and the registers of its container behind others.
fn place_block<S: Store>(
    store: &mut S,
    words: &[u64],
    own: &[u64],
    regs: &mut Vec<u64>,
) -> Result<(), Unplaced>
    ensures { IsPlacedAs result own.now (Some words.now) (S.kept store.old) (S.kept store.new) regs.old.items regs.new.items }
{
    match put_block(store, words) {
        Got::Won(name) => {
            push_named(regs, name, own)?;
            Ok(())
        }
        Got::Full { at } => Err(Unplaced::Full {
            at,
            len: words.len() as u64,
        }),
        Got::Memory => Err(Unplaced::Memory),
    }
}

/// Puts the block of an image, where it has one, into a store, and its registers behind others.
fn place<S: Store>(store: &mut S, image: &Image, regs: &mut Vec<u64>) -> Result<(), Unplaced>
    ensures { IsPlaced result (seen image.now) (S.kept store.old) (S.kept store.new) regs.old.items regs.new.items }
{
    match &image.block {
        None => {
            regs.extend_from_slice(image.regs.as_slice())?;
            Ok(())
        }
        Some(block) => place_block(store, block.as_slice(), image.regs.as_slice(), regs),
    }
}

/// Puts the image of a value in a representation into a store, and its registers behind others.
fn put_input<S: Store>(
    alloc: Global,
    store: &mut S,
    rep: Rep,
    value: &Value,
    regs: &mut Vec<u64>,
) -> Result<(), Unplaced>
    requires { Fits rep value.now }
    ensures { IsPutAs result rep value.now (S.kept store.old) (S.kept store.new) regs.old.items regs.new.items }
{
    match encode(alloc, value, rep) {
        Ok(image) => place(store, &image, regs),
        // No element is too large: what is left is want of memory.
        Err(_) => Err(Unplaced::Memory),
    }
}

/// Puts the images of values in the representations of a program's inputs into a store, one block behind the other, in
/// the order of the inputs. Answers the registers with which the first procedure begins: those of the images, with the
/// blocks' names.
///
/// # Errors
/// [`Unplaced::Full`] tells of the first block that does not fit.
pub fn put_inputs<S: Store>(
    alloc: Global,
    store: &mut S,
    ins: &[InParam],
    values: &[Value],
) -> Result<Items<u64>, Unplaced>
    requires { AllFit ins.now values.now }
    ensures { ArePlaced result ins.now values.now (S.kept store.old) (S.kept store.new) }
{
    let mut regs = Vec::new(alloc);
    for (index, input) in ins.iter().enumerate() {
        match put_input(alloc, store, input.rep, &values[index], &mut regs) {
            Ok(()) => {}
            Err(unplaced) => {
                drop(regs);
                return Err(unplaced);
            }
        }
    }
    Ok(Items::from_vec(regs))
}
