//! The images of inputs, laid one behind the other, and the state in which a program begins on them.

ghost use Rattle.std.specs.Prelude.{◌≡◌, ◌≤◌, ◌∷◌, ◌++◌, ℕ, Err, IfOk, OnOk, Some, [], drop};
ghost use Rattle.images.specs.Encoding.{seen};
ghost use Rattle.run_begins.specs.Beginning.{AreHeld, AreUnfit};
ghost use Rattle.run_inputs.specs.Placing.{AllFit, Fits};
ghost use Rattle.state_values.specs.Beginning.{IsBegun};
ghost use Rattle.state_values.specs.Laying.{AreLaid, IsLaidAs, IsLaidValue};
ghost use Rattle.target_code.specs.Formed.{Formed};
ghost use Rattle.target_meaning.specs.States.{state_of};

use images::encode;
use nres_core::Value;
use run_inputs::Unplaced;
use sqlite_items::Items;
use std::alloc::{AllocError, Global};
use target_code::{Image, InParam, Program, Rep};
use target_meaning::State;

/// Images that lie one behind the other.
#[derive(Drop)]
pub(crate) struct Laid {
    /// The registers, with the blocks' names in the places of the first ones.
    pub(crate) regs: Vec<u64>,
    /// The blocks, each with its name.
    pub(crate) blocks: Vec<(u64, Items<u64>)>,
    /// The words that they claim.
    pub(crate) claimed: u64,
}

/// Puts the registers of a container behind others, with its block's name in the place of the first.
fn push_named(regs: &mut Vec<u64>, name: u64, own: &[u64]) -> Result<(), AllocError>
    ensures { OnOk result (regs.new.items ≡ regs.old.items ++ name ∷ drop 1 own.now) }
{
    regs.push(name)?;
    if let [_, others @ ..] = own {
        regs.extend_from_slice(others)?;
    }
    Ok(())
}

/// Puts a block with its name behind others.
fn push_block(
    blocks: &mut Vec<(u64, Items<u64>)>,
    name: u64,
    words: Items<u64>,
) -> Result<(), AllocError>
    ensures { OnOk result (blocks.new.items ≡ blocks.old.items ++ (name, words) ∷ []) }
{
    blocks.push((name, words))?;
    Ok(())
}

/// Lays a block behind others, where the capacity has room for it, and the registers of its container.
fn lay_block(laid: &mut Laid, cap: u64, own: &[u64], words: Items<u64>) -> Result<(), Unplaced>
    requires { laid.old.claimed ≤ cap }
    ensures { IsLaidAs result cap own.now (Some words) laid.old laid.new }
{
    let at = laid.claimed;
    let len = words.len() as u64;
    if cap - at <= len {
        return Err(Unplaced::Full { at, len });
    }
    let name = at + 1;
    push_named(&mut laid.regs, name, own)?;
    push_block(&mut laid.blocks, name, words)?;
    laid.claimed = name + len;
    Ok(())
}

/// Lays an image behind others.
fn lay_image(laid: &mut Laid, cap: u64, image: Image) -> Result<(), Unplaced>
    requires { laid.old.claimed ≤ cap }
    ensures { IsLaidAs result cap image.regs image.block laid.old laid.new }
{
    let Image { regs, block } = image;
    match block {
        None => {
            laid.regs.extend_from_slice(regs.as_slice())?;
            Ok(())
        }
        Some(words) => lay_block(laid, cap, regs.as_slice(), words),
    }
}

/// Lays the image of a value in a representation behind others.
fn lay(alloc: Global, laid: &mut Laid, cap: u64, rep: Rep, value: &Value) -> Result<(), Unplaced>
    requires fits { Fits rep value.now }
    requires room { laid.old.claimed ≤ cap }
    ensures { IsLaidValue result cap rep value.now laid.old laid.new }
{
    match encode(alloc, value, rep) {
        Ok(image) => lay_image(laid, cap, image),
        // No element is too large: what is left is want of memory.
        Err(_) => Err(Unplaced::Memory),
    }
}

/// Lays the images of values in the representations of inputs one behind the other.
fn lay_all(alloc: Global, ins: &[InParam], values: &[Value], cap: u64) -> Result<Laid, Unplaced>
    requires { AllFit ins.now values.now }
    ensures { AreLaid result cap ins.now values.now }
{
    let mut laid = Laid {
        regs: Vec::new(alloc),
        blocks: Vec::new(alloc),
        claimed: 0,
    };
    for (index, input) in ins.iter().enumerate() {
        match lay(alloc, &mut laid, cap, input.rep, &values[index]) {
            Ok(()) => {}
            Err(unplaced) => {
                drop(laid);
                return Err(unplaced);
            }
        }
    }
    Ok(laid)
}

/// The state in which a program begins on values, in a heap of this capacity: their images lie in blocks that are claimed one
/// behind the other in the order of the inputs, with names from 1 on, and the first registers of `main` are those of the images.
///
/// # Errors
/// [`Unplaced::Full`] tells of the first block that does not fit: the words claimed before it, and its length.
pub fn begin(
    alloc: Global,
    program: &Program,
    values: &[Value],
    cap: u64,
) -> Result<State, Unplaced>
    requires formed { Formed program.now }
    requires held { AreHeld values.now }
    requires fit { AllFit program.now.ins values.now }
    ensures begun { IfOk result (λ state. IsBegun program.now values.now cap (state_of program.now.procs state)) }
    ensures unfit { (at len : ℕ) → result ≡ Err (Unplaced.Full at len) → AreUnfit program.now values.now cap at len }
{
    let laid = match lay_all(alloc, program.ins.as_slice(), values, cap) {
        Ok(laid) => laid,
        Err(unplaced) => return Err(unplaced),
    };
    match State::new(
        alloc,
        program,
        laid.regs.as_slice(),
        laid.blocks.as_slice(),
        cap,
    ) {
        Ok(state) => Ok(state),
        Err(_) => Err(Unplaced::Memory),
    }
}
