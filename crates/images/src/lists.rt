//! Images of numbers, truth values, lists and multisets.

ghost use Rattle.std.specs.Prelude.{◌≡◌, ◌<◌, ◌^◌, IfOk, length, ◌-◌, ◌++◌, replicate, [], ◌∷◌, Some};
ghost use Rattle.relations.specs.Images as images;
ghost use Rattle.relations.specs.Represents.{IsSmall};
ghost use Rattle.images.specs.Encoding.{seen, made};

use sqlite_items::Items;
use std::alloc::{AllocError, Global};
use target_code::Image;

/// Registers and a block.
pub(crate) fn image_of(regs: Vec<u64>, block: Vec<u64>) -> Image
    ensures { seen result ≡ made regs.items block.items }
{
    Image {
        regs: Items::from_vec(regs),
        block: Some(Items::from_vec(block)),
    }
}

/// The registers of a container that has two beside its name.
pub(crate) fn three(alloc: Global, first: u64, second: u64) -> Result<Vec<u64>, AllocError>
    ensures { IfOk result (λ regs. regs.items ≡ 0 ∷ first ∷ second ∷ []) }
{
    Ok(vec![in alloc; 0, first, second]?)
}

/// The registers of a table of so many slots, of which so many are used, all of them full.
pub(crate) fn four(alloc: Global, slots: u64, full: u64) -> Result<Vec<u64>, AllocError>
    ensures { IfOk result (λ regs. regs.items ≡ 0 ∷ slots ∷ full ∷ full ∷ []) }
{
    Ok(vec![in alloc; 0, slots, full, full]?)
}

/// The registers of a container that has one beside its name.
pub(crate) fn two(alloc: Global, first: u64) -> Result<Vec<u64>, AllocError>
    ensures { IfOk result (λ regs. regs.items ≡ 0 ∷ first ∷ []) }
{
    Ok(vec![in alloc; 0, first]?)
}

/// The image of a number, or of a truth value as one.
pub(crate) fn number(alloc: Global, number: u64) -> Result<Image, AllocError>
    ensures { IfOk result (λ i. seen i ≡ images.number number) }
{
    let regs = vec![in alloc; number]?;
    Ok(Image {
        regs: Items::from_vec(regs),
        block: None,
    })
}

/// The image of a list that fills its block.
pub(crate) fn array(alloc: Global, block: Vec<u64>) -> Result<Image, AllocError>
    ensures { IfOk result (λ i. seen i ≡ images.of_block (0 ∷ length block.items ∷ []) block.items) }
{
    let count = block.len() as u64;
    let regs = three(alloc, 0, count)?;
    Ok(image_of(regs, block))
}

// Words with zeros behind them, so that there are at least 4.
fn with_room(mut block: Vec<u64>) -> Result<Vec<u64>, AllocError>
    ensures { IfOk result (λ ws. ws.items ≡ block.items ++ replicate (4 - length block.items) 0) }
{
    let added = 4_usize.saturating_sub(block.len());
    for done in 0..added {
        block.push(0)?;
    }
    Ok(block)
}

/// The image of elements in front of a block that has room.
pub(crate) fn roomy(alloc: Global, block: Vec<u64>) -> Result<Image, AllocError>
    ensures { IfOk result (λ i. seen i ≡ images.roomy block.items) }
{
    let count = block.len();
    let block = with_room(block)?;
    let room = block.len();
    let regs = three(alloc, count as u64, room as u64)?;
    Ok(image_of(regs, block))
}
