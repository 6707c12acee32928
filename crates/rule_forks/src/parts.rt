//! The variables that the blocks of a fork use.

ghost use Rattle.std.specs.Prelude.{◌≡◌, ◌∷◌, IfOk};
ghost use Rattle.nres_core.specs.FlatTree.{flats_of};
ghost use Rattle.rule_forks.specs.Forks.{uses_beside, uses_of};

use nres_core::FlatBlock;
use sqlite_items::Items;
use std::alloc::{AllocError, Global};
use uses::{block_uses, without};

/// What either block uses.
#[derive(Drop)]
pub(crate) struct Uses {
    pub left: Items<u32>,
    pub right: Items<u32>,
}

/// What the blocks of `par` use.
pub(crate) fn uses_of(
    alloc: Global,
    left: &FlatBlock,
    right: &FlatBlock,
) -> Result<Uses, AllocError>
    ensures left { IfOk result (λ uses. uses.left ≡ uses_of (flats_of left.now)) }
    ensures right { IfOk result (λ uses. uses.right ≡ uses_of (flats_of right.now)) }
{
    let left = block_uses(alloc, left)?;
    both(left, block_uses(alloc, right))
}

/// What the blocks of `split` use beside its list.
pub(crate) fn uses_beside(
    alloc: Global,
    list: u32,
    left: &FlatBlock,
    right: &FlatBlock,
) -> Result<Uses, AllocError>
    ensures left { IfOk result (λ uses. uses.left ≡ uses_beside list (flats_of left.now)) }
    ensures right { IfOk result (λ uses. uses.right ≡ uses_beside list (flats_of right.now)) }
{
    let left = beside(alloc, list, left)?;
    both(left, beside(alloc, list, right))
}

fn beside(alloc: Global, list: u32, block: &FlatBlock) -> Result<Items<u32>, AllocError>
    ensures { IfOk result (λ uses. uses ≡ uses_beside list (flats_of block.now)) }
{
    let uses = block_uses(alloc, block)?;
    without(alloc, list, uses.as_slice())
}

/// The same with the list of `split` in front.
pub(crate) fn uses_with(alloc: Global, list: u32, others: &Uses) -> Result<Uses, AllocError>
    ensures left { IfOk result (λ uses. uses.left ≡ list ∷ others.now.left) }
    ensures right { IfOk result (λ uses. uses.right ≡ list ∷ others.now.right) }
{
    let left = with(alloc, list, others.left.as_slice())?;
    both(left, with(alloc, list, others.right.as_slice()))
}

fn with(alloc: Global, list: u32, others: &[u32]) -> Result<Items<u32>, AllocError>
    ensures { IfOk result (λ uses. uses ≡ list ∷ others.now) }
{
    let mut uses = Items::from_slice(alloc, &[list])?;
    uses.append(Items::from_slice(alloc, others)?)?;
    Ok(uses)
}

fn both(left: Items<u32>, right: Result<Items<u32>, AllocError>) -> Result<Uses, AllocError>
    ensures left { IfOk result (λ uses. uses.left ≡ left) }
    ensures right { IfOk result (λ uses. right ≡ Ok uses.right) }
{
    match right {
        Ok(right) => Ok(Uses { left, right }),
        Err(error) => {
            drop(left);
            Err(error)
        }
    }
}
