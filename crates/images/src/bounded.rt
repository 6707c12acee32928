//! Images of sets and maps below a bound.

ghost use Rattle.std.specs.Prelude.{◌≡◌, ◌<◌, ◌≤◌, ◌*◌, ◌+◌, ◌/◌, IfOk, length, replicate, None, [], ◌∷◌};
ghost use Rattle.sequences.specs.Keys.{IsRising};
ghost use Rattle.relations.specs.Images as images;
ghost use Rattle.images.specs.Encoding.{seen, first_from};

use crate::lists::{image_of, two};
use std::alloc::{AllocError, Global};
use target_code::Image;

/// The first number that is not below a bound.
pub(crate) fn first_from(bound: u32, numbers: &[u64]) -> Option<u64>
    ensures { result ≡ first_from bound numbers.now }
{
    for number in numbers {
        if *number >= bound as u64 {
            return Some(*number);
        }
    }
    None
}

/// The first key that is not below a bound.
pub(crate) fn first_key_from(bound: u32, entries: &[(u64, u64)]) -> Option<u64>
    ensures { result ≡ first_from bound (images.keys_of entries.now) }
{
    for entry in entries {
        if entry.0 >= bound as u64 {
            return Some(entry.0);
        }
    }
    None
}

// The words of some bits.
fn bit_words(alloc: Global, bound: u32, numbers: &[u64]) -> Result<Vec<u64>, AllocError>
    requires under { first_from bound numbers.now ≡ None }
    requires rising { IsRising numbers.now }
    ensures { IfOk result (λ ws. ws.items ≡ images.bit_words numbers.now 0 ((bound + 63) / 64)) }
{
    let mut words = vec![in alloc; 0_u64; (bound as usize + 63) / 64]?;
    let count = numbers.len();
    for done in 0..count {
        let number = numbers[count - 1 - done];
        words[(number / 64) as usize] |= 1_u64 << (number % 64);
    }
    Ok(words)
}

/// The image of a set of bits.
pub(crate) fn bits(alloc: Global, bound: u32, numbers: &[u64]) -> Result<Image, AllocError>
    requires under { first_from bound numbers.now ≡ None }
    requires rising { IsRising numbers.now }
    ensures { IfOk result (λ i. seen i ≡ images.of_block (length numbers.now ∷ []) (images.bit_words numbers.now 0 ((bound + 63) / 64))) }
{
    let block = bit_words(alloc, bound, numbers)?;
    let regs = two(alloc, numbers.len() as u64)?;
    Ok(image_of(regs, block))
}

// The words of marks and values.
fn marked(alloc: Global, bound: u32, entries: &[(u64, u64)]) -> Result<Vec<u64>, AllocError>
    requires { first_from bound (images.keys_of entries.now) ≡ None }
    ensures { IfOk result (λ ws. ws.items ≡ images.marked (replicate (2 * bound) 0) entries.now) }
{
    let mut words = vec![in alloc; 0_u64; 2 * bound as usize]?;
    for entry in entries {
        let at = 2 * entry.0 as usize;
        words[at] = 1;
        words[at + 1] = entry.1;
    }
    Ok(words)
}

/// The image of a map of marks.
pub(crate) fn marks(alloc: Global, bound: u32, entries: &[(u64, u64)]) -> Result<Image, AllocError>
    requires { first_from bound (images.keys_of entries.now) ≡ None }
    ensures { IfOk result (λ i. seen i ≡ images.of_block (length entries.now ∷ []) (images.marked (replicate (2 * bound) 0) entries.now)) }
{
    let block = marked(alloc, bound, entries)?;
    let regs = two(alloc, entries.len() as u64)?;
    Ok(image_of(regs, block))
}
