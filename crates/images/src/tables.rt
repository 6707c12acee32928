//! Images of sets and maps in hash tables.

ghost use Rattle.std.specs.Prelude.{◌≡◌, ◌<◌, ◌≤◌, ◌*◌, ◌^◌, IfOk, length, replicate};
ghost use Rattle.relations.specs.Images as images;
ghost use Rattle.relations.specs.Represents.{IsSmall};
ghost use Rattle.images.specs.Encoding.{seen, IsSlots};

use crate::lists::{four, image_of};
use std::alloc::{AllocError, Global};
use target_code::Image;

// The slots for so many keys.
fn slots_for(count: u64) -> u64
    requires { IsSmall count }
    ensures value { result ≡ images.slots count }
    ensures few { result < 2 ^ 35 }
    ensures some { 8 ≤ result }
{
    let mut slots = 8;
    for done in 0..count {
        if 4 * count <= 3 * slots {
            return slots;
        }
        slots *= 2;
    }
    slots
}

// The first slot from a home on, upwards and round, that is empty.
fn open_slot(width: usize, slots: usize, words: &[u64], home: usize) -> usize
    requires slots { IsSlots width slots words.now }
    requires within { home < slots }
    ensures value { result ≡ images.open_slot width slots words.now home slots }
    ensures within { result < slots }
{
    let mut slot = home;
    for turn in 0..slots {
        if words[width * slot] == 0 {
            return slot;
        }
        slot = (slot + 1) % slots;
    }
    slot
}

// The words of a table into which numbers are inserted one after the other.
fn set_words(alloc: Global, slots: usize, numbers: &[u64]) -> Result<Vec<u64>, AllocError>
    requires some { 8 ≤ slots }
    requires few { slots < 2 ^ 35 }
    ensures { IfOk result (λ ws. ws.items ≡ images.inserted 2 slots (replicate (2 * slots) 0) (images.set_entries numbers.now)) }
{
    let mut words = vec![in alloc; 0_u64; 2 * slots]?;
    for number in numbers {
        let home = (*number % slots as u64) as usize;
        let at = 2 * open_slot(2, slots, words.as_slice(), home);
        words[at] = 1;
        words[at + 1] = *number;
    }
    Ok(words)
}

/// The image of a set in a table.
pub(crate) fn set(alloc: Global, numbers: &[u64]) -> Result<Image, AllocError>
    requires { IsSmall (length numbers.now) }
    ensures { IfOk result (λ i. seen i ≡ images.hset_image numbers.now) }
{
    let count = numbers.len() as u64;
    let slots = slots_for(count);
    let block = set_words(alloc, slots as usize, numbers)?;
    let regs = four(alloc, slots, count)?;
    Ok(image_of(regs, block))
}

// The words of a table into which entries are inserted one after the other.
fn map_words(alloc: Global, slots: usize, entries: &[(u64, u64)]) -> Result<Vec<u64>, AllocError>
    requires some { 8 ≤ slots }
    requires few { slots < 2 ^ 35 }
    ensures { IfOk result (λ ws. ws.items ≡ images.inserted 3 slots (replicate (3 * slots) 0) (images.map_entries entries.now)) }
{
    let mut words = vec![in alloc; 0_u64; 3 * slots]?;
    for entry in entries {
        let home = (entry.0 % slots as u64) as usize;
        let at = 3 * open_slot(3, slots, words.as_slice(), home);
        words[at] = 1;
        words[at + 1] = entry.0;
        words[at + 2] = entry.1;
    }
    Ok(words)
}

/// The image of a map in a table.
pub(crate) fn map(alloc: Global, entries: &[(u64, u64)]) -> Result<Image, AllocError>
    requires { IsSmall (length entries.now) }
    ensures { IfOk result (λ i. seen i ≡ images.hmap_image entries.now) }
{
    let count = entries.len() as u64;
    let slots = slots_for(count);
    let block = map_words(alloc, slots as usize, entries)?;
    let regs = four(alloc, slots, count)?;
    Ok(image_of(regs, block))
}
