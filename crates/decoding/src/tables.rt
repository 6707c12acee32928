//! Hash tables: slots of some words, a state, a key and in maps a value.

ghost use Rattle.std.specs.Prelude.{◌≡◌, ◌<◌, ◌≤◌, ◌+◌, ◌*◌, ◌^◌, ◌&&◌, ◌||◌, not, nat_le, ◌==◌, if◌then◌else◌, suc, IfOk, length, true};
ghost use Rattle.relations.specs.Represents.{count, is_full, is_used, state, key, value};
ghost use Rattle.image_laws.specs.Held as held;
ghost use Rattle.image_laws.specs.Reads as rules;
ghost use Rattle.decoding.specs.Slots.{IsSlots};

use crate::lists::is_small;
use nres_core::{NumMap, NumSet, Value};
use std::alloc::{AllocError, Global};

// Whether a number of slots is 8 times this power of two.
fn is_size(capacity: u64, exponent: u32) -> bool
    requires { exponent < 61 }
    ensures { result ≡ held.is_size capacity exponent }
{
    8_u64 << exponent == capacity
}

// Whether a number of slots is a power of two from 8.
fn is_capacity(capacity: u64) -> bool
    ensures { result ≡ held.is_capacity capacity }
{
    let mut found = false;
    for exponent in 0..61_u32 {
        let same = is_size(capacity, exponent);
        found = same || found;
    }
    found
}

// How many slots are full.
fn full_slots(width: usize, slots: usize, words: &[u64]) -> usize
    requires { IsSlots width slots words.now }
    ensures counted { result ≡ count (is_full width words.now) slots }
    ensures most { result ≤ slots }
{
    let mut full = 0;
    for slot in 0..slots {
        if words[width * slot] == 1 {
            full += 1;
        }
    }
    full
}

// How many slots are full or gone.
fn used_slots(width: usize, slots: usize, words: &[u64]) -> usize
    requires { IsSlots width slots words.now }
    ensures counted { result ≡ count (is_used width words.now) slots }
    ensures most { result ≤ slots }
{
    let mut used = 0;
    for slot in 0..slots {
        if words[width * slot] != 0 {
            used += 1;
        }
    }
    used
}

// How many slots after the last empty one there are.
fn last_run(width: usize, slots: usize, words: &[u64]) -> usize
    requires { IsSlots width slots words.now }
    ensures counted { result ≡ held.run width slots words.now slots }
    ensures most { result ≤ slots }
{
    let mut run = 0;
    for slot in 0..slots {
        run = if words[width * slot] == 0 { 0 } else { run + 1 };
    }
    run
}

// Whether a state is one, and a key in a full slot is not further behind its home than slots before it are not empty.
fn is_near(state: u64, behind: u64, run: u64) -> bool
    ensures { result ≡ (nat_le state 2 && (not (state == 1) || nat_le behind run)) }
{
    state <= 2 && (state != 1 || behind <= run)
}

// How many slots are not empty behind one with this state, where so many were before it.
fn next_run(state: u64, run: usize) -> usize
    requires { run < 2 ^ 63 }
    ensures { result ≡ (if state == 0 then 0 else suc run) }
{
    if state == 0 {
        return 0;
    }
    run + 1
}

// Whether a slot fits, and those before it did.
fn still(fits: bool, before: bool) -> bool
    ensures { result ≡ (fits && before) }
{
    fits && before
}

// Whether each slot has a state, and where it is full its key is reached.
fn are_slots(width: usize, slots: usize, words: &[u64]) -> bool
    requires { IsSlots width slots words.now }
    ensures { result ≡ held.every (held.is_slot width slots words.now) slots }
{
    let mut run = last_run(width, slots, words);
    let mut fits = true;
    for slot in 0..slots {
        let state = words[width * slot];
        let home = words[width * slot + 1] % slots as u64;
        let behind = ((slot + slots) as u64 - home) % slots as u64;
        let near = is_near(state, behind, run as u64);
        fits = still(near, fits);
        run = next_run(state, run);
    }
    fits
}

// Whether the words are so many slots.
fn has_slots(width: usize, capacity: u64, words: &[u64]) -> bool
    requires { (2 ≤ width) × (width ≤ 3) }
    ensures all { result ≡ (length words.now == width * capacity) }
    ensures fits { result ≡ true → capacity < 2 ^ 64 }
{
    capacity <= words.len() as u64 && words.len() as u64 == width as u64 * capacity
}

// Whether the words are a table of so many slots, of which so many are full, and so many full or gone.
fn is_table(width: usize, capacity: u64, full: u64, used: u64, words: &[u64]) -> bool
    requires { (2 ≤ width) × (width ≤ 3) }
    ensures { result ≡ held.is_table width capacity full used words.now }
{
    if !is_capacity(capacity) || !has_slots(width, capacity, words) {
        return false;
    }
    let slots = capacity as usize;
    are_slots(width, slots, words)
        && full == full_slots(width, slots, words) as u64
        && used == used_slots(width, slots, words) as u64
        && used < capacity
}

// The keys of the full slots.
fn keys_in(alloc: Global, slots: usize, words: &[u64]) -> Result<NumSet, AllocError>
    requires { IsSlots 2 slots words.now }
    ensures { IfOk result (λ s. s ≡ held.slot_keys 2 words.now slots) }
{
    let mut set = NumSet::new(alloc);
    for slot in 0..slots {
        if words[2 * slot] == 1 {
            set.add(words[2 * slot + 1])?;
        }
    }
    Ok(set)
}

/// The set that a table holds.
pub(crate) fn set(
    alloc: Global,
    capacity: u64,
    count: u64,
    used: u64,
    words: &[u64],
) -> Result<Option<Value>, AllocError>
    ensures { IfOk result (λ o. o ≡ rules.hset_of capacity count used words.now) }
{
    if !is_table(2, capacity, count, used, words) {
        return Ok(None);
    }
    let set = keys_in(alloc, capacity as usize, words)?;
    if count == set.len() as u64 && is_small(count) {
        return Ok(Some(Value::Set(set)));
    }
    Ok(None)
}

// The keys of the full slots with their values.
fn entries_in(alloc: Global, slots: usize, words: &[u64]) -> Result<NumMap, AllocError>
    requires { IsSlots 3 slots words.now }
    ensures { IfOk result (λ m. m ≡ held.slot_entries words.now slots) }
{
    let mut map = NumMap::new(alloc);
    for slot in 0..slots {
        if words[3 * slot] == 1 {
            map.add(words[3 * slot + 1], words[3 * slot + 2])?;
        }
    }
    Ok(map)
}

/// The map that a table holds.
pub(crate) fn map(
    alloc: Global,
    capacity: u64,
    count: u64,
    used: u64,
    words: &[u64],
) -> Result<Option<Value>, AllocError>
    ensures { IfOk result (λ o. o ≡ rules.hmap_of capacity count used words.now) }
{
    if !is_table(3, capacity, count, used, words) {
        return Ok(None);
    }
    let map = entries_in(alloc, capacity as usize, words)?;
    if count == map.len() as u64 && is_small(count) {
        return Ok(Some(Value::Map(map)));
    }
    Ok(None)
}
