//! Numbers, truth values, lists and multisets.

ghost use Rattle.std.specs.Prelude.{◌≡◌, ◌≤◌, ◌<◌, IfOk, length, take};
ghost use Rattle.containers.specs.Bag.{bag_of};
ghost use Rattle.image_laws.specs.Held as held;
ghost use Rattle.image_laws.specs.Reads as rules;

use nres_core::{NumBag, Nums, Value};
use std::alloc::{AllocError, Global};

/// Whether a container may have so many elements: fewer than 2^32.
pub(crate) fn is_small(count: u64) -> bool
    ensures { result ≡ held.is_small count }
{
    count < 4_294_967_296
}

/// The truth value that a register holds, 0 or 1.
pub(crate) fn flag(register: u64) -> Option<Value>
    ensures { result ≡ rules.flag_of register }
{
    if register == 0 {
        return Some(Value::Bool(false));
    }
    if register == 1 {
        return Some(Value::Bool(true));
    }
    None
}

/// The list that is a whole block.
pub(crate) fn array(
    alloc: Global,
    offset: u64,
    count: u64,
    words: &[u64],
) -> Result<Option<Value>, AllocError>
    ensures { IfOk result (λ o. o ≡ rules.array_of offset count words.now) }
{
    if offset == 0 && count == words.len() as u64 && is_small(count) {
        let list = Nums::from_slice(alloc, words)?;
        return Ok(Some(Value::List(list)));
    }
    Ok(None)
}

// Whether so many elements stand in front of a block that has room.
fn is_in_front(count: u64, capacity: u64, words: &[u64]) -> bool
    ensures { result ≡ held.in_front count capacity words.now }
{
    capacity == words.len() as u64 && capacity >= 1 && count <= capacity && is_small(count)
}

/// The list in front of a block.
pub(crate) fn vector(
    alloc: Global,
    count: u64,
    capacity: u64,
    words: &[u64],
) -> Result<Option<Value>, AllocError>
    ensures { IfOk result (λ o. o ≡ rules.vec_of count capacity words.now) }
{
    if !is_in_front(count, capacity, words) {
        return Ok(None);
    }
    let list = Nums::from_slice(alloc, &words[..count as usize])?;
    Ok(Some(Value::List(list)))
}

// Whether a word is at least the one at half its index.
fn is_in_order(at: usize, words: &[u64]) -> bool
    requires { at < length words.now }
    ensures { result ≡ held.in_order words.now at }
{
    at == 0 || words[(at - 1) / 2] <= words[at]
}

// Whether each of so many words is at least the one at half its index.
fn is_heap(count: usize, words: &[u64]) -> bool
    requires { count ≤ length words.now }
    ensures { result ≡ held.is_heap count words.now }
{
    let mut heap = true;
    for at in 0..count {
        let fits = is_in_order(at, words);
        heap = fits && heap;
    }
    heap
}

// The multiset of some numbers.
fn bag(alloc: Global, numbers: &[u64]) -> Result<NumBag, AllocError>
    ensures { IfOk result (λ b. b ≡ bag_of numbers.now) }
{
    let mut bag = NumBag::new(alloc);
    let count = numbers.len();
    for done in 0..count {
        bag.add(numbers[count - 1 - done])?;
    }
    Ok(bag)
}

/// The multiset in front of a block, in heap order.
pub(crate) fn heap(
    alloc: Global,
    count: u64,
    capacity: u64,
    words: &[u64],
) -> Result<Option<Value>, AllocError>
    ensures { IfOk result (λ o. o ≡ rules.heap_of count capacity words.now) }
{
    if !is_in_front(count, capacity, words) {
        return Ok(None);
    }
    if !is_heap(count as usize, words) {
        return Ok(None);
    }
    let bag = bag(alloc, &words[..count as usize])?;
    Ok(Some(Value::Bag(bag)))
}
