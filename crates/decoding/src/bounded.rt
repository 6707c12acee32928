//! Sets and maps below a bound.

ghost use Rattle.std.specs.Prelude.{◌≡◌, ◌<◌, ◌≤◌, ◌*◌, ◌/◌, ◌^◌, IfOk, length};
ghost use Rattle.image_laws.specs.Held as held;
ghost use Rattle.image_laws.specs.Reads as rules;

use crate::lists::is_small;
use nres_core::{NumMap, NumSet, Value};
use std::alloc::{AllocError, Global};

// Whether the bit of a number is 1.
fn has_bit(words: &[u64], number: usize) -> bool
    requires { number / 64 < length words.now }
    ensures { result ≡ held.has_bit words.now number }
{
    (words[number / 64] >> (number % 64)) & 1 == 1
}

// The numbers whose bit is 1.
fn bits_in(alloc: Global, words: &[u64]) -> Result<NumSet, AllocError>
    requires { length words.now < 2 ^ 32 }
    ensures { IfOk result (λ s. s ≡ held.bits_below words.now (64 * length words.now)) }
{
    let mut set = NumSet::new(alloc);
    for number in 0..64 * words.len() {
        if has_bit(words, number) {
            set.add(number as u64)?;
        }
    }
    Ok(set)
}

// Whether no bit from a bound on is 1.
fn are_bounded(bound: u32, words: &[u64]) -> bool
    requires { length words.now < 2 ^ 32 }
    ensures { result ≡ held.bounded_bits bound words.now }
{
    let mut bounded = true;
    for number in 0..64 * words.len() {
        let fits = !has_bit(words, number) || number < bound as usize;
        bounded = fits && bounded;
    }
    bounded
}

/// The set that a block of bits holds.
pub(crate) fn bits(
    alloc: Global,
    bound: u32,
    count: u64,
    words: &[u64],
) -> Result<Option<Value>, AllocError>
    ensures { IfOk result (λ o. o ≡ rules.bits_of bound count words.now) }
{
    if words.len() != (bound as usize + 63) / 64 || !are_bounded(bound, words) {
        return Ok(None);
    }
    let set = bits_in(alloc, words)?;
    if count == set.len() as u64 && is_small(count) {
        return Ok(Some(Value::Set(set)));
    }
    Ok(None)
}

// The numbers below a bound whose mark is 1, each with its value.
fn marks_in(alloc: Global, bound: usize, words: &[u64]) -> Result<NumMap, AllocError>
    requires { length words.now ≡ 2 * bound }
    ensures { IfOk result (λ m. m ≡ held.marks_below words.now bound) }
{
    let mut map = NumMap::new(alloc);
    for number in 0..bound {
        if words[2 * number] == 1 {
            map.add(number as u64, words[2 * number + 1])?;
        }
    }
    Ok(map)
}

// Whether each mark is 0 or 1.
fn are_marks(bound: usize, words: &[u64]) -> bool
    requires { length words.now ≡ 2 * bound }
    ensures { result ≡ held.are_marks bound words.now }
{
    let mut marks = true;
    for number in 0..bound {
        let fits = words[2 * number] <= 1;
        marks = fits && marks;
    }
    marks
}

/// The map that a block of marks and values holds.
pub(crate) fn marks(
    alloc: Global,
    bound: u32,
    count: u64,
    words: &[u64],
) -> Result<Option<Value>, AllocError>
    ensures { IfOk result (λ o. o ≡ rules.amap_of bound count words.now) }
{
    let bound = bound as usize;
    if words.len() != 2 * bound || !are_marks(bound, words) {
        return Ok(None);
    }
    let map = marks_in(alloc, bound, words)?;
    if count == map.len() as u64 && is_small(count) {
        return Ok(Some(Value::Map(map)));
    }
    Ok(None)
}
