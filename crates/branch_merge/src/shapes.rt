//! Representations and tags that are to agree.

ghost use Rattle.std.specs.Prelude.{◌≡◌, ◌+◌, ◌<◌, ◌^◌, IfOk};
ghost use Rattle.ownership.specs.Entries.{spot_of, spots_of};
ghost use Rattle.rule_check.specs.Check.{shape_reps};
ghost use Rattle.rule_check.specs.Context as d;

use ownership::Entry;
use std::alloc::AllocError;
use target_code::Rep;

fn rep_number(rep: Rep) -> u8
    ensures { result ≡ d.rep_number rep }
{
    match rep {
        Rep::Word => 0,
        Rep::Flag => 1,
        Rep::Array => 2,
        Rep::Slice => 3,
        Rep::Vec => 4,
        Rep::Hset => 5,
        Rep::Hmap => 6,
        Rep::Heap => 7,
        Rep::Bits(_) => 8,
        Rep::Amap(_) => 9,
    }
}

fn bound_in(rep: Rep) -> Option<u32>
    ensures { result ≡ d.bound_in rep }
{
    match rep {
        Rep::Bits(bound) | Rep::Amap(bound) => Some(bound),
        _ => None,
    }
}

fn same_number(left: Option<u32>, right: Option<u32>) -> bool
    ensures { result ≡ d.same_number left right }
{
    match (left, right) {
        (None, None) => true,
        (Some(left), Some(right)) => left == right,
        _ => false,
    }
}

/// Whether two representations are one.
pub fn same_rep(left: Rep, right: Rep) -> bool
    ensures { result ≡ d.same_rep left right }
{
    rep_number(left) == rep_number(right) && same_number(bound_in(left), bound_in(right))
}

fn same_shape(left: &Entry, right: &Entry) -> bool
    ensures { result ≡ d.same_shape (d.shape_of (spot_of left.now)) (d.shape_of (spot_of right.now)) }
{
    same_rep(left.rep, right.rep) && left.tag == right.tag
}

/// A place as a number that counts from 1. There is no memory for more than 32 bits count.
fn number_at(index: usize) -> Result<u32, AllocError>
    requires { index + 1 < 2 ^ 64 }
    ensures { IfOk result (λ number. number ≡ index + 1) }
{
    u32::try_from(index + 1).map_err(|_| AllocError)
}

/// The number of the first result, counted from 1, whose representation or tag is not that of the other.
pub fn first_other(left: &[Entry], right: &[Entry]) -> Result<Option<u32>, AllocError>
    ensures { IfOk result (λ found. found ≡ d.first_other 1 (d.shapes_of (spots_of left.now)) (d.shapes_of (spots_of right.now))) }
{
    let count = left.len().min(right.len());
    'each: for index in 0..count {
        if !same_shape(&left[index], &right[index]) {
            return Ok(Some(number_at(index)?));
        }
    }
    Ok(None)
}

/// The number of the first result, counted from 1, whose representation is not the declared one.
pub fn first_unlike(shown: &[Rep], results: &[Entry]) -> Result<Option<u32>, AllocError>
    ensures { IfOk result (λ found. found ≡ d.first_unlike 1 shown.now (shape_reps (d.shapes_of (spots_of results.now)))) }
{
    let count = shown.len().min(results.len());
    'each: for index in 0..count {
        if !same_rep(shown[index], results[index].rep) {
            return Ok(Some(number_at(index)?));
        }
    }
    Ok(None)
}
