//! The procedures of arrays, slices and vecs, and `lib_push`.

ghost use Rattle.op_arrays.specs.Arrays.{array_copy, array_get, array_set, array_swap, array_zeros};
ghost use Rattle.op_arrays.specs.Vecs.{vec_copy, vec_get, vec_nil, vec_pop, vec_push, vec_set, vec_swap};
ghost use Rattle.op_base.specs.Push.{lib_push};
ghost use Rattle.std.specs.Prelude.{◌≡◌, IfOk};

use crate::line::procedure;
use crate::text;
use std::alloc::{AllocError, Global};
use target_code::Proc;

/// A block of zeros.
pub fn array_zeros(alloc: Global) -> Result<Proc, AllocError>
    ensures { IfOk result (λ p. p ≡ array_zeros) }
{
    procedure(alloc, b"array_zeros", 1, 3, text!([alloc 1 0]), &[1, 2, 0])
}

/// An element.
pub fn array_get(alloc: Global) -> Result<Proc, AllocError>
    ensures { IfOk result (λ p. p ≡ array_get) }
{
    procedure(
        alloc,
        b"array_get",
        4,
        6,
        text!([add 4 1 3] [load 5 0 4]),
        &[5],
    )
}

/// Replaces an element.
pub fn array_set(alloc: Global) -> Result<Proc, AllocError>
    ensures { IfOk result (λ p. p ≡ array_set) }
{
    procedure(
        alloc,
        b"array_set",
        5,
        6,
        text!([add 5 1 3] [store 0 5 4]),
        &[0, 1, 2],
    )
}

/// Exchanges two elements.
pub fn array_swap(alloc: Global) -> Result<Proc, AllocError>
    ensures { IfOk result (λ p. p ≡ array_swap) }
{
    let text = text!(
        [add 5 1 3]
        [add 6 1 4]
        [load 7 0 5]
        [load 8 0 6]
        [store 0 5 8]
        [store 0 6 7]
    );
    procedure(alloc, b"array_swap", 5, 9, text, &[0, 1, 2])
}

/// The same list in a new block.
pub fn array_copy(alloc: Global) -> Result<Proc, AllocError>
    ensures { IfOk result (λ p. p ≡ array_copy) }
{
    procedure(
        alloc,
        b"array_copy",
        3,
        5,
        text!([call [3] b"lib_copy" [0, 1, 2, 2]]),
        &[3, 4, 2],
    )
}

/// The empty list.
pub fn vec_nil(alloc: Global) -> Result<Proc, AllocError>
    ensures { IfOk result (λ p. p ≡ vec_nil) }
{
    procedure(
        alloc,
        b"vec_nil",
        0,
        3,
        text!([const 2 4] [alloc 0 2]),
        &[0, 1, 2],
    )
}

/// An element.
pub fn vec_get(alloc: Global) -> Result<Proc, AllocError>
    ensures { IfOk result (λ p. p ≡ vec_get) }
{
    procedure(alloc, b"vec_get", 4, 5, text!([load 4 0 3]), &[4])
}

/// Replaces an element.
pub fn vec_set(alloc: Global) -> Result<Proc, AllocError>
    ensures { IfOk result (λ p. p ≡ vec_set) }
{
    procedure(alloc, b"vec_set", 5, 5, text!([store 0 3 4]), &[0, 1, 2])
}

/// Exchanges two elements.
pub fn vec_swap(alloc: Global) -> Result<Proc, AllocError>
    ensures { IfOk result (λ p. p ≡ vec_swap) }
{
    let text = text!([load 5 0 3] [load 6 0 4] [store 0 3 6] [store 0 4 5]);
    procedure(alloc, b"vec_swap", 5, 7, text, &[0, 1, 2])
}

/// Adds an element at the end.
pub fn vec_push(alloc: Global) -> Result<Proc, AllocError>
    ensures { IfOk result (λ p. p ≡ vec_push) }
{
    let text = text!([call [0, 1, 2] b"lib_push" [0, 1, 2, 3]]);
    procedure(alloc, b"vec_push", 4, 4, text, &[0, 1, 2])
}

/// Takes the last element.
pub fn vec_pop(alloc: Global) -> Result<Proc, AllocError>
    ensures { IfOk result (λ p. p ≡ vec_pop) }
{
    procedure(
        alloc,
        b"vec_pop",
        3,
        5,
        text!([const 3 1] [sub 1 1 3] [load 4 0 1]),
        &[4, 0, 1, 2],
    )
}

/// The same list in a new block.
pub fn vec_copy(alloc: Global) -> Result<Proc, AllocError>
    ensures { IfOk result (λ p. p ≡ vec_copy) }
{
    procedure(
        alloc,
        b"vec_copy",
        3,
        5,
        text!([call [3] b"lib_copy" [0, 4, 1, 2]]),
        &[3, 1, 2],
    )
}

/// Adds a word behind the first ones of a block; a full block moves to one of twice the words.
pub fn lib_push(alloc: Global) -> Result<Proc, AllocError>
    ensures { IfOk result (λ p. p ≡ lib_push) }
{
    let text = text!(
        [lt 4 1 2]
        [if 4]
        [else]
            [add 2 2 2]
            [call [5] b"lib_copy" [0, 6, 1, 2]]
            [free 0]
            [mov 0 5]
        [end if]
        [store 0 1 3]
        [const 6 1]
        [add 1 1 6]
    );
    procedure(alloc, b"lib_push", 4, 7, text, &[0, 1, 2])
}
