//! The procedures of heaps.

ghost use Rattle.op_heap.specs.Heap.{heap_add, heap_copy, heap_empty, heap_minimum, heap_take_min};
ghost use Rattle.std.specs.Prelude.{◌≡◌, IfOk};

use crate::line::procedure;
use crate::text;
use std::alloc::{AllocError, Global};
use target_code::Proc;

/// The empty multiset.
pub fn heap_empty(alloc: Global) -> Result<Proc, AllocError>
    ensures { IfOk result (λ p. p ≡ heap_empty) }
{
    procedure(
        alloc,
        b"heap_empty",
        0,
        3,
        text!([const 2 4] [alloc 0 2]),
        &[0, 1, 2],
    )
}

/// Adds an element; a full block moves to one of twice the words.
pub fn heap_add(alloc: Global) -> Result<Proc, AllocError>
    ensures { IfOk result (λ p. p ≡ heap_add) }
{
    let text = text!(
        [mov 4 1]
        [call [0, 1, 2] b"lib_push" [0, 1, 2, 3]]
        [const 5 1]
        [const 6 2]
        [while]
            [min 7 4 5]
            [sub 7 4 7]
            [div 7 7 6]
            [load 8 0 7]
            [lt 9 3 8]
        [do 9]
            [store 0 4 8]
            [store 0 7 3]
            [mov 4 7]
        [end while]
    );
    procedure(alloc, b"heap_add", 4, 10, text, &[0, 1, 2])
}

/// The least element.
pub fn heap_minimum(alloc: Global) -> Result<Proc, AllocError>
    ensures { IfOk result (λ p. p ≡ heap_minimum) }
{
    procedure(alloc, b"heap_minimum", 3, 4, text!([load 3 0 3]), &[3])
}

/// Takes a least element out.
pub fn heap_take_min(alloc: Global) -> Result<Proc, AllocError>
    ensures { IfOk result (λ p. p ≡ heap_take_min) }
{
    let text = text!(
        [load 3 0 6]
        [const 4 1]
        [sub 1 1 4]
        [load 5 0 1]
        [store 0 6 5]
        [while]
            [add 7 6 6]
            [add 7 7 4]
            [add 8 7 4]
            [lt 9 8 1]
            [if 9]
                [load 9 0 8]
                [load 10 0 7]
                [lt 9 9 10]
                [add 7 7 9]
            [else]
            [end if]
            [lt 9 7 1]
            [if 9]
                [load 10 0 7]
                [lt 9 10 5]
            [else]
            [end if]
        [do 9]
            [store 0 6 10]
            [store 0 7 5]
            [mov 6 7]
        [end while]
    );
    procedure(alloc, b"heap_take_min", 3, 11, text, &[3, 0, 1, 2])
}

/// The same multiset in a new block.
pub fn heap_copy(alloc: Global) -> Result<Proc, AllocError>
    ensures { IfOk result (λ p. p ≡ heap_copy) }
{
    procedure(
        alloc,
        b"heap_copy",
        3,
        5,
        text!([call [3] b"lib_copy" [0, 4, 1, 2]]),
        &[3, 1, 2],
    )
}
