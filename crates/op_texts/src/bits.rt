//! The procedures of sets and maps of numbers below a bound.

ghost use Rattle.op_bits.specs.Bits.{bits_copy, bits_elems, bits_empty, bits_has, bits_insert, bits_pick, bits_remove, bits_union};
ghost use Rattle.op_bits.specs.Maps.{amap_copy, amap_del, amap_empty, amap_has, amap_keys, amap_lookup, amap_put};
ghost use Rattle.std.specs.Prelude.{◌≡◌, IfOk};

use crate::line::procedure;
use crate::text;
use std::alloc::{AllocError, Global};
use target_code::Proc;

/// The empty set.
pub fn bits_empty(alloc: Global) -> Result<Proc, AllocError>
    ensures { IfOk result (λ p. p ≡ bits_empty) }
{
    let text = text!([const 1 63] [add 2 0 1] [const 1 64] [div 2 2 1] [alloc 1 2]);
    procedure(alloc, b"bits_empty", 1, 4, text, &[1, 3])
}

/// Whether a number is an element.
pub fn bits_has(alloc: Global) -> Result<Proc, AllocError>
    ensures { IfOk result (λ p. p ≡ bits_has) }
{
    let text = text!(
        [lt 4 3 0]
        [if 4]
            [const 5 64]
            [mod 6 3 5]
            [div 5 3 5]
            [load 4 1 5]
            [shr 4 4 6]
            [const 5 1]
            [and 4 4 5]
        [else]
        [end if]
    );
    procedure(alloc, b"bits_has", 4, 7, text, &[4])
}

/// Adds an element.
pub fn bits_insert(alloc: Global) -> Result<Proc, AllocError>
    ensures { IfOk result (λ p. p ≡ bits_insert) }
{
    let text = text!(
        [const 4 64]
        [mod 6 3 4]
        [div 4 3 4]
        [const 5 1]
        [shl 6 5 6]
        [load 7 1 4]
        [and 8 7 6]
        [if 8]
        [else]
            [or 7 7 6]
            [store 1 4 7]
            [add 2 2 5]
        [end if]
    );
    procedure(alloc, b"bits_insert", 4, 9, text, &[1, 2])
}

/// Takes an element out.
pub fn bits_remove(alloc: Global) -> Result<Proc, AllocError>
    ensures { IfOk result (λ p. p ≡ bits_remove) }
{
    let text = text!(
        [call [4] b"bits_has" [0, 1, 2, 3]]
        [if 4]
            [const 4 64]
            [mod 6 3 4]
            [div 4 3 4]
            [const 5 1]
            [shl 6 5 6]
            [load 7 1 4]
            [xor 7 7 6]
            [store 1 4 7]
            [sub 2 2 5]
        [else]
        [end if]
    );
    procedure(alloc, b"bits_remove", 4, 9, text, &[1, 2])
}

/// The least element.
pub fn bits_pick(alloc: Global) -> Result<Proc, AllocError>
    ensures { IfOk result (λ p. p ≡ bits_pick) }
{
    let text = text!(
        [const 4 1]
        [while]
            [call [5] b"bits_has" [0, 1, 2, 3]]
            [lt 5 5 4]
        [do 5]
            [add 3 3 4]
        [end while]
    );
    procedure(alloc, b"bits_pick", 3, 6, text, &[3])
}

/// Adds the elements of another set.
pub fn bits_union(alloc: Global) -> Result<Proc, AllocError>
    ensures { IfOk result (λ p. p ≡ bits_union) }
{
    let text = text!(
        [const 6 1]
        [while]
            [lt 7 5 0]
        [do 7]
            [call [7] b"bits_has" [0, 3, 4, 5]]
            [if 7]
                [call [1, 2] b"bits_insert" [0, 1, 2, 5]]
            [else]
            [end if]
            [add 5 5 6]
        [end while]
    );
    procedure(alloc, b"bits_union", 5, 8, text, &[1, 2])
}

/// The elements, ascending.
pub fn bits_elems(alloc: Global) -> Result<Proc, AllocError>
    ensures { IfOk result (λ p. p ≡ bits_elems) }
{
    let text = text!(
        [alloc 3 2]
        [const 4 1]
        [while]
            [lt 7 5 0]
        [do 7]
            [call [7] b"bits_has" [0, 1, 2, 5]]
            [if 7]
                [store 3 6 5]
                [add 6 6 4]
            [else]
            [end if]
            [add 5 5 4]
        [end while]
    );
    procedure(alloc, b"bits_elems", 3, 9, text, &[3, 8, 2])
}

/// The same set in a new block.
pub fn bits_copy(alloc: Global) -> Result<Proc, AllocError>
    ensures { IfOk result (λ p. p ≡ bits_copy) }
{
    let text = text!(
        [const 3 63]
        [add 4 0 3]
        [const 3 64]
        [div 4 4 3]
        [call [3] b"lib_copy" [1, 5, 4, 4]]
    );
    procedure(alloc, b"bits_copy", 3, 6, text, &[3, 2])
}

/// The empty map.
pub fn amap_empty(alloc: Global) -> Result<Proc, AllocError>
    ensures { IfOk result (λ p. p ≡ amap_empty) }
{
    procedure(
        alloc,
        b"amap_empty",
        1,
        3,
        text!([add 1 0 0] [alloc 1 1]),
        &[1, 2],
    )
}

/// Whether a number is a key.
pub fn amap_has(alloc: Global) -> Result<Proc, AllocError>
    ensures { IfOk result (λ p. p ≡ amap_has) }
{
    let text = text!(
        [lt 4 3 0]
        [if 4]
            [add 5 3 3]
            [load 4 1 5]
        [else]
        [end if]
    );
    procedure(alloc, b"amap_has", 4, 6, text, &[4])
}

/// The value at a key.
pub fn amap_lookup(alloc: Global) -> Result<Proc, AllocError>
    ensures { IfOk result (λ p. p ≡ amap_lookup) }
{
    let text = text!([add 4 3 3] [const 5 1] [add 4 4 5] [load 4 1 4]);
    procedure(alloc, b"amap_lookup", 4, 6, text, &[4])
}

/// Puts a value at a key.
pub fn amap_put(alloc: Global) -> Result<Proc, AllocError>
    ensures { IfOk result (λ p. p ≡ amap_put) }
{
    let text = text!(
        [add 5 3 3]
        [load 6 1 5]
        [const 7 1]
        [store 1 5 7]
        [add 5 5 7]
        [store 1 5 4]
        [sub 6 7 6]
        [add 2 2 6]
    );
    procedure(alloc, b"amap_put", 5, 8, text, &[1, 2])
}

/// Takes a key out.
pub fn amap_del(alloc: Global) -> Result<Proc, AllocError>
    ensures { IfOk result (λ p. p ≡ amap_del) }
{
    let text = text!(
        [lt 4 3 0]
        [if 4]
            [add 5 3 3]
            [load 4 1 5]
            [store 1 5 6]
            [sub 2 2 4]
        [else]
        [end if]
    );
    procedure(alloc, b"amap_del", 4, 7, text, &[1, 2])
}

/// The keys, ascending.
pub fn amap_keys(alloc: Global) -> Result<Proc, AllocError>
    ensures { IfOk result (λ p. p ≡ amap_keys) }
{
    let text = text!(
        [alloc 3 2]
        [const 4 1]
        [while]
            [lt 7 5 0]
        [do 7]
            [add 7 5 5]
            [load 7 1 7]
            [if 7]
                [store 3 6 5]
                [add 6 6 4]
            [else]
            [end if]
            [add 5 5 4]
        [end while]
    );
    procedure(alloc, b"amap_keys", 3, 9, text, &[3, 8, 2])
}

/// The same map in a new block.
pub fn amap_copy(alloc: Global) -> Result<Proc, AllocError>
    ensures { IfOk result (λ p. p ≡ amap_copy) }
{
    let text = text!([add 3 0 0] [call [3] b"lib_copy" [1, 4, 3, 3]]);
    procedure(alloc, b"amap_copy", 3, 5, text, &[3, 2])
}
