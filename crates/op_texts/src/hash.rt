//! The procedures of hash tables. Those of sets and of maps differ by the words of a slot.

ghost use Rattle.op_hash.specs.Texts.{hmap_copy, hmap_del, hmap_empty, hmap_has, hmap_keys, hmap_lookup, hmap_put, hset_copy, hset_elems, hset_empty, hset_has, hset_insert, hset_pick, hset_remove, lib_find, lib_hmap_move, lib_hset_move, lib_keys};
ghost use Rattle.std.specs.Prelude.{◌≡◌, IfOk};

use crate::line::procedure;
use crate::text;
use std::alloc::{AllocError, Global};
use target_code::Proc;

/// A key's slot and 1, or the first empty slot on its way and 0.
pub fn lib_find(alloc: Global) -> Result<Proc, AllocError>
    ensures { IfOk result (λ p. p ≡ lib_find) }
{
    let text = text!(
        [const 9 1]
        [mod 4 3 1]
        [while]
            [mul 5 4 2]
            [load 6 0 5]
            [add 7 5 9]
            [load 7 0 7]
            [eq 7 7 3]
            [eq 8 6 9]
            [min 7 7 8]
            [lt 8 7 6]
        [do 8]
            [add 4 4 9]
            [mod 4 4 1]
        [end while]
    );
    procedure(alloc, b"lib_find", 4, 10, text, &[5, 7])
}

/// A new block of the keys, in the order of their slots.
pub fn lib_keys(alloc: Global) -> Result<Proc, AllocError>
    ensures { IfOk result (λ p. p ≡ lib_keys) }
{
    let text = text!(
        [alloc 4 3]
        [const 5 1]
        [while]
            [lt 9 6 1]
        [do 9]
            [mul 10 6 2]
            [load 9 0 10]
            [eq 9 9 5]
            [if 9]
                [add 10 10 5]
                [load 10 0 10]
                [store 4 7 10]
                [add 7 7 5]
            [else]
            [end if]
            [add 6 6 5]
        [end while]
    );
    procedure(alloc, b"lib_keys", 4, 11, text, &[4])
}

/// A new table of a set's keys, without slots that are gone.
pub fn lib_hset_move(alloc: Global) -> Result<Proc, AllocError>
    ensures { IfOk result (λ p. p ≡ lib_hset_move) }
{
    let text = text!(
        [const 3 2]
        [mul 4 2 3]
        [alloc 5 4]
        [const 6 1]
        [while]
            [lt 8 7 1]
        [do 8]
            [mul 9 7 3]
            [load 8 0 9]
            [eq 8 8 6]
            [if 8]
                [add 9 9 6]
                [load 10 0 9]
                [call [11, 12] b"lib_find" [5, 2, 3, 10]]
                [store 5 11 6]
                [add 11 11 6]
                [store 5 11 10]
            [else]
            [end if]
            [add 7 7 6]
        [end while]
    );
    procedure(alloc, b"lib_hset_move", 3, 13, text, &[5])
}

/// A new table of a map's keys and values, without slots that are gone.
pub fn lib_hmap_move(alloc: Global) -> Result<Proc, AllocError>
    ensures { IfOk result (λ p. p ≡ lib_hmap_move) }
{
    let text = text!(
        [const 3 3]
        [mul 4 2 3]
        [alloc 5 4]
        [const 6 1]
        [while]
            [lt 8 7 1]
        [do 8]
            [mul 9 7 3]
            [load 8 0 9]
            [eq 8 8 6]
            [if 8]
                [add 9 9 6]
                [load 10 0 9]
                [add 9 9 6]
                [load 13 0 9]
                [call [11, 12] b"lib_find" [5, 2, 3, 10]]
                [store 5 11 6]
                [add 11 11 6]
                [store 5 11 10]
                [add 11 11 6]
                [store 5 11 13]
            [else]
            [end if]
            [add 7 7 6]
        [end while]
    );
    procedure(alloc, b"lib_hmap_move", 3, 14, text, &[5])
}

/// The empty set.
pub fn hset_empty(alloc: Global) -> Result<Proc, AllocError>
    ensures { IfOk result (λ p. p ≡ hset_empty) }
{
    let text = text!([const 1 16] [alloc 0 1] [const 1 8]);
    procedure(alloc, b"hset_empty", 0, 4, text, &[0, 1, 2, 3])
}

/// Whether a number is an element.
pub fn hset_has(alloc: Global) -> Result<Proc, AllocError>
    ensures { IfOk result (λ p. p ≡ hset_has) }
{
    let text = text!([const 5 2] [call [6, 7] b"lib_find" [0, 1, 5, 4]]);
    procedure(alloc, b"hset_has", 5, 8, text, &[7])
}

/// Adds an element; a table with too few empty slots moves to a new block first.
pub fn hset_insert(alloc: Global) -> Result<Proc, AllocError>
    ensures { IfOk result (λ p. p ≡ hset_insert) }
{
    let text = text!(
        [const 6 2]
        [call [7, 8] b"lib_find" [0, 1, 6, 4]]
        [if 8]
        [else]
            [const 9 4]
            [div 9 1 9]
            [const 10 3]
            [mul 9 9 10]
            [lt 9 3 9]
            [if 9]
            [else]
                [add 9 2 2]
                [le 9 1 9]
                [shl 10 1 9]
                [call [9] b"lib_hset_move" [0, 1, 10]]
                [free 0]
                [mov 0 9]
                [mov 1 10]
                [mov 3 2]
                [call [7, 8] b"lib_find" [0, 1, 6, 4]]
            [end if]
            [const 9 1]
            [store 0 7 9]
            [add 10 7 9]
            [store 0 10 4]
            [add 2 2 9]
            [add 3 3 9]
        [end if]
    );
    procedure(alloc, b"hset_insert", 5, 11, text, &[0, 1, 2, 3])
}

/// Takes an element out; its slot is then gone.
pub fn hset_remove(alloc: Global) -> Result<Proc, AllocError>
    ensures { IfOk result (λ p. p ≡ hset_remove) }
{
    let text = text!(
        [const 5 2]
        [call [6, 7] b"lib_find" [0, 1, 5, 4]]
        [if 7]
            [const 5 2]
            [store 0 6 5]
            [sub 2 2 7]
        [else]
        [end if]
    );
    procedure(alloc, b"hset_remove", 5, 8, text, &[0, 1, 2, 3])
}

/// Some element.
pub fn hset_pick(alloc: Global) -> Result<Proc, AllocError>
    ensures { IfOk result (λ p. p ≡ hset_pick) }
{
    let text = text!(
        [const 4 2]
        [const 5 1]
        [while]
            [load 7 0 6]
            [ne 7 7 5]
        [do 7]
            [add 6 6 4]
        [end while]
        [add 6 6 5]
        [load 7 0 6]
    );
    procedure(alloc, b"hset_pick", 4, 8, text, &[7])
}

/// The elements, in the order of their slots.
pub fn hset_elems(alloc: Global) -> Result<Proc, AllocError>
    ensures { IfOk result (λ p. p ≡ hset_elems) }
{
    let text = text!([const 4 2] [call [4] b"lib_keys" [0, 1, 4, 2]]);
    procedure(alloc, b"hset_elems", 4, 6, text, &[4, 5, 2])
}

/// The same set in a new block.
pub fn hset_copy(alloc: Global) -> Result<Proc, AllocError>
    ensures { IfOk result (λ p. p ≡ hset_copy) }
{
    let text = text!([const 4 2] [mul 4 1 4] [call [4] b"lib_copy" [0, 5, 4, 4]]);
    procedure(alloc, b"hset_copy", 4, 6, text, &[4, 1, 2, 3])
}

/// The empty map.
pub fn hmap_empty(alloc: Global) -> Result<Proc, AllocError>
    ensures { IfOk result (λ p. p ≡ hmap_empty) }
{
    let text = text!([const 1 24] [alloc 0 1] [const 1 8]);
    procedure(alloc, b"hmap_empty", 0, 4, text, &[0, 1, 2, 3])
}

/// Whether a number is a key.
pub fn hmap_has(alloc: Global) -> Result<Proc, AllocError>
    ensures { IfOk result (λ p. p ≡ hmap_has) }
{
    let text = text!([const 5 3] [call [6, 7] b"lib_find" [0, 1, 5, 4]]);
    procedure(alloc, b"hmap_has", 5, 8, text, &[7])
}

/// The value at a key.
pub fn hmap_lookup(alloc: Global) -> Result<Proc, AllocError>
    ensures { IfOk result (λ p. p ≡ hmap_lookup) }
{
    let text = text!(
        [const 5 3]
        [call [6, 7] b"lib_find" [0, 1, 5, 4]]
        [const 7 2]
        [add 6 6 7]
        [load 7 0 6]
    );
    procedure(alloc, b"hmap_lookup", 5, 8, text, &[7])
}

/// Puts a value at a key; a table with too few empty slots moves to a new block first.
pub fn hmap_put(alloc: Global) -> Result<Proc, AllocError>
    ensures { IfOk result (λ p. p ≡ hmap_put) }
{
    let text = text!(
        [const 6 3]
        [call [7, 8] b"lib_find" [0, 1, 6, 4]]
        [if 8]
        [else]
            [const 9 4]
            [div 9 1 9]
            [const 10 3]
            [mul 9 9 10]
            [lt 9 3 9]
            [if 9]
            [else]
                [add 9 2 2]
                [le 9 1 9]
                [shl 10 1 9]
                [call [9] b"lib_hmap_move" [0, 1, 10]]
                [free 0]
                [mov 0 9]
                [mov 1 10]
                [mov 3 2]
                [call [7, 8] b"lib_find" [0, 1, 6, 4]]
            [end if]
            [const 9 1]
            [store 0 7 9]
            [add 10 7 9]
            [store 0 10 4]
            [add 2 2 9]
            [add 3 3 9]
        [end if]
        [const 9 2]
        [add 7 7 9]
        [store 0 7 5]
    );
    procedure(alloc, b"hmap_put", 6, 11, text, &[0, 1, 2, 3])
}

/// Takes a key out; its slot is then gone.
pub fn hmap_del(alloc: Global) -> Result<Proc, AllocError>
    ensures { IfOk result (λ p. p ≡ hmap_del) }
{
    let text = text!(
        [const 5 3]
        [call [6, 7] b"lib_find" [0, 1, 5, 4]]
        [if 7]
            [const 5 2]
            [store 0 6 5]
            [sub 2 2 7]
        [else]
        [end if]
    );
    procedure(alloc, b"hmap_del", 5, 8, text, &[0, 1, 2, 3])
}

/// The keys, in the order of their slots.
pub fn hmap_keys(alloc: Global) -> Result<Proc, AllocError>
    ensures { IfOk result (λ p. p ≡ hmap_keys) }
{
    let text = text!([const 4 3] [call [4] b"lib_keys" [0, 1, 4, 2]]);
    procedure(alloc, b"hmap_keys", 4, 6, text, &[4, 5, 2])
}

/// The same map in a new block.
pub fn hmap_copy(alloc: Global) -> Result<Proc, AllocError>
    ensures { IfOk result (λ p. p ≡ hmap_copy) }
{
    let text = text!([const 4 3] [mul 4 1 4] [call [4] b"lib_copy" [0, 5, 4, 4]]);
    procedure(alloc, b"hmap_copy", 4, 6, text, &[4, 1, 2, 3])
}
