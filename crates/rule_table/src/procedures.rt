//! The library's list of procedures.

ghost use Rattle.rule_table.specs.Library as spec;
ghost use Rattle.rule_table.specs.RowProcedures.{procedure};
ghost use Rattle.std.specs.Prelude.{◌≡◌, ◌++◌, [], map, take, drop, IfOk, OnOk};

use nres_core::LibName;
use op_texts::{arrays, bits, hash, heap};
use std::alloc::{AllocError, Global};
use target_code::Proc;
use triple_logic::text;

/// The rows' procedures whose names stand before those of the helpers, ascending.
static BEFORE_HELPERS: [LibName; 39] = [
    LibName::AmapCopy,
    LibName::AmapDel,
    LibName::AmapEmpty,
    LibName::AmapHas,
    LibName::AmapKeys,
    LibName::AmapLookup,
    LibName::AmapPut,
    LibName::ArrayCopy,
    LibName::ArrayGet,
    LibName::ArraySet,
    LibName::ArraySwap,
    LibName::ArrayZeros,
    LibName::BitsCopy,
    LibName::BitsElems,
    LibName::BitsEmpty,
    LibName::BitsHas,
    LibName::BitsInsert,
    LibName::BitsPick,
    LibName::BitsRemove,
    LibName::BitsUnion,
    LibName::HeapAdd,
    LibName::HeapCopy,
    LibName::HeapEmpty,
    LibName::HeapMinimum,
    LibName::HeapTakeMin,
    LibName::HmapCopy,
    LibName::HmapDel,
    LibName::HmapEmpty,
    LibName::HmapHas,
    LibName::HmapKeys,
    LibName::HmapLookup,
    LibName::HmapPut,
    LibName::HsetCopy,
    LibName::HsetElems,
    LibName::HsetEmpty,
    LibName::HsetHas,
    LibName::HsetInsert,
    LibName::HsetPick,
    LibName::HsetRemove,
];

/// The rows' procedures whose names stand behind those of the helpers, ascending.
static BEHIND_HELPERS: [LibName; 7] = [
    LibName::VecCopy,
    LibName::VecGet,
    LibName::VecNil,
    LibName::VecPop,
    LibName::VecPush,
    LibName::VecSet,
    LibName::VecSwap,
];

/// The procedure of a row.
pub fn procedure(alloc: Global, name: LibName) -> Result<Proc, AllocError>
    ensures { IfOk result (λ p. p ≡ procedure name) }
{
    match name {
        LibName::ArrayZeros => arrays::array_zeros(alloc),
        LibName::ArrayGet => arrays::array_get(alloc),
        LibName::ArraySet => arrays::array_set(alloc),
        LibName::ArraySwap => arrays::array_swap(alloc),
        LibName::ArrayCopy => arrays::array_copy(alloc),
        LibName::VecNil => arrays::vec_nil(alloc),
        LibName::VecGet => arrays::vec_get(alloc),
        LibName::VecSet => arrays::vec_set(alloc),
        LibName::VecSwap => arrays::vec_swap(alloc),
        LibName::VecPush => arrays::vec_push(alloc),
        LibName::VecPop => arrays::vec_pop(alloc),
        LibName::VecCopy => arrays::vec_copy(alloc),
        LibName::BitsEmpty => bits::bits_empty(alloc),
        LibName::BitsHas => bits::bits_has(alloc),
        LibName::BitsInsert => bits::bits_insert(alloc),
        LibName::BitsRemove => bits::bits_remove(alloc),
        LibName::BitsPick => bits::bits_pick(alloc),
        LibName::BitsUnion => bits::bits_union(alloc),
        LibName::BitsElems => bits::bits_elems(alloc),
        LibName::BitsCopy => bits::bits_copy(alloc),
        LibName::HsetEmpty => hash::hset_empty(alloc),
        LibName::HsetHas => hash::hset_has(alloc),
        LibName::HsetInsert => hash::hset_insert(alloc),
        LibName::HsetRemove => hash::hset_remove(alloc),
        LibName::HsetPick => hash::hset_pick(alloc),
        LibName::HsetElems => hash::hset_elems(alloc),
        LibName::HsetCopy => hash::hset_copy(alloc),
        LibName::AmapEmpty => bits::amap_empty(alloc),
        LibName::AmapHas => bits::amap_has(alloc),
        LibName::AmapLookup => bits::amap_lookup(alloc),
        LibName::AmapPut => bits::amap_put(alloc),
        LibName::AmapDel => bits::amap_del(alloc),
        LibName::AmapKeys => bits::amap_keys(alloc),
        LibName::AmapCopy => bits::amap_copy(alloc),
        LibName::HmapEmpty => hash::hmap_empty(alloc),
        LibName::HmapHas => hash::hmap_has(alloc),
        LibName::HmapLookup => hash::hmap_lookup(alloc),
        LibName::HmapPut => hash::hmap_put(alloc),
        LibName::HmapDel => hash::hmap_del(alloc),
        LibName::HmapKeys => hash::hmap_keys(alloc),
        LibName::HmapCopy => hash::hmap_copy(alloc),
        LibName::HeapEmpty => heap::heap_empty(alloc),
        LibName::HeapAdd => heap::heap_add(alloc),
        LibName::HeapMinimum => heap::heap_minimum(alloc),
        LibName::HeapTakeMin => heap::heap_take_min(alloc),
        LibName::HeapCopy => heap::heap_copy(alloc),
    }
}

/// Adds the procedures of rows.
fn add_all(alloc: Global, list: &mut Vec<Proc>, names: &[LibName]) -> Result<(), AllocError>
    ensures { OnOk result (list.new.items ≡ list.old.items ++ map procedure names.now) }
{
    for name in names {
        list.push(procedure(alloc, *name)?)?;
    }
    Ok(())
}

/// Adds the first helpers.
fn first_helpers(alloc: Global, list: &mut Vec<Proc>) -> Result<(), AllocError>
    ensures { OnOk result (list.new.items ≡ list.old.items ++ take 3 spec.helpers) }
{
    list.push(text::lib_copy(alloc)?)?;
    list.push(hash::lib_find(alloc)?)?;
    list.push(hash::lib_hmap_move(alloc)?)?;
    Ok(())
}

/// Adds the last helpers.
fn last_helpers(alloc: Global, list: &mut Vec<Proc>) -> Result<(), AllocError>
    ensures { OnOk result (list.new.items ≡ list.old.items ++ drop 3 spec.helpers) }
{
    list.push(hash::lib_hset_move(alloc)?)?;
    list.push(hash::lib_keys(alloc)?)?;
    list.push(arrays::lib_push(alloc)?)?;
    Ok(())
}

/// Adds all procedures.
fn all_procs(alloc: Global, list: &mut Vec<Proc>) -> Result<(), AllocError>
    ensures { OnOk result (list.old.items ≡ [] → list.new.items ≡ spec.library) }
{
    add_all(alloc, list, &BEFORE_HELPERS)?;
    first_helpers(alloc, list)?;
    last_helpers(alloc, list)?;
    add_all(alloc, list, &BEHIND_HELPERS)
}

/// All procedures of the library with their helpers, their names ascending and distinct, of which `rows_are_sound` and
/// `library_is_closed` speak. Answers an error where memory runs out.
pub fn library(alloc: Global) -> Result<Vec<Proc>, AllocError>
    ensures { IfOk result (λ list. list.items ≡ spec.library) }
{
    let mut list = Vec::new(alloc);
    all_procs(alloc, &mut list)?;
    Ok(list)
}
