//! The names by which texts call the library's procedures.

ghost use Rattle.std.specs.Prelude.{◌≡◌};
ghost use Rattle.lib_names.specs.Names.{lib_word};

use nres_core::LibName;

/// The name by which texts call a procedure of the library.
#[tactic(auto, unfolding(crate::specs::Names::lib_word))]
pub fn lib_name(name: LibName) -> &'static [u8]
    ensures { result.now ≡ lib_word name }
{
    match name {
        LibName::ArrayZeros => b"array_zeros",
        LibName::ArrayGet => b"array_get",
        LibName::ArraySet => b"array_set",
        LibName::ArraySwap => b"array_swap",
        LibName::ArrayCopy => b"array_copy",
        LibName::VecNil => b"vec_nil",
        LibName::VecGet => b"vec_get",
        LibName::VecSet => b"vec_set",
        LibName::VecSwap => b"vec_swap",
        LibName::VecPush => b"vec_push",
        LibName::VecPop => b"vec_pop",
        LibName::VecCopy => b"vec_copy",
        LibName::BitsEmpty => b"bits_empty",
        LibName::BitsHas => b"bits_has",
        LibName::BitsInsert => b"bits_insert",
        LibName::BitsRemove => b"bits_remove",
        LibName::BitsPick => b"bits_pick",
        LibName::BitsUnion => b"bits_union",
        LibName::BitsElems => b"bits_elems",
        LibName::BitsCopy => b"bits_copy",
        LibName::HsetEmpty => b"hset_empty",
        LibName::HsetHas => b"hset_has",
        LibName::HsetInsert => b"hset_insert",
        LibName::HsetRemove => b"hset_remove",
        LibName::HsetPick => b"hset_pick",
        LibName::HsetElems => b"hset_elems",
        LibName::HsetCopy => b"hset_copy",
        LibName::AmapEmpty => b"amap_empty",
        LibName::AmapHas => b"amap_has",
        LibName::AmapLookup => b"amap_lookup",
        LibName::AmapPut => b"amap_put",
        LibName::AmapDel => b"amap_del",
        LibName::AmapKeys => b"amap_keys",
        LibName::AmapCopy => b"amap_copy",
        LibName::HmapEmpty => b"hmap_empty",
        LibName::HmapHas => b"hmap_has",
        LibName::HmapLookup => b"hmap_lookup",
        LibName::HmapPut => b"hmap_put",
        LibName::HmapDel => b"hmap_del",
        LibName::HmapKeys => b"hmap_keys",
        LibName::HmapCopy => b"hmap_copy",
        LibName::HeapEmpty => b"heap_empty",
        LibName::HeapAdd => b"heap_add",
        LibName::HeapMinimum => b"heap_minimum",
        LibName::HeapTakeMin => b"heap_take_min",
        LibName::HeapCopy => b"heap_copy",
    }
}
