//! Rule rows: which procedure meets an operation on arguments in given representations.

use crate::op::Op;

/// A representation without its bound.
#[derive(Clone, Copy, PartialEq, Eq)]
pub enum Kind {
    /// A number in one register.
    Word,
    /// A truth value in one register.
    Flag,
    /// A list in a block of its length.
    Array,
    /// A range of a block that someone else owns.
    Slice,
    /// A list in the front of a block that may be longer.
    Vec,
    /// A set of numbers below a bound, one bit each.
    Bits,
    /// A set in a hash table.
    Hset,
    /// A map from numbers below a bound.
    Amap,
    /// A map in a hash table.
    Hmap,
    /// A multiset in a binary heap.
    Heap,
}

/// What becomes of an argument.
#[derive(Clone, Copy, PartialEq, Eq)]
pub enum Fate {
    /// It can be used again.
    Kept,
    /// It cannot be used again.
    Destroyed,
}

/// How a row computes its results.
#[derive(Clone, Copy, PartialEq, Eq)]
pub enum RowCode {
    /// A move of that register of the first argument, counted from 0.
    Register(u8),
    /// A call of a library procedure.
    Proc(LibName),
}

/// A rule row. Entries of `args` and `fates` from `count` on, and of `results` from `outs` on, say nothing.
#[derive(Clone, Copy, PartialEq, Eq)]
pub struct Row {
    /// The operation.
    pub op: Op,
    /// The representation that is chosen for a constructor.
    pub made: Option<Kind>,
    /// The number of arguments.
    pub count: u8,
    /// The representations of the arguments.
    pub args: [Kind; 3],
    /// What becomes of the arguments.
    pub fates: [Fate; 3],
    /// The argument, counted from 0, that must be known to be below the bound.
    pub fact: Option<u8>,
    /// The number of results.
    pub outs: u8,
    /// The representations of the results.
    pub results: [Kind; 2],
    /// How they are computed.
    pub code: RowCode,
}

/// A library procedure, which is called by its representation, `_` and its word.
#[derive(Clone, Copy, PartialEq, Eq)]
pub enum LibName {
    /// A block of zeros.
    ArrayZeros,
    /// An element.
    ArrayGet,
    /// Replaces an element.
    ArraySet,
    /// Exchanges two elements.
    ArraySwap,
    /// The same list in a new block.
    ArrayCopy,
    /// The empty list.
    VecNil,
    /// An element.
    VecGet,
    /// Replaces an element.
    VecSet,
    /// Exchanges two elements.
    VecSwap,
    /// Adds an element at the end.
    VecPush,
    /// Takes the last element.
    VecPop,
    /// The same list in a new block.
    VecCopy,
    /// The empty set.
    BitsEmpty,
    /// Whether a number is an element.
    BitsHas,
    /// Adds an element.
    BitsInsert,
    /// Takes an element out.
    BitsRemove,
    /// The least element.
    BitsPick,
    /// Adds the elements of another set.
    BitsUnion,
    /// The elements, ascending.
    BitsElems,
    /// The same set in a new block.
    BitsCopy,
    /// The empty set.
    HsetEmpty,
    /// Whether a number is an element.
    HsetHas,
    /// Adds an element.
    HsetInsert,
    /// Takes an element out.
    HsetRemove,
    /// The key of the first full state.
    HsetPick,
    /// The elements in the order of the states.
    HsetElems,
    /// The same set in a new block.
    HsetCopy,
    /// The empty map.
    AmapEmpty,
    /// Whether a number is a key.
    AmapHas,
    /// The value at a key.
    AmapLookup,
    /// Puts a value at a key.
    AmapPut,
    /// Takes a key out.
    AmapDel,
    /// The keys, ascending.
    AmapKeys,
    /// The same map in a new block.
    AmapCopy,
    /// The empty map.
    HmapEmpty,
    /// Whether a number is a key.
    HmapHas,
    /// The value at a key.
    HmapLookup,
    /// Puts a value at a key.
    HmapPut,
    /// Takes a key out.
    HmapDel,
    /// The keys in the order of the states.
    HmapKeys,
    /// The same map in a new block.
    HmapCopy,
    /// The empty multiset.
    HeapEmpty,
    /// Adds a number once more.
    HeapAdd,
    /// The least element.
    HeapMinimum,
    /// Takes the least element out.
    HeapTakeMin,
    /// The same multiset in a new block.
    HeapCopy,
}
