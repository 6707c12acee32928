//! Operations on containers.

/// An operation. Words that several types share have one operation for each.
#[derive(Clone, Copy, PartialEq, Eq)]
pub enum Op {
    /// A list of so many zeros.
    Zeros,
    /// The empty list.
    Nil,
    /// The length of a list.
    Len,
    /// The element of a list at an index.
    Get,
    /// A list with the element at an index replaced.
    SetAt,
    /// A list with two elements exchanged.
    Swap,
    /// A list with one more element at its end.
    Push,
    /// The last element of a list, and the list without it.
    Pop,
    /// The same list.
    CopyList,
    /// The empty set.
    EmptySet,
    /// The number of elements of a set.
    SizeSet,
    /// Whether a number is an element of a set.
    HasSet,
    /// A set with one more element.
    Insert,
    /// A set without an element.
    Remove,
    /// Any element of a set.
    Pick,
    /// The elements of either of two sets.
    Union,
    /// The elements of a set as a list, in any order.
    Elems,
    /// The same set.
    CopySet,
    /// The empty map.
    EmptyMap,
    /// The number of keys of a map.
    SizeMap,
    /// Whether a number is a key of a map.
    HasMap,
    /// The value of a map at a key.
    Lookup,
    /// A map with a value at a key.
    Put,
    /// A map without a key.
    Del,
    /// The keys of a map as a list, in any order.
    Keys,
    /// The same map.
    CopyMap,
    /// The empty multiset.
    EmptyBag,
    /// The number of elements of a multiset, repeats counted.
    SizeBag,
    /// A multiset with a number once more.
    Add,
    /// The least element of a multiset.
    Minimum,
    /// The least element of a multiset, and the multiset without it once.
    TakeMin,
    /// The same multiset.
    CopyBag,
}
