//! The laws of the procedures of heaps. Each function does nothing; its contract is the law.

ghost use Rattle.op_heap.specs.Heap.{AddLaw, CopyLaw, EmptyLaw, MinimumLaw, SizeLaw, TakeLaw};
ghost use Rattle.op_heap.specs.Rules.{AllHeapRows};

/// `heap_empty` makes a block of four words, none of them an element.
pub fn empty()
    ensures { EmptyLaw }
{}

/// `heap_add` gives a heap of the numbers and one more, in a block of twice the words where the old one is full.
pub fn add()
    ensures { AddLaw }
{}

/// `heap_minimum` gives the least number, and only reads.
pub fn minimum()
    ensures { MinimumLaw }
{}

/// `heap_take_min` gives the least number and a heap of the others, in the same block.
pub fn take_min()
    ensures { TakeLaw }
{}

/// `heap_copy` copies the elements to a new block of as many words.
pub fn copy()
    ensures { CopyLaw }
{}

/// The multiset of a list has as many numbers as the list.
pub fn size()
    ensures { SizeLaw }
{}

/// The rows of heaps, over procedures that have `lib_copy` and `lib_push`.
pub fn rows()
    ensures { AllHeapRows }
{}
