//! Sequences as balanced trees that share their parts.

ghost use Rattle.std.specs.Prelude.{◌≡◌, ◌<◌, ◌≤◌, [], ◌∷◌, ◌++◌, length, map, set, insert, remove, take, drop, replicate, slice_get, IfOk, OnOk, MatchResult};
ghost use Rattle.sequences.specs.Ends.{first_and_rest};
ghost use Rattle.sequences.specs.Keys.{IsRising, IsAscending, below, place_of};

use crate::Keyed;
use std::alloc::{AllocError, Global};
use std::marker::Model;
use std::rc::Rc;

/// Items in order. A change makes a new sequence, which shares with the old one all but a path of its tree.
#[cycle(sequence)]
#[derive(Drop)]
pub struct Sequence<T> {
    root: Root<T>,
}

#[cycle(sequence)]
#[derive(Drop)]
enum Root<T> {
    Leaf,
    Fork(Rc<Fork<T>>),
}

#[cycle(sequence)]
#[derive(Drop)]
struct Fork<T> {
    left: Sequence<T>,
    item: T,
    right: Sequence<T>,
    len: usize,
}

impl<T> Model for Sequence<T> {
    ghost use Rattle.std.specs.Prelude.{List, length};

    ghost Value = { List T };

    ghost use Rattle.sequences.specs.Tree.{items_of, IsSized};

    ghost view = { λ s. items_of s.root };

    ghost invariant = { λ s. IsSized s.root };

    ghost size = { length };

    ghost use Rattle.sequences.specs.TreeFalls.{deep_le-length};

    ghost size_decreases = { λ s h. deep_le-length s.root };
}

impl<T: Copy> Sequence<T> {
    /// No items. Takes no memory.
    pub fn new() -> Sequence<T>
        ensures { result ≡ [] }
    {
        Sequence { root: Root::Leaf }
    }

    /// How many items there are.
    pub fn len(&self) -> usize
        ensures { result ≡ length self.now }
    {
        match &self.root {
            Root::Leaf => 0,
            Root::Fork(fork) => fork.len,
        }
    }

    /// The same sequence, sharing all its parts.
    pub fn share(&self) -> Result<Sequence<T>, AllocError>
        ensures { IfOk result (λ s. s ≡ self.now) }
    {
        match &self.root {
            Root::Leaf => Ok(Sequence { root: Root::Leaf }),
            Root::Fork(fork) => Ok(Sequence {
                root: Root::Fork(fork.clone()?),
            }),
        }
    }

    /// The item at a place, if there is one.
    pub fn get(&self, at: usize) -> Option<T>
        ensures { result ≡ slice_get self.now at }
    {
        match &self.root {
            Root::Leaf => None,
            Root::Fork(fork) => {
                let before = fork.left.len();
                if at < before {
                    fork.left.get(at)
                } else if at == before {
                    Some(fork.item)
                } else {
                    fork.right.get(at - before - 1)
                }
            }
        }
    }

    /// The sequence with an item in place of the one at a place. Past the end no item changes.
    pub fn with_set(&self, alloc: Global, at: usize, item: T) -> Result<Sequence<T>, AllocError>
        ensures { IfOk result (λ s. s ≡ set self.now at item) }
    {
        match &self.root {
            Root::Leaf => Ok(Sequence::new()),
            Root::Fork(fork) => {
                let before = fork.left.len();
                if at < before {
                    let left = fork.left.with_set(alloc, at, item)?;
                    Sequence::fork(alloc, left, fork.item, fork.right.share()?)
                } else if at == before {
                    Sequence::fork(alloc, fork.left.share()?, item, fork.right.share()?)
                } else {
                    let right = fork.right.with_set(alloc, at - before - 1, item)?;
                    Sequence::fork(alloc, fork.left.share()?, fork.item, right)
                }
            }
        }
    }

    /// The sequence with one more item, before the one at a place. Past the end it comes last.
    pub fn with_inserted(
        &self,
        alloc: Global,
        at: usize,
        item: T,
    ) -> Result<Sequence<T>, AllocError>
        ensures { IfOk result (λ s. s ≡ insert self.now at item) }
    {
        match &self.root {
            Root::Leaf => Sequence::fork(alloc, Sequence::new(), item, Sequence::new()),
            Root::Fork(fork) => {
                let before = fork.left.len();
                if at <= before {
                    let left = fork.left.with_inserted(alloc, at, item)?;
                    Sequence::balanced(alloc, left, fork.item, fork.right.share()?)
                } else {
                    let right = fork.right.with_inserted(alloc, at - before - 1, item)?;
                    Sequence::balanced(alloc, fork.left.share()?, fork.item, right)
                }
            }
        }
    }

    /// The sequence without the item at a place. Past the end none is left out.
    pub fn with_removed(&self, alloc: Global, at: usize) -> Result<Sequence<T>, AllocError>
        ensures { IfOk result (λ s. s ≡ remove self.now at) }
    {
        match &self.root {
            Root::Leaf => Ok(Sequence::new()),
            Root::Fork(fork) => {
                let before = fork.left.len();
                if at < before {
                    let left = fork.left.with_removed(alloc, at)?;
                    Sequence::balanced(alloc, left, fork.item, fork.right.share()?)
                } else if at == before {
                    fork.left.joined(alloc, &fork.right)
                } else {
                    let right = fork.right.with_removed(alloc, at - before - 1)?;
                    Sequence::balanced(alloc, fork.left.share()?, fork.item, right)
                }
            }
        }
    }

    /// The items before a place, and the others. Past the end there are no others.
    pub fn split_at(
        &self,
        alloc: Global,
        at: usize,
    ) -> Result<(Sequence<T>, Sequence<T>), AllocError>
        ensures { IfOk result (λ s. (s.0 ≡ take at self.now) × (s.1 ≡ drop at self.now)) }
    {
        match &self.root {
            Root::Leaf => Ok((Sequence::new(), Sequence::new())),
            Root::Fork(fork) => {
                let before = fork.left.len();
                if at <= before {
                    let (first, near) = fork.left.split_at(alloc, at)?;
                    let rest = Sequence::linked(alloc, near, fork.item, fork.right.share()?)?;
                    Ok((first, rest))
                } else {
                    let (near, rest) = fork.right.split_at(alloc, at - before - 1)?;
                    let first = Sequence::linked(alloc, fork.left.share()?, fork.item, near)?;
                    Ok((first, rest))
                }
            }
        }
    }

    /// The items of this sequence and then those of another.
    pub fn joined(&self, alloc: Global, other: &Sequence<T>) -> Result<Sequence<T>, AllocError>
        ensures { IfOk result (λ s. s ≡ self.now ++ other.now) }
    {
        let left = self.share()?;
        match other.split_first(alloc)? {
            None => Ok(left),
            Some((first, rest)) => Sequence::linked(alloc, left, first, rest),
        }
    }

    /// An item so many times. Takes memory for few of them: equal parts are shared.
    pub fn repeated(alloc: Global, item: T, count: usize) -> Result<Sequence<T>, AllocError>
        ensures { IfOk result (λ s. s ≡ replicate count item) }
    {
        if count == 0 {
            return Ok(Sequence::new());
        }
        let half = (count - 1) / 2;
        let left = Sequence::repeated(alloc, item, half)?;
        if half + half + 1 == count {
            return Sequence::fork(alloc, left.share()?, item, left);
        }
        let right = left.with_inserted(alloc, 0, item)?;
        Sequence::fork(alloc, left, item, right)
    }

    /// The items of a slice, in their order.
    pub fn from_slice(alloc: Global, items: &[T]) -> Result<Sequence<T>, AllocError>
        ensures { IfOk result (λ s. s ≡ items.now) }
    {
        if items.is_empty() {
            return Ok(Sequence::new());
        }
        let middle = items.len() / 2;
        let left = Sequence::from_slice(alloc, &items[..middle])?;
        let right = Sequence::from_slice(alloc, &items[middle + 1..])?;
        Sequence::fork(alloc, left, items[middle], right)
    }

    /// The items, in their order.
    pub fn to_vec(&self, alloc: Global) -> Result<Vec<T>, AllocError>
        ensures { IfOk result (λ items. items.items ≡ self.now) }
    {
        let mut items = Vec::new(alloc);
        self.push_to(&mut items)?;
        Ok(items)
    }

    // Puts the items at the end of a vector, in their order.
    fn push_to(&self, out: &mut Vec<T>) -> Result<(), AllocError>
        ensures { OnOk result (out.new.items ≡ out.old.items ++ self.now) }
    {
        match &self.root {
            Root::Leaf => Ok(()),
            Root::Fork(fork) => {
                fork.left.push_to(out)?;
                out.push(fork.item)?;
                fork.right.push_to(out)
            }
        }
    }

    // The first item and the others, if there is one.
    fn split_first(&self, alloc: Global) -> Result<Option<(T, Sequence<T>)>, AllocError>
        ensures { IfOk result (λ parts. parts ≡ first_and_rest self.now) }
    {
        match &self.root {
            Root::Leaf => Ok(None),
            Root::Fork(fork) => {
                let right = fork.right.share()?;
                match fork.left.split_first(alloc)? {
                    None => Ok(Some((fork.item, right))),
                    Some((first, left)) => {
                        let rest = Sequence::balanced(alloc, left, fork.item, right)?;
                        Ok(Some((first, rest)))
                    }
                }
            }
        }
    }

    // An item between two sides. The lengths may not be more than a number of the machine.
    fn fork(
        alloc: Global,
        left: Sequence<T>,
        item: T,
        right: Sequence<T>,
    ) -> Result<Sequence<T>, AllocError>
        ensures { IfOk result (λ s. s ≡ left ++ item ∷ right) }
    {
        let Some(sides) = left.len().checked_add(right.len()) else {
            return Err(AllocError);
        };
        let Some(len) = sides.checked_add(1) else {
            return Err(AllocError);
        };
        let fork = Fork {
            left,
            item,
            right,
            len,
        };
        let root = Root::Fork(Rc::new(alloc, fork)?);
        Ok(Sequence { root })
    }

    // An item between two sequences of any lengths.
    fn linked(
        alloc: Global,
        left: Sequence<T>,
        item: T,
        right: Sequence<T>,
    ) -> Result<Sequence<T>, AllocError>
        ensures { IfOk result (λ s. s ≡ left ++ item ∷ right) }
    {
        if right.len() > left.len().saturating_mul(3) {
            Sequence::put_first(alloc, left, item, &right)
        } else {
            Sequence::put_last(alloc, &left, item, right)
        }
    }

    // Puts a sequence and an item before another, in its first part that is not much longer.
    fn put_first(
        alloc: Global,
        left: Sequence<T>,
        item: T,
        right: &Sequence<T>,
    ) -> Result<Sequence<T>, AllocError>
        ensures { IfOk result (λ s. s ≡ left ++ item ∷ right.now) }
    {
        match &right.root {
            Root::Fork(fork) if right.len() > left.len().saturating_mul(3) => {
                let near = Sequence::put_first(alloc, left, item, &fork.left)?;
                Sequence::balanced(alloc, near, fork.item, fork.right.share()?)
            }
            _ => Sequence::fork(alloc, left, item, right.share()?),
        }
    }

    // Puts an item and a sequence after another, in its last part that is not much longer.
    fn put_last(
        alloc: Global,
        left: &Sequence<T>,
        item: T,
        right: Sequence<T>,
    ) -> Result<Sequence<T>, AllocError>
        ensures { IfOk result (λ s. s ≡ left.now ++ item ∷ right) }
    {
        match &left.root {
            Root::Fork(fork) if left.len() > right.len().saturating_mul(3) => {
                let near = Sequence::put_last(alloc, &fork.right, item, right)?;
                Sequence::balanced(alloc, fork.left.share()?, fork.item, near)
            }
            _ => Sequence::fork(alloc, left.share()?, item, right),
        }
    }

    // An item between two sides of which one may have got an item too many, or lost one. No side of what results has more than three
    // times the items of the other, unless there are but two.
    fn balanced(
        alloc: Global,
        left: Sequence<T>,
        item: T,
        right: Sequence<T>,
    ) -> Result<Sequence<T>, AllocError>
        ensures { IfOk result (λ s. s ≡ left ++ item ∷ right) }
    {
        let (before, after) = (left.len(), right.len());
        if before.saturating_add(after) <= 1 {
            Sequence::fork(alloc, left, item, right)
        } else if after > before.saturating_mul(3) {
            Sequence::turned_left(alloc, left, item, &right)
        } else if before > after.saturating_mul(3) {
            Sequence::turned_right(alloc, &left, item, right)
        } else {
            Sequence::fork(alloc, left, item, right)
        }
    }

    // Moves items from the right side to the left.
    fn turned_left(
        alloc: Global,
        left: Sequence<T>,
        item: T,
        right: &Sequence<T>,
    ) -> Result<Sequence<T>, AllocError>
        ensures { IfOk result (λ s. s ≡ left ++ item ∷ right.now) }
    {
        let Root::Fork(outer) = &right.root else {
            return Sequence::fork(alloc, left, item, right.share()?);
        };
        let near = &outer.left;
        let far = outer.right.share()?;
        match &near.root {
            Root::Fork(inner) if near.len() >= far.len().saturating_mul(2) => {
                let left = Sequence::fork(alloc, left, item, inner.left.share()?)?;
                let right = Sequence::fork(alloc, inner.right.share()?, outer.item, far)?;
                Sequence::fork(alloc, left, inner.item, right)
            }
            _ => {
                let left = Sequence::fork(alloc, left, item, near.share()?)?;
                Sequence::fork(alloc, left, outer.item, far)
            }
        }
    }

    // Moves items from the left side to the right.
    fn turned_right(
        alloc: Global,
        left: &Sequence<T>,
        item: T,
        right: Sequence<T>,
    ) -> Result<Sequence<T>, AllocError>
        ensures { IfOk result (λ s. s ≡ left.now ++ item ∷ right) }
    {
        let Root::Fork(outer) = &left.root else {
            return Sequence::fork(alloc, left.share()?, item, right);
        };
        let near = &outer.right;
        let far = outer.left.share()?;
        match &near.root {
            Root::Fork(inner) if near.len() >= far.len().saturating_mul(2) => {
                let left = Sequence::fork(alloc, far, outer.item, inner.left.share()?)?;
                let right = Sequence::fork(alloc, inner.right.share()?, item, right)?;
                Sequence::fork(alloc, left, inner.item, right)
            }
            _ => {
                let right = Sequence::fork(alloc, near.share()?, item, right)?;
                Sequence::fork(alloc, far, outer.item, right)
            }
        }
    }
}

impl<T: Copy + Keyed> Sequence<T> {
    /// The place of the item with a key, among items whose keys rise; where there is none, the place at which it would be, as the
    /// error. Of items whose keys do not rise it gives some place.
    pub fn search(&self, key: u64) -> Result<usize, usize>
        ensures within { MatchResult result (λ at. at < length self.now) (λ at. at ≤ length self.now) }
        ensures place { IsRising (map T.key_of self.now) → result ≡ place_of key (map T.key_of self.now) }
    {
        match &self.root {
            Root::Leaf => Err(0),
            Root::Fork(fork) => {
                let here = fork.item.key();
                if key < here {
                    return fork.left.search(key);
                }
                let before = fork.left.len();
                if key == here {
                    return Ok(before);
                }
                // Counted back from the end, where no sum can be too large.
                let after = fork.right.len();
                match fork.right.search(key) {
                    Ok(at) => Ok(fork.len - (after - at)),
                    Err(at) => Err(fork.len - (after - at)),
                }
            }
        }
    }

    /// How many items have a key below a number, among items whose keys do not fall. Of others it gives some number of items.
    pub fn count_below(&self, key: u64) -> usize
        ensures within { result ≤ length self.now }
        ensures count { IsAscending (map T.key_of self.now) → result ≡ below key (map T.key_of self.now) }
    {
        match &self.root {
            Root::Leaf => 0,
            Root::Fork(fork) => {
                if key <= fork.item.key() {
                    return fork.left.count_below(key);
                }
                // Counted back from the end, where no sum can be too large.
                let after = fork.right.len();
                fork.len - (after - fork.right.count_below(key))
            }
        }
    }
}
