//! Multisets of numbers that share their parts.

ghost use Rattle.std.specs.Prelude.{◌≡◌, IfOk, OnOk, OnErr, drop, length, slice_get};
ghost use Rattle.containers.specs.Bag.{added, bag_of, no_number};

use crate::Nums;
use sequences::Sequence;
use std::alloc::{AllocError, Global};
use std::marker::Model;

/// A multiset of numbers.
#[derive(Drop)]
pub struct NumBag {
    alloc: Global,
    numbers: Sequence<u64>,
}

impl Model for NumBag {
    ghost use Rattle.std.specs.Prelude.{T};
    ghost use Rattle.containers.specs.Bag.{Bag, bag_of, code, rises_from};

    ghost Value = { Bag };

    ghost coded = { code };

    ghost view = { λ b. bag_of b.numbers };

    ghost invariant = { λ b. T (rises_from 0 b.numbers) };
}

impl NumBag {
    /// No number. Takes no memory.
    pub fn new(alloc: Global) -> Self
        ensures { result ≡ no_number }
    {
        NumBag {
            alloc,
            numbers: Sequence::new(),
        }
    }

    /// Adds a number once more. Where there is no memory, the multiset stays.
    pub fn add(&mut self, number: u64) -> Result<(), AllocError>
        ensures added { OnOk result (self.new ≡ added self.old number) }
        ensures unchanged { OnErr result (self.new ≡ self.old) }
    {
        *self = self.with(number)?;
        Ok(())
    }

    /// How many numbers there are, repeats counted.
    pub fn len(&self) -> usize
        ensures { result ≡ length self.now.list }
    {
        self.numbers.len()
    }

    /// The least number, if there is one.
    pub fn least(&self) -> Option<u64>
        ensures { result ≡ slice_get self.now.list 0 }
    {
        self.numbers.get(0)
    }

    /// The same multiset, sharing all its parts.
    pub fn share(&self) -> Result<NumBag, AllocError>
        ensures { IfOk result (λ b. b ≡ self.now) }
    {
        Ok(NumBag {
            alloc: self.alloc,
            numbers: self.numbers.share()?,
        })
    }

    /// The multiset with a number once more.
    pub fn with(&self, number: u64) -> Result<NumBag, AllocError>
        ensures { IfOk result (λ b. b ≡ added self.now number) }
    {
        let at = self.numbers.count_below(number);
        Ok(NumBag {
            alloc: self.alloc,
            numbers: self.numbers.with_inserted(self.alloc, at, number)?,
        })
    }

    /// The multiset without its least number once.
    pub fn without_least(&self) -> Result<NumBag, AllocError>
        ensures { IfOk result (λ b. b ≡ bag_of (drop 1 self.now.list)) }
    {
        Ok(NumBag {
            alloc: self.alloc,
            numbers: self.numbers.with_removed(self.alloc, 0)?,
        })
    }

    /// The numbers, ascending, sharing all parts of the multiset.
    pub fn items(&self) -> Result<Nums, AllocError>
        ensures { IfOk result (λ s. s ≡ self.now.list) }
    {
        Ok(Nums::of(self.alloc, self.numbers.share()?))
    }
}
