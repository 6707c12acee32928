//! Finite sets of numbers that share their parts.

ghost use Rattle.std.specs.Prelude.{◌≡◌, IfOk, OnOk, OnErr, slice_get};
ghost use Rattle.containers.specs.Sets as sets;

use crate::Nums;
use sequences::Sequence;
use std::alloc::{AllocError, Global};
use std::marker::Model;

/// A finite set of numbers.
#[derive(Drop)]
pub struct NumSet {
    alloc: Global,
    numbers: Sequence<u64>,
}

impl Model for NumSet {
    ghost use Rattle.std.specs.Ordering.{nat_cmp};
    ghost use Rattle.containers.specs.Sets.{FinSet, from_list, code};
    ghost use Rattle.std.specs.Coded.{coded_ℕ};
    ghost use Rattle.sequences.specs.Keys.{IsRising};

    ghost Value = { FinSet nat_cmp };

    ghost coded = { code coded_ℕ };

    ghost view = { λ s. from_list s.numbers };

    ghost invariant = { λ s. IsRising s.numbers };
}

impl NumSet {
    /// No number. Takes no memory.
    pub fn new(alloc: Global) -> Self
        ensures { result ≡ sets.empty }
    {
        NumSet {
            alloc,
            numbers: Sequence::new(),
        }
    }

    /// Adds a number; a repeated one is one. Where there is no memory, the set stays.
    pub fn add(&mut self, number: u64) -> Result<(), AllocError>
        ensures added { OnOk result (self.new ≡ sets.insert self.old number) }
        ensures unchanged { OnErr result (self.new ≡ self.old) }
    {
        *self = self.with(number)?;
        Ok(())
    }

    /// How many numbers there are.
    pub fn len(&self) -> usize
        ensures { result ≡ sets.len self.now }
    {
        self.numbers.len()
    }

    /// Whether a number is in the set.
    pub fn contains(&self, number: u64) -> bool
        ensures { result ≡ sets.contains self.now number }
    {
        self.numbers.search(number).is_ok()
    }

    /// The least number, if there is one.
    pub fn least(&self) -> Option<u64>
        ensures { result ≡ slice_get (sets.items self.now) 0 }
    {
        self.numbers.get(0)
    }

    /// The same set, sharing all its parts.
    pub fn share(&self) -> Result<NumSet, AllocError>
        ensures { IfOk result (λ s. s ≡ self.now) }
    {
        Ok(NumSet {
            alloc: self.alloc,
            numbers: self.numbers.share()?,
        })
    }

    /// The set with a number; one that is there already stays.
    pub fn with(&self, number: u64) -> Result<NumSet, AllocError>
        ensures { IfOk result (λ s. s ≡ sets.insert self.now number) }
    {
        match self.numbers.search(number) {
            Ok(_) => self.share(),
            Err(at) => Ok(NumSet {
                alloc: self.alloc,
                numbers: self.numbers.with_inserted(self.alloc, at, number)?,
            }),
        }
    }

    /// The set without a number.
    pub fn without(&self, number: u64) -> Result<NumSet, AllocError>
        ensures { IfOk result (λ s. s ≡ sets.remove self.now number) }
    {
        match self.numbers.search(number) {
            Err(_) => self.share(),
            Ok(at) => Ok(NumSet {
                alloc: self.alloc,
                numbers: self.numbers.with_removed(self.alloc, at)?,
            }),
        }
    }

    /// The set with the numbers of another. Takes time for the smaller of the two.
    pub fn union(&self, other: &NumSet) -> Result<NumSet, AllocError>
        ensures { IfOk result (λ s. s ≡ sets.union self.now other.now) }
    {
        if self.len() < other.len() {
            other.with_all(self)
        } else {
            self.with_all(other)
        }
    }

    // The set with the numbers of another, one after the other.
    fn with_all(&self, other: &NumSet) -> Result<NumSet, AllocError>
        ensures { IfOk result (λ s. s ≡ sets.union self.now other.now) }
    {
        let numbers = other.numbers.to_vec(self.alloc)?;
        let mut all = self.share()?;
        for number in &numbers {
            all.add(*number)?;
        }
        Ok(all)
    }

    /// The numbers, ascending, sharing all parts of the set.
    pub fn items(&self) -> Result<Nums, AllocError>
        ensures { IfOk result (λ s. s ≡ sets.items self.now) }
    {
        Ok(Nums::of(self.alloc, self.numbers.share()?))
    }
}
