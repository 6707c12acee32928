//! Lists of numbers that share their parts.

ghost use Rattle.std.specs.Prelude.{◌≡◌, IfOk, OnOk, OnErr, [], ◌∷◌, ◌++◌, length, take, drop, replicate, slice_get, slice_set, ◌==◌};

use sequences::Sequence;
use std::alloc::{AllocError, Global};
use std::marker::Model;

/// A list of numbers.
#[derive(Drop)]
pub struct Nums {
    alloc: Global,
    numbers: Sequence<u64>,
}

impl Model for Nums {
    ghost use Rattle.std.specs.Prelude.{List, ℕ};

    ghost Value = { List ℕ };

    ghost view = { λ n. n.numbers };
}

impl Nums {
    /// No number. Takes no memory.
    pub fn new(alloc: Global) -> Self
        ensures { result ≡ [] }
    {
        Nums {
            alloc,
            numbers: Sequence::new(),
        }
    }

    /// The numbers of a slice, in their order.
    pub fn from_slice(alloc: Global, numbers: &[u64]) -> Result<Nums, AllocError>
        ensures { IfOk result (λ s. s ≡ numbers.now) }
    {
        Ok(Nums {
            alloc,
            numbers: Sequence::from_slice(alloc, numbers)?,
        })
    }

    // The items of a sequence.
    pub(crate) fn of(alloc: Global, numbers: Sequence<u64>) -> Nums
        ensures { result ≡ numbers }
    {
        Nums { alloc, numbers }
    }

    /// The same number so many times. Takes memory for few of them: equal parts are shared.
    pub fn repeated(alloc: Global, number: u64, count: usize) -> Result<Nums, AllocError>
        ensures { IfOk result (λ s. s ≡ replicate count number) }
    {
        Ok(Nums {
            alloc,
            numbers: Sequence::repeated(alloc, number, count)?,
        })
    }

    /// Puts a number at the end. Where there is no memory, the list stays.
    pub fn add(&mut self, number: u64) -> Result<(), AllocError>
        ensures added { OnOk result (self.new ≡ self.old ++ number ∷ []) }
        ensures unchanged { OnErr result (self.new ≡ self.old) }
    {
        let at = self.numbers.len();
        self.numbers = self.numbers.with_inserted(self.alloc, at, number)?;
        Ok(())
    }

    /// How many numbers there are.
    pub fn len(&self) -> usize
        ensures { result ≡ length self.now }
    {
        self.numbers.len()
    }

    /// Whether there is no number.
    pub fn is_empty(&self) -> bool
        ensures { result ≡ (length self.now == 0) }
    {
        self.numbers.len() == 0
    }

    /// The number at a place, if there is one.
    pub fn get(&self, at: usize) -> Option<u64>
        ensures { result ≡ slice_get self.now at }
    {
        self.numbers.get(at)
    }

    /// The same list, sharing all its parts.
    pub fn share(&self) -> Result<Nums, AllocError>
        ensures { IfOk result (λ s. s ≡ self.now) }
    {
        Ok(Nums {
            alloc: self.alloc,
            numbers: self.numbers.share()?,
        })
    }

    /// The list with a number at its end.
    pub fn with(&self, number: u64) -> Result<Nums, AllocError>
        ensures { IfOk result (λ s. s ≡ self.now ++ number ∷ []) }
    {
        let at = self.numbers.len();
        Ok(Nums {
            alloc: self.alloc,
            numbers: self.numbers.with_inserted(self.alloc, at, number)?,
        })
    }

    /// The list with a number in place of the one at a place. Past the end no number changes.
    pub fn with_set(&self, at: usize, number: u64) -> Result<Nums, AllocError>
        ensures { IfOk result (λ s. s ≡ slice_set self.now at number) }
    {
        Ok(Nums {
            alloc: self.alloc,
            numbers: self.numbers.with_set(self.alloc, at, number)?,
        })
    }

    /// The numbers before a place, and the others.
    pub fn split_at(&self, at: usize) -> Result<(Nums, Nums), AllocError>
        ensures { IfOk result (λ s. (s.0 ≡ take at self.now) × (s.1 ≡ drop at self.now)) }
    {
        let (left, right) = self.numbers.split_at(self.alloc, at)?;
        Ok((Nums::of(self.alloc, left), Nums::of(self.alloc, right)))
    }

    /// The numbers of this list and then those of another.
    pub fn joined(&self, other: &Nums) -> Result<Nums, AllocError>
        ensures { IfOk result (λ s. s ≡ self.now ++ other.now) }
    {
        Ok(Nums {
            alloc: self.alloc,
            numbers: self.numbers.joined(self.alloc, &other.numbers)?,
        })
    }

    /// The numbers, in their order.
    pub fn to_vec(&self) -> Result<Vec<u64>, AllocError>
        ensures { IfOk result (λ numbers. numbers.items ≡ self.now) }
    {
        self.numbers.to_vec(self.alloc)
    }
}
