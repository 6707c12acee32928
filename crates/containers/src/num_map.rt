//! Finite maps from numbers to numbers that share their parts.

ghost use Rattle.std.specs.Prelude.{◌≡◌, IfOk, OnOk, OnErr};
ghost use Rattle.std.specs.FinMap as maps;

use crate::Nums;
use sequences::Sequence;
use std::alloc::{AllocError, Global};
use std::marker::Model;

/// A finite map from numbers to numbers.
#[derive(Drop)]
pub struct NumMap {
    alloc: Global,
    pairs: Sequence<(u64, u64)>,
}

impl Model for NumMap {
    ghost use Rattle.std.specs.Ordering.{nat_cmp};
    ghost use Rattle.std.specs.Prelude.{ℕ, map};
    ghost use Rattle.std.specs.FinMap.{FinMap, from_entries, code};
    ghost use Rattle.std.specs.Coded.{coded_ℕ};
    ghost use Rattle.sequences.specs.Keys.{IsRising};

    ghost Value = { FinMap nat_cmp ℕ };

    ghost coded = { code coded_ℕ coded_ℕ };

    ghost view = { λ m. from_entries m.pairs };

    ghost invariant = { λ m. IsRising (map (λ e. e.0) m.pairs) };
}

impl NumMap {
    /// No pair. Takes no memory.
    pub fn new(alloc: Global) -> Self
        ensures { result ≡ maps.empty }
    {
        NumMap {
            alloc,
            pairs: Sequence::new(),
        }
    }

    /// Adds a pair, in place of an earlier one for the key. Where there is no memory, the map stays.
    pub fn add(&mut self, key: u64, value: u64) -> Result<(), AllocError>
        ensures added { OnOk result (self.new ≡ maps.insert self.old key value) }
        ensures unchanged { OnErr result (self.new ≡ self.old) }
    {
        *self = self.with(key, value)?;
        Ok(())
    }

    /// How many pairs there are.
    pub fn len(&self) -> usize
        ensures { result ≡ maps.len self.now }
    {
        self.pairs.len()
    }

    /// Whether a key has a value.
    pub fn contains(&self, key: u64) -> bool
        ensures { result ≡ maps.contains_key self.now key }
    {
        self.pairs.search(key).is_ok()
    }

    /// The value of a key, if it has one.
    pub fn get(&self, key: u64) -> Option<u64>
        ensures { result ≡ maps.get self.now key }
    {
        let Ok(at) = self.pairs.search(key) else {
            return None;
        };
        let (_, value) = self.pairs.get(at)?;
        Some(value)
    }

    /// The same map, sharing all its parts.
    pub fn share(&self) -> Result<NumMap, AllocError>
        ensures { IfOk result (λ m. m ≡ self.now) }
    {
        Ok(NumMap {
            alloc: self.alloc,
            pairs: self.pairs.share()?,
        })
    }

    /// The map with a pair, in place of an earlier one for the key.
    pub fn with(&self, key: u64, value: u64) -> Result<NumMap, AllocError>
        ensures { IfOk result (λ m. m ≡ maps.insert self.now key value) }
    {
        let pair = (key, value);
        let pairs = match self.pairs.search(key) {
            Ok(at) => self.pairs.with_set(self.alloc, at, pair)?,
            Err(at) => self.pairs.with_inserted(self.alloc, at, pair)?,
        };
        Ok(NumMap {
            alloc: self.alloc,
            pairs,
        })
    }

    /// The map without a key.
    pub fn without(&self, key: u64) -> Result<NumMap, AllocError>
        ensures { IfOk result (λ m. m ≡ maps.remove self.now key) }
    {
        match self.pairs.search(key) {
            Err(_) => self.share(),
            Ok(at) => Ok(NumMap {
                alloc: self.alloc,
                pairs: self.pairs.with_removed(self.alloc, at)?,
            }),
        }
    }

    /// The keys, ascending.
    pub fn keys(&self) -> Result<Nums, AllocError>
        ensures { IfOk result (λ s. s ≡ maps.keys self.now) }
    {
        let pairs = self.pairs.to_vec(self.alloc)?;
        let mut keys = Vec::new(self.alloc);
        for pair in &pairs {
            keys.push(pair.0)?;
        }
        let keys = Sequence::from_slice(self.alloc, keys.as_slice())?;
        Ok(Nums::of(self.alloc, keys))
    }

    /// The keys with their values, by ascending keys.
    pub fn entries(&self) -> Result<Vec<(u64, u64)>, AllocError>
        ensures { IfOk result (λ pairs. pairs.items ≡ maps.entries self.now) }
    {
        self.pairs.to_vec(self.alloc)
    }
}
