//! Forks and their branches.

ghost use Rattle.std.specs.Prelude.{◌≡◌};
ghost use Rattle.range_split.specs.Places.{Ascending};

use ownership::{Context, Entry, Shape};
use sqlite_items::Items;
use std::marker::Model;

/// The places of the entries that a branch has, in order of creation.
#[derive(Drop)]
pub struct BranchPlaces {
    list: Vec<usize>,
}

impl Model for BranchPlaces {
    ghost use Rattle.std.specs.Prelude.{ℕ, List};
    ghost use Rattle.range_split.specs.Places.{Ascending};

    ghost Value = { List ℕ };

    ghost view = { λ x. x.list.items };

    ghost invariant = { λ x. Ascending x.list.items };
}

impl BranchPlaces {
    pub(crate) fn new(list: Vec<usize>) -> BranchPlaces
        requires { Ascending list.items }
        ensures { result ≡ list.items }
    {
        BranchPlaces { list }
    }

    /// The places, the oldest first.
    pub fn as_slice(&self) -> &[usize]
        ensures places { result.now ≡ self.now }
        ensures ascend { Ascending result.now }
    {
        self.list.as_slice()
    }
}

/// A branch of `par` or `split`.
#[derive(Drop)]
pub struct Branch {
    /// The places that its entries have outside.
    pub places: BranchPlaces,
    /// Its own entries; while it is gone over, those outside.
    pub context: Context,
    /// How many entries it began with, its slice included.
    pub count: usize,
    /// The slice of a block of `split`.
    pub slice: Option<u32>,
    /// Its results, once it is over.
    pub results: Items<Entry>,
}

/// The branches of `par` or `split`.
#[derive(Drop)]
pub struct Fork {
    /// What the list of `split` is in.
    pub list: Option<Shape>,
    /// The left branch.
    pub left: Branch,
    /// The right branch.
    pub right: Branch,
}
