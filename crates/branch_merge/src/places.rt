//! Places of entries, with a set of them.

ghost use Rattle.std.specs.Prelude.{◌≡◌, IfOk};
ghost use Rattle.rule_check.specs.Context.{is_among};

use indexmap::IndexSet;
use std::alloc::{AllocError, Global};
use std::marker::Model;

/// Places, whose contracts see their list.
#[derive(Drop)]
pub struct Places<'a> {
    list: &'a [usize],
    set: IndexSet<usize>,
}

impl<'a> Model for Places<'a> {
    ghost use Rattle.std.specs.Prelude.{List, ℕ};
    ghost use Rattle.branch_merge.specs.Sets.{Holds};

    ghost Value = { List ℕ };

    ghost view = { λ places. places.list.now };

    ghost invariant = { λ places. Holds places.set places.list.now };
}

impl<'a> Places<'a> {
    /// The places of a list.
    pub fn new(alloc: Global, list: &'a [usize]) -> Result<Places<'a>, AllocError>
        ensures { IfOk result (λ places. places ≡ list.now) }
    {
        let mut set = IndexSet::new(alloc);
        'each: for index in list {
            set.insert(*index)?;
        }
        Ok(Places { list, set })
    }

    /// Whether a place is among them.
    pub fn contains(&self, index: usize) -> bool
        ensures { result ≡ is_among index self.now }
    {
        self.set.contains(&index)
    }
}
