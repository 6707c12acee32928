//! The entries at a point of a flat tree, the newest last.

ghost use Rattle.std.specs.Prelude.{◌≡◌, ◌≤◌, [], ◌∷◌, length, true, Some, IfOk, OnOk, OnErr, option_map};
ghost use Rattle.context_laws.specs.Stacks.{AllDiffer, falls_at, found_in, holding, is_free, place_in, spot_in};
ghost use Rattle.ownership.specs.Entries.{spot_of};
ghost use Rattle.context_laws.specs.Steps.{with_spots, with_spot, marked, back_at, kept_all, FallsBack};
ghost use Rattle.rule_check.specs.Context.{Gone, all_go};

use crate::entry::{Entry, Hold};
use crate::stack::{restore, shorten};
use indexmap::IndexMap;
use sqlite_items::Items;
use std::alloc::{AllocError, Global};
use std::marker::Model;

/// What there was at a mark.
#[derive(Clone, Copy)]
struct Mark {
    entries: usize,
    gone: usize,
    kept_below: usize,
}

/// The entries of variables, in order of creation. No variable has two. Below a place every owned container counts as kept, and what
/// went since a mark is given back by `undo`.
#[derive(Drop)]
pub struct Context {
    stack: Items<Entry>,
    table: IndexMap<u32, usize>,
    trail: Items<usize>,
    marks: Items<Mark>,
    kept_below: usize,
}

impl Model for Context {
    ghost use Rattle.std.specs.Prelude.{[]};
    ghost use Rattle.context_laws.specs.Stacks.{Held, held_of};
    ghost use Rattle.ownership.specs.Entries.{onto};
    ghost use Rattle.ownership.specs.Marks.{marks_of};
    ghost use Rattle.ownership.specs.Sound.{IsContext};

    ghost Value = { Held };

    ghost view = { λ x. held_of (onto x.stack []) x.trail (marks_of x.marks []) x.kept_below };

    ghost invariant = { λ x. IsContext (onto x.stack []) x.table x.trail (marks_of x.marks []) x.kept_below };
}

impl Context {
    /// No entry. Takes no memory.
    pub fn new(alloc: Global) -> Context
        ensures spots { result.spots ≡ [] }
        ensures saved { result.saved ≡ [] }
    {
        Context {
            stack: Items::new(alloc),
            table: IndexMap::new(alloc),
            trail: Items::new(alloc),
            marks: Items::new(alloc),
            kept_below: 0,
        }
    }

    /// How many entries there are.
    pub fn len(&self) -> usize
        ensures count { result ≡ length self.now.spots }
        ensures differ { AllDiffer self.now.spots }
    {
        self.stack.len()
    }

    /// The place of a variable's entry, from 0 in order of creation.
    pub fn index_of(&self, var: u32) -> Option<usize>
        ensures place { result ≡ place_in self.now.spots var }
        ensures differ { AllDiffer self.now.spots }
    {
        self.table.get(&var).copied()
    }

    /// The entry at a place.
    pub fn get(&self, index: usize) -> Option<Entry>
        ensures { option_map spot_of result ≡ spot_in self.now.spots index }
    {
        match self.stack.get(index).copied() {
            Some(entry) => Some(entry.lent(index < self.kept_below)),
            None => None,
        }
    }

    /// The entry of a variable.
    pub fn entry(&self, var: u32) -> Option<Entry>
        ensures { option_map spot_of result ≡ found_in self.now.spots var }
    {
        match self.index_of(var) {
            Some(index) => self.get(index),
            None => None,
        }
    }

    /// One more entry. There is no room for a second entry of a variable. Where there is none, nothing changes.
    pub fn add(&mut self, entry: Entry) -> Result<(), AllocError>
        ensures ok { OnOk result (self.new ≡ with_spot (spot_of entry) self.old) }
        ensures err { OnErr result (self.new ≡ self.old) }
    {
        let index = self.stack.len();
        if self.table.contains_key(&entry.var) {
            return Err(AllocError);
        }
        self.stack.push(entry)?;
        if self.table.insert(entry.var, index).is_err() {
            self.stack.pop();
            return Err(AllocError);
        }
        Ok(())
    }

    /// The entry of a variable is gone, where it is an owned container.
    pub fn go(&mut self, var: u32) -> Result<(), AllocError>
        ensures ok { OnOk result (self.new ≡ with_spots self.old (all_go (var ∷ []) self.old.spots)) }
        ensures err { OnErr result (self.new ≡ self.old) }
    {
        match self.index_of(var) {
            Some(index) => self.go_at(index),
            None => Ok(()),
        }
    }

    /// The entry at a place is gone, where it is an owned container.
    pub fn go_at(&mut self, index: usize) -> Result<(), AllocError>
        ensures ok { OnOk result (self.new ≡ with_spots self.old (falls_at (index ∷ []) self.old.spots)) }
        ensures err { OnErr result (self.new ≡ self.old) }
    {
        let Some(entry) = self.get(index) else {
            return Ok(());
        };
        if entry.is_free() {
            self.fell(index, entry)
        } else {
            Ok(())
        }
    }

    /// The owned container at a place is gone.
    fn fell(&mut self, index: usize, entry: Entry) -> Result<(), AllocError>
        requires there { spot_in self.old.spots index ≡ Some (spot_of entry) }
        requires free { is_free (spot_of entry) ≡ true }
        ensures ok { OnOk result (self.new ≡ with_spots self.old (holding index Gone self.old.spots)) }
        ensures err { OnErr result (self.new ≡ self.old) }
    {
        self.trail.push(index)?;
        self.stack.set(index, entry.held_as(Hold::Gone));
        Ok(())
    }

    /// The entries at these places are gone, where they are owned containers. Where there is no memory, some may be.
    pub fn fall(&mut self, indices: &[usize]) -> Result<(), AllocError>
        ensures ok { OnOk result (self.new ≡ with_spots self.old (falls_at indices.now self.old.spots)) }
        ensures saved { self.new.saved ≡ self.old.saved }
    {
        'each: for index in indices {
            self.go_at(*index)?;
        }
        Ok(())
    }

    /// From here on entries can be given back.
    pub fn mark(&mut self) -> Result<(), AllocError>
        ensures ok { OnOk result (self.new ≡ marked self.old) }
        ensures err { OnErr result (self.new ≡ self.old) }
    {
        self.marks.push(Mark {
            entries: self.stack.len(),
            gone: self.trail.len(),
            kept_below: self.kept_below,
        })?;
        Ok(())
    }

    /// Every owned container counts as kept, until `undo`. Takes no memory.
    pub fn lend(&mut self)
        ensures { self.new ≡ kept_all self.old }
    {
        self.kept_below = self.stack.len();
    }

    /// All is as it was at the last mark, which goes; without a mark nothing changes. Takes no memory.
    pub fn undo(&mut self)
        ensures { self.new ≡ back_at self.old }
    {
        if let Some(mark) = self.marks.pop() {
            shorten(&mut self.stack, &mut self.table, mark.entries);
            restore(&mut self.stack, &mut self.trail, mark.gone);
            self.kept_below = mark.kept_below;
        }
    }

    /// The places of the entries that went since the last mark.
    pub fn went(&self, alloc: Global) -> Result<Items<usize>, AllocError>
        ensures { IfOk result (λ indices. FallsBack indices self.now) }
    {
        match self.marks.as_slice().last() {
            Some(mark) => {
                let (_, since) = self.trail.as_slice().split_at(mark.gone);
                Items::from_slice(alloc, since)
            }
            None => Ok(Items::new(alloc)),
        }
    }
}
