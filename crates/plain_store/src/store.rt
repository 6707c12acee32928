//! The calls of a store.

ghost use Rattle.std.specs.Prelude.{◌≡◌, ◌<◌, ◌≤◌, ◌+◌, ◌^◌, IfOk, length, suc, true, false};
ghost use Rattle.branch_exec.specs.Stores.{IsWon, is_whole, sees, words_whole};
ghost use Rattle.target_meaning.specs.Held.{stored, without};
ghost use Rattle.target_meaning.specs.Piece.{share_of};
ghost use Rattle.plain_store.specs.Cells.{IsPlaced, top_of};
ghost use Rattle.plain_store.specs.Changed.{AreCleared, IsPut};
ghost use Rattle.plain_store.specs.Plain.{empty, kept_of};

use crate::begins::open_fork;
use crate::cells::{Cell, Drawn, find, give_up, grow, is_all, put, words_held};
use crate::ends::{begin_fork, end_fork};
use crate::memory::PlainStore;
use branch_exec::store::{Freed, Got, Seen, Store, Written};
use run_stores::RunStore;
use std::alloc::{AllocError, Global};
use store_parts::first::first_refused;
use store_parts::held::{Held, Holding};
use target_meaning::frame::Starting;

impl PlainStore {
    /// A store that holds nothing.
    pub fn new(alloc: Global, cap: u64) -> Result<PlainStore, AllocError>
        ensures { IfOk result (λ s. kept_of s ≡ empty cap) }
    {
        let first = Cell {
            home: 0,
            value: 0,
            amount: 0,
            stamp: 0,
        };
        let mut cells = Vec::new(alloc);
        cells.push(first)?;
        Ok(PlainStore {
            cells,
            drawn: Vec::new(alloc),
            forks: Vec::new(alloc),
            border: 0,
            last: 0,
            cap,
            alloc,
        })
    }
}

// Makes a block of zeros behind the others, if there is memory.
fn draw(store: &mut PlainStore, name: u64, len: u64) -> bool
    requires next { name ≡ length store.old.cells.items }
    requires fits { name + len ≤ store.old.cap }
    requires word { name + len + 1 < 2 ^ 64 }
    ensures yes { result ≡ true → IsWon (kept_of store.old) (kept_of store.new) name len }
    ensures no { result ≡ false → kept_of store.new ≡ kept_of store.old }
{
    if store.drawn.reserve(1).is_err() {
        return false;
    }
    if !grow(&mut store.cells, store.border, len) {
        return false;
    }
    store.drawn.push_reserved(Drawn { name, len });
    true
}

// Gives a block up that is held whole.
fn give_up_in(cells: &mut Vec<Cell>, border: u64, block: u64, len: u64)
    requires held { words_whole (top_of cells.old.items border block) len ≡ true }
    requires name { top_of cells.old.items border block 0 ≡ share_of len (2 ^ 64) }
    requires placed { IsPlaced cells.old.items }
    ensures piece { top_of cells.new.items border ≡ without (top_of cells.old.items border) block }
    ensures kept { AreCleared cells.old.items cells.new.items border block len }
{
    give_up(cells.as_mut_slice(), border, block, len);
}

// Changes a word that is held whole.
fn put_in(cells: &mut Vec<Cell>, border: u64, block: u64, index: u64, value: u64)
    requires { is_whole (top_of cells.old.items border block (suc index)) ≡ true }
    ensures piece { top_of cells.new.items border ≡ stored (top_of cells.old.items border) block index value }
    ensures kept { IsPut cells.old.items cells.new.items border (block + suc index) value }
{
    put(cells.as_mut_slice(), border, block, index, value);
}

// A word of the running branch.
fn look(store: &PlainStore, block: u64, index: u64) -> Seen
    ensures { result ≡ sees (kept_of store.now).top block index }
{
    let name = find(store.cells.as_slice(), store.border, block, 0);
    if name.amount > 0 && name.value <= index {
        return Seen::Outside;
    }
    let Some(place) = index.checked_add(1) else {
        return Seen::Unowned;
    };
    let word = find(store.cells.as_slice(), store.border, block, place);
    if word.amount > 0 {
        return Seen::Word(word.value);
    }
    Seen::Unowned
}

impl Store for PlainStore {
    ghost kept = { λ s. kept_of s };

    fn claim(&mut self, len: u64) -> Got {
        let cap = self.cap;
        let name = self.cells.len() as u64;
        let at = name - 1;
        let Some(end) = name.checked_add(len) else {
            return Got::Full { at };
        };
        if end > cap {
            return Got::Full { at };
        }
        if end < u64::MAX && draw(self, name, len) {
            return Got::Won(name);
        }
        Got::Memory
    }

    fn release(&mut self, block: u64) -> Freed {
        let border = self.border;
        let name = find(self.cells.as_slice(), border, block, 0);
        if is_all(name) && words_held(self.cells.as_slice(), border, block, name.value) {
            give_up_in(&mut self.cells, border, block, name.value);
            return Freed::Done;
        }
        Freed::Unowned
    }

    fn read(&mut self, block: u64, index: u64) -> Seen {
        look(self, block, index)
    }

    fn write(&mut self, block: u64, index: u64, value: u64) -> Written {
        let border = self.border;
        let name = find(self.cells.as_slice(), border, block, 0);
        if name.amount > 0 && name.value <= index {
            return Written::Outside;
        }
        let Some(place) = index.checked_add(1) else {
            return Written::Unowned;
        };
        if is_all(find(self.cells.as_slice(), border, block, place)) {
            put_in(&mut self.cells, border, block, index, value);
            return Written::Done;
        }
        Written::Unowned
    }

    fn test_parts(&self, left: &Starting, right: &Starting) -> Option<(u64, u64)> {
        first_refused(self, left, right)
    }

    fn narrow(&mut self, left: &Starting, right: &Starting) -> Result<(), AllocError> {
        open_fork(self, left, right)
    }

    fn turn(&mut self) {
        begin_fork(self);
    }

    fn widen(&mut self) {
        end_fork(self);
    }
}

impl Holding for PlainStore {
    ghost piece = { λ s. top_of s.cells.items s.border };

    fn held(&self, block: u64, place: u64) -> Held {
        find(self.cells.as_slice(), self.border, block, place)
    }
}

impl RunStore for PlainStore {
    ghost lies_in_row = { λ s. s.laid };

    ghost lies_within = { λ s. s.fits };

    fn empty(alloc: Global, cap: u64) -> Result<PlainStore, AllocError> {
        PlainStore::new(alloc, cap)
    }

    fn whole_block(&self, block: u64) -> Option<u64> {
        let name = find(self.cells.as_slice(), self.border, block, 0);
        if is_all(name) && words_held(self.cells.as_slice(), self.border, block, name.value) {
            return Some(name.value);
        }
        None
    }

    fn word(&self, block: u64, index: u64) -> Seen {
        look(self, block, index)
    }

    fn claimed(&self) -> u64 {
        self.cells.len() as u64 - 1
    }
}
