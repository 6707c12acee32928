//! The cells of a flat memory.

ghost use Rattle.std.specs.Prelude.{◌≡◌, ◌<◌, ◌+◌, ◌^◌, length, slice_get, slice_set, suc, true, false};
ghost use Rattle.target_meaning.specs.Held.{stored, without};
ghost use Rattle.target_meaning.specs.Piece.{share_of};
ghost use Rattle.branch_exec.specs.Stores.{is_whole, words_whole};
ghost use Rattle.std.specs.Prelude.{Some};
ghost use Rattle.plain_store.specs.Cells.{IsPlaced, amount_from, share_in, top_of};
ghost use Rattle.plain_store.specs.Changed.{AreCleared, HasGrown, IsPut, cleared};
ghost use Rattle.plain_store.specs.declared.cells.Cell.{Cell};

use store_parts::held::Held;

/// The whole of a name or word.
pub const WHOLE: u128 = 18446744073709551616;

/// The cell of a name or of a word.
#[derive(Clone, Copy)]
pub struct Cell {
    /// Its block.
    pub home: u64,
    /// The word; of a name the length.
    pub value: u64,
    /// How much is held of it, but for what forks keep of it: 2^64 is the whole.
    pub amount: u128,
    /// When this came to the branch that holds it.
    pub stamp: u64,
}

/// A block that was drawn.
#[derive(Clone, Copy)]
pub struct Drawn {
    /// Its name.
    pub name: u64,
    /// Its length.
    pub len: u64,
}

/// What is held of a place of a block from a stamp on: the name, at 0, or a word.
pub fn find(cells: &[Cell], border: u64, block: u64, place: u64) -> Held
    ensures { share_of result.value result.amount ≡ top_of cells.now border block place }
{
    let nothing = Held {
        value: 0,
        amount: 0,
    };
    let Some(at) = block.checked_add(place) else {
        return nothing;
    };
    match cells.get(at as usize) {
        Some(cell) => part_of_cell(cell, border, block),
        None => nothing,
    }
}

// What a cell holds of a place of a block, from a stamp on.
fn part_of_cell(cell: &Cell, border: u64, block: u64) -> Held
    ensures { share_of result.value result.amount ≡ share_in block (amount_from border (Some cell.now)) (Some cell.now) }
{
    let amount = if cell.stamp >= border && cell.home == block {
        cell.amount
    } else {
        0
    };
    Held {
        value: cell.value,
        amount,
    }
}

/// Whether a name or word is held whole.
pub fn is_all(found: Held) -> bool
    ensures { result ≡ is_whole (share_of found.value found.amount) }
{
    found.amount == WHOLE
}

/// Whether so many words of a block are held whole.
pub fn words_held(cells: &[Cell], border: u64, block: u64, len: u64) -> bool
    ensures { result ≡ words_whole (top_of cells.now border block) len }
{
    let mut left = len;
    'words: while left > 0 {
        if !is_all(find(cells, border, block, left)) {
            return false;
        }
        left -= 1;
    }
    true
}

// Nothing is held of a cell any more.
fn clear(cells: &mut [Cell], at: usize)
    requires { at < length cells.old }
    ensures { (c : Cell) → slice_get cells.old at ≡ Some c → cells.new ≡ slice_set cells.old at (cleared c) }
{
    let cell = cells[at];
    cells[at] = Cell {
        home: cell.home,
        value: cell.value,
        amount: 0,
        stamp: cell.stamp,
    };
}

/// Gives a block up that is held whole: from its name's cell on, nothing is held of its cells any more.
pub fn give_up(cells: &mut [Cell], border: u64, block: u64, len: u64)
    requires held { words_whole (top_of cells.old border block) len ≡ true }
    requires name { top_of cells.old border block 0 ≡ share_of len (2 ^ 64) }
    requires placed { IsPlaced cells.old }
    ensures piece { top_of cells.new border ≡ without (top_of cells.old border) block }
    ensures kept { AreCleared cells.old cells.new border block len }
{
    let first = block as usize;
    for at in first..first + len as usize + 1 {
        clear(cells, at);
    }
}

/// Changes a word that is held whole.
pub fn put(cells: &mut [Cell], border: u64, block: u64, index: u64, value: u64)
    requires { is_whole (top_of cells.old border block (suc index)) ≡ true }
    ensures piece { top_of cells.new border ≡ stored (top_of cells.old border) block index value }
    ensures kept { IsPut cells.old cells.new border (block + suc index) value }
{
    let at = block as usize + 1 + index as usize;
    let cell = cells[at];
    cells[at] = Cell {
        home: cell.home,
        value,
        amount: cell.amount,
        stamp: cell.stamp,
    };
}

/// Makes a block of zeros behind the others, if there is memory.
pub fn grow(cells: &mut Vec<Cell>, border: u64, len: u64) -> bool
    requires { length cells.old.items + len + 1 < 2 ^ 64 }
    ensures yes { result ≡ true → HasGrown cells.old.items cells.new.items border len }
    ensures no { result ≡ false → cells.new.items ≡ cells.old.items }
{
    let name = cells.len();
    let word = Cell {
        home: name as u64,
        value: 0,
        amount: WHOLE,
        stamp: border,
    };
    if cells.resize(name + 1 + len as usize, word).is_err() {
        return false;
    }
    cells[name] = Cell {
        home: name as u64,
        value: len,
        amount: WHOLE,
        stamp: border,
    };
    true
}
