//! The calls on one seat. Each step on the words keeps the rule of the directory, whatever other
//! seats do meanwhile.
ghost use Rattle.std.specs.Prelude.{◌≡◌, ℕ, ◌+◌, ◌*◌, ◌<◌, ◌≤◌, ◌⊎◌, IfOk, true, false};
ghost use Rattle.block_dir.specs.Views.{cell_of, opening_view, won, walked, released, written};
ghost use Rattle.block_dir.specs.Calls.{view, seat_of, id_of, capacity, Claimed, OnWon, IfWon, HasWord, OwnsWord};
ghost use Rattle.block_dir.specs.Steps.{IsWhole};
ghost use Rattle.block_dir.specs.Rule.{Kept, AtomicStep, Wins};

use crate::directory::{Claim, Directory};
use crate::plays::{Claims, Frees, Reads, Writes};
use crate::seat::DirSeat;
use atomic_table::Table;
use std::alloc::{AllocError, Global};

impl Directory {
    /// A directory of `cap` words, and its first seat, which holds nothing, drew nothing and has
    /// the weight 2^64.
    ///
    /// While it runs it needs the memory of `2·(cap + 1)` words, and of `cap + 1` afterwards. Want
    /// of memory is the only error.
    #[tactic(auto, using(crate::proofs::Seats::kept_opening), unfolding(crate::specs::Views::opening_view))]
    pub fn new(alloc: Global, cap: u64) -> Result<(Directory, DirSeat), AllocError>
        requires { (1 ≤ cap) × (cap ≤ 268435456) }
        ensures { IfOk result (λ r. (capacity r.0 ≡ cap) × (seat_of r.1 ≡ id_of r.0)
            × (view r.1 ≡ opening_view cap) × Kept (view r.1)) }
    {
        let words = vec![in alloc; 0u64; cap as usize + 1]?;
        let (table, seat) = Table::of_words(alloc, words.as_slice(), &cap)?;
        Ok((Directory { table, cap }, DirSeat { seat, position: 1 }))
    }

    // Claims at the seat's position, or goes past the block that has it.
    fn attempt(&self, seat: &mut DirSeat, len: u64) -> bool
        requires same { seat_of seat.old ≡ id_of self.now }
        requires room { seat.old.position + len ≤ self.now.cap }
        ensures same { seat_of seat.new ≡ seat_of seat.old }
        ensures rule { Kept (view seat.new) }
        ensures won { result ≡ true → view seat.new ≡ won seat.old.position len (view seat.old) }
        ensures step { result ≡ true → Wins (view seat.old) (view seat.new) seat.old.position len }
        ensures lost { result ≡ false → (seat.old.position < seat.new.position)
            × (view seat.new ≡ walked seat.new.position (view seat.old)) }
    {
        let at = seat.position;
        let found = self
            .table
            .shared
            .compare_exchange::<Claims>(&mut seat.seat, at as usize, 0, 2 * len + 2);
        if found == 0 {
            seat.position = at + len + 1;
            return true;
        }
        seat.position = at + found / 2;
        false
    }

    /// Claims a block of `len` words. A won block is live, and one that nobody had; the seat holds
    /// its name and its words whole, each word is 0, and it is the last of the blocks that the seat
    /// drew.
    ///
    /// The claim walks the chain from the seat's position and makes one compare-and-exchange at
    /// each place. Where it loses, the other block's header tells the next place. `Full` comes
    /// where the walk comes to a place `at + 1` with `at + 1 + len` past the capacity, for every
    /// `len`; the seat then has that position, and nothing else of it changed.
    #[tactic(auto, unfolding(crate::specs::Views::walked, crate::specs::Views::won))]
    pub fn claim(&self, seat: &mut DirSeat, len: u64) -> Claim
        requires { seat_of seat.old ≡ id_of self.now }
        ensures same { seat_of seat.new ≡ seat_of seat.old }
        ensures rule { IfWon result (Kept (view seat.new)) }
        ensures claimed { Claimed (capacity self.now) len (view seat.old) (view seat.new) result }

        // The one step that won: a 0 became the header, and nobody had the name or a word of the
        // block.
        ensures step { OnWon result (λ name. Wins (walked name (view seat.old)) (view seat.new) name len) }

        // It walks only while the block fits, and each place that it walks to is one of the chain.
        ensures stays { capacity self.now < (view seat.old).position + len → view seat.new ≡ view seat.old }
        ensures walk { (view seat.new ≡ view seat.old) ⊎ Kept (view seat.new) }
    {
        if len <= self.cap {
            let last = self.cap - len;
            while seat.position <= last {
                let at = seat.position;
                if self.attempt(seat, len) {
                    return Claim::Won(at);
                }
            }
        }
        Claim::Full {
            at: seat.position - 1,
        }
    }

    /// Ends a block of which the seat holds the name and each word whole. Its header becomes freed,
    /// and the seat holds nothing of it any more. Freed words are not claimed again.
    pub fn release(&self, seat: &mut DirSeat, block: u64)
        requires same { seat_of seat.old ≡ id_of self.now }
        requires held { (n : ℕ) × IsWhole (view seat.old) block n }
        ensures same { seat_of seat.new ≡ seat_of seat.old }
        ensures rule { Kept (view seat.new) }
        ensures released { (n : ℕ) → IsWhole (view seat.old) block n
            → view seat.new ≡ released block n (view seat.old) }
        ensures step { (n : ℕ) → IsWhole (view seat.old) block n
            → AtomicStep (view seat.old) (view seat.new) block (2 * n + 2) (2 * n + 3) }
    {
        self.table
            .shared
            .fetch_add::<Frees>(&mut seat.seat, block as usize, 1);
    }

    /// The word `index` of the block, counted from 0, of which the seat holds a share: what was
    /// last written there, or 0.
    pub fn read(&self, seat: &mut DirSeat, block: u64, index: u64) -> u64
        requires same { seat_of seat.old ≡ id_of self.now }
        requires held { HasWord (view seat.old) block index }
        ensures same { seat_of seat.new ≡ seat_of seat.old }
        ensures rule { Kept (view seat.new) }
        ensures view { view seat.new ≡ view seat.old }
        ensures value { result ≡ (cell_of (block + 1 + index) (view seat.old)).value }
        ensures step { AtomicStep (view seat.old) (view seat.new) (block + 1 + index) result result }
    {
        let place = block + 1 + index;
        self.table
            .shared
            .load::<Reads>(&mut seat.seat, place as usize)
    }

    /// Writes the word `index` of the block, counted from 0, which the seat holds whole.
    pub fn write(&self, seat: &mut DirSeat, block: u64, index: u64, value: u64)
        requires same { seat_of seat.old ≡ id_of self.now }
        requires held { OwnsWord (view seat.old) block index }
        ensures same { seat_of seat.new ≡ seat_of seat.old }
        ensures rule { Kept (view seat.new) }
        ensures written { view seat.new ≡ written (block + 1 + index) value (view seat.old) }
        ensures step { AtomicStep (view seat.old) (view seat.new) (block + 1 + index)
            (cell_of (block + 1 + index) (view seat.old)).value value }
    {
        let place = block + 1 + index;
        self.table
            .shared
            .store::<Writes>(&mut seat.seat, place as usize, value);
    }
}
