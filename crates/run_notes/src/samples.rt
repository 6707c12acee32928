//! The definitions of the machine on small programs. Each function does nothing; its contract is what is seen.

ghost use Rattle.std.specs.Prelude.{◌≡◌, ◌<◌, ◌+◌, List, [], ◌∷◌, ℕ, suc, true, false, slice_index};
ghost use Rattle.target_code.specs.declared.tree.Code.{Code};
ghost use Rattle.target_code.specs.declared.tree.Proc.{Proc};
ghost use Rattle.target_meaning.specs.Held.{Fine, holdings};
ghost use Rattle.target_meaning.specs.Leaf as leaf;
ghost use Rattle.target_meaning.specs.Leaf.{Caller, Child, End, Item, Part, Stack, Wait, act};
ghost use Rattle.target_meaning.specs.LeftFirst.{has_ended};
ghost use Rattle.target_meaning.specs.Lines.{lines_all, lines_of};
ghost use Rattle.target_meaning.specs.Machine.{Full, Heap, Leaf, Moved, counts, has_room, no_blocks, nothing, perform};
ghost use Rattle.target_meaning.specs.Piece.{Piece, none};
ghost use Rattle.target_meaning.specs.Runs.{AtLeaf, HasMoved, Race, reach};
ghost use Rattle.target_meaning.specs.Samples.{at_root, claiming, counting, lending, lines_along, one_each, one_left, racing, reading, reading_heap, spoiling, start};
ghost use Rattle.target_meaning.specs.States.{MachineState, step_of};
ghost use Rattle.target_meaning.specs.Unowned.{HasPlace, IsLeast, IsUnowned};
ghost use Rattle.target_meaning.specs.declared.path.Side.{Side};

use target_code::Instr;
use target_meaning::{Side, StepAnswer};

/// The program that reads the first element of an array gives 7 on `[7, 8]`, in 6 steps.
pub fn reading_gives_7()
    ensures { reach counts has_room reading (at_root 6) (Leaf 0 (start reading (1 ∷ 0 ∷ 2 ∷ []))) reading_heap
        ≡ Moved (Leaf 6 (End (7 ∷ []))) reading_heap }
{}

/// The program whose branches both write to one block has a data race after its fifth step, and its left leaf, which
/// holds nothing, is unowned there.
pub fn racing_has_a_race()
    ensures race { HasMoved (reach nothing has_room racing one_each (Leaf tt (start racing []))
        (no_blocks 16)) (λ t h. Race racing h t) }
    ensures unowned { HasMoved (reach holdings has_room racing one_each (Leaf none (start racing []))
        (no_blocks 16)) (λ t h. AtLeaf t (Side.Left ∷ []) (λ p s. IsUnowned 1 (act racing s) p)) }
{}

/// In the program that lends a block to two readers the left one is fine where it is next to read; in that with a writer
/// in its place the writer is unowned.
pub fn lending_is_fine()
    ensures reader { HasMoved (reach holdings has_room lending one_left (Leaf none (start lending []))
        (no_blocks 16)) (λ t h. AtLeaf t (Side.Left ∷ []) (λ p s. Fine 1 (act lending s) p)) }
    ensures writer { HasMoved (reach holdings has_room spoiling one_left (Leaf none (start spoiling []))
        (no_blocks 16)) (λ t h. AtLeaf t (Side.Left ∷ []) (λ p s. IsUnowned 1 (act spoiling s) p)) }
{}

/// A leaf that lends half of a share of 1 is unowned.
pub fn least_share_is_not_lent()
    ensures { (f j : ℕ) (p : Piece) (s : Stack) (part : Part) (parts : List Part) (r : Child) (w : Wait) →
        f < 64 → HasPlace part p j → IsLeast (p part.block j) →
        IsUnowned f (leaf.Split (record { stack = s; hands = []; lends = part ∷ parts }) r w) p }
{}

/// An `alloc` that does not fit makes the machine full; a full machine answers `Full` and stays as it is, and so does an
/// ended root with `Ended`. A block of 7 words fits 8 words, and not 7.
///
/// A schedule that goes on after a step that made the machine full reaches `Full` too, however long it is: which step it
/// was is told by the prefixes of the schedule.
pub fn full_for_ever()
    ensures full { (h : Heap) (n x : ℕ) (k : ℕ → Stack) → h.cap < h.claimed + n + 1 →
        perform nothing has_room tt (leaf.Make n k) h x ≡ Full }
    ensures stays { (T : List Proc) (s : MachineState) (path : List Side) (x : ℕ) → s.full ≡ true →
        step_of T s path x ≡ (StepAnswer.Full, s) }
    ensures ended { (T : List Proc) (s : MachineState) (path : List Side) (x : ℕ) → s.full ≡ false →
        has_ended s.tree ≡ true → step_of T s path x ≡ (StepAnswer.Ended, s) }
    ensures too_small { reach nothing has_room claiming (at_root 2) (Leaf tt (start claiming []))
        (no_blocks 7) ≡ Full }
    ensures just_enough { HasMoved (reach nothing has_room claiming (at_root 2) (Leaf tt (start claiming []))
        (no_blocks 8)) (λ t h. h.claimed ≡ 8) }
{}

/// A loop whose test is false at once takes two steps: it is entered, and its test leaves it.
pub fn loop_in_two_steps()
    ensures { (T : List Proc) (h : Heap) (n line t x y : ℕ) (proc : Proc) (body : Code) (items : List Item)
        (regs : List ℕ) (cs : List Caller) → slice_index regs t ≡ 0 →
        reach counts has_room T (([], x) ∷ ([], y) ∷ [])
        (Leaf n (leaf.Run (record {
          proc = proc;
          items = leaf.Do line
              (Instr.While (record { list = [] }) t body) ∷ items;
          regs = regs;
        }) cs)) h ≡
        Moved (Leaf (suc (suc n)) (leaf.Run (record { proc = proc; items = items; regs = regs }) cs)) h }
{}

/// An `if` takes the lines of both its codes and three more, for `if`, `else` and `end`; a loop likewise, for `while`,
/// `do` and `end`.
pub fn lines_of_blocks()
    ensures choice { (t : ℕ) (c d : Code) → lines_of (Instr.If t c d) ≡
        3 + (lines_all c.list + lines_all d.list) }
    ensures repeat { (t : ℕ) (c d : Code) → lines_of (Instr.While c t d) ≡
        3 + (lines_all c.list + lines_all d.list) }
{}

/// The lines of a run of a loop: its `while`, its condition, its `do`, its body, the condition again with no step between
/// them, its `do`, and the procedure's `ret`.
pub fn lines_of_a_loop()
    ensures { lines_along counting 8 (start counting (1 ∷ [])) ≡ 1 ∷ 2 ∷ 3 ∷ 4 ∷ 5 ∷ 2 ∷ 3 ∷ 7 ∷ [] }
{}
