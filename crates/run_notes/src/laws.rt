//! Laws of runs. Each function does nothing; its contract is the law.

ghost use Rattle.std.specs.Prelude.{◌≡◌, ◌++◌, List, ℕ, true};
ghost use Rattle.target_code.specs.declared.tree.Proc.{Proc};
ghost use Rattle.target_meaning.specs.Held.{AllFine, holdings, total};
ghost use Rattle.target_meaning.specs.LeftFirst.{left_first};
ghost use Rattle.target_meaning.specs.Local.{next};
ghost use Rattle.target_meaning.specs.Machine.{Full, Heap, IsSized, Room, Tree, is_new, move};
ghost use Rattle.target_meaning.specs.Piece.{Holds, IsHeap, Piece};
ghost use Rattle.target_meaning.specs.Runs.{OnMoved, Schedule, reach};
ghost use Rattle.target_meaning.specs.Samples.{reading_heap};
ghost use Rattle.run_notes.specs.Maps.{IsMap, answer_map, tree_map};
ghost use Rattle.run_notes.specs.Steps.{CanStep, IsMade, name_past};
ghost use Rattle.target_meaning.specs.declared.path.Side.{Side};

use target_meaning::laws::Noted;

/// A map of notes takes a run to a run, of any schedule and left first.
pub fn notes_go_by_maps<A: Noted, B: Noted>()
    ensures run { (f : A → B) → IsMap A.notes B.notes f → (room : Room) (T : List Proc) (es : Schedule)
        (t : Tree A) (h : Heap) →
        answer_map f (reach A.notes room T es t h) ≡ reach B.notes room T es (tree_map f t) h }
    ensures left { (f : A → B) → IsMap A.notes B.notes f → (T : List Proc) (n : ℕ) (names : List ℕ)
        (t : Tree A) (h : Heap) →
        answer_map f (left_first A.notes T n names t h) ≡ left_first B.notes T n names (tree_map f t) h }
{}

/// Where each leaf is fine, a leaf that has not ended makes its step where it is given a name that is new, and so does a
/// fork whose children have both ended: it leads to the tree that the tree before it, the path and the name tell, or an
/// `alloc` does not fit.
pub fn fine_leaves_step()
    ensures { (room : Room) (T : List Proc) (f : ℕ) (t : Tree Piece) (h : Heap) (path : List Side) (x : ℕ) →
        AllFine T f t → Holds (total t) h → CanStep t path → is_new h x ≡ true →
        IsMade (next T t path x) (move holdings room T t h path x) }
{}

/// A schedule that reaches `Full` does so however it goes on.
pub fn full_is_kept<A: Noted>()
    ensures { (room : Room) (T : List Proc) (es fs : Schedule) (t : Tree A) (h : Heap) →
        reach A.notes room T es t h ≡ Full → reach A.notes room T (es ++ fs) t h ≡ Full }
{}

/// Each step from a lawful heap leads to one, whatever its leaf holds, where an `alloc` that may be made is shorter than
/// the capacity.
pub fn heaps_stay_lawful<A: Noted>()
    ensures { (room : Room) → IsSized room →
        (T : List Proc) (t : Tree A) (h : Heap) (path : List Side) (x : ℕ) → IsHeap h →
        OnMoved (move A.notes room T t h path x) (λ u g. IsHeap g) }
{}

/// The heap of the sample that reads an array is lawful; a heap with a live name past its capacity is not.
pub fn lawful_heaps_seen()
    ensures lawful { IsHeap reading_heap }
    ensures past { IsHeap name_past → ⊥ }
{}
