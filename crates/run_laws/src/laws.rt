//! The laws. Each function does nothing; its contract is the law.

ghost use Rattle.std.specs.Prelude.{List, [], ◌∷◌, ℕ};
ghost use Rattle.target_code.specs.declared.tree.Proc.{Proc};
ghost use Rattle.target_meaning.specs.Held.{holdings, total};
ghost use Rattle.target_meaning.specs.Leaf.{Stack};
ghost use Rattle.target_meaning.specs.Machine.{Heap, IsSized, Leaf, Room, Tree, nothing};
ghost use Rattle.target_meaning.specs.Piece.{AreDisjoint, Holds, Piece, plus};
ghost use Rattle.target_meaning.specs.Runs.{Race, Schedule, bare};
ghost use Rattle.run_laws.specs.Doubling.{BothHave, doubling, items};
ghost use Rattle.run_laws.specs.InPart.{GivesBack, IsInPart, whole_of};
ghost use Rattle.run_laws.specs.OwnedRuns.{Along, IsCalm, IsOwned};
ghost use Rattle.run_laws.specs.Readers.{Given, ReadersAreCalm, ReadersLaw, spoiling, spoiling_start};
ghost use Rattle.run_laws.specs.RunLaws.{ByLaws};
ghost use Rattle.triple_logic.specs.Bounded.{Bounded};
ghost use Rattle.triple_logic.specs.Laws.{CodeBounded, CodeSafe};
ghost use Rattle.triple_logic.specs.Safe.{Halt, Safe, at_end};

use triple_logic::laws::Post;

/// A run in which no leaf is ever stuck or unowned has no data race: where the heap has what is held at first, then in each
/// state along the run of any schedule it does so, each leaf is fine and there is no race; nor is there one along the run
/// of the machine, which knows no pieces. Nothing is asked of the program beside.
pub fn owned_runs_are_calm()
    ensures held { (room : Room) → IsSized room → (T : List Proc) (es : Schedule) (t : Tree Piece) (h : Heap) →
        Holds (total t) h → Along holdings room T (IsOwned room T) es t h → Along holdings room T (IsCalm T) es t h }
    ensures machine { (room : Room) → IsSized room → (T : List Proc) (es : Schedule) (t : Tree Piece) (h : Heap) →
        Holds (total t) h → Along holdings room T (IsOwned room T) es t h →
        Along nothing room T (λ u g. Race T g u → ⊥) es (bare t) h }
{}

/// What a leaf holds with less than the whole share it may read, and it never stores to it or frees it: where it is safe
/// with such a piece p, beside any k that has none of its places, it gives p back as it was; and it is safe as well where
/// more of p is held, up to the whole, and gives all of that back as it was; and so with its bounds.
pub fn held_in_part<A: Post>()
    ensures back { (a : A) (T : List Proc) (halt : Halt) (n f : ℕ) (p k : Piece) (s : Stack) → IsInPart p → AreDisjoint p k →
        Safe T halt (A.meets a) n f (Leaf (plus p k) s) →
        Safe T halt (GivesBack (A.meets a) p p) n f (Leaf (plus p k) s) }
    ensures more { (a : A) (T : List Proc) (halt : Halt) (n f : ℕ) (p r k : Piece) (s : Stack) → IsInPart p → AreDisjoint p k →
        Safe T halt (A.meets a) n f (Leaf (plus p k) s) →
        Safe T halt (GivesBack (A.meets a) p (plus p r)) n f (Leaf (plus (plus p r) k) s) }
    ensures whole { (a : A) (T : List Proc) (halt : Halt) (n f : ℕ) (p k : Piece) (s : Stack) → IsInPart p → AreDisjoint p k →
        Safe T halt (A.meets a) n f (Leaf (plus p k) s) →
        Safe T halt (GivesBack (A.meets a) p (whole_of p)) n f (Leaf (plus (whole_of p) k) s) }
    ensures bounded_back { (a : A) (T : List Proc) (halt : Halt) (n f : ℕ) (p k : Piece) (s : Stack) → IsInPart p →
        AreDisjoint p k → Bounded T halt (A.meets a) n f (Leaf (plus p k) s) →
        Bounded T halt (GivesBack (A.meets a) p p) n f (Leaf (plus p k) s) }
    ensures bounded_more { (a : A) (T : List Proc) (halt : Halt) (n f : ℕ) (p r k : Piece) (s : Stack) → IsInPart p →
        AreDisjoint p k → Bounded T halt (A.meets a) n f (Leaf (plus p k) s) →
        Bounded T halt (GivesBack (A.meets a) p (plus p r)) n f (Leaf (plus (plus p r) k) s) }
    ensures bounded_whole { (a : A) (T : List Proc) (halt : Halt) (n f : ℕ) (p k : Piece) (s : Stack) → IsInPart p →
        AreDisjoint p k → Bounded T halt (A.meets a) n f (Leaf (plus p k) s) →
        Bounded T halt (GivesBack (A.meets a) p (whole_of p)) n f (Leaf (plus (whole_of p) k) s) }
{}

/// A leaf whose run is proved from the laws of runs alone.
pub trait Proved {
    ghost by_laws: { Self → ByLaws };
}

/// What is proved from the laws of runs alone is so of each way of running that has them: such a leaf is safe for every
/// number of steps, and all its runs end after that many steps.
pub fn proved_once<R: Proved>()
    ensures safe { (x : R) (n : ℕ) → Safe (R.by_laws x).procs (R.by_laws x).halt (R.by_laws x).meets n (R.by_laws x).forks
        (Leaf (R.by_laws x).held (R.by_laws x).start) }
    ensures bounded { (x : R) → Bounded (R.by_laws x).procs (R.by_laws x).halt (R.by_laws x).meets (R.by_laws x).steps
        (R.by_laws x).forks (Leaf (R.by_laws x).held (R.by_laws x).start) }
{}

/// One proof by the laws of runs serves both: code that copies a register, with any piece, is safe for
/// every number of steps, and it is over after one.
pub fn doubling()
    ensures safe { (T : List Proc) (n f x : ℕ) (p : Piece) → CodeSafe T doubling (BothHave x p) n f items (x ∷ 0 ∷ []) p }
    ensures bounded { (T : List Proc) (f x : ℕ) (p : Piece) → CodeBounded T doubling (BothHave x p) 1 f items (x ∷ 0 ∷ []) p }
{}

/// Two branches that get an element each of one array, which is lent to both: the program is safe for every number of
/// steps, gives both elements and holds the array as before; and no schedule of the machine, from any heap that has the
/// array, reaches a data race. With a writer in place of the left reader it is not safe for 3 steps, whatever its end.
pub fn two_readers<A: Post>()
    ensures safe { ReadersLaw }
    ensures calm { ReadersAreCalm }
    ensures spoiled { (a : A) (xs : List ℕ) (b off i j : ℕ) (p : Piece) (h : Heap) → Given xs b off i j p → Holds p h →
        Safe spoiling at_end (A.meets a) 3 0 (Leaf p (spoiling_start xs b off i j)) → ⊥ }
{}
