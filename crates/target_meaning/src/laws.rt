//! Laws of the machine and of what its leaves hold. Each function does nothing; its contract is the law.

ghost use Rattle.std.specs.Prelude.{◌≡◌, ◌↔◌, ◌≤◌, ◌⊎◌, List, ℕ};
ghost use Rattle.target_code.specs.declared.tree.Proc.{Proc};
ghost use Rattle.target_meaning.specs.Held.{AllFine, Fine, Take, all_given, all_kept, holdings, total};
ghost use Rattle.target_meaning.specs.Leaf.{Act, Child};
ghost use Rattle.target_meaning.specs.LeftFirst.{left_first, left_schedule};
ghost use Rattle.target_meaning.specs.Local.{next};
ghost use Rattle.target_meaning.specs.Machine.{Heap, IsSized, Live, Moved, Notes, Room, Tree, any_room, has_room, move, nothing};
ghost use Rattle.target_meaning.specs.Piece.{AreCompatible, AreDisjoint, Covers, Holds, IsAllWhole, IsPiece, IsWhole, Nil, Piece, none, plus};
ghost use Rattle.target_meaning.specs.Runs.{IsNoStuck, IsShallow, OnMoved, Race, Schedule, bare, bare_answer, reach};
ghost use Rattle.target_meaning.specs.Unowned.{IsStuckBy, IsUnowned};

use crate::path::Side;

/// The union of pieces is commutative and associative, with the empty piece as its unit.
pub fn unions()
    ensures commutes { (p q : Piece) → plus p q ≡ plus q p }
    ensures associates { (p q r : Piece) → plus (plus p q) r ≡ plus p (plus q r) }
    ensures unit { (p : Piece) → plus p none ≡ p }
{}

/// Two pieces are compatible exactly where their union is a piece; pieces all of whose shares are whole are so
/// exactly where they are disjoint; two that both hold one place whole are not.
pub fn compatible_pieces()
    ensures union { (p q : Piece) → IsPiece p → IsPiece q → AreCompatible p q → IsPiece (plus p q) }
    ensures compatible { (p q : Piece) → IsPiece (plus p q) → AreCompatible p q }
    ensures disjoint { (p q : Piece) → IsAllWhole p → IsAllWhole q → AreCompatible p q → AreDisjoint p q }
    ensures apart { (p q : Piece) → IsPiece p → IsPiece q → AreDisjoint p q → AreCompatible p q }
    ensures whole { (p q : Piece) (b j : ℕ) → IsWhole (p b j) → IsWhole (q b j) → AreCompatible p q → ⊥ }
{}

/// A heap that has a union has both of its parts.
pub fn parts_of_unions()
    ensures left { (p q : Piece) (h : Heap) → Holds (plus p q) h → Holds p h }
    ensures right { (p q : Piece) (h : Heap) → Holds (plus p q) h → Holds q h }
{}

/// What is taken and what is left make up what was held, for any list of parts and at a fork.
pub fn takings()
    ensures parts { (ts : List Take) (p : Piece) → plus (all_given ts p) (all_kept ts p) ≡ p }
    ensures fork { (p : Piece) (l r : Child) → plus (holdings.kept p l r)
        (plus (holdings.left p l r) (holdings.right p l r)) ≡ p }
{}

/// Notes on a tree, and what becomes of them.
pub trait Noted {
    ghost notes: { Notes Self };
}

/// Notes on a tree do not matter for the machine: a step, a run, the depth of its forks and its races are those of the
/// tree without them, and so are the left-first run and its schedule.
pub fn notes_do_not_matter<A: Noted>()
    ensures step { (room : Room) (T : List Proc) (t : Tree A) (h : Heap) (path : List Side) (x : ℕ) →
        bare_answer (move A.notes room T t h path x) ≡ move nothing room T (bare t) h path x }
    ensures run { (room : Room) (T : List Proc) (es : Schedule) (t : Tree A) (h : Heap) →
        bare_answer (reach A.notes room T es t h) ≡ reach nothing room T es (bare t) h }
    ensures depth { (room : Room) (T : List Proc) (es : Schedule) (t : Tree A) (h : Heap) →
        IsShallow A.notes room T es t h ↔ IsShallow nothing room T es (bare t) h }
    ensures race { (T : List Proc) (h : Heap) (t : Tree A) → Race T h t ↔ Race T h (bare t) }
    ensures left { (T : List Proc) (n : ℕ) (names : List ℕ) (t : Tree A) (h : Heap) →
        bare_answer (left_first A.notes T n names t h) ≡ left_first nothing T n names (bare t) h }
    ensures schedule { (T : List Proc) (n : ℕ) (names : List ℕ) (t : Tree A) (h : Heap) →
        left_schedule A.notes T n names t h ≡ left_schedule nothing T n names (bare t) h }
{}

/// A left-first run, with any notes, is the run of its schedule with the capacity not tested; and where what a run
/// claims fits the capacity, it is the same with the capacity tested.
pub fn left_first_runs<A: Noted>()
    ensures schedule { (T : List Proc) (n : ℕ) (names : List ℕ) (t : Tree A) (h : Heap) →
        left_first A.notes T n names t h ≡
        reach A.notes any_room T (left_schedule A.notes T n names t h) t h }
    ensures tested { (T : List Proc) (es : Schedule) (t : Tree A) (h : Heap) →
        OnMoved (reach A.notes any_room T es t h)
        (λ u k. k.claimed ≤ k.cap → reach A.notes has_room T es t h ≡ Moved u k) }
{}

/// Where each leaf is fine, a step keeps what the tree and any frame hold, and the heap lawful.
///
/// An `alloc` that may be made has to be shorter than the capacity. It is where the capacity is tested, and not where it
/// is not: for runs with the capacity not tested go through `left_first_runs`, clause `tested`, which wants the claims
/// to fit.
pub fn steps_keep()
    ensures step { (room : Room) → IsSized room →
        (T : List Proc) (f : ℕ) (t : Tree Piece) (q : Piece) (h : Heap) (path : List Side) (x : ℕ) →
        AllFine T f t → Holds (plus (total t) q) h →
        OnMoved (move holdings room T t h path x) (λ u g. Holds (plus (total u) q) g) }
    ensures sized { IsSized has_room }
    ensures not_sized { IsSized any_room → ⊥ }
{}

/// Where each leaf is fine and all that is live is held whole by the tree and a frame, it is so after a step; and then
/// a block of which nothing is held is not live.
pub fn live_is_held()
    ensures step { (room : Room) (T : List Proc) (f : ℕ) (t : Tree Piece) (q : Piece) (h : Heap)
        (path : List Side) (x : ℕ) → AllFine T f t → Holds (plus (total t) q) h →
        Covers (plus (total t) q) h → OnMoved (move holdings room T t h path x)
        (λ u g. Covers (plus (total u) q) g) }
    ensures dead { (p : Piece) (h : Heap) (b : ℕ) (ws : List ℕ) → Covers p h → p b 0 ≡ Nil → h.cells b ≡
        Live ws → ⊥ }
{}

/// Where each leaf is fine, the tree after a step is told by the tree before it, the path and the name: the rest of
/// the heap has no part in it.
pub fn steps_are_local()
    ensures { (room : Room) (T : List Proc) (f : ℕ) (t : Tree Piece) (h : Heap) (path : List Side) (x : ℕ) →
        AllFine T f t → Holds (total t) h →
        OnMoved (move holdings room T t h path x) (λ u g. u ≡ next T t path x) }
{}

/// Leaves that are fine are not stuck.
pub fn fine_is_not_stuck()
    ensures { (room : Room) (T : List Proc) (f : ℕ) (t : Tree Piece) (h : Heap) (path : List Side) (x : ℕ) →
        AllFine T f t → Holds (total t) h → IsNoStuck (move holdings room T t h path x) }
{}

/// Leaves that are fine have no data race.
pub fn fine_is_calm()
    ensures { (T : List Proc) (f : ℕ) (t : Tree Piece) (h : Heap) → AllFine T f t → Holds (total t) h →
        Race T h t → ⊥ }
{}

/// A leaf is fine exactly where it is neither stuck by what it holds nor in one of the five cases of unowned.
pub fn fine_or_unowned()
    ensures owned { (f : ℕ) (a : Act) (p : Piece) → Fine f a p → IsUnowned f a p → ⊥ }
    ensures free { (f : ℕ) (a : Act) (p : Piece) (h : Heap) → Holds p h → Fine f a p → IsStuckBy a p → ⊥ }
    ensures otherwise { (f : ℕ) (a : Act) (p : Piece) → Fine f a p ⊎ (IsStuckBy a p ⊎ IsUnowned f a p) }
{}
