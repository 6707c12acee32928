//! The laws of safety and of bounded runs. Each function does nothing; its contract is the law.

ghost use Rattle.std.specs.Prelude.{◌≡◌, ◌+◌, ◌-◌, ◌*◌, ◌^◌, ◌<◌, ◌≤◌, ◌++◌, false, drop, take, List, [], ◌∷◌, ℕ, None, Some, length, replicate, slice_index, slice_set, suc};
ghost use Rattle.target_code.specs.declared.tree.Instr.{Instr, out-Instr};
ghost use Rattle.target_code.specs.declared.tree.Instr.TheOpen as instr;
ghost use Rattle.target_code.specs.declared.tree.Proc.{Proc};
ghost use Rattle.target_meaning.specs.Held.{AllWhole, AreApart, CanHalve, IsHeld, Fine, Take, all_given, all_kept, holdings, left_takes, right_takes, stored, total, with_new, without, CanTake};
ghost use Rattle.target_meaning.specs.Leaf as leaf;
ghost use Rattle.target_meaning.specs.Leaf.{Caller, Child, Item, Stack, Wait, act, at_zero, begin, do_all, find, joined, put_all, read_all};
ghost use Rattle.target_meaning.specs.Lines.{second_line};
ghost use Rattle.target_meaning.specs.Machine.{Heap, IsSized, Leaf, Room, Tree, nothing};
ghost use Rattle.target_meaning.specs.Piece.{Covers, Holds, Share, half, none, rest, IsWhole, Nil, Piece, Some_of, plus, whole};
ghost use Rattle.target_meaning.specs.Runs.{AtLeaf, IsShallow, OnMoved, Race, Schedule, reach};
ghost use Rattle.target_meaning.specs.Unowned.{IsStuckBy, IsUnowned, SomeUnowned};
ghost use Rattle.triple_logic.specs.Blocks.{Apart, block, name_of, range};
ghost use Rattle.triple_logic.specs.Bounded.{Bounded, while_bound};
ghost use Rattle.triple_logic.specs.Claims.{cost};
ghost use Rattle.triple_logic.specs.Copy.{CopyLaw};
ghost use Rattle.triple_logic.specs.Laws.{Beside, CallBounded, CallSafe, CodeBounded, CodeSafe, Less, at_code};
ghost use Rattle.triple_logic.specs.Pair.{CalmLaw, PairLaw};
ghost use Rattle.triple_logic.specs.Parts.{IsShared, AreNamed, AtLeast, CanGive, back, front, gifts_of, lefts_of, pieces_of, takes_of};
ghost use Rattle.triple_logic.specs.Reached.{Good, IsReached};
ghost use Rattle.triple_logic.specs.Safe.{Halt, Safe, at_code_end, at_end};
ghost use Rattle.triple_logic.specs.Sample.{GetLaw, IsSlice, SetLaw, array_set, claimer};
ghost use Rattle.triple_logic.specs.Text.{Text, code};
ghost use Rattle.triple_logic.specs.Weakest as outcome;
ghost use Rattle.triple_logic.specs.Weakest.{Does, Left, Proves};

/// What an end must meet.
pub trait Post {
    ghost meets: { Self → List ℕ → Piece → Type 0 };
}

/// What is safe for a number of steps is safe for fewer.
pub fn fewer_steps<A: Post>()
    ensures { (a : A) (T : List Proc) (halt : Halt) (n m f : ℕ) (t : Tree Piece) → m ≤ n →
        Safe T halt (A.meets a) n f t → Safe T halt (A.meets a) m f t }
{}

/// What is safe with an end is safe with a weaker one, which may rest on a heap that has what is then held.
pub fn weaker_end<A: Post, B: Post>()
    ensures { (a : A) (b : B) (T : List Proc) (halt : Halt) (n f : ℕ) (t : Tree Piece) →
        ((vs : List ℕ) (p : Piece) (h : Heap) → Holds p h → A.meets a vs p → B.meets b vs p) →
        Safe T halt (A.meets a) n f t → Safe T halt (B.meets b) n f t }
{}

/// What is safe on a piece is safe on that piece beside any other, which it gives back as it was.
pub fn frame<A: Post>()
    ensures { (a : A) (T : List Proc) (halt : Halt) (n f : ℕ) (p q : Piece) (s : Stack) →
        Safe T halt (A.meets a) n f (Leaf p s) → Safe T halt (Beside (A.meets a) q) n f (Leaf (plus p q) s) }
{}

/// One rule for each kind of instruction, by what the leaf does next: a step on registers and frames, a load of a word of
/// which some share is held, a store to a word that is held whole, an `alloc`, a `free` of a block that is held whole; and
/// a root that is over. What follows from a heap that has what is held may be assumed.
pub fn instructions<A: Post>()
    ensures registers { (a : A) (T : List Proc) (halt : Halt) (n f : ℕ) (p : Piece) (s u : Stack) →
        halt s ≡ None → act T s ≡ leaf.Go u →
        Safe T halt (A.meets a) n f (Leaf p u) → Safe T halt (A.meets a) (suc n) f (Leaf p s) }
    ensures load { (a : A) (T : List Proc) (halt : Halt) (n f : ℕ) (p : Piece) (s : Stack) (b i v l : ℕ) (k : ℕ → Stack) →
        halt s ≡ None → act T s ≡ leaf.Read b i k → p b (suc i) ≡ Some_of v l →
        Safe T halt (A.meets a) n f (Leaf p (k v)) → Safe T halt (A.meets a) (suc n) f (Leaf p s) }
    ensures store { (a : A) (T : List Proc) (halt : Halt) (n f : ℕ) (p : Piece) (s : Stack) (b i v : ℕ) (u : Stack) →
        halt s ≡ None → act T s ≡ leaf.Write b i v u → IsWhole (p b (suc i)) →
        Safe T halt (A.meets a) n f (Leaf (stored p b i v) u) → Safe T halt (A.meets a) (suc n) f (Leaf p s) }
    ensures claim { (a : A) (T : List Proc) (halt : Halt) (n f : ℕ) (p : Piece) (s : Stack) (len : ℕ) (k : ℕ → Stack) →
        halt s ≡ None → act T s ≡ leaf.Make len k →
        ((x : ℕ) → ((j : ℕ) → p x j ≡ Nil) → Safe T halt (A.meets a) n f (Leaf (with_new p x len) (k x))) →
        Safe T halt (A.meets a) (suc n) f (Leaf p s) }
    ensures release { (a : A) (T : List Proc) (halt : Halt) (n f : ℕ) (p : Piece) (s : Stack) (b : ℕ) (u : Stack) →
        halt s ≡ None → act T s ≡ leaf.Cut b u → AllWhole (p b 0) (p b) →
        Safe T halt (A.meets a) n f (Leaf (without p b) u) → Safe T halt (A.meets a) (suc n) f (Leaf p s) }
    ensures over { (a : A) (T : List Proc) (halt : Halt) (n f : ℕ) (p : Piece) (s : Stack) (vs : List ℕ) →
        halt s ≡ Some vs → A.meets a vs p → Safe T halt (A.meets a) n f (Leaf p s) }
    ensures heap { (a : A) (T : List Proc) (halt : Halt) (n f : ℕ) (p : Piece) (s : Stack) →
        ((h : Heap) → Holds p h → Safe T halt (A.meets a) n f (Leaf p s)) → Safe T halt (A.meets a) n f (Leaf p s) }
{}

/// A stretch of code, and what follows it: more code, or code up to the end of the procedure.
pub fn sequence<A: Post, B: Post>()
    ensures code { (a : A) (b : B) (T : List Proc) (proc : Proc) (n f : ℕ) (first second : List Item) (regs : List ℕ) (p : Piece) →
        CodeSafe T proc (A.meets a) n f first regs p →
        ((m : ℕ) → m ≤ n → (vs : List ℕ) (q : Piece) → A.meets a vs q → CodeSafe T proc (B.meets b) m f second vs q) →
        CodeSafe T proc (B.meets b) n f (first ++ second) regs p }
    ensures end { (a : A) (b : B) (T : List Proc) (proc : Proc) (n f : ℕ) (first second : List Item) (regs : List ℕ) (p : Piece) →
        CodeSafe T proc (A.meets a) n f first regs p →
        ((m : ℕ) → m ≤ n → (vs : List ℕ) (q : Piece) → A.meets a vs q →
        Safe T at_end (B.meets b) m f (Leaf q (at_code proc second vs))) →
        Safe T at_end (B.meets b) n f (Leaf p (at_code proc (first ++ second) regs)) }
{}

/// An `if` is safe where each of its codes is, as far as the test lets it run.
pub fn choice<A: Post>()
    ensures { (a : A) (T : List Proc) (proc : Proc) (n f line : ℕ) (i : Instr) (t : ℕ) (x y : List Instr) (regs : List ℕ) (p : Piece) →
        out-Instr i ≡ instr.If t (record { list = x }) (record { list = y }) →
        ((slice_index regs t ≡ 0 → ⊥) → CodeSafe T proc (A.meets a) n f (do_all (suc line) x) regs p) →
        (slice_index regs t ≡ 0 → CodeSafe T proc (A.meets a) n f (do_all (second_line line x) y) regs p) →
        CodeSafe T proc (A.meets a) n f (leaf.Do line i ∷ []) regs p }
{}

/// A `while` is safe by an invariant: the first holds before each run of the condition's code, the second after it.
pub fn repetition<I: Post, C: Post, A: Post>()
    ensures { (before : I) (after : C) (a : A) (T : List Proc) (proc : Proc) (n f line : ℕ) (i : Instr) (t : ℕ) (c b : List Instr) →
        out-Instr i ≡ instr.While (record { list = c }) t (record { list = b }) →
        ((k : ℕ) → k ≤ n → (regs : List ℕ) (p : Piece) → I.meets before regs p →
        CodeSafe T proc (C.meets after) k f (do_all (suc line) c) regs p) →
        ((k : ℕ) → k ≤ n → (regs : List ℕ) (p : Piece) → C.meets after regs p → (slice_index regs t ≡ 0 → ⊥) →
        CodeSafe T proc (I.meets before) k f (do_all (second_line line c) b) regs p) →
        ((regs : List ℕ) (p : Piece) → C.meets after regs p → slice_index regs t ≡ 0 → A.meets a regs p) →
        (regs : List ℕ) (p : Piece) → I.meets before regs p →
        CodeSafe T proc (A.meets a) n f (leaf.Do line i ∷ []) regs p }
{}

/// A call is safe where the procedure by itself is safe for one step less, and what follows it is; up to the end of the
/// leaf, and up to the end of a stretch of code.
pub fn call<A: Post, B: Post>()
    ensures end { (a : A) (b : B) → CallSafe at_end (A.meets a) (B.meets b) }
    ensures code { (a : A) (b : B) → CallSafe at_code_end (A.meets a) (B.meets b) }
{}

/// A `par` is safe where each branch is safe on what its hands and lends give it, below one fork more, and what follows
/// the join is safe on what both branches hold at their ends and what was kept.
pub fn parallel<A: Post, B: Post, C: Post>()
    ensures { (a : A) (b : B) (c : C) (T : List Proc) (halt : Halt) (n f : ℕ) (p : Piece) (s : Stack) (l r : Child) (w : Wait) →
        halt s ≡ None → act T s ≡ leaf.Split l r w → Fine f (leaf.Split l r w) p →
        (f < 64 → Safe T at_end (A.meets a) n (suc f) (Leaf (holdings.left p l r) l.stack)) →
        (f < 64 → Safe T at_end (B.meets b) n (suc f) (Leaf (holdings.right p l r) r.stack)) →
        ((m : ℕ) → m ≤ n → (xs ys : List ℕ) (q u : Piece) (h : Heap) → Holds (plus (holdings.kept p l r) (plus q u)) h →
        A.meets a xs q → B.meets b ys u →
        Safe T halt (C.meets c) m f (Leaf (plus (holdings.kept p l r) (plus q u)) (joined w xs ys))) →
        Safe T halt (C.meets c) (suc n) f (Leaf p s) }
{}

/// Hands and lends of any number that name pieces: what they give together, what they leave, and that they can be taken
/// where each piece by itself can be given.
pub fn hands_and_lends()
    ensures given { (xs : List (Take × Piece)) (r : Piece) → AreNamed xs r →
        all_given (takes_of xs) (plus (pieces_of xs) r) ≡ gifts_of xs }
    ensures kept { (xs : List (Take × Piece)) (r : Piece) → AreNamed xs r →
        all_kept (takes_of xs) (plus (pieces_of xs) r) ≡ plus (lefts_of xs) r }
    ensures taken { (xs : List (Take × Piece)) (r : Piece) → AreNamed xs r → CanGive xs →
        CanTake (takes_of xs) (plus (pieces_of xs) r) }
{}

/// A fork whose hands and lends name pieces, the right ones of what the left ones leave: what each branch gets and what is
/// kept, and that the leaf is fine there.
pub fn fork_on_pieces()
    ensures left { (xs ys : List (Take × Piece)) (r u : Piece) (l k : Child) → IsShared xs ys r u l k →
        holdings.left (plus (pieces_of xs) r) l k ≡ gifts_of xs }
    ensures right { (xs ys : List (Take × Piece)) (r u : Piece) (l k : Child) → IsShared xs ys r u l k →
        holdings.right (plus (pieces_of xs) r) l k ≡ gifts_of ys }
    ensures kept { (xs ys : List (Take × Piece)) (r u : Piece) (l k : Child) → IsShared xs ys r u l k →
        holdings.kept (plus (pieces_of xs) r) l k ≡ plus (lefts_of ys) u }
    ensures fine { (xs ys : List (Take × Piece)) (r u : Piece) (l k : Child) → IsShared xs ys r u l k → (f : ℕ) (w : Wait) →
        CanGive xs → CanGive ys → AreApart (l.hands ++ l.lends) → AreApart (k.hands ++ k.lends) →
        Fine f (leaf.Split l k w) (plus (pieces_of xs) r) }
{}

/// A share of at least 2^(64 - f) can be lent below f forks, and both halves are of at least 2^(64 - (f + 1)).
pub fn lent_shares()
    ensures halves { (m : ℕ) (x : Share) → AtLeast (2 * m) x → AtLeast m (half x) × AtLeast m (rest x) }
    ensures can_halve { (m : ℕ) (x : Share) → 0 < m → AtLeast (2 * m) x → IsHeld x → CanHalve false x }
    ensures power { (f : ℕ) → f < 64 → 2 ^ (64 - f) ≡ 2 * 2 ^ (64 - suc f) }
{}

/// A piece of an array splits at any of its words, and two that touch join; the parts make up the whole.
pub fn ranges()
    ensures whole { (b m : ℕ) (p : Piece) → plus (front b m p) (back b m p) ≡ p }
    ensures first { (xs : List ℕ) (b off k : ℕ) (p : Piece) → k ≤ length xs → IsSlice xs b off p →
        IsSlice (take k xs) b off (front b (suc (off + k)) p) }
    ensures second { (xs : List ℕ) (b off k : ℕ) (p : Piece) → k ≤ length xs → IsSlice xs b off p →
        IsSlice (drop k xs) b (off + k) (back b (suc (off + k)) p) }
    ensures joined { (xs ys : List ℕ) (b off : ℕ) (p q : Piece) → IsSlice xs b off p → IsSlice ys b (off + length xs) q →
        IsSlice (xs ++ ys) b off (plus p q) }
{}

/// Blocks that are held whole, beside any piece that has nothing of them, as all else has in a heap with both: a word is
/// read, a store replaces it, a `free` leaves the rest, and an `alloc` adds zeros. A range of words is read and stored to
/// likewise, and a block is the range of its words and its name.
pub fn blocks()
    ensures apart { (b : ℕ) (ws : List ℕ) (k : Piece) (h : Heap) → Holds (plus (block b ws) k) h → Apart b k }
    ensures word { (b : ℕ) (ws : List ℕ) (k : Piece) → Apart b k → (i : ℕ) → i < length ws →
        plus (block b ws) k b (suc i) ≡ Some_of (slice_index ws i) (whole - 1) }
    ensures store { (b : ℕ) (ws : List ℕ) (k : Piece) → Apart b k → (i v : ℕ) → i < length ws →
        stored (plus (block b ws) k) b i v ≡ plus (block b (slice_set ws i v)) k }
    ensures release { (b : ℕ) (ws : List ℕ) (k : Piece) → Apart b k → without (plus (block b ws) k) b ≡ k }
    ensures claim { (k : Piece) (x n : ℕ) → Apart x k → with_new k x n ≡ plus (block x (replicate n 0)) k }
    ensures range_word { (b off : ℕ) (xs : List ℕ) (i : ℕ) → i < length xs →
        range b off xs b (suc (off + i)) ≡ Some_of (slice_index xs i) (whole - 1) }
    ensures range_store { (b off : ℕ) (xs : List ℕ) (i v : ℕ) → i < length xs →
        stored (range b off xs) b (off + i) v ≡ range b off (slice_set xs i v) }
    ensures parts { (b : ℕ) (xs : List ℕ) → block b xs ≡ plus (range b 0 xs) (name_of b (length xs)) }
{}

/// From a tree that is safe for every number of steps, on a heap that has what it holds: in each state that a schedule
/// reaches below 64 forks each leaf is fine and none is unowned, no step is stuck, there is no data race, and the end is
/// met where the root has ended; the machine, which knows no pieces, reaches such states and has no race; and where all
/// that is live is held at first, it is so in each state, so that all that the root does not hold at its end is freed.
pub fn machine<A: Post>()
    ensures reached { (a : A) (room : Room) → IsSized room → (T : List Proc) (es : Schedule) (t : Tree Piece) (h : Heap) →
        Holds (total t) h → ((n : ℕ) → Safe T at_end (A.meets a) n 0 t) → IsShallow holdings room T es t h →
        OnMoved (reach holdings room T es t h) (Good room T (A.meets a)) }
    ensures bare { (a : A) (room : Room) → IsSized room → (T : List Proc) (es : Schedule) (p : Piece) (s : Stack) (h : Heap) →
        Holds p h → ((n : ℕ) → Safe T at_end (A.meets a) n 0 (Leaf p s)) → IsShallow nothing room T es (Leaf tt s) h →
        OnMoved (reach nothing room T es (Leaf tt s) h) (IsReached (Good room T (A.meets a))) }
    ensures calm { (a : A) (room : Room) → IsSized room → (T : List Proc) (es : Schedule) (p : Piece) (s : Stack) (h : Heap) →
        Holds p h → ((n : ℕ) → Safe T at_end (A.meets a) n 0 (Leaf p s)) → IsShallow nothing room T es (Leaf tt s) h →
        OnMoved (reach nothing room T es (Leaf tt s) h) (λ u g. Race T g u → ⊥) }
    ensures bare_live { (a : A) (room : Room) → IsSized room → (T : List Proc) (es : Schedule) (p : Piece) (s : Stack) (h : Heap) →
        Holds p h → Covers p h → ((n : ℕ) → Safe T at_end (A.meets a) n 0 (Leaf p s)) →
        IsShallow nothing room T es (Leaf tt s) h →
        OnMoved (reach nothing room T es (Leaf tt s) h)
        (IsReached (λ t g. Good room T (A.meets a) t g × Covers (total t) g)) }
    ensures live { (a : A) (room : Room) → IsSized room → (T : List Proc) (es : Schedule) (t : Tree Piece) (h : Heap) →
        Holds (total t) h → ((n : ℕ) → Safe T at_end (A.meets a) n 0 t) → IsShallow holdings room T es t h →
        Covers (total t) h → OnMoved (reach holdings room T es t h) (λ u g. Covers (total u) g) }
{}

/// Procedures that call each other, and themselves: if each call of a family is safe for n steps wherever all calls of the
/// family are safe for fewer, each is safe for every n. What data of the family begin and hold is any function of them.
pub fn recursion<A: Post>()
    ensures { (T : List Proc) (begins : A → Stack) (held : A → Piece) →
        ((n : ℕ) → ((m : ℕ) → m < n → (f : ℕ) (a : A) → Safe T at_end (A.meets a) m f (Leaf (held a) (begins a))) →
        (f : ℕ) (a : A) → Safe T at_end (A.meets a) n f (Leaf (held a) (begins a))) →
        (n f : ℕ) (a : A) → Safe T at_end (A.meets a) n f (Leaf (held a) (begins a)) }
{}

/// Bounded runs: a bound gives safety for every number of steps, a larger number is a bound as well, and no schedule of
/// the tree is longer than its bound, from any heap that has what the tree holds, nor is one of the machine.
pub fn bounded_runs<A: Post>()
    ensures safe { (a : A) (T : List Proc) (halt : Halt) (n b f : ℕ) (t : Tree Piece) →
        Bounded T halt (A.meets a) b f t → Safe T halt (A.meets a) n f t }
    ensures more { (a : A) (T : List Proc) (halt : Halt) (k b f : ℕ) (t : Tree Piece) →
        Bounded T halt (A.meets a) b f t → Bounded T halt (A.meets a) (k + b) f t }
    ensures ends { (a : A) (room : Room) → IsSized room → (T : List Proc) (es : Schedule) (b : ℕ) (t : Tree Piece) (h : Heap) →
        Holds (total t) h → Bounded T at_end (A.meets a) b 0 t → IsShallow holdings room T es t h →
        OnMoved (reach holdings room T es t h) (λ u g. length es ≤ b) }
    ensures bare { (a : A) (room : Room) → IsSized room → (T : List Proc) (es : Schedule) (b : ℕ) (p : Piece) (s : Stack) (h : Heap) →
        Holds p h → Bounded T at_end (A.meets a) b 0 (Leaf p s) → IsShallow nothing room T es (Leaf tt s) h →
        OnMoved (reach nothing room T es (Leaf tt s) h) (λ u g. length es ≤ b) }
{}

/// A bounded run with an end has the same bound with a weaker one, which may rest on a heap that has what is then held.
pub fn bounded_weaker_end<A: Post, B: Post>()
    ensures { (a : A) (b : B) (T : List Proc) (halt : Halt) (n f : ℕ) (t : Tree Piece) →
        ((vs : List ℕ) (p : Piece) (h : Heap) → Holds p h → A.meets a vs p → B.meets b vs p) →
        Bounded T halt (A.meets a) n f t → Bounded T halt (B.meets b) n f t }
{}

/// A bounded run on a piece has the same bound beside any other piece, which it gives back as it was.
pub fn bounded_frame<A: Post>()
    ensures { (a : A) (T : List Proc) (halt : Halt) (n f : ℕ) (p q : Piece) (s : Stack) →
        Bounded T halt (A.meets a) n f (Leaf p s) → Bounded T halt (Beside (A.meets a) q) n f (Leaf (plus p q) s) }
{}

/// One rule for each kind of instruction: each adds one step.
pub fn bounded_instructions<A: Post>()
    ensures registers { (a : A) (T : List Proc) (halt : Halt) (n f : ℕ) (p : Piece) (s u : Stack) →
        halt s ≡ None → act T s ≡ leaf.Go u →
        Bounded T halt (A.meets a) n f (Leaf p u) → Bounded T halt (A.meets a) (suc n) f (Leaf p s) }
    ensures load { (a : A) (T : List Proc) (halt : Halt) (n f : ℕ) (p : Piece) (s : Stack) (b i v l : ℕ) (k : ℕ → Stack) →
        halt s ≡ None → act T s ≡ leaf.Read b i k → p b (suc i) ≡ Some_of v l →
        Bounded T halt (A.meets a) n f (Leaf p (k v)) → Bounded T halt (A.meets a) (suc n) f (Leaf p s) }
    ensures store { (a : A) (T : List Proc) (halt : Halt) (n f : ℕ) (p : Piece) (s : Stack) (b i v : ℕ) (u : Stack) →
        halt s ≡ None → act T s ≡ leaf.Write b i v u → IsWhole (p b (suc i)) →
        Bounded T halt (A.meets a) n f (Leaf (stored p b i v) u) → Bounded T halt (A.meets a) (suc n) f (Leaf p s) }
    ensures claim { (a : A) (T : List Proc) (halt : Halt) (n f : ℕ) (p : Piece) (s : Stack) (len : ℕ) (k : ℕ → Stack) →
        halt s ≡ None → act T s ≡ leaf.Make len k →
        ((x : ℕ) → ((j : ℕ) → p x j ≡ Nil) → Bounded T halt (A.meets a) n f (Leaf (with_new p x len) (k x))) →
        Bounded T halt (A.meets a) (suc n) f (Leaf p s) }
    ensures release { (a : A) (T : List Proc) (halt : Halt) (n f : ℕ) (p : Piece) (s : Stack) (b : ℕ) (u : Stack) →
        halt s ≡ None → act T s ≡ leaf.Cut b u → AllWhole (p b 0) (p b) →
        Bounded T halt (A.meets a) n f (Leaf (without p b) u) → Bounded T halt (A.meets a) (suc n) f (Leaf p s) }
    ensures over { (a : A) (T : List Proc) (halt : Halt) (n f : ℕ) (p : Piece) (s : Stack) (vs : List ℕ) →
        halt s ≡ Some vs → A.meets a vs p → Bounded T halt (A.meets a) n f (Leaf p s) }
    ensures heap { (a : A) (T : List Proc) (halt : Halt) (n f : ℕ) (p : Piece) (s : Stack) →
        ((h : Heap) → Holds p h → Bounded T halt (A.meets a) n f (Leaf p s)) → Bounded T halt (A.meets a) n f (Leaf p s) }
{}

/// The bounds of a stretch of code and of what follows it add up; to more code, or to the end of the procedure.
pub fn bounded_sequence<A: Post, B: Post>()
    ensures code { (a : A) (b : B) (T : List Proc) (proc : Proc) (n m f : ℕ) (first second : List Item) (regs : List ℕ) (p : Piece) →
        CodeBounded T proc (A.meets a) n f first regs p →
        ((vs : List ℕ) (q : Piece) → A.meets a vs q → CodeBounded T proc (B.meets b) m f second vs q) →
        CodeBounded T proc (B.meets b) (n + m) f (first ++ second) regs p }
    ensures end { (a : A) (b : B) (T : List Proc) (proc : Proc) (n m f : ℕ) (first second : List Item) (regs : List ℕ) (p : Piece) →
        CodeBounded T proc (A.meets a) n f first regs p →
        ((vs : List ℕ) (q : Piece) → A.meets a vs q → Bounded T at_end (B.meets b) m f (Leaf q (at_code proc second vs))) →
        Bounded T at_end (B.meets b) (n + m) f (Leaf p (at_code proc (first ++ second) regs)) }
{}

/// An `if` takes one step more than a bound of both its codes.
pub fn bounded_choice<A: Post>()
    ensures { (a : A) (T : List Proc) (proc : Proc) (n f line : ℕ) (i : Instr) (t : ℕ) (x y : List Instr) (regs : List ℕ) (p : Piece) →
        out-Instr i ≡ instr.If t (record { list = x }) (record { list = y }) →
        ((slice_index regs t ≡ 0 → ⊥) → CodeBounded T proc (A.meets a) n f (do_all (suc line) x) regs p) →
        (slice_index regs t ≡ 0 → CodeBounded T proc (A.meets a) n f (do_all (second_line line x) y) regs p) →
        CodeBounded T proc (A.meets a) (suc n) f (leaf.Do line i ∷ []) regs p }
{}

/// A loop by a measure, which each turn makes less: at most as many turns as the measure at first.
pub fn bounded_repetition<I: Post, C: Post, A: Post>()
    ensures { (before : ℕ → I) (after : ℕ → C) (z : A) (T : List Proc) (proc : Proc) (a b f line : ℕ) (i : Instr) (t : ℕ) (c d : List Instr) →
        out-Instr i ≡ instr.While (record { list = c }) t (record { list = d }) →
        ((m : ℕ) (regs : List ℕ) (p : Piece) → I.meets (before m) regs p →
        CodeBounded T proc (C.meets (after m)) a f (do_all (suc line) c) regs p) →
        ((m : ℕ) (regs : List ℕ) (p : Piece) → C.meets (after m) regs p → (slice_index regs t ≡ 0 → ⊥) →
        CodeBounded T proc (Less (λ k. I.meets (before k)) m) b f (do_all (second_line line c) d) regs p) →
        ((m : ℕ) (regs : List ℕ) (p : Piece) → C.meets (after m) regs p → slice_index regs t ≡ 0 → A.meets z regs p) →
        (m : ℕ) (regs : List ℕ) (p : Piece) → I.meets (before m) regs p →
        CodeBounded T proc (A.meets z) (suc (while_bound a b m)) f (leaf.Do line i ∷ []) regs p }
{}

/// A call takes one step more than the procedure and what follows it; up to the end of the leaf, and of a stretch of code.
pub fn bounded_call<A: Post, B: Post>()
    ensures end { (a : A) (b : B) → CallBounded at_end (A.meets a) (B.meets b) }
    ensures code { (a : A) (b : B) → CallBounded at_code_end (A.meets a) (B.meets b) }
{}

/// A `par` takes the steps of both branches, one for the fork, one for the join, and those of what follows.
pub fn bounded_parallel<A: Post, B: Post, C: Post>()
    ensures { (a : A) (b : B) (c : C) (T : List Proc) (halt : Halt) (n m k f : ℕ) (p : Piece) (s : Stack) (l r : Child) (w : Wait) →
        halt s ≡ None → act T s ≡ leaf.Split l r w → Fine f (leaf.Split l r w) p →
        (f < 64 → Bounded T at_end (A.meets a) n (suc f) (Leaf (holdings.left p l r) l.stack)) →
        (f < 64 → Bounded T at_end (B.meets b) m (suc f) (Leaf (holdings.right p l r) r.stack)) →
        ((xs ys : List ℕ) (q u : Piece) (h : Heap) → Holds (plus (holdings.kept p l r) (plus q u)) h →
        A.meets a xs q → B.meets b ys u →
        Bounded T halt (C.meets c) k f (Leaf (plus (holdings.kept p l r) (plus q u)) (joined w xs ys))) →
        Bounded T halt (C.meets c) (suc (suc (n + m + k))) f (Leaf p s) }
{}

/// What the end of a procedure that never forks must meet: the blocks that may still be claimed, its results, and what it
/// then holds.
pub trait Outcome {
    ghost meets: { Self → List ℕ → List ℕ → Piece → Type 0 };
}

/// Weakest preconditions: a procedure whose text meets its end by them does so in at most so many steps, is safe for every
/// number of steps at any depth of forks and beside any other piece, and no schedule of it claims more than the blocks
/// that it was allowed; nor does it ever ask for more, also where the machine would then be full.
pub fn weakest_preconditions<E: Outcome>()
    ensures sound { (e : E) (T : List Proc) (b : ℕ) (g : Proc) (k : Text) → g.code.list ≡ code k → (a args : List ℕ) (p : Piece) →
        Proves T g k (E.meets e) b a args p → Does T g (E.meets e) b a args p }
    ensures framed { (e : E) (T : List Proc) (g : Proc) (b : ℕ) (a args : List ℕ) (p q : Piece) →
        Does T g (E.meets e) b a args p → Does T g (outcome.Beside (E.meets e) q) b a args (plus p q) }
    ensures safe { (e : E) (T : List Proc) (g : Proc) (n f b : ℕ) (a args : List ℕ) (p : Piece) →
        Does T g (E.meets e) b a args p → Safe T at_end (Left (E.meets e)) n f (Leaf p (leaf.Run (begin g args) [])) }
    ensures bounded { (e : E) (T : List Proc) (g : Proc) (f b : ℕ) (a args : List ℕ) (p : Piece) →
        Does T g (E.meets e) b a args p → Bounded T at_end (Left (E.meets e)) b f (Leaf p (leaf.Run (begin g args) [])) }
    ensures claims { (e : E) (room : Room) → IsSized room → (T : List Proc) (g : Proc) (b : ℕ) (a args : List ℕ) (p : Piece) →
        Does T g (E.meets e) b a args p → (es : Schedule) (h : Heap) → Holds p h →
        OnMoved (reach holdings room T es (Leaf p (leaf.Run (begin g args) [])) h) (λ u k. k.claimed ≤ h.claimed + cost a) }
    ensures asks { (e : E) (room : Room) → IsSized room → (T : List Proc) (g : Proc) (b : ℕ) (a args : List ℕ) (p : Piece) →
        Does T g (E.meets e) b a args p → (es : Schedule) (h : Heap) → Holds p h →
        OnMoved (reach holdings room T es (Leaf p (leaf.Run (begin g args) [])) h)
        (λ u k. AtLeaf u [] (λ q s. (n : ℕ) (next : ℕ → Stack) → act T s ≡ leaf.Make n next →
        k.claimed + n + 1 ≤ h.claimed + cost a)) }
{}

/// `array_get` is safe for every number of steps on a piece of an array, whatever its shares; it gives the element and
/// keeps what it has. `array_set` is so where the words are held whole.
pub fn arrays()
    ensures get { GetLaw }
    ensures set { SetLaw }
{}

/// A `par` that hands each of two branches a piece of an array, as two halves of one: it is safe for every number of
/// steps and sets both, and no schedule of the machine, from any heap that has the two, reaches a data race.
pub fn two_hands()
    ensures safe { PairLaw }
    ensures calm { CalmLaw }
{}

/// What is not allowed is not safe for one step, whatever its end: a root that is not over and is next to store to a word
/// that it does not hold whole, one that is unowned in any way or stuck by what it holds, and a tree with some leaf that is
/// unowned. Some heap has to have what is held; where none has, everything is safe. So `array_set` on a block of which
/// nothing is held is not safe.
pub fn unowned_is_not_safe<A: Post>()
    ensures store { (a : A) (T : List Proc) (halt : Halt) (f : ℕ) (p : Piece) (s : Stack) (h : Heap) (b i v : ℕ) (u : Stack) →
        Holds p h → halt s ≡ None → act T s ≡ leaf.Write b i v u → (IsWhole (p b (suc i)) → ⊥) →
        Safe T halt (A.meets a) 1 f (Leaf p s) → ⊥ }
    ensures unowned { (a : A) (T : List Proc) (halt : Halt) (f : ℕ) (p : Piece) (s : Stack) (h : Heap) → Holds p h →
        halt s ≡ None → IsUnowned f (act T s) p → Safe T halt (A.meets a) 1 f (Leaf p s) → ⊥ }
    ensures stuck { (a : A) (T : List Proc) (halt : Halt) (f : ℕ) (p : Piece) (s : Stack) (h : Heap) → Holds p h →
        halt s ≡ None → IsStuckBy (act T s) p → Safe T halt (A.meets a) 1 f (Leaf p s) → ⊥ }
    ensures tree { (a : A) (T : List Proc) (f : ℕ) (t : Tree Piece) (h : Heap) → Holds (total t) h → SomeUnowned T f t →
        Safe T at_end (A.meets a) 1 f t → ⊥ }
    ensures set { (a : A) (T : List Proc) →
        Safe T at_end (A.meets a) 2 0 (Leaf none (leaf.Run (begin array_set (1 ∷ 0 ∷ 1 ∷ 0 ∷ 5 ∷ [])) [])) → ⊥ }
{}

/// A procedure that claims 2^63 words first meets no end, whatever it is, with an allowance of 2^63 words or fewer.
pub fn great_claim_is_refused<E: Outcome>()
    ensures { (e : E) (T : List Proc) (b : ℕ) (a : List ℕ) → Does T claimer (E.meets e) b a [] none → 2 ^ 63 < cost a }
{}

/// `lib_copy` copies words, which it only reads, into a new block of a greater length, in 6 steps a word and 6 more; it
/// claims that one block and no other.
pub fn copy()
    ensures { CopyLaw }
{}
