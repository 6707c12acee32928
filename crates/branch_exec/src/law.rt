//! What a step over a store is.

ghost use Rattle.std.specs.Prelude.{◌≡◌, ℕ, Bool, List};
ghost use Rattle.target_code.specs.declared.tree.Proc.{Proc};
ghost use Rattle.target_meaning.specs.Leaf.{Stack, act};
ghost use Rattle.target_meaning.specs.Machine.{Heap};
ghost use Rattle.target_meaning.specs.Piece.{Holds, Piece, plus};
ghost use Rattle.branch_exec.specs.Branches.{Branch, Names, Runner};
ghost use Rattle.branch_exec.specs.LeftRuns.{DoneLeft, Fresh, LeftRun, StoppedLeft};
ghost use Rattle.branch_exec.specs.Stores.{Kept};
ghost use Rattle.branch_exec.specs.Went.{EndIs};
ghost use Rattle.branch_exec.specs.Ends.{IsBad};
ghost use Rattle.branch_exec.specs.declared.end.BranchEnd.{BranchEnd};
ghost use Rattle.branch_exec.specs.declared.end.BranchEnd.TheVariants as end;
ghost use Rattle.target_meaning.specs.declared.stack.Stack as code;
ghost use Rattle.branch_exec.specs.Legs.{Step};
ghost use Rattle.target_meaning.specs.declared.path.Side.{Side};
ghost use Rattle.branch_exec.specs.Meaning.{AreNew, IsMade, StepLaw};

/// A step over a store is made by a leaf that is neither stuck nor unowned, and is the step on what the leaf holds.
pub fn step_means()
    ensures { StepLaw }
{}

/// In every heap that has what the leaf holds and was never given the name, the machine makes the same step.
pub fn step_is_made()
    ensures { (T : List Proc) (s : Stack) (p q : Piece) (xs : List (ℕ × ℕ)) (u : Stack) (h : Heap) →
        Step (act T s) p xs q u → Holds p h → AreNew h xs → IsMade T s p xs q u h }
{}

/// The run of a branch is the left-first run of the machine, in every heap that has what it holds beside any frame and
/// in which the names that it draws are new.
pub fn runs_left_first()
    ensures { (T : List Proc) (b d : ℕ) (s : Runner) (xs : Names) (t : Runner) (q : Piece) (h : Heap) (ns : List ℕ) →
        Branch T b d s xs t → Holds (plus s.piece q) h → Fresh h xs → LeftRun T s xs t q h ns }
{}

/// A branch that is Done ends as the left-first run with the names that its store drew.
pub fn done_is_left_first()
    ensures { (alone : Bool) (T : List Proc) (b d : ℕ) (path : List Side) (v : code.Stack) (s : Kept) (c : ℕ) (regs : List ℕ) (steps : ℕ) (t : Kept) →
        EndIs alone T b d path v s c (end.Done regs steps) t → DoneLeft T v s c regs steps t }
{}

/// A branch that ended badly for another cause than want of memory stopped at the leaf to which the left-first run with
/// the names that its store drew comes, for the cause that is told of that leaf.
pub fn bad_is_left_first()
    ensures { (alone : Bool) (T : List Proc) (b d : ℕ) (path : List Side) (v : code.Stack) (s : Kept) (c : ℕ) (e : BranchEnd) (t : Kept) →
        IsBad e → (e ≡ end.Memory → ⊥) → EndIs alone T b d path v s c e t → StoppedLeft T b path v s c e t }
{}
