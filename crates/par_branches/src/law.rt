//! What a run on threads is.

ghost use Rattle.std.specs.Prelude.{◌≡◌, ℕ, List};
ghost use Rattle.target_code.specs.declared.tree.Proc.{Proc};
ghost use Rattle.branch_exec.specs.Ends.{IsBad};
ghost use Rattle.branch_exec.specs.LeftRuns.{DoneLeft, StoppedLeft};
ghost use Rattle.branch_exec.specs.Stores.{Kept};
ghost use Rattle.branch_exec.specs.declared.end.BranchEnd.{BranchEnd};
ghost use Rattle.branch_exec.specs.declared.end.BranchEnd.TheVariants as end;
ghost use Rattle.branch_exec.specs.declared.leaf.Leaf.{Leaf};
ghost use Rattle.par_branches.specs.Forking.{EndsOnThreads};

/// A branch that ran on threads and has results ends as the left-first run of the machine with the names that its stores
/// drew, in every heap that has what its store held beside any frame and in which these names are new.
pub fn threads_run_left_first()
    ensures { (T : List Proc) (v : Leaf) (s : Kept) (regs : List ℕ) (steps : ℕ) (t : Kept) →
        EndsOnThreads T v s (end.Done regs steps) t → DoneLeft T v.stack s v.done regs steps t }
{}

/// A branch that ran on threads and ended badly for another cause than want of memory stopped at the leaf to which the
/// left-first run with the first names that its stores drew comes, for the cause that is told of that leaf.
pub fn threads_stop_left_first()
    ensures { (T : List Proc) (v : Leaf) (s : Kept) (e : BranchEnd) (t : Kept) →
        IsBad e → (e ≡ end.Memory → ⊥) → EndsOnThreads T v s e t → StoppedLeft T v.budget v.path v.stack s v.done e t }
{}
