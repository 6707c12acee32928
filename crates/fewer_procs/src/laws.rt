//! The laws. Each function does nothing; its contract is the law.

ghost use Rattle.std.specs.Prelude.{List};
ghost use Rattle.target_code.specs.declared.tree.Proc.{Proc};
ghost use Rattle.target_code.specs.declared.tree.Program.{Program};
ghost use Rattle.target_meaning.specs.Held.{holdings};
ghost use Rattle.target_meaning.specs.Machine.{counts, nothing};
ghost use Rattle.nres_core.specs.declared.flat.Flat.{Flat};
ghost use Rattle.nres_core.specs.declared.tree.Spec.{Spec};
ghost use Rattle.soundness.specs.Behaviour.{of_flat, of_spec};
ghost use Rattle.fewer_procs.specs.Fewer.{AreOf, FewerAreBounded, FewerAreSound, RunAlike};

/// From the beginning of a procedure of a list that is closed under its calls each schedule reaches the same state with
/// that list as with any in which its procedures are found, and no leaf lies deeper: of the machine alone, with counts of
/// steps and with what leaves hold.
pub fn fewer_run_alike()
    ensures machine { (few more : List Proc) → AreOf more few → RunAlike nothing few more }
    ensures counted { (few more : List Proc) → AreOf more few → RunAlike counts few more }
    ensures held { (few more : List Proc) → AreOf more few → RunAlike holdings few more }
{}

/// So a program that is closed under its calls is sound for a flat tree, or a text, where it is with more procedures, and
/// its runs are bounded where they are with more.
pub fn fewer_are_sound()
    ensures flat { (f : Flat) (T : Program) (more : List Proc) → AreOf more T.procs → FewerAreSound (of_flat f) T more }
    ensures text { (p : Spec) (T : Program) (more : List Proc) → AreOf more T.procs → FewerAreSound (of_spec p) T more }
    ensures flat_bounded { (f : Flat) (T : Program) (more : List Proc) → AreOf more T.procs → FewerAreBounded (of_flat f) T more }
    ensures text_bounded { (p : Spec) (T : Program) (more : List Proc) → AreOf more T.procs → FewerAreBounded (of_spec p) T more }
{}
