//! The first instruction of what is left of the code.

ghost use Rattle.std.specs.Prelude.{◌≡◌, ℕ, List, MatchOption};
ghost use Rattle.fits.specs.Follow as f;
ghost use Rattle.fits.specs.Follow.{Answer, Line};
ghost use Rattle.target_code.specs.declared.tree.Calc.{Calc as CalcOf};
ghost use Rattle.target_code.specs.declared.tree.Instr.{Instr as InstrOf, out-Instr};

use target_code::{Calc, Instr, Name};

/// A calculation, and the code behind it.
#[derive(Clone, Copy)]
pub(crate) struct CalcAt<'a> {
    /// The register of its answer.
    pub to: u32,
    /// What is calculated.
    pub word: Calc,
    /// The register of the first value.
    pub left: u32,
    /// The register of the second one.
    pub right: u32,
    /// The code behind.
    pub rest: &'a [Instr],
}

/// The first instruction, where this is a calculation.
#[tactic(auto, unfolding(fits::specs::Follow::with_head, fits::specs::Follow::calc_own))]
pub(crate) fn calc_at<'a>(code: &'a [Instr]) -> Option<CalcAt<'a>>
    ensures { MatchOption result ((ls : List Line) (k : List InstrOf → ℕ → CalcOf → ℕ → ℕ → Answer) → f.with_head code.now ls (λ i rest. f.calc_own ls i (k rest)) ≡ f.Unmet ls)
        (λ at. (ls : List Line) (k : List InstrOf → ℕ → CalcOf → ℕ → ℕ → Answer) → f.with_head code.now ls (λ i rest. f.calc_own ls i (k rest)) ≡ k at.rest.now at.to at.word at.left at.right) }
{
    match code {
        [
            Instr::Calc {
                to,
                word,
                left,
                right,
            },
            rest @ ..,
        ] => Some(CalcAt {
            to: *to,
            word: *word,
            left: *left,
            right: *right,
            rest,
        }),
        _ => None,
    }
}

/// A call, and the code behind it.
#[derive(Clone, Copy)]
pub(crate) struct CallAt<'a> {
    /// The registers of the results.
    pub to: &'a [u32],
    /// The name of the procedure.
    pub name: &'a Name,
    /// The registers of the arguments.
    pub args: &'a [u32],
    /// The code behind.
    pub rest: &'a [Instr],
}

/// The first instruction, where this is a call.
#[tactic(auto, unfolding(fits::specs::Follow::with_head, fits::specs::Follow::call_own))]
pub(crate) fn call_at<'a>(code: &'a [Instr]) -> Option<CallAt<'a>>
    ensures { MatchOption result ((ls : List Line) (k : List InstrOf → List ℕ → List ℕ → List ℕ → Answer) → f.with_head code.now ls (λ i rest. f.call_own ls i (k rest)) ≡ f.Unmet ls)
        (λ at. (ls : List Line) (k : List InstrOf → List ℕ → List ℕ → List ℕ → Answer) → f.with_head code.now ls (λ i rest. f.call_own ls i (k rest)) ≡ k at.rest.now at.to.now at.name.now at.args.now) }
{
    match code {
        [Instr::Call { to, proc, args }, rest @ ..] => Some(CallAt {
            to: to.as_slice(),
            name: proc,
            args: args.as_slice(),
            rest,
        }),
        _ => None,
    }
}
