//! The first line and the first instruction of what is left.

ghost use Rattle.std.specs.Prelude.{◌≡◌, ℕ, Bool, List, MatchOption};
ghost use Rattle.proof_lines.specs.Lines.{lines_of};
ghost use Rattle.fits.specs.Follow.{Line, Answer, Unmet, if_own, on_if_line, on_side_line, on_while_line, while_own, with_head};
ghost use Rattle.target_code.specs.declared.tree.Code.{Code as CodeOf};
ghost use Rattle.target_code.specs.declared.tree.Instr.{Instr as InstrOf};

use proof_text::ProofLine;
use target_code::{Code, Instr};

/// The registers of a line `if`, and the lines behind it.
#[tactic(auto, unfolding(fits::specs::Follow::on_if_line))]
pub(crate) fn if_line<'a>(lines: &'a [ProofLine]) -> Option<(&'a [u32], &'a [ProofLine])>
    ensures { MatchOption result ((k : List ℕ → List Line → Answer) → on_if_line (lines_of lines.now) k ≡ Unmet (lines_of lines.now)) (λ found. (k : List ℕ → List Line → Answer) → on_if_line (lines_of lines.now) k ≡ k found.0.now (lines_of found.1.now)) }
{
    match lines {
        [ProofLine::If(regs), others @ ..] => Some((regs.as_slice(), others)),
        _ => None,
    }
}

/// The registers of a line `while`, and the lines behind it.
#[tactic(auto, unfolding(fits::specs::Follow::on_while_line))]
pub(crate) fn while_line<'a>(lines: &'a [ProofLine]) -> Option<(&'a [u32], &'a [ProofLine])>
    ensures { MatchOption result ((k : List ℕ → List Line → Answer) → on_while_line (lines_of lines.now) k ≡ Unmet (lines_of lines.now)) (λ found. (k : List ℕ → List Line → Answer) → on_while_line (lines_of lines.now) k ≡ k found.0.now (lines_of found.1.now)) }
{
    match lines {
        [ProofLine::While(regs), others @ ..] => Some((regs.as_slice(), others)),
        _ => None,
    }
}

/// Whether the first line is `left`, and not `right`, and the lines behind it.
#[tactic(auto, unfolding(fits::specs::Follow::on_side_line))]
pub(crate) fn side_line<'a>(lines: &'a [ProofLine]) -> Option<(bool, &'a [ProofLine])>
    ensures { MatchOption result ((k : Bool → List Line → Answer) → on_side_line (lines_of lines.now) k ≡ Unmet (lines_of lines.now)) (λ found. (k : Bool → List Line → Answer) → on_side_line (lines_of lines.now) k ≡ k found.0 (lines_of found.1.now)) }
{
    match lines {
        [ProofLine::Left, others @ ..] => Some((true, others)),
        [ProofLine::Right, others @ ..] => Some((false, others)),
        _ => None,
    }
}

/// An instruction `if`, and the code behind it.
#[derive(Clone, Copy)]
pub(crate) struct IfHead<'a> {
    /// The register that is tested.
    pub test: u32,
    /// Where it is not 0.
    pub yes: &'a Code,
    /// Where it is.
    pub no: &'a Code,
    /// The code behind it.
    pub rest: &'a [Instr],
}

#[tactic(auto, unfolding(fits::specs::Follow::with_head, fits::specs::Follow::if_own))]
pub(crate) fn if_head<'a>(code: &'a [Instr]) -> Option<IfHead<'a>>
    ensures { MatchOption result ((ls : List Line) (k : ℕ → CodeOf → CodeOf → List InstrOf → Answer) → with_head code.now ls (λ i rest. if_own ls i (λ t c d. k t c d rest)) ≡ Unmet ls) (λ found. (ls : List Line) (k : ℕ → CodeOf → CodeOf → List InstrOf → Answer) → with_head code.now ls (λ i rest. if_own ls i (λ t c d. k t c d rest)) ≡ k found.test found.yes.now found.no.now found.rest.now) }
{
    match code {
        [Instr::If { test, yes, no }, rest @ ..] => Some(IfHead {
            test: *test,
            yes,
            no,
            rest,
        }),
        _ => None,
    }
}

/// A loop, and the code behind it.
#[derive(Clone, Copy)]
pub struct WhileHead<'a> {
    /// Its condition.
    pub cond: &'a Code,
    /// The register that is tested.
    pub test: u32,
    /// Its body.
    pub body: &'a Code,
    /// The code behind it.
    pub rest: &'a [Instr],
}

#[tactic(auto, unfolding(fits::specs::Follow::with_head, fits::specs::Follow::while_own))]
pub(crate) fn while_head<'a>(code: &'a [Instr]) -> Option<WhileHead<'a>>
    ensures { MatchOption result ((ls : List Line) (k : CodeOf → ℕ → CodeOf → List InstrOf → Answer) → with_head code.now ls (λ i rest. while_own ls i (λ c t b. k c t b rest)) ≡ Unmet ls) (λ found. (ls : List Line) (k : CodeOf → ℕ → CodeOf → List InstrOf → Answer) → with_head code.now ls (λ i rest. while_own ls i (λ c t b. k c t b rest)) ≡ k found.cond.now found.test found.body.now found.rest.now) }
{
    match code {
        [Instr::While { cond, test, body }, rest @ ..] => Some(WhileHead {
            cond,
            test: *test,
            body,
            rest,
        }),
        _ => None,
    }
}
