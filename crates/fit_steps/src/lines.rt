//! The first line of what is left of a derivation.

ghost use Rattle.std.specs.Prelude.{◌≡◌, ℕ, List, MatchOption};
ghost use Rattle.proof_lines.specs.Lines.{lines_of};
ghost use Rattle.fit_steps.specs.Going.{Astray, Behind};
ghost use Rattle.fits.specs.Follow as f;
ghost use Rattle.fits.specs.Follow.{Answer, Line};

use proof_text::ProofLine;

/// The lines behind `calc`, where this is the first.
#[tactic(auto, unfolding(fits::specs::Follow::on_calc_line))]
pub(crate) fn calc_line<'a>(lines: &'a [ProofLine]) -> Option<&'a [ProofLine]>
    ensures { MatchOption result (Astray (f.on_calc_line (lines_of lines.now)) (lines_of lines.now)) (λ rest. Behind (f.on_calc_line (lines_of lines.now)) (lines_of rest.now)) }
{
    match lines {
        [ProofLine::Calc, rest @ ..] => Some(rest),
        _ => None,
    }
}

/// The lines behind `reg`, where this is the first.
#[tactic(auto, unfolding(fits::specs::Follow::on_reg_line))]
pub(crate) fn reg_line<'a>(lines: &'a [ProofLine]) -> Option<&'a [ProofLine]>
    ensures { MatchOption result (Astray (f.on_reg_line (lines_of lines.now)) (lines_of lines.now)) (λ rest. Behind (f.on_reg_line (lines_of lines.now)) (lines_of rest.now)) }
{
    match lines {
        [ProofLine::Reg, rest @ ..] => Some(rest),
        _ => None,
    }
}

/// The lines behind `use`, where this is the first.
#[tactic(auto, unfolding(fits::specs::Follow::on_use_line))]
pub(crate) fn use_line<'a>(lines: &'a [ProofLine]) -> Option<&'a [ProofLine]>
    ensures { MatchOption result (Astray (f.on_use_line (lines_of lines.now)) (lines_of lines.now)) (λ rest. Behind (f.on_use_line (lines_of lines.now)) (lines_of rest.now)) }
{
    match lines {
        [ProofLine::Use, rest @ ..] => Some(rest),
        _ => None,
    }
}

/// The lines behind `row` with this name, where this is the first.
#[tactic(auto, unfolding(fits::specs::Follow::on_row_line, fits::specs::Follow::need))]
pub(crate) fn row_line<'a>(lines: &'a [ProofLine], name: &[u8]) -> Option<&'a [ProofLine]>
    ensures { MatchOption result (Astray (f.on_row_line (lines_of lines.now) name.now) (lines_of lines.now)) (λ rest. Behind (f.on_row_line (lines_of lines.now) name.now) (lines_of rest.now)) }
{
    match lines {
        [ProofLine::Row(found), rest @ ..] if found.bytes() == name => Some(rest),
        _ => None,
    }
}

/// The register of a line `any`, and the lines behind it.
#[derive(Clone, Copy)]
pub(crate) struct AnyLine<'a> {
    /// The register.
    pub reg: u32,
    /// The lines behind.
    pub rest: &'a [ProofLine],
}

/// The first line, where this is `any`.
#[tactic(auto, unfolding(fits::specs::Follow::on_any_line))]
pub(crate) fn any_line<'a>(lines: &'a [ProofLine]) -> Option<AnyLine<'a>>
    ensures { MatchOption result ((k : ℕ → List Line → Answer) → f.on_any_line (lines_of lines.now) k ≡ f.Unmet (lines_of lines.now)) (λ any. (k : ℕ → List Line → Answer) → f.on_any_line (lines_of lines.now) k ≡ k any.reg (lines_of any.rest.now)) }
{
    match lines {
        [ProofLine::Any(reg), rest @ ..] => Some(AnyLine { reg: *reg, rest }),
        _ => None,
    }
}
