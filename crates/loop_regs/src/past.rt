//! The lines behind those of binds.

ghost use Rattle.std.specs.Prelude.{◌≡◌, [], drop, option_map};
ghost use Rattle.fits.specs.Follow.{past_lines};
ghost use Rattle.loop_regs.specs.Noted as n;
ghost use Rattle.loop_regs.specs.Noted.{PastBind};
ghost use Rattle.nres_core.specs.FlatTree.{before_of, binds_of, flats_of};
ghost use Rattle.proof_lines.specs.Lines.{lines_of};

use nres_core::{FlatBind, FlatBlock};
use proof_text::ProofLine;

/// The lines behind those of binds; none where an `either` has no line.
#[cycle(past)]
fn past_binds<'a>(binds: &[FlatBind], lines: &'a [ProofLine]) -> &'a [ProofLine]
    ensures { lines_of result.now ≡ past_lines (binds_of binds.now) (lines_of lines.now) }
{
    let mut left = lines;
    'each: for bind in binds {
        match past_bind(bind, left) {
            Some(others) => left = others,
            None => return no_lines(lines),
        }
    }
    left
}

/// The same for the binds of a block.
#[cycle(past)]
fn past_block<'a>(block: &FlatBlock, lines: &'a [ProofLine]) -> &'a [ProofLine]
    ensures { lines_of result.now ≡ past_lines (flats_of block.now).binds (lines_of lines.now) }
{
    past_binds(block.binds.as_slice(), lines)
}

/// The same for one bind.
#[cycle(past)]
fn past_bind<'a>(bind: &FlatBind, lines: &'a [ProofLine]) -> Option<&'a [ProofLine]>
    ensures { PastBind (before_of bind.now) (lines_of lines.now) (option_map (λ left. lines_of left.now) result) }
{
    match bind {
        FlatBind::Assert { .. } => Some(lines),
        FlatBind::If { yes, no, .. } => Some(past_block(no, past_block(yes, behind_one(lines)))),
        FlatBind::While { cond, body, .. } => Some(past_block(
            body,
            past_binds(cond.as_slice(), behind_one(lines)),
        )),
        FlatBind::Par { left, right, .. } => {
            Some(past_block(right, past_block(left, behind_one(lines))))
        }
        FlatBind::Split { left, right, .. } => {
            Some(past_block(right, past_block(left, behind_one(lines))))
        }
        FlatBind::Either { left, right, .. } => match side_of(lines) {
            Some((true, others)) => Some(past_block(left, others)),
            Some((false, others)) => Some(past_block(right, others)),
            None => None,
        },
        FlatBind::Calc { .. } => Some(behind_one(lines)),
        FlatBind::Apply { .. } => Some(behind_one(lines)),
        FlatBind::Any { .. } => Some(behind_one(lines)),
        FlatBind::Call { .. } => Some(behind_one(lines)),
    }
}

/// The lines behind those of a bind with two branches, whose own line stands first.
pub(crate) fn past_fork<'a>(
    left: &FlatBlock,
    right: &FlatBlock,
    lines: &'a [ProofLine],
) -> &'a [ProofLine]
    ensures { lines_of result.now ≡ past_lines (flats_of right.now).binds (past_lines (flats_of left.now).binds (drop 1 (lines_of lines.now))) }
{
    past_block(right, past_block(left, behind_one(lines)))
}

fn no_lines(lines: &[ProofLine]) -> &[ProofLine]
    ensures { lines_of result.now ≡ [] }
{
    &lines[..0]
}

/// The lines behind the first, if there is one.
pub(crate) fn behind_one(lines: &[ProofLine]) -> &[ProofLine]
    ensures { lines_of result.now ≡ drop 1 (lines_of lines.now) }
{
    match lines {
        [_, others @ ..] => others,
        [] => lines,
    }
}

/// Whether the first line is `left`, and not `right`, and the lines behind it.
pub(crate) fn side_of<'a>(lines: &'a [ProofLine]) -> Option<(bool, &'a [ProofLine])>
    ensures { option_map (λ found. (found.0, lines_of found.1.now)) result ≡ n.side_of (lines_of lines.now) }
{
    match lines {
        [ProofLine::Left, others @ ..] => Some((true, others)),
        [ProofLine::Right, others @ ..] => Some((false, others)),
        _ => None,
    }
}
