//! The registers in the lines of a derivation for binds.

ghost use Rattle.std.specs.Prelude.{◌≡◌, IfOk, option_map};
ghost use Rattle.loop_regs.specs.Noted as n;
ghost use Rattle.loop_regs.specs.Noted.{NotedBind, NotedBinds};
ghost use Rattle.nres_core.specs.FlatTree.{before_of, binds_of, flats_of};
ghost use Rattle.proof_lines.specs.Lines.{lines_of};

use crate::past::{behind_one, past_fork, side_of};
use crate::written::note_all;
use nres_core::{FlatBind, FlatBlock};
use proof_text::ProofLine;
use sqlite_items::Items;
use std::alloc::AllocError;

/// Notes the registers of the lines `if` and `while` of binds, as far as there are such lines. Gives the lines behind the binds.
#[cycle(lines)]
pub fn note_lines<'a>(
    binds: &[FlatBind],
    lines: &'a [ProofLine],
    noted: &mut Items<u32>,
) -> Result<Option<&'a [ProofLine]>, AllocError>
    ensures { IfOk result (λ left. NotedBinds (binds_of binds.now) (lines_of lines.now) noted.old noted.new (option_map (λ left. lines_of left.now) left)) }
{
    let mut left = lines;
    'each: for bind in binds {
        match note_bind(bind, left, noted)? {
            Some(others) => left = others,
            None => return Ok(None),
        }
    }
    Ok(Some(left))
}

/// The same for the binds of a block.
#[cycle(lines)]
pub fn note_block<'a>(
    block: &FlatBlock,
    lines: &'a [ProofLine],
    noted: &mut Items<u32>,
) -> Result<Option<&'a [ProofLine]>, AllocError>
    ensures { IfOk result (λ left. NotedBinds (flats_of block.now).binds (lines_of lines.now) noted.old noted.new (option_map (λ left. lines_of left.now) left)) }
{
    note_lines(block.binds.as_slice(), lines, noted)
}

/// The same for one bind.
#[cycle(lines)]
fn note_bind<'a>(
    bind: &FlatBind,
    lines: &'a [ProofLine],
    noted: &mut Items<u32>,
) -> Result<Option<&'a [ProofLine]>, AllocError>
    ensures { IfOk result (λ left. NotedBind (before_of bind.now) (lines_of lines.now) noted.old noted.new (option_map (λ left. lines_of left.now) left)) }
{
    match bind {
        FlatBind::Assert { .. } => Ok(Some(lines)),
        FlatBind::If { yes, no, .. } => match if_regs(lines) {
            Some((regs, others)) => {
                note_all(noted, regs)?;
                match note_block(yes, others, noted)? {
                    Some(left) => note_block(no, left, noted),
                    None => Ok(None),
                }
            }
            None => Ok(None),
        },
        FlatBind::While { cond, body, .. } => match while_regs(lines) {
            Some((regs, others)) => {
                note_all(noted, regs)?;
                match note_lines(cond.as_slice(), others, noted)? {
                    Some(left) => note_block(body, left, noted),
                    None => Ok(None),
                }
            }
            None => Ok(None),
        },
        FlatBind::Either { left, right, .. } => match side_of(lines) {
            Some((true, others)) => note_block(left, others, noted),
            Some((false, others)) => note_block(right, others, noted),
            None => Ok(None),
        },
        FlatBind::Calc { .. } => Ok(Some(behind_one(lines))),
        FlatBind::Apply { .. } => Ok(Some(behind_one(lines))),
        FlatBind::Par { left, right, .. } => Ok(Some(past_fork(left, right, lines))),
        FlatBind::Split { left, right, .. } => Ok(Some(past_fork(left, right, lines))),
        FlatBind::Any { .. } => Ok(Some(behind_one(lines))),
        FlatBind::Call { .. } => Ok(Some(behind_one(lines))),
    }
}

/// The registers of a line `if`, and the lines behind it.
fn if_regs<'a>(lines: &'a [ProofLine]) -> Option<(&'a [u32], &'a [ProofLine])>
    ensures { option_map (λ found. (found.0.now, lines_of found.1.now)) result ≡ n.if_regs (lines_of lines.now) }
{
    match lines {
        [ProofLine::If(regs), others @ ..] => Some((regs.as_slice(), others)),
        _ => None,
    }
}

/// The registers of a line `while`, and the lines behind it.
fn while_regs<'a>(lines: &'a [ProofLine]) -> Option<(&'a [u32], &'a [ProofLine])>
    ensures { option_map (λ found. (found.0.now, lines_of found.1.now)) result ≡ n.while_regs (lines_of lines.now) }
{
    match lines {
        [ProofLine::While(regs), others @ ..] => Some((regs.as_slice(), others)),
        _ => None,
    }
}
