//! The two sides of `either`, of which the first that passes is taken.

use branch_merge::Side;
use nres_core::Refusal;
use ownership::{bind, shapes};
use print_steps::{Over, OverSide, Printing};
use proof_text::ProofLine;
use sqlite_items::Items;
use std::alloc::{AllocError, Global};
use target_code::Instr;
use word_homes::frees;

/// Where all stood before the first side was tried.
#[derive(Clone, Copy)]
pub struct Tried {
    /// The number of lines.
    pub lines: usize,
    /// The number of procedures.
    pub made: usize,
    /// The number of branches.
    pub branch: u32,
    /// What was written.
    pub top: u32,
    /// The first register that was free.
    pub free: u32,
}

/// The first side begins.
pub fn open_either(printing: &mut Printing) -> Result<Tried, AllocError> {
    let tried = Tried {
        lines: printing.lines.len(),
        made: printing.made.len(),
        branch: printing.branch,
        top: printing.top,
        free: printing.free,
    };
    printing.lines.push(ProofLine::Left)?;
    Ok(tried)
}

/// Whether the first side passed, which is then taken. Else all is as it was before it, and the second side begins.
pub fn first_taken(
    alloc: Global,
    printing: &mut Printing,
    code: &mut Items<Instr>,
    outs: &[u32],
    tried: Tried,
    side: Result<Result<OverSide, Refusal>, AllocError>,
) -> Result<bool, AllocError> {
    match side {
        Ok(Ok(side)) => {
            take_side(alloc, printing, code, outs, side)?;
            Ok(true)
        }
        Ok(Err(refusal)) => {
            drop(refusal);
            forget_side(printing, tried);
            printing.lines.push(ProofLine::Right)?;
            Ok(false)
        }
        Err(error) => Err(error),
    }
}

/// The second side is taken, where it passed.
pub fn other_taken(
    alloc: Global,
    printing: &mut Printing,
    code: &mut Items<Instr>,
    outs: &[u32],
    side: Result<Result<OverSide, Refusal>, AllocError>,
) -> Result<Option<Refusal>, AllocError> {
    match side {
        Ok(Ok(side)) => {
            take_side(alloc, printing, code, outs, side)?;
            Ok(None)
        }
        Ok(Err(refusal)) => Ok(Some(refusal)),
        Err(error) => Err(error),
    }
}

/// Nothing is left of a side that is refused.
fn forget_side(printing: &mut Printing, tried: Tried) {
    cut_to(&mut printing.lines, tried.lines);
    cut_to(&mut printing.made, tried.made);
    printing.branch = tried.branch;
    printing.top = tried.top;
    printing.free = tried.free;
}

/// What is left of a list up to a length.
fn cut_to<T: Drop>(items: &mut Items<T>, count: usize) {
    'each: while items.len() > count {
        drop(items.pop());
    }
}

/// The side that was taken: what it left over is freed, what went in it is gone, and its results have further names.
fn take_side(
    alloc: Global,
    printing: &mut Printing,
    code: &mut Items<Instr>,
    outs: &[u32],
    side: OverSide,
) -> Result<(), AllocError> {
    let OverSide {
        code: own,
        over,
        side,
    } = side;
    let taken = take_results(alloc, printing, outs, &over, &side);
    drop(side);
    match taken {
        Ok(()) => append_side(code, own, over),
        Err(error) => {
            drop((own, over));
            Err(error)
        }
    }
}

/// The code of a side that was taken; what it left over is freed.
fn append_side(code: &mut Items<Instr>, own: Items<Instr>, over: Over) -> Result<(), AllocError> {
    match code.append(own) {
        Ok(()) => frees(code, over.left.as_slice()),
        Err(error) => {
            drop(over);
            Err(error)
        }
    }
}

/// What went in a side that was taken is gone, and its results have further names.
fn take_results(
    alloc: Global,
    printing: &mut Printing,
    outs: &[u32],
    over: &Over,
    side: &Side,
) -> Result<(), AllocError> {
    printing.rules.context.fall(side.went.as_slice())?;
    let shapes = shapes(alloc, side.results.as_slice())?;
    bind(&mut printing.rules.context, outs, shapes.as_slice())?;
    printing.alias(outs, over.homes.as_slice())?;
    printing.free = over.free;
    Ok(())
}
