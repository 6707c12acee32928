//! `par` and `split`: what their branches are passed, and where they meet.

use crate::branches::Gone;
use crate::passing::{Going, Part, Passing, passing_of};
use nres_core::{Arg, FlatBlock, Place, Refusal};
use ownership::Shape;
use print_steps::{Book, Printing};
use prints::Home;
use proof_text::ProofLine;
use rule_forks::{Branch, Fork, Splitting, close_fork, open_par, open_split};
use sqlite_items::Items;
use std::alloc::{AllocError, Global};
use target_code::{Calc, Instr};
use word_homes::{behind, free_after, load, reg_of, regs_all};

/// The place of a `split`: the list, and the registers of the place of the cut and of what is right of it.
#[derive(Clone, Copy)]
pub struct Cut {
    /// The list.
    pub list: u32,
    /// The list's home.
    pub home: Home,
    /// The register of the number of elements on the left.
    pub count: u32,
    /// The register of the right part's offset.
    pub offset: u32,
    /// The register of the right part's length.
    pub length: u32,
}

/// A fork whose branches are to be printed: what they are passed, and where a list is cut.
#[derive(Drop)]
pub struct Forking {
    /// The fork.
    pub fork: Fork,
    /// What its left branch is passed.
    pub left: Passing,
    /// What its right branch is passed.
    pub right: Passing,
    /// Where a list is cut.
    pub cut: Option<Cut>,
}

/// A fork whose left branch was printed.
#[derive(Drop)]
pub struct HalfFork {
    /// The fork.
    pub fork: Fork,
    /// Its left branch.
    pub left: Gone,
    /// What its right branch is passed.
    pub right: Passing,
    /// Where a list is cut.
    pub cut: Option<Cut>,
}

/// A fork whose branches were printed.
#[derive(Drop)]
pub struct WholeFork {
    /// The fork.
    pub fork: Fork,
    /// Its left branch.
    pub left: Gone,
    /// Its right branch.
    pub right: Gone,
    /// Where a list is cut.
    pub cut: Option<Cut>,
}

/// `par` begins.
pub fn begin_par(
    book: &Book,
    printing: &mut Printing,
    place: Place,
    left: &FlatBlock,
    right: &FlatBlock,
) -> Result<Result<Forking, Refusal>, AllocError> {
    printing.lines.push(ProofLine::Par)?;
    match open_par(
        book.alloc,
        book.names,
        &printing.rules.context,
        place,
        left,
        right,
    )? {
        Ok(fork) => Ok(Ok(fork_with(book.alloc, printing, fork, None)?)),
        Err(refusal) => Ok(Err(refusal)),
    }
}

/// `split` begins: its list is cut there.
pub fn begin_split(
    book: &Book,
    printing: &mut Printing,
    code: &mut Items<Instr>,
    splitting: &Splitting,
    at: Arg,
    blocks: (&FlatBlock, &FlatBlock),
) -> Result<Result<Forking, Refusal>, AllocError> {
    let (left, right) = blocks;
    match open_split(
        book.alloc,
        book.names,
        &mut printing.rules.context,
        splitting,
        left,
        right,
    )? {
        Ok(fork) => Ok(Ok(cut_fork(book.alloc, printing, code, splitting.list, at, fork)?)),
        Err(refusal) => Ok(Err(refusal)),
    }
}

/// A `split` that passes.
fn cut_fork(
    alloc: Global,
    printing: &mut Printing,
    code: &mut Items<Instr>,
    list: u32,
    at: Arg,
    fork: Fork,
) -> Result<Forking, AllocError> {
    match cut_list(printing, code, list, at) {
        Ok(cut) => fork_with(alloc, printing, fork, Some(cut)),
        Err(error) => {
            drop(fork);
            Err(error)
        }
    }
}

/// A list is cut: the registers of the place and of what is right of it.
fn cut_list(
    printing: &mut Printing,
    code: &mut Items<Instr>,
    list: u32,
    at: Arg,
) -> Result<Cut, AllocError> {
    let home = printing.homes.get(list);
    let block = reg_of(home);
    let loaded = load(code, printing.free, printing.home(at))?;
    let offset = loaded.free;
    let length = behind(offset, 1)?;
    code.push(Instr::Calc {
        to: offset,
        word: Calc::Add,
        left: behind(block, 1)?,
        right: loaded.reg,
    })?;
    code.push(Instr::Calc {
        to: length,
        word: Calc::Sub,
        left: behind(block, 2)?,
        right: loaded.reg,
    })?;
    printing.free = behind(length, 1)?;
    printing.lines.push(ProofLine::Split(offset, length))?;
    Ok(Cut {
        list,
        home,
        count: loaded.reg,
        offset,
        length,
    })
}

/// A fork, with what its branches are passed.
fn fork_with(
    alloc: Global,
    printing: &Printing,
    fork: Fork,
    cut: Option<Cut>,
) -> Result<Forking, AllocError> {
    match passings(alloc, printing, &fork, cut) {
        Ok((left, right)) => Ok(Forking {
            fork,
            left,
            right,
            cut,
        }),
        Err(error) => {
            drop(fork);
            Err(error)
        }
    }
}

/// What both branches of a fork are passed.
fn passings(
    alloc: Global,
    printing: &Printing,
    fork: &Fork,
    cut: Option<Cut>,
) -> Result<(Passing, Passing), AllocError> {
    let part = left_part(cut, fork.left.slice)?;
    let near = going_of(&fork.left, &fork.right, cut, part);
    let part = right_part(cut, fork.right.slice);
    let far = going_of(&fork.right, &fork.left, cut, part);
    let left = passing_of(alloc, printing, &near)?;
    match passing_of(alloc, printing, &far) {
        Ok(right) => Ok((left, right)),
        Err(error) => {
            drop(left);
            Err(error)
        }
    }
}

/// The part left of a cut.
fn left_part(cut: Option<Cut>, slice: Option<u32>) -> Result<Option<Part>, AllocError> {
    match (cut, slice) {
        (Some(cut), Some(var)) => {
            let block = reg_of(cut.home);
            let from = behind(block, 1)?;
            Ok(Some(Part {
                var,
                block,
                from,
                count: cut.count,
            }))
        }
        _ => Ok(None),
    }
}

/// The part right of a cut.
fn right_part(cut: Option<Cut>, slice: Option<u32>) -> Option<Part> {
    match (cut, slice) {
        (Some(cut), Some(var)) => Some(Part {
            var,
            block: reg_of(cut.home),
            from: cut.offset,
            count: cut.length,
        }),
        _ => None,
    }
}

/// A branch that is to be printed.
fn going_of<'a>(
    own: &'a Branch,
    other: &'a Branch,
    cut: Option<Cut>,
    part: Option<Part>,
) -> Going<'a> {
    let list = match cut {
        Some(cut) => Some(cut.list),
        None => None,
    };
    let count = match part {
        Some(_) => own.count.saturating_sub(1),
        None => own.count,
    };
    Going {
        own: &own.context,
        other: &other.context,
        count,
        list,
        part,
    }
}

/// The left branch of a fork was printed, if it was.
pub fn half_fork(
    fork: Fork,
    right: Passing,
    cut: Option<Cut>,
    gone: Result<Result<Gone, Refusal>, AllocError>,
) -> Result<Result<HalfFork, Refusal>, AllocError> {
    match gone {
        Ok(Ok(left)) => Ok(Ok(HalfFork {
            fork,
            left,
            right,
            cut,
        })),
        Ok(Err(refusal)) => {
            drop((fork, right));
            Ok(Err(refusal))
        }
        Err(error) => {
            drop((fork, right));
            Err(error)
        }
    }
}

/// The right branch of a fork was printed, if it was.
pub fn whole_fork(
    fork: Fork,
    left: Gone,
    cut: Option<Cut>,
    gone: Result<Result<Gone, Refusal>, AllocError>,
) -> Result<Result<WholeFork, Refusal>, AllocError> {
    match gone {
        Ok(Ok(right)) => Ok(Ok(WholeFork {
            fork,
            left,
            right,
            cut,
        })),
        Ok(Err(refusal)) => {
            drop((fork, left));
            Ok(Err(refusal))
        }
        Err(error) => {
            drop((fork, left));
            Err(error)
        }
    }
}

/// Both branches of a fork are over, if they are.
pub fn end_fork(
    alloc: Global,
    printing: &mut Printing,
    code: &mut Items<Instr>,
    outs: &[u32],
    whole: Result<WholeFork, Refusal>,
) -> Result<Option<Refusal>, AllocError> {
    match whole {
        Ok(whole) => join_fork(alloc, printing, code, outs, whole),
        Err(refusal) => Ok(Some(refusal)),
    }
}

/// Both branches of a fork are over.
fn join_fork(
    alloc: Global,
    printing: &mut Printing,
    code: &mut Items<Instr>,
    outs: &[u32],
    whole: WholeFork,
) -> Result<Option<Refusal>, AllocError> {
    let WholeFork {
        fork,
        left,
        right,
        cut,
    } = whole;
    match close_fork(alloc, &mut printing.rules.context, outs, Ok(fork)) {
        Ok(None) => {
            join_branches(alloc, printing, code, outs, cut, (left, right))?;
            Ok(None)
        }
        Ok(Some(refusal)) => {
            drop((left, right));
            Ok(Some(refusal))
        }
        Err(error) => {
            drop((left, right));
            Err(error)
        }
    }
}

/// The call of both branches.
fn join_branches(
    alloc: Global,
    printing: &mut Printing,
    code: &mut Items<Instr>,
    outs: &[u32],
    cut: Option<Cut>,
    gone: (Gone, Gone),
) -> Result<(), AllocError> {
    let (left, right) = gone;
    let mut left = left;
    let mut right = right;
    match place_results(alloc, printing, outs, cut, &mut left, &mut right) {
        Ok(()) => push_par(code, left, right),
        Err(error) => {
            drop((left, right));
            Err(error)
        }
    }
}

fn push_par(code: &mut Items<Instr>, left: Gone, right: Gone) -> Result<(), AllocError> {
    let Gone { side: near, shapes } = left;
    drop(shapes);
    let Gone { side: far, shapes } = right;
    drop(shapes);
    code.push(Instr::Par {
        left: near,
        right: far,
    })
}

/// The results of both branches come to the first free registers, those of the left one first.
fn place_results(
    alloc: Global,
    printing: &mut Printing,
    outs: &[u32],
    cut: Option<Cut>,
    left: &mut Gone,
    right: &mut Gone,
) -> Result<(), AllocError> {
    let first = printing.free;
    let second = free_after(first, left.shapes.as_slice())?;
    left.side.to = regs_all(alloc, first, left.shapes.as_slice())?;
    right.side.to = regs_all(alloc, second, right.shapes.as_slice())?;
    let near = left.shapes.as_slice();
    let far = right.shapes.as_slice();
    match cut {
        Some(cut) => bind_cut(printing, cut.home, (first, near), (second, far), outs)?,
        None => bind_both(printing, (first, near), (second, far), outs)?,
    }
    printing.free = free_after(second, far)?;
    Ok(())
}

/// The results of both branches of a `split`: the list stands where it stood, and the parts of it are no results.
fn bind_cut(
    printing: &mut Printing,
    home: Home,
    left: (u32, &[Shape]),
    right: (u32, &[Shape]),
    outs: &[u32],
) -> Result<(), AllocError> {
    match outs {
        [out, others @ ..] => {
            printing.homes.put(*out, home)?;
            let first = behind(left.0, 3)?;
            let second = behind(right.0, 3)?;
            bind_both(
                printing,
                (first, others_of(left.1)),
                (second, others_of(right.1)),
                others,
            )
        }
        [] => Ok(()),
    }
}

/// All but the first of the shapes.
fn others_of(shapes: &[Shape]) -> &[Shape] {
    match shapes {
        [_, others @ ..] => others,
        [] => shapes,
    }
}

/// The results of both branches, each with the first register of its own.
fn bind_both(
    printing: &mut Printing,
    left: (u32, &[Shape]),
    right: (u32, &[Shape]),
    outs: &[u32],
) -> Result<(), AllocError> {
    let (near, far) = outs.split_at(left.1.len().min(outs.len()));
    printing.bind(left.0, near, left.1)?;
    printing.bind(right.0, far, right.1)
}
