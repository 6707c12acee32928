//! The branches of `par` and `split`.

use crate::passing::Passing;
use nres_core::{FlatBlock, Refusal};
use ownership::{Shape, shapes};
use print_steps::{Book, Ending, Printing, Title, end_code, left_over, proc_of};
use rule_forks::{Branch, Entered, end_branch, enter_branch, leave_branch};
use sqlite_items::Items;
use std::alloc::{AllocError, Global};
use std::mem;
use target_code::{Branch as Side, Instr, Name, Proc};
use word_homes::behind;

/// Where all stood before a branch.
#[derive(Clone, Copy)]
pub struct Around {
    /// What the rule check had.
    pub entered: Entered,
    /// The first register that was free.
    pub free: u32,
    /// What was written.
    pub top: u32,
    /// The number of the branch.
    pub number: u32,
    /// The number of its arguments.
    pub args: u32,
}

/// A branch that is printed: where all stood before it, the branches before, and what it is passed.
#[derive(Drop)]
pub struct Outside {
    /// Where all stood.
    pub around: Around,
    /// The branches before.
    pub made: Items<Proc>,
    /// What it is passed.
    pub passing: Passing,
}

/// A branch that was printed: its call, but for the registers of its results, and what these are in.
#[derive(Drop)]
pub struct Gone {
    /// The call.
    pub side: Side,
    /// The shapes of its results.
    pub shapes: Items<Shape>,
}

/// A branch begins: its variables stand in its first registers.
pub fn open_branch(
    alloc: Global,
    printing: &mut Printing,
    branch: &mut Branch,
    passing: Passing,
) -> Result<Outside, AllocError> {
    let entered = enter_branch(&mut printing.rules, branch);
    match stand_inside(printing, &passing, entered) {
        Ok(around) => Ok(Outside {
            around,
            made: mem::replace(&mut printing.made, Items::new(alloc)),
            passing,
        }),
        Err(error) => {
            drop(passing);
            Err(error)
        }
    }
}

/// The variables of a branch stand in its first registers.
fn stand_inside(
    printing: &mut Printing,
    passing: &Passing,
    entered: Entered,
) -> Result<Around, AllocError> {
    let around = Around {
        entered,
        free: printing.free,
        top: printing.top,
        number: printing.branch,
        args: behind(0, passing.args.len())?,
    };
    printing.branch = behind(around.number, 1)?;
    printing.homes.mark()?;
    printing.alias(passing.vars.as_slice(), passing.homes.as_slice())?;
    printing.free = around.args;
    printing.top = 0;
    Ok(around)
}

/// A branch was printed, unless it is refused.
pub fn close_branch(
    book: &Book,
    printing: &mut Printing,
    branch: &mut Branch,
    block: &FlatBlock,
    outside: Outside,
    printed: (Result<Option<Refusal>, AllocError>, Items<Instr>),
) -> Result<Result<Gone, Refusal>, AllocError> {
    let (said, code) = printed;
    match said {
        Ok(None) => pass_branch(book, printing, branch, block, outside, code),
        Ok(Some(refusal)) => {
            drop(code);
            printing.homes.undo();
            leave_branch(&mut printing.rules, branch, outside.around.entered);
            leave_refused(printing, outside);
            Ok(Err(refusal))
        }
        Err(error) => {
            drop((code, outside));
            Err(error)
        }
    }
}

/// Of a branch that is refused nothing is left but the branches before it.
fn leave_refused(printing: &mut Printing, outside: Outside) {
    let Outside { made, passing, .. } = outside;
    drop(passing);
    printing.made = made;
}

/// The end of a branch whose binds pass.
fn pass_branch(
    book: &Book,
    printing: &mut Printing,
    branch: &mut Branch,
    block: &FlatBlock,
    outside: Outside,
    code: Items<Instr>,
) -> Result<Result<Gone, Refusal>, AllocError> {
    let mut code = code;
    match end_inside(book, printing, branch, block, outside.around, &mut code) {
        Ok(Ok(ending)) => Ok(Ok(leave_passed(
            book.alloc, printing, branch, outside, ending, code,
        )?)),
        Ok(Err(refusal)) => {
            drop(code);
            leave_refused(printing, outside);
            Ok(Err(refusal))
        }
        Err(error) => {
            drop((code, outside));
            Err(error)
        }
    }
}

/// The end of a branch's code, unless its end is refused; what is known is as it was before.
fn end_inside(
    book: &Book,
    printing: &mut Printing,
    branch: &mut Branch,
    block: &FlatBlock,
    around: Around,
    code: &mut Items<Instr>,
) -> Result<Result<Ending, Refusal>, AllocError> {
    let refused = end_branch(
        book.alloc,
        book.names,
        &mut printing.rules,
        branch,
        around.entered,
        block,
    )?;
    match refused {
        Some(refusal) => {
            printing.homes.undo();
            Ok(Err(refusal))
        }
        None => {
            let ending = branch_ending(book.alloc, printing, branch, block, around.number, code);
            printing.homes.undo();
            Ok(Ok(ending?))
        }
    }
}

/// The end of a branch's code: what it left over is freed, and literal results come to registers.
fn branch_ending(
    alloc: Global,
    printing: &Printing,
    branch: &Branch,
    block: &FlatBlock,
    number: u32,
    code: &mut Items<Instr>,
) -> Result<Ending, AllocError> {
    let results = block.results.as_slice();
    let words = printing.words(alloc, results, branch.results.as_slice())?;
    let left = left_over(alloc, &branch.context, &printing.homes, branch.count)?;
    end_code(
        alloc,
        printing,
        code,
        Title::Branch(number),
        left.as_slice(),
        words.as_slice(),
    )
}

/// A branch that passed is over: its procedure stands before those of the branches in it.
fn leave_passed(
    alloc: Global,
    printing: &mut Printing,
    branch: &Branch,
    outside: Outside,
    ending: Ending,
    code: Items<Instr>,
) -> Result<Gone, AllocError> {
    let Outside {
        around,
        made,
        passing,
    } = outside;
    printing.free = around.free;
    printing.top = around.top;
    let gone = gone_of(alloc, passing, branch, &ending);
    let added = add_branch(printing, made, proc_of(ending, around.args, code));
    match (gone, added) {
        (Ok(gone), Ok(())) => Ok(gone),
        (gone, _) => {
            drop(gone);
            Err(AllocError)
        }
    }
}

/// The call of a branch, but for the registers of its results.
fn gone_of(
    alloc: Global,
    passing: Passing,
    branch: &Branch,
    ending: &Ending,
) -> Result<Gone, AllocError> {
    match called_of(alloc, branch, ending) {
        Ok((called, shapes)) => Ok(Gone {
            side: side_of(alloc, passing, called),
            shapes,
        }),
        Err(error) => {
            drop(passing);
            Err(error)
        }
    }
}

/// The name of a branch's procedure once more, and the shapes of its results.
fn called_of(
    alloc: Global,
    branch: &Branch,
    ending: &Ending,
) -> Result<(Name, Items<Shape>), AllocError> {
    let shapes = shapes(alloc, branch.results.as_slice())?;
    match ending.name.copy(alloc) {
        Ok(name) => Ok((name, shapes)),
        Err(error) => {
            drop(shapes);
            Err(error)
        }
    }
}

/// The call of a procedure that is passed so much.
fn side_of(alloc: Global, passing: Passing, name: Name) -> Side {
    let Passing {
        args,
        hands,
        lends,
        vars,
        homes,
    } = passing;
    drop((vars, homes));
    Side {
        to: Items::new(alloc),
        proc: name,
        args,
        hands,
        lends,
    }
}

/// One more branch, which stands behind those before it and before those in it.
fn add_branch(printing: &mut Printing, before: Items<Proc>, proc: Proc) -> Result<(), AllocError> {
    let inner = mem::replace(&mut printing.made, before);
    match printing.made.push(proc) {
        Ok(()) => printing.made.append(inner),
        Err(error) => {
            drop(inner);
            Err(error)
        }
    }
}
