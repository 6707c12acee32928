//! The walk over binds.

use facts::Calculation;
use nres_core::{Arg, FlatBind, FlatBlock, Place, Refusal};
use print_blocks::{
    Condition, Forking, Gone, Half, HalfFork, Headed, Joint, Loop, Passing, Starting, Turn,
    WholeFork, begin_loop, begin_par, begin_split, close_branch, close_choice, end_fork, end_head,
    end_loop, first_taken, half_choice, half_fork, open_branch, open_choice, open_either,
    other_taken, whole_fork,
};
use print_steps::{
    Book, Calling, OverSide, Printing, end_side, open_block, print_any, print_apply, print_assert,
    print_calc, print_use,
};
use rule_forks::{Branch, Splitting};
use rule_steps::Operation;
use sqlite_items::Items;
use std::alloc::AllocError;
use target_code::Instr;

/// The binds in order, up to the first refusal.
#[cycle(walk)]
pub(crate) fn print_binds(
    binds: &[FlatBind],
    book: &Book,
    printing: &mut Printing,
    code: &mut Items<Instr>,
) -> Result<Option<Refusal>, AllocError> {
    'each: for bind in binds {
        match print_bind(bind, book, printing, code)? {
            None => {}
            Some(refusal) => return Ok(Some(refusal)),
        }
    }
    let free = printing.free;
    printing.reach(free);
    Ok(None)
}

/// A bind.
#[cycle(walk)]
fn print_bind(
    bind: &FlatBind,
    book: &Book,
    printing: &mut Printing,
    code: &mut Items<Instr>,
) -> Result<Option<Refusal>, AllocError> {
    match bind {
        FlatBind::Calc {
            place,
            out,
            word,
            left,
            right,
        } => {
            let calculation = Calculation {
                place: *place,
                to: *out,
                word: *word,
                left: *left,
                right: *right,
            };
            print_calc(printing, code, calculation)?;
            Ok(None)
        }
        FlatBind::Apply {
            place,
            outs,
            op,
            made,
            args,
        } => {
            let operation = Operation {
                place: *place,
                op: *op,
                made: *made,
                args: args.as_slice(),
                outs: outs.as_slice(),
            };
            print_apply(book, printing, code, &operation)
        }
        FlatBind::Assert { inner, test, .. } => {
            print_assert(book.alloc, printing, inner.as_slice(), *test)?;
            Ok(None)
        }
        FlatBind::Any { out, low, high, .. } => {
            print_any(printing, code, *out, *low, *high)?;
            Ok(None)
        }
        FlatBind::Call {
            place,
            outs,
            fun,
            args,
        } => {
            let calling = Calling {
                place: *place,
                outs: outs.as_slice(),
                fun: *fun,
                args: args.as_slice(),
            };
            print_use(book, printing, code, &calling)
        }
        FlatBind::If {
            place,
            outs,
            test,
            yes,
            no,
        } => {
            let half = print_yes(yes, book, printing, code, *place, *test)?;
            let joint = Joint {
                place: *place,
                outs: outs.as_slice(),
            };
            print_no(no, book, printing, code, half, &joint)
        }
        FlatBind::While {
            place,
            outs,
            vars,
            starts,
            cond,
            test,
            body,
        } => {
            let starting = Starting {
                place: *place,
                starts: starts.as_slice(),
                vars: vars.as_slice(),
            };
            let looping = begin_loop(book, printing, code, &starting)?;
            let condition = Condition {
                binds: cond.as_slice(),
                test: *test,
            };
            let headed = print_head(cond.as_slice(), book, printing, looping, &condition)?;
            let turn = Turn {
                block: body,
                outs: outs.as_slice(),
            };
            print_turn(body, book, printing, code, headed, &turn)
        }
        FlatBind::Par {
            place,
            outs,
            left,
            right,
        } => {
            let opened = begin_par(book, printing, *place, left, right)?;
            let near = print_left(left, book, printing, opened)?;
            let both = print_right(right, book, printing, near)?;
            end_fork(book.alloc, printing, code, outs.as_slice(), both)
        }
        FlatBind::Split {
            place,
            outs,
            list,
            at,
            left_var,
            left,
            right_var,
            right,
        } => {
            let splitting = Splitting {
                place: *place,
                list: *list,
                left_slice: *left_var,
                right_slice: *right_var,
            };
            let opened = begin_split(book, printing, code, &splitting, *at, (left, right))?;
            let near = print_left(left, book, printing, opened)?;
            let both = print_right(right, book, printing, near)?;
            end_fork(book.alloc, printing, code, outs.as_slice(), both)
        }
        FlatBind::Either {
            outs,
            left,
            right,
            ..
        } => {
            let tried = open_either(printing)?;
            let side = print_side(left, book, printing);
            if first_taken(book.alloc, printing, code, outs.as_slice(), tried, side)? {
                return Ok(None);
            }
            print_other(right, book, printing, code, outs.as_slice())
        }
    }
}

/// The second side of `either`, where the first one is refused.
#[cycle(walk)]
fn print_other(
    block: &FlatBlock,
    book: &Book,
    printing: &mut Printing,
    code: &mut Items<Instr>,
    outs: &[u32],
) -> Result<Option<Refusal>, AllocError> {
    let side = print_side(block, book, printing);
    other_taken(book.alloc, printing, code, outs, side)
}

/// A block that is one of two sides. What is known is left as it was.
#[cycle(walk)]
fn print_side(
    block: &FlatBlock,
    book: &Book,
    printing: &mut Printing,
) -> Result<Result<OverSide, Refusal>, AllocError> {
    let begun = open_block(printing)?;
    let mut code = Items::new(book.alloc);
    let said = print_binds(block.binds.as_slice(), book, printing, &mut code);
    end_side(book, printing, begun, block, said, code)
}

/// The first side of `if`, in which its test holds.
#[cycle(walk)]
fn print_yes(
    block: &FlatBlock,
    book: &Book,
    printing: &mut Printing,
    code: &mut Items<Instr>,
    place: Place,
    test: Arg,
) -> Result<Result<Half, Refusal>, AllocError> {
    let tested = open_choice(book.alloc, printing, code, place, test)?;
    let side = print_side(block, book, printing);
    half_choice(printing, tested, side)
}

/// The second side of `if`, where the first one passed, and the bind's results.
#[cycle(walk)]
fn print_no(
    block: &FlatBlock,
    book: &Book,
    printing: &mut Printing,
    code: &mut Items<Instr>,
    half: Result<Half, Refusal>,
    joint: &Joint,
) -> Result<Option<Refusal>, AllocError> {
    match half {
        Ok(half) => {
            let side = print_side(block, book, printing);
            close_choice(book, printing, code, joint, half, side)
        }
        Err(refusal) => Ok(Some(refusal)),
    }
}

/// The condition of a loop that began, if it did.
#[cycle(walk)]
fn print_head(
    binds: &[FlatBind],
    book: &Book,
    printing: &mut Printing,
    looping: Result<Loop, Refusal>,
    condition: &Condition,
) -> Result<Result<Headed, Refusal>, AllocError> {
    match looping {
        Ok(looping) => {
            let mut code = Items::new(book.alloc);
            let said = print_binds(binds, book, printing, &mut code);
            end_head(book, printing, looping, condition, said, code)
        }
        Err(refusal) => Ok(Err(refusal)),
    }
}

/// The body of a loop whose condition passed, if it did, and the loop's results.
#[cycle(walk)]
fn print_turn(
    block: &FlatBlock,
    book: &Book,
    printing: &mut Printing,
    code: &mut Items<Instr>,
    headed: Result<Headed, Refusal>,
    turn: &Turn,
) -> Result<Option<Refusal>, AllocError> {
    match headed {
        Ok(headed) => {
            let mut body = Items::new(book.alloc);
            let said = print_binds(block.binds.as_slice(), book, printing, &mut body);
            end_loop(book, printing, code, headed, turn, (said, body))
        }
        Err(refusal) => Ok(Some(refusal)),
    }
}

/// The left branch of a fork that is opened, if it is.
#[cycle(walk)]
fn print_left(
    block: &FlatBlock,
    book: &Book,
    printing: &mut Printing,
    opened: Result<Forking, Refusal>,
) -> Result<Result<HalfFork, Refusal>, AllocError> {
    match opened {
        Ok(forking) => {
            let Forking {
                fork,
                left,
                right,
                cut,
            } = forking;
            let mut fork = fork;
            let gone = print_branch(block, book, printing, &mut fork.left, left);
            half_fork(fork, right, cut, gone)
        }
        Err(refusal) => Ok(Err(refusal)),
    }
}

/// The right branch of a fork whose left one passed, if it did.
#[cycle(walk)]
fn print_right(
    block: &FlatBlock,
    book: &Book,
    printing: &mut Printing,
    half: Result<HalfFork, Refusal>,
) -> Result<Result<WholeFork, Refusal>, AllocError> {
    match half {
        Ok(half) => {
            let HalfFork {
                fork,
                left,
                right,
                cut,
            } = half;
            let mut fork = fork;
            let gone = print_branch(block, book, printing, &mut fork.right, right);
            whole_fork(fork, left, cut, gone)
        }
        Err(refusal) => Ok(Err(refusal)),
    }
}

/// A branch, with its own entries.
#[cycle(walk)]
fn print_branch(
    block: &FlatBlock,
    book: &Book,
    printing: &mut Printing,
    branch: &mut Branch,
    passing: Passing,
) -> Result<Result<Gone, Refusal>, AllocError> {
    let outside = open_branch(book.alloc, printing, branch, passing)?;
    let mut code = Items::new(book.alloc);
    let said = print_binds(block.binds.as_slice(), book, printing, &mut code);
    close_branch(book, printing, branch, block, outside, (said, code))
}
