//! Loops.

use nres_core::{Arg, FlatBind, FlatBlock, Place, Refusal};
use ownership::{Entry, Shape, bind, looked_up, shapes};
use print_steps::{Begun, Book, Printing, begun_at, block_words, close_block, left_over};
use prints::Home;
use proof_text::ProofLine;
use rule_steps::{end_turn, start_loop};
use sqlite_items::Items;
use std::alloc::{AllocError, Global};
use target_code::{Code, Instr};
use word_homes::{Loaded, frees, load, moves, regs_all, turns};

/// Where a loop began.
#[derive(Clone, Copy)]
pub struct Opening {
    /// What there was where it began, after its starting values had moved in.
    pub begun: Begun,
    /// The register of its first variable.
    pub first: u32,
    /// The place of its line.
    pub line: usize,
}

/// A loop that is open: the entries of its starting values, and what they are in.
#[derive(Drop)]
pub struct Loop {
    /// Where it began.
    pub opening: Opening,
    /// The entries.
    pub starts: Items<Entry>,
    /// What they are in.
    pub shapes: Items<Shape>,
}

/// The head of a loop.
#[derive(Clone, Copy)]
pub struct Starting<'a> {
    /// The place.
    pub place: Place,
    /// The starting values.
    pub starts: &'a [Arg],
    /// The variables that they begin as.
    pub vars: &'a [u32],
}

/// The condition of a loop: its binds, and its test.
#[derive(Clone, Copy)]
pub struct Condition<'a> {
    /// The binds.
    pub binds: &'a [FlatBind],
    /// The test.
    pub test: Arg,
}

/// A loop whose condition was printed.
#[derive(Drop)]
pub struct Headed {
    /// The loop.
    pub looping: Loop,
    /// The code of its condition.
    pub code: Items<Instr>,
    /// The register of its test, and the first that is free behind it.
    pub tested: Loaded,
}

/// A turn of a loop, and the variables of the loop's results.
#[derive(Clone, Copy)]
pub struct Turn<'a> {
    /// The block.
    pub block: &'a FlatBlock,
    /// The variables.
    pub outs: &'a [u32],
}

/// The starting values of a loop move in, and its condition begins.
pub fn begin_loop(
    book: &Book,
    printing: &mut Printing,
    code: &mut Items<Instr>,
    starting: &Starting,
) -> Result<Result<Loop, Refusal>, AllocError> {
    let starts = looked_up(book.alloc, &printing.rules.context, starting.starts)?;
    match start_loop(
        book.alloc,
        book.names,
        &mut printing.rules.context,
        starting.place,
        starts.as_slice(),
    )? {
        None => Ok(Ok(open_loop(book.alloc, printing, code, starting, starts)?)),
        Some(refusal) => Ok(Err(refusal)),
    }
}

/// A loop that passes.
fn open_loop(
    alloc: Global,
    printing: &mut Printing,
    code: &mut Items<Instr>,
    starting: &Starting,
    starts: Items<Entry>,
) -> Result<Loop, AllocError> {
    match move_in(alloc, printing, code, starting, starts.as_slice()) {
        Ok((opening, shapes)) => Ok(Loop {
            opening,
            starts,
            shapes,
        }),
        Err(error) => {
            drop(starts);
            Err(error)
        }
    }
}

/// The starting values of a loop move in. Gives what they are in.
fn move_in(
    alloc: Global,
    printing: &mut Printing,
    code: &mut Items<Instr>,
    starting: &Starting,
    starts: &[Entry],
) -> Result<(Opening, Items<Shape>), AllocError> {
    let words = printing.words(alloc, starting.starts, starts)?;
    moves(code, printing.free, words.as_slice())?;
    let shapes = shapes(alloc, starts)?;
    match open_head(printing, starting.vars, shapes.as_slice()) {
        Ok(opening) => Ok((opening, shapes)),
        Err(error) => {
            drop(shapes);
            Err(error)
        }
    }
}

/// Inside a loop containers from outside are kept, and in its condition those of the loop are too.
fn open_head(
    printing: &mut Printing,
    vars: &[u32],
    shapes: &[Shape],
) -> Result<Opening, AllocError> {
    let begun = begun_at(printing);
    let first = printing.free;
    printing.rules.context.mark()?;
    printing.rules.context.lend();
    bind(&mut printing.rules.context, vars, shapes)?;
    printing.homes.mark()?;
    printing.bind(first, vars, shapes)?;
    printing.rules.context.mark()?;
    printing.rules.context.lend();
    printing.homes.mark()?;
    printing.rules.start = printing.rules.calculations.len();
    let line = printing.lines.len();
    printing.lines.push(ProofLine::Other)?;
    Ok(Opening { begun, first, line })
}

/// The condition of a loop was printed, unless it is refused: a turn begins.
pub fn end_head(
    book: &Book,
    printing: &mut Printing,
    looping: Loop,
    condition: &Condition,
    said: Result<Option<Refusal>, AllocError>,
    code: Items<Instr>,
) -> Result<Result<Headed, Refusal>, AllocError> {
    match said {
        Ok(None) => pass_head(book, printing, looping, condition, code),
        Ok(Some(refusal)) => {
            printing.homes.undo();
            printing.rules.context.undo();
            close_block(printing, looping.opening.begun);
            drop((looping, code));
            Ok(Err(refusal))
        }
        Err(error) => {
            drop((looping, code));
            Err(error)
        }
    }
}

/// A condition that passes.
fn pass_head(
    book: &Book,
    printing: &mut Printing,
    looping: Loop,
    condition: &Condition,
    code: Items<Instr>,
) -> Result<Result<Headed, Refusal>, AllocError> {
    let mut code = code;
    match begin_turn(book.alloc, printing, &looping, condition, &mut code) {
        Ok(tested) => Ok(Ok(Headed {
            looping,
            code,
            tested,
        })),
        Err(error) => {
            drop((looping, code));
            Err(error)
        }
    }
}

/// The condition is over: what it made is freed, its test comes to a register, and holds in the turn that begins.
fn begin_turn(
    alloc: Global,
    printing: &mut Printing,
    looping: &Loop,
    condition: &Condition,
    code: &mut Items<Instr>,
) -> Result<Loaded, AllocError> {
    let count = looping
        .opening
        .begun
        .count
        .saturating_add(looping.shapes.len());
    let left = left_over(alloc, &printing.rules.context, &printing.homes, count)?;
    frees(code, left.as_slice())?;
    let tested = load(code, printing.free, printing.home(condition.test))?;
    printing.free = tested.free;
    printing.homes.undo();
    let rules = &mut printing.rules;
    rules.context.undo();
    rules.facts.leave(looping.opening.begun.facts);
    rules.calculations.leave(rules.start);
    rules
        .calculations
        .learn_assert(alloc, condition.binds, condition.test, &mut rules.facts)?;
    rules.start = rules.calculations.len();
    Ok(tested)
}

/// A turn was printed, unless it is refused: its results come to the registers of the loop's variables, and the loop is over.
pub fn end_loop(
    book: &Book,
    printing: &mut Printing,
    code: &mut Items<Instr>,
    headed: Headed,
    turn: &Turn,
    printed: (Result<Option<Refusal>, AllocError>, Items<Instr>),
) -> Result<Option<Refusal>, AllocError> {
    let (said, body) = printed;
    match said {
        Ok(None) => pass_turn(book, printing, code, headed, turn, body),
        Ok(Some(refusal)) => {
            close_block(printing, headed.looping.opening.begun);
            drop((headed, body));
            Ok(Some(refusal))
        }
        Err(error) => {
            drop((headed, body));
            Err(error)
        }
    }
}

/// The end of a turn whose binds pass.
fn pass_turn(
    book: &Book,
    printing: &mut Printing,
    code: &mut Items<Instr>,
    headed: Headed,
    turn: &Turn,
    body: Items<Instr>,
) -> Result<Option<Refusal>, AllocError> {
    let mut body = body;
    match close_turn(book, printing, &headed.looping, turn.block, &mut body) {
        Ok(None) => {
            leave_loop(book.alloc, printing, code, headed, turn.outs, body)?;
            Ok(None)
        }
        Ok(Some(refusal)) => {
            drop((headed, body));
            Ok(Some(refusal))
        }
        Err(error) => {
            drop((headed, body));
            Err(error)
        }
    }
}

/// A turn is over, and with it the loop: all is known as it was before.
fn close_turn(
    book: &Book,
    printing: &mut Printing,
    looping: &Loop,
    block: &FlatBlock,
    body: &mut Items<Instr>,
) -> Result<Option<Refusal>, AllocError> {
    let words = block_words(book.alloc, printing, block)?;
    let begun = looping.opening.begun;
    let refused = end_turn(
        book.alloc,
        book.names,
        &mut printing.rules.context,
        begun.count,
        looping.starts.as_slice(),
        block,
    )?;
    let turned = turn_code(book.alloc, printing, looping, words.as_slice(), body);
    close_block(printing, begun);
    match turned {
        Ok(()) => Ok(refused),
        Err(error) => {
            drop(refused);
            Err(error)
        }
    }
}

/// The end of a turn's code: what it left over is freed, and its results come to the registers of the loop's variables.
fn turn_code(
    alloc: Global,
    printing: &mut Printing,
    looping: &Loop,
    words: &[Home],
    body: &mut Items<Instr>,
) -> Result<(), AllocError> {
    let left = left_over(
        alloc,
        &printing.rules.context,
        &printing.homes,
        looping.opening.begun.count,
    )?;
    frees(body, left.as_slice())?;
    let top = turns(alloc, body, looping.opening.first, printing.free, words)?;
    printing.reach(top);
    Ok(())
}

/// Behind a loop only what stands at its test counts; its results stand where its variables did.
fn leave_loop(
    alloc: Global,
    printing: &mut Printing,
    code: &mut Items<Instr>,
    headed: Headed,
    outs: &[u32],
    body: Items<Instr>,
) -> Result<(), AllocError> {
    let Headed {
        looping,
        code: cond,
        tested,
    } = headed;
    let bound = bind_results(alloc, printing, &looping, outs, tested.free);
    drop(looping);
    match bound {
        Ok(()) => code.push(Instr::While {
            cond: Code { list: cond },
            test: tested.reg,
            body: Code { list: body },
        }),
        Err(error) => {
            drop((cond, body));
            Err(error)
        }
    }
}

/// The results of a loop stand where its variables did.
fn bind_results(
    alloc: Global,
    printing: &mut Printing,
    looping: &Loop,
    outs: &[u32],
    free: u32,
) -> Result<(), AllocError> {
    let shapes = looping.shapes.as_slice();
    let opening = looping.opening;
    bind(&mut printing.rules.context, outs, shapes)?;
    printing.bind(opening.first, outs, shapes)?;
    printing.free = free;
    let line = regs_all(alloc, opening.first, shapes)?;
    printing.put_line(opening.line, ProofLine::While(line));
    Ok(())
}
