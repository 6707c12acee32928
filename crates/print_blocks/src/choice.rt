//! The two sides of `if`, and where they meet.

use branch_merge::meet;
use nres_core::{Arg, Place, Refusal};
use ownership::{bind, shapes};
use print_steps::{Book, Over, OverSide, Printing};
use prints::Home;
use proof_text::ProofLine;
use rule_steps::refuse;
use sqlite_items::Items;
use std::alloc::{AllocError, Global};
use target_code::{Code, Instr};
use word_homes::{frees, load, moves, regs_all};

/// An `if` whose test was printed.
#[derive(Clone, Copy)]
pub struct Tested {
    /// The register of the test.
    pub test: u32,
    /// The first register that is free behind it.
    pub free: u32,
    /// The place of its line.
    pub line: usize,
    /// How many facts there were before the test was known to hold.
    pub facts: usize,
}

/// An `if` whose first side was printed.
#[derive(Drop)]
pub struct Half {
    /// Its test.
    pub tested: Tested,
    /// The side.
    pub yes: OverSide,
}

/// Where an `if` stands, and the variables of its results.
#[derive(Clone, Copy)]
pub struct Joint<'a> {
    /// The place.
    pub place: Place,
    /// The variables.
    pub outs: &'a [u32],
}

/// Where the containers of each side stand that went on the other side alone, the newest first.
#[derive(Drop)]
struct Lost {
    yes: Items<Home>,
    no: Items<Home>,
}

/// The test of an `if` comes to a register, and holds from here on.
pub fn open_choice(
    alloc: Global,
    printing: &mut Printing,
    code: &mut Items<Instr>,
    place: Place,
    test: Arg,
) -> Result<Tested, AllocError> {
    let loaded = load(code, printing.free, printing.home(test))?;
    printing.free = loaded.free;
    let line = printing.lines.len();
    printing.lines.push(ProofLine::Other)?;
    let rules = &mut printing.rules;
    let facts = rules.facts.len();
    rules
        .calculations
        .learn_if(alloc, rules.start, place, test, &mut rules.facts)?;
    Ok(Tested {
        test: loaded.reg,
        free: loaded.free,
        line,
        facts,
    })
}

/// The first side was printed, if it was, and its test is not known any longer.
pub fn half_choice(
    printing: &mut Printing,
    tested: Tested,
    side: Result<Result<OverSide, Refusal>, AllocError>,
) -> Result<Result<Half, Refusal>, AllocError> {
    printing.rules.facts.leave(tested.facts);
    printing.free = tested.free;
    match side {
        Ok(Ok(yes)) => Ok(Ok(Half { tested, yes })),
        Ok(Err(refusal)) => Ok(Err(refusal)),
        Err(error) => Err(error),
    }
}

/// The second side was printed, if it was: the sides meet.
pub fn close_choice(
    book: &Book,
    printing: &mut Printing,
    code: &mut Items<Instr>,
    joint: &Joint,
    half: Half,
    side: Result<Result<OverSide, Refusal>, AllocError>,
) -> Result<Option<Refusal>, AllocError> {
    match side {
        Ok(Ok(no)) => join_sides(book, printing, code, joint, half, no),
        Ok(Err(refusal)) => {
            drop(half);
            Ok(Some(refusal))
        }
        Err(error) => {
            drop(half);
            Err(error)
        }
    }
}

/// The sides meet: the code of both, whose results stand in the same registers.
fn join_sides(
    book: &Book,
    printing: &mut Printing,
    code: &mut Items<Instr>,
    joint: &Joint,
    half: Half,
    no: OverSide,
) -> Result<Option<Refusal>, AllocError> {
    let first = half.yes.over.free.max(no.over.free);
    match meet_sides(book, printing, joint, &half, &no, first) {
        Ok(Ok(lost)) => {
            push_if(code, half, no, lost, first)?;
            Ok(None)
        }
        Ok(Err(refusal)) => {
            drop((half, no));
            Ok(Some(refusal))
        }
        Err(error) => {
            drop((half, no));
            Err(error)
        }
    }
}

/// The results of two sides stand from this register on, unless the sides do not meet.
fn meet_sides(
    book: &Book,
    printing: &mut Printing,
    joint: &Joint,
    half: &Half,
    no: &OverSide,
    first: u32,
) -> Result<Result<Lost, Refusal>, AllocError> {
    match meet(
        book.alloc,
        &mut printing.rules.context,
        &half.yes.side,
        &no.side,
    )? {
        Some(fault) => Ok(Err(refuse(book.alloc, book.names, joint.place, b"if", &[], fault)?)),
        None => {
            let lost = lost_sides(book.alloc, printing, &half.yes, no)?;
            match bind_joint(book.alloc, printing, joint.outs, half, first) {
                Ok(()) => Ok(Ok(lost)),
                Err(error) => {
                    drop(lost);
                    Err(error)
                }
            }
        }
    }
}

/// The results of an `if` stand from this register on.
fn bind_joint(
    alloc: Global,
    printing: &mut Printing,
    outs: &[u32],
    half: &Half,
    first: u32,
) -> Result<(), AllocError> {
    let shapes = shapes(alloc, half.yes.side.results.as_slice())?;
    bind(&mut printing.rules.context, outs, shapes.as_slice())?;
    let line = regs_all(alloc, first, shapes.as_slice())?;
    printing.put_line(half.tested.line, ProofLine::If(line));
    printing.bind(first, outs, shapes.as_slice())
}

/// An `if` with the code of both sides.
fn push_if(
    code: &mut Items<Instr>,
    half: Half,
    no: OverSide,
    lost: Lost,
    first: u32,
) -> Result<(), AllocError> {
    let Half { tested, yes } = half;
    let yes = side_code(yes, lost.yes.as_slice(), first);
    let no = side_code(no, lost.no.as_slice(), first);
    drop(lost);
    match (yes, no) {
        (Ok(yes), Ok(no)) => code.push(Instr::If {
            test: tested.test,
            yes,
            no,
        }),
        (yes, no) => {
            drop((yes, no));
            Err(AllocError)
        }
    }
}

/// The code of a side: what it left over and what went on the other side alone is freed, and its results come to registers.
fn side_code(side: OverSide, lost: &[Home], first: u32) -> Result<Code, AllocError> {
    let OverSide { code, over, side } = side;
    let mut list = code;
    let ended = end_side_code(&mut list, &over, lost, first);
    drop((over, side));
    match ended {
        Ok(()) => Ok(Code { list }),
        Err(error) => {
            drop(list);
            Err(error)
        }
    }
}

/// The end of the code of a side.
fn end_side_code(
    list: &mut Items<Instr>,
    over: &Over,
    lost: &[Home],
    first: u32,
) -> Result<(), AllocError> {
    frees(list, over.left.as_slice())?;
    frees(list, lost)?;
    moves(list, first, over.words.as_slice())
}

/// Where the containers stand that went on one side alone.
fn lost_sides(
    alloc: Global,
    printing: &Printing,
    yes: &OverSide,
    no: &OverSide,
) -> Result<Lost, AllocError> {
    let on_yes = lost_of(
        alloc,
        printing,
        yes.side.went.as_slice(),
        no.side.went.as_slice(),
    )?;
    match lost_of(
        alloc,
        printing,
        no.side.went.as_slice(),
        yes.side.went.as_slice(),
    ) {
        Ok(on_no) => Ok(Lost {
            yes: on_yes,
            no: on_no,
        }),
        Err(error) => {
            drop(on_yes);
            Err(error)
        }
    }
}

/// Where the containers stand that went on the other side alone, the newest first.
fn lost_of(
    alloc: Global,
    printing: &Printing,
    own: &[usize],
    other: &[usize],
) -> Result<Items<Home>, AllocError> {
    let places = only_there(alloc, own, other)?;
    let mut homes = Items::new(alloc);
    'each: for place in places.as_slice() {
        if let Some(entry) = printing.rules.context.get(*place) {
            homes.push(printing.homes.get(entry.var))?;
        }
    }
    Ok(homes)
}

/// The places that are among the second ones alone, the greatest first.
fn only_there(alloc: Global, own: &[usize], other: &[usize]) -> Result<Vec<usize>, AllocError> {
    let mut own_sorted = Vec::new(alloc);
    own_sorted.extend_from_slice(own)?;
    own_sorted.sort_unstable();
    let mut places = Vec::new(alloc);
    'each: for place in other {
        if own_sorted.as_slice().binary_search(place).is_err() {
            places.push(*place)?;
        }
    }
    places.sort_unstable();
    places.reverse();
    Ok(places)
}
