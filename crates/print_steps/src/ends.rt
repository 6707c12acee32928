//! The ends of blocks.

use crate::book::Book;
use crate::printing::Printing;
use crate::titles::{Title, name_of};
use branch_merge::Side;
use nres_core::{FlatBlock, Refusal};
use ownership::{Context, Entry, looked_up};
use prints::Home;
use rule_steps::finish;
use sqlite_items::Items;
use std::alloc::{AllocError, Global};
use target_code::{Code, Instr, Name, Proc};
use word_homes::{Homes, args_words, frees, loads};

/// Where a block began.
#[derive(Clone, Copy)]
pub struct Begun {
    /// How many entries there were.
    pub count: usize,
    /// How many facts there were.
    pub facts: usize,
    /// Where the list of binds around it began.
    pub start: usize,
}

/// What the end of a side needs beside its code.
#[derive(Drop)]
pub struct Over {
    /// The words of its results.
    pub words: Items<Home>,
    /// The homes of the results.
    pub homes: Items<Home>,
    /// Where the containers stand that it made and did not give, the newest first.
    pub left: Items<Home>,
    /// The first register that is free at its end.
    pub free: u32,
}

/// A side that is over: the code of its binds, what its end needs, and what the rule check has of it.
#[derive(Drop)]
pub struct OverSide {
    /// The code.
    pub code: Items<Instr>,
    /// The block.
    pub over: Over,
    /// Its results, and the places that went in it.
    pub side: Side,
}

/// Where all stands.
pub fn begun_at(printing: &Printing) -> Begun {
    Begun {
        count: printing.rules.context.len(),
        facts: printing.rules.facts.len(),
        start: printing.rules.start,
    }
}

/// A block begins.
pub fn open_block(printing: &mut Printing) -> Result<Begun, AllocError> {
    let begun = begun_at(printing);
    printing.homes.mark()?;
    printing.rules.context.mark()?;
    printing.rules.start = printing.rules.calculations.len();
    Ok(begun)
}

/// A block is over: what is known is as it was where it began.
pub fn close_block(printing: &mut Printing, begun: Begun) {
    printing.homes.undo();
    printing.rules.context.undo();
    printing.rules.facts.leave(begun.facts);
    printing.rules.calculations.leave(printing.rules.start);
    printing.rules.start = begun.start;
}

/// A side ends, whose binds were printed unless they are refused.
pub fn end_side(
    book: &Book,
    printing: &mut Printing,
    begun: Begun,
    block: &FlatBlock,
    said: Result<Option<Refusal>, AllocError>,
    code: Items<Instr>,
) -> Result<Result<OverSide, Refusal>, AllocError> {
    match said {
        Ok(None) => {
            let ending = side_over(book, printing, begun.count, block);
            close_block(printing, begun);
            side_of(ending, code)
        }
        Ok(Some(refusal)) => {
            close_block(printing, begun);
            drop(code);
            Ok(Err(refusal))
        }
        Err(error) => {
            drop(code);
            Err(error)
        }
    }
}

/// A side with its code.
fn side_of(
    ending: Result<Result<(Over, Side), Refusal>, AllocError>,
    code: Items<Instr>,
) -> Result<Result<OverSide, Refusal>, AllocError> {
    match ending {
        Ok(Ok((over, side))) => Ok(Ok(OverSide { code, over, side })),
        Ok(Err(refusal)) => {
            drop(code);
            Ok(Err(refusal))
        }
        Err(error) => {
            drop(code);
            Err(error)
        }
    }
}

/// The end of a side: its results move out.
fn side_over(
    book: &Book,
    printing: &mut Printing,
    count: usize,
    block: &FlatBlock,
) -> Result<Result<(Over, Side), Refusal>, AllocError> {
    match finish(
        book.alloc,
        book.names,
        &mut printing.rules.context,
        count,
        None,
        block,
    )? {
        Ok(results) => Ok(Ok(side_with(book.alloc, printing, count, block, results)?)),
        Err(refusal) => Ok(Err(refusal)),
    }
}

/// The end of a side that has these results.
fn side_with(
    alloc: Global,
    printing: &Printing,
    count: usize,
    block: &FlatBlock,
    results: Items<Entry>,
) -> Result<(Over, Side), AllocError> {
    match over_with(alloc, printing, count, block, results.as_slice()) {
        Ok((over, went)) => Ok((over, Side { went, results })),
        Err(error) => {
            drop(results);
            Err(error)
        }
    }
}

/// What the end of a side needs, and the places that went in it, once its results have moved out.
fn over_with(
    alloc: Global,
    printing: &Printing,
    count: usize,
    block: &FlatBlock,
    results: &[Entry],
) -> Result<(Over, Items<usize>), AllocError> {
    let homes = printing.homes(alloc, block.results.as_slice())?;
    let mut words = Items::new(alloc);
    args_words(&mut words, homes.as_slice(), results)?;
    let left = left_over(alloc, &printing.rules.context, &printing.homes, count)?;
    let went = printing.rules.context.went(alloc)?;
    let over = Over {
        words,
        homes,
        left,
        free: printing.free,
    };
    Ok((over, went))
}

/// The words of a block's results, before they move out.
pub fn block_words(
    alloc: Global,
    printing: &Printing,
    block: &FlatBlock,
) -> Result<Items<Home>, AllocError> {
    let results = looked_up(alloc, &printing.rules.context, block.results.as_slice())?;
    printing.words(alloc, block.results.as_slice(), results.as_slice())
}

/// Where the owned containers stand that came after so many entries, the newest first.
pub fn left_over(
    alloc: Global,
    context: &Context,
    homes: &Homes,
    count: usize,
) -> Result<Items<Home>, AllocError> {
    let mut left = Items::new(alloc);
    let mut index = context.len();
    'each: while index > count {
        index -= 1;
        if let Some(entry) = context.get(index) {
            if entry.is_free() {
                left.push(homes.get(entry.var))?;
            }
        }
    }
    Ok(left)
}

/// The name of a procedure that is over, its number of registers, and those that it gives.
#[derive(Drop)]
pub struct Ending {
    /// The name.
    pub name: Name,
    /// The number of registers.
    pub regs: u32,
    /// The registers of the results.
    pub ret: Items<u32>,
}

/// The end of a procedure's code: what is left over is freed, and literal results come to registers.
pub fn end_code(
    alloc: Global,
    printing: &Printing,
    code: &mut Items<Instr>,
    title: Title,
    left: &[Home],
    words: &[Home],
) -> Result<Ending, AllocError> {
    frees(code, left)?;
    let name = name_of(alloc, title)?;
    match loads(alloc, code, printing.free, words) {
        Ok(loaded) => Ok(Ending {
            name,
            regs: printing.top.max(loaded.free),
            ret: loaded.regs,
        }),
        Err(error) => {
            drop(name);
            Err(error)
        }
    }
}

/// A procedure with so many arguments.
pub fn proc_of(ending: Ending, args: u32, code: Items<Instr>) -> Proc {
    let Ending { name, regs, ret } = ending;
    Proc {
        name,
        args,
        regs,
        code: Code { list: code },
        ret,
    }
}
