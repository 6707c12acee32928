//! A specification and its procedures.

use crate::walk::print_binds;
use body_rules::{Header, begin_body, end_body};
use nres_core::{Flat, FlatBlock, Refusal};
use print_steps::{
    Book, Ending, Printing, Title, block_words, empty_rules, end_code, left_over, proc_of,
};
use prints::Home;
use proof_text::ProofLine;
use sqlite_items::Items;
use std::alloc::{AllocError, Global};
use target_code::{InParam, Instr, Proc};
use var_count::behind as variables_behind;
use word_homes::{Homes, behind};

/// Procedures in text order, `main` first, their branches, and the lines of them all.
#[derive(Drop)]
pub struct Printed {
    /// The procedures.
    pub own: Items<Proc>,
    /// The branches.
    pub made: Items<Proc>,
    /// The lines.
    pub lines: Items<ProofLine>,
}

/// A body: what names its procedure, its first variable, what it takes and gives, and its block.
#[derive(Clone, Copy)]
struct Body<'a> {
    title: Title,
    first: u32,
    header: Header<'a>,
    block: &'a FlatBlock,
}

/// What is printed for a flat specification and its procedures, or the refusal of the rule check.
pub fn print_all(alloc: Global, flat: &Flat) -> Result<Result<Printed, Refusal>, AllocError> {
    let mut printing = Printing::new(alloc);
    let refused = print_bodies(alloc, &mut printing, flat);
    all_printed(printing, refused)
}

/// What was printed, unless it is refused.
fn all_printed(
    printing: Printing,
    refused: Result<Option<Refusal>, AllocError>,
) -> Result<Result<Printed, Refusal>, AllocError> {
    match refused {
        Ok(None) => Ok(Ok(kept(printing))),
        Ok(Some(refusal)) => {
            drop(printing);
            Ok(Err(refusal))
        }
        Err(error) => {
            drop(printing);
            Err(error)
        }
    }
}

/// What is kept of all that was printed.
fn kept(printing: Printing) -> Printed {
    let Printing {
        rules,
        homes,
        lines,
        own,
        made,
        ..
    } = printing;
    drop((rules, homes));
    Printed { own, made, lines }
}

/// The specification, and its procedures in text order.
fn print_bodies(
    alloc: Global,
    printing: &mut Printing,
    flat: &Flat,
) -> Result<Option<Refusal>, AllocError> {
    let book = Book {
        alloc,
        names: flat.names.as_slice(),
        funs: flat.funs.as_slice(),
    };
    let header = Header {
        params: flat.params.as_slice(),
        shown: flat.shown.as_slice(),
    };
    let body = Body {
        title: Title::Main,
        first: 0,
        header,
        block: &flat.body,
    };
    match print_body(&book, printing, &body)? {
        Some(refusal) => Ok(Some(refusal)),
        None => {
            let next = variables_behind(0, header.params, &flat.body)?;
            print_procs(&book, printing, next)
        }
    }
}

/// The procedures in text order, whose variables are those from this one on.
fn print_procs(
    book: &Book,
    printing: &mut Printing,
    first: u32,
) -> Result<Option<Refusal>, AllocError> {
    let mut next = first;
    let mut number = 0;
    'each: for fun in book.funs {
        let header = Header {
            params: fun.params.as_slice(),
            shown: fun.shown.as_slice(),
        };
        let body = Body {
            title: Title::Procedure(number),
            first: next,
            header,
            block: &fun.body,
        };
        match print_body(book, printing, &body)? {
            None => {}
            Some(refusal) => return Ok(Some(refusal)),
        }
        next = variables_behind(next, header.params, &fun.body)?;
        number = behind(number, 1)?;
    }
    Ok(None)
}

/// A body becomes a procedure.
fn print_body(
    book: &Book,
    printing: &mut Printing,
    body: &Body,
) -> Result<Option<Refusal>, AllocError> {
    let args = open_body(book.alloc, printing, body)?;
    let mut code = Items::new(book.alloc);
    match print_binds(body.block.binds.as_slice(), book, printing, &mut code) {
        Ok(None) => close_body(book, printing, body, args, code),
        Ok(Some(refusal)) => {
            drop(code);
            Ok(Some(refusal))
        }
        Err(error) => {
            drop(code);
            Err(error)
        }
    }
}

/// A body begins: its parameters stand in the first registers. Gives the register behind them.
fn open_body(alloc: Global, printing: &mut Printing, body: &Body) -> Result<u32, AllocError> {
    printing.rules = empty_rules(alloc);
    printing.homes = Homes::new(alloc);
    printing.top = 0;
    begin_body(&mut printing.rules.context, body.first, body.header.params)?;
    let args = begin_homes(printing, body.first, body.header.params)?;
    printing.free = args;
    Ok(args)
}

/// The parameters stand in the first registers. Gives the register behind them.
fn begin_homes(printing: &mut Printing, first: u32, params: &[InParam]) -> Result<u32, AllocError> {
    let mut var = first;
    let mut reg = 0;
    'each: for param in params {
        printing.homes.put(var, Home::Register(reg))?;
        reg = behind(reg, param.rep.width())?;
        var = behind(var, 1)?;
    }
    Ok(reg)
}

/// A body that was printed ends.
fn close_body(
    book: &Book,
    printing: &mut Printing,
    body: &Body,
    args: u32,
    code: Items<Instr>,
) -> Result<Option<Refusal>, AllocError> {
    let mut code = code;
    match end_procedure(book, printing, body, &mut code) {
        Ok(Ok(ending)) => {
            printing.own.push(proc_of(ending, args, code))?;
            Ok(None)
        }
        Ok(Err(refusal)) => {
            drop(code);
            Ok(Some(refusal))
        }
        Err(error) => {
            drop(code);
            Err(error)
        }
    }
}

/// The end of a body: what is left over is freed, and literal results come to registers.
fn end_procedure(
    book: &Book,
    printing: &mut Printing,
    body: &Body,
    code: &mut Items<Instr>,
) -> Result<Result<Ending, Refusal>, AllocError> {
    let words = block_words(book.alloc, printing, body.block)?;
    match end_body(
        book.alloc,
        book.names,
        &mut printing.rules.context,
        body.first,
        &body.header,
        body.block,
    )? {
        None => Ok(Ok(end_with(book.alloc, printing, body, words.as_slice(), code)?)),
        Some(refusal) => Ok(Err(refusal)),
    }
}

/// The end of a body that passes, with the words of its results.
fn end_with(
    alloc: Global,
    printing: &Printing,
    body: &Body,
    words: &[Home],
    code: &mut Items<Instr>,
) -> Result<Ending, AllocError> {
    let left = left_over(alloc, &printing.rules.context, &printing.homes, 0)?;
    end_code(alloc, printing, code, body.title, left.as_slice(), words)
}
