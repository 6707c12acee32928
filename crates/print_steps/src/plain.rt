//! Binds without blocks.

use crate::book::{Book, sig_in};
use crate::printing::Printing;
use crate::rows::{lib_word, row_words, var_shapes};
use crate::titles::{Title, name_of};
use facts::Calculation;
use nres_core::{Arg, FlatBind, LibName, Place, Refusal, Row, RowCode};
use ownership::{Entry, Shape, bind, looked_up};
use prints::Home;
use proc_rules::{Sig, call_shapes, lists, take_call};
use proof_text::ProofLine;
use row_index::row_of;
use rule_steps::{Operation, apply, assert_step, calculate, choose, refuse, reps};
use sqlite_items::Items;
use std::alloc::{AllocError, Global};
use target_code::{Instr, Name};
use word_homes::{behind, first_word_at, load, loads, regs_all};

/// A calculation.
pub fn print_calc(
    printing: &mut Printing,
    code: &mut Items<Instr>,
    calculation: Calculation,
) -> Result<(), AllocError> {
    let left = load(code, printing.free, printing.home(calculation.left))?;
    let right = load(code, left.free, printing.home(calculation.right))?;
    let rules = &mut printing.rules;
    // The list of binds around it began at a calculation from before.
    rules.start = rules.start.min(rules.calculations.len());
    calculate(rules, calculation)?;
    code.push(Instr::Calc {
        to: right.free,
        word: calculation.word,
        left: left.reg,
        right: right.reg,
    })?;
    printing
        .homes
        .put(calculation.to, Home::Register(right.free))?;
    printing.free = behind(right.free, 1)?;
    printing.lines.push(ProofLine::Calc)
}

/// Any number below another: the lower one.
pub fn print_any(
    printing: &mut Printing,
    code: &mut Items<Instr>,
    out: u32,
    low: Arg,
    high: Arg,
) -> Result<(), AllocError> {
    let loaded = load(code, printing.free, printing.home(low))?;
    choose(&mut printing.rules, out, high)?;
    printing.homes.put(out, Home::Register(loaded.reg))?;
    printing.free = loaded.free;
    printing.lines.push(ProofLine::Any(loaded.reg))
}

/// A test that holds: nothing is printed for it.
pub fn print_assert(
    alloc: Global,
    printing: &mut Printing,
    inner: &[FlatBind],
    test: Arg,
) -> Result<(), AllocError> {
    assert_step(alloc, &mut printing.rules, inner, test)
}

/// An operation.
pub fn print_apply(
    book: &Book,
    printing: &mut Printing,
    code: &mut Items<Instr>,
    operation: &Operation,
) -> Result<Option<Refusal>, AllocError> {
    let entries = looked_up(book.alloc, &printing.rules.context, operation.args)?;
    let kinds = reps(book.alloc, entries.as_slice())?;
    let row = row_of(operation.op, kinds.as_slice(), operation.made);
    drop(kinds);
    match apply(book.alloc, book.names, &mut printing.rules, operation)? {
        Some(refusal) => Ok(Some(refusal)),
        None => {
            print_met(
                book.alloc,
                printing,
                code,
                operation,
                entries.as_slice(),
                row,
            )?;
            Ok(None)
        }
    }
}

/// An operation that passes, with the row that it meets.
fn print_met(
    alloc: Global,
    printing: &mut Printing,
    code: &mut Items<Instr>,
    operation: &Operation,
    entries: &[Entry],
    row: Option<Row>,
) -> Result<(), AllocError> {
    match row {
        Some(row) => print_row(alloc, printing, code, operation, entries, row.code),
        None => Ok(()),
    }
}

/// A row that was met.
fn print_row(
    alloc: Global,
    printing: &mut Printing,
    code: &mut Items<Instr>,
    operation: &Operation,
    entries: &[Entry],
    row: RowCode,
) -> Result<(), AllocError> {
    let homes = printing.homes(alloc, operation.args)?;
    match row {
        RowCode::Register(word) => {
            let home = first_word_at(homes.as_slice(), word as usize)?;
            printing.alias(operation.outs, &[home])?;
            printing.lines.push(ProofLine::Reg)
        }
        RowCode::Proc(name) => {
            let words = row_words(alloc, operation.made, homes.as_slice(), entries)?;
            print_lib(
                alloc,
                printing,
                code,
                operation.outs,
                name,
                words.as_slice(),
            )
        }
    }
}

/// A call of a procedure of the library.
fn print_lib(
    alloc: Global,
    printing: &mut Printing,
    code: &mut Items<Instr>,
    outs: &[u32],
    name: LibName,
    words: &[Home],
) -> Result<(), AllocError> {
    let results = var_shapes(alloc, &printing.rules.context, outs)?;
    let called = lib_word(alloc, name)?;
    print_call(alloc, printing, code, called, words, results.as_slice())?;
    bind_results(printing, outs, results.as_slice())?;
    let line = lib_word(alloc, name)?;
    printing.lines.push(ProofLine::Row(line))
}

/// A call on words, whose results come to the first free registers behind those that literals took.
fn print_call(
    alloc: Global,
    printing: &mut Printing,
    code: &mut Items<Instr>,
    name: Name,
    words: &[Home],
    results: &[Shape],
) -> Result<(), AllocError> {
    match call_registers(alloc, printing, code, words, results) {
        Ok((args, to)) => code.push(Instr::Call {
            to,
            proc: name,
            args,
        }),
        Err(error) => {
            drop(name);
            Err(error)
        }
    }
}

/// The registers of a call's arguments, and of its results.
fn call_registers(
    alloc: Global,
    printing: &mut Printing,
    code: &mut Items<Instr>,
    words: &[Home],
    results: &[Shape],
) -> Result<(Items<u32>, Items<u32>), AllocError> {
    let loaded = loads(alloc, code, printing.free, words)?;
    printing.free = loaded.free;
    let to = regs_all(alloc, loaded.free, results)?;
    Ok((loaded.regs, to))
}

/// The results of what was called last stand in the first free registers.
fn bind_results(
    printing: &mut Printing,
    outs: &[u32],
    results: &[Shape],
) -> Result<(), AllocError> {
    let first = printing.free;
    printing.bind(first, outs, results)
}

/// A call of the procedure of this number.
#[derive(Clone, Copy)]
pub struct Calling<'a> {
    /// The place.
    pub place: Place,
    /// The variables of the results.
    pub outs: &'a [u32],
    /// The number.
    pub fun: u32,
    /// The arguments.
    pub args: &'a [Arg],
}

/// A call of a procedure of the text.
pub fn print_use(
    book: &Book,
    printing: &mut Printing,
    code: &mut Items<Instr>,
    calling: &Calling,
) -> Result<Option<Refusal>, AllocError> {
    let entries = looked_up(book.alloc, &printing.rules.context, calling.args)?;
    let sig = sig_in(book, calling.fun);
    match take_call(
        book.alloc,
        &mut printing.rules.context,
        sig,
        entries.as_slice(),
    )? {
        Some(fault) => Ok(Some(refuse(
            book.alloc,
            book.names,
            calling.place,
            b"call",
            entries.as_slice(),
            fault,
        )?)),
        None => {
            print_taken(book.alloc, printing, code, calling, sig, entries.as_slice())?;
            Ok(None)
        }
    }
}

/// A call that is allowed.
fn print_taken(
    alloc: Global,
    printing: &mut Printing,
    code: &mut Items<Instr>,
    calling: &Calling,
    sig: Option<Sig>,
    entries: &[Entry],
) -> Result<(), AllocError> {
    match sig {
        Some(sig) => {
            let results = results_of(alloc, &sig, entries)?;
            print_sure(alloc, printing, code, calling, entries, results.as_slice())
        }
        None => Ok(()),
    }
}

/// What the results of a call are in.
fn results_of(alloc: Global, sig: &Sig, entries: &[Entry]) -> Result<Items<Shape>, AllocError> {
    let lists = lists(alloc, sig.params, entries)?;
    call_shapes(alloc, sig.outs, lists.as_slice())
}

/// A call whose results are in these.
fn print_sure(
    alloc: Global,
    printing: &mut Printing,
    code: &mut Items<Instr>,
    calling: &Calling,
    entries: &[Entry],
    results: &[Shape],
) -> Result<(), AllocError> {
    bind(&mut printing.rules.context, calling.outs, results)?;
    let words = printing.words(alloc, calling.args, entries)?;
    let name = name_of(alloc, Title::Procedure(calling.fun))?;
    print_call(alloc, printing, code, name, words.as_slice(), results)?;
    bind_results(printing, calling.outs, results)?;
    printing.lines.push(ProofLine::Use)
}
