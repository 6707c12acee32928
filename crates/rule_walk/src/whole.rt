//! The rule check of a specification.

ghost use Rattle.std.specs.Prelude.{◌≡◌, [], IfOk};
ghost use Rattle.nres_core.specs.FlatTree.{flat_procs_of, flat_whole_of, flats_of};
ghost use Rattle.rule_check.specs.Check.{body_sure, param_spots, procs_sure, refusal_in, refusal_of};
ghost use Rattle.rule_check.specs.Table.{row_for};
ghost use Rattle.rule_steps.specs.Operations.{table_row};
ghost use Rattle.rule_steps.specs.States.{ctx_of};
ghost use Rattle.rule_walk.specs.Walks.{IsOpen, book_in};

use crate::book::Book;
use crate::walk::walk_binds;
use body_rules::{Header, begin_body, end_body};
use facts::{Calculations, Facts};
use nres_core::{Flat, FlatBlock, FlatFun, Refusal};
use ownership::Context;
use rule_steps::State;
use std::alloc::{AllocError, Global};
use target_code::InParam;
use var_count::behind;

/// The rule check of a flat specification: the refusal that it gives, or `None` where it passes. Binds are gone over in order, and the
/// procedures behind the specification, in text order; the first that breaks a rule is refused.
pub fn check_rules(alloc: Global, flat: &Flat) -> Result<Option<Refusal>, AllocError>
    ensures { IfOk result (λ said. refusal_of row_for (flat_whole_of flat.now) ≡ said) }
{
    check_whole(alloc, flat)
}

fn check_whole(alloc: Global, flat: &Flat) -> Result<Option<Refusal>, AllocError>
    ensures { IfOk result (λ said. refusal_of table_row (flat_whole_of flat.now) ≡ said) }
{
    let book = Book {
        names: flat.names.as_slice(),
        funs: flat.funs.as_slice(),
    };
    let header = Header {
        params: flat.params.as_slice(),
        shown: flat.shown.as_slice(),
    };
    match check_body(alloc, &book, 0, &header, &flat.body)? {
        Some(refusal) => Ok(Some(refusal)),
        None => {
            let next = behind(0, header.params, &flat.body)?;
            check_procs(alloc, &book, next, book.funs)
        }
    }
}

/// The procedures in text order, whose variables are those from this one on.
fn check_procs(
    alloc: Global,
    book: &Book,
    first: u32,
    funs: &[FlatFun],
) -> Result<Option<Refusal>, AllocError>
    ensures { IfOk result (λ said. refusal_in (procs_sure (book_in book.now) first (flat_procs_of funs.now)) ≡ said) }
{
    let mut next = first;
    'each: for fun in funs {
        match check_proc(alloc, book, next, fun)? {
            None => {}
            Some(refusal) => return Ok(Some(refusal)),
        }
        next = behind(next, fun.params.as_slice(), &fun.body)?;
    }
    Ok(None)
}

fn check_proc(
    alloc: Global,
    book: &Book,
    first: u32,
    fun: &FlatFun,
) -> Result<Option<Refusal>, AllocError>
    ensures { IfOk result (λ said. refusal_in (body_sure (book_in book.now) first fun.now.params fun.now.shown (flats_of fun.now.body)) ≡ said) }
{
    let header = Header {
        params: fun.params.as_slice(),
        shown: fun.shown.as_slice(),
    };
    check_body(alloc, book, first, &header, &fun.body)
}

/// A body, whose parameters are the variables from this one on.
fn check_body(
    alloc: Global,
    book: &Book,
    first: u32,
    header: &Header,
    block: &FlatBlock,
) -> Result<Option<Refusal>, AllocError>
    ensures { IfOk result (λ said. refusal_in (body_sure (book_in book.now) first header.now.params.now header.now.shown.now (flats_of block.now)) ≡ said) }
{
    let mut state = begin_state(alloc, first, header.params)?;
    match walk_binds(block.binds.as_slice(), alloc, book, &mut state) {
        Ok(None) => {
            let said = end_body(alloc, book.names, &mut state.context, first, header, block);
            drop(state);
            said
        }
        Ok(Some(refusal)) => {
            drop(state);
            Ok(Some(refusal))
        }
        Err(error) => {
            drop(state);
            Err(error)
        }
    }
}

fn begin_state(alloc: Global, first: u32, params: &[InParam]) -> Result<State, AllocError>
    ensures context { IfOk result (λ state. ctx_of state ≡ record { spots = param_spots first params.now []; facts = []; defs = [] }) }
    ensures open { IfOk result (λ state. IsOpen state) }
{
    let mut state = State {
        context: Context::new(alloc),
        facts: Facts::new(alloc),
        calculations: Calculations::new(alloc),
        start: 0,
    };
    match begin_body(&mut state.context, first, params) {
        Ok(()) => Ok(state),
        Err(error) => {
            drop(state);
            Err(error)
        }
    }
}
