//! A whole program.

ghost use Rattle.std.specs.Prelude.{◌≡◌, IfOk};

use crate::called::Called;
use nres_core::{Flat, Refusal};
use print_walk::{Printed, print_all};
use proof_text::ProofLine;
use rule_table::library;
use sqlite_items::Items;
use std::alloc::{AllocError, Global};
use target_code::{InParam, Proc, Program, Rep};

/// A program, with the lines of its derivation.
#[derive(Drop)]
pub struct Translation {
    /// The program.
    pub program: Program,
    /// The lines.
    pub lines: Items<ProofLine>,
}

/// The program of a flat specification with its derivation, or the refusal of the rule check. The program takes and shows what the
/// specification does.
pub fn translate(alloc: Global, flat: &Flat) -> Result<Result<Translation, Refusal>, AllocError>
    ensures ins { IfOk result (λ made. IfOk made (λ x. x.program.ins ≡ flat.now.params)) }
    ensures outs { IfOk result (λ made. IfOk made (λ x. x.program.outs ≡ flat.now.shown)) }
{
    match print_all(alloc, flat)? {
        Ok(printed) => Ok(Ok(whole(alloc, flat, printed)?)),
        Err(refusal) => Ok(Err(refusal)),
    }
}

/// The program of what was printed, with what it calls.
fn whole(alloc: Global, flat: &Flat, printed: Printed) -> Result<Translation, AllocError>
    ensures ins { IfOk result (λ x. x.program.ins ≡ flat.now.params) }
    ensures outs { IfOk result (λ x. x.program.outs ≡ flat.now.shown) }
{
    let Printed { own, made, lines } = printed;
    match all_procs(alloc, own, made) {
        Ok(procs) => program_of(alloc, flat, procs, lines),
        Err(error) => {
            drop(lines);
            Err(error)
        }
    }
}

/// The program of these procedures, with a derivation.
fn program_of(
    alloc: Global,
    flat: &Flat,
    procs: Items<Proc>,
    lines: Items<ProofLine>,
) -> Result<Translation, AllocError>
    ensures ins { IfOk result (λ x. x.program.ins ≡ flat.now.params) }
    ensures outs { IfOk result (λ x. x.program.outs ≡ flat.now.shown) }
{
    match header(alloc, flat) {
        Ok((ins, outs)) => Ok(Translation {
            program: Program { ins, outs, procs },
            lines,
        }),
        Err(error) => {
            drop((procs, lines));
            Err(error)
        }
    }
}

/// What a program takes and shows: what the specification does.
fn header(alloc: Global, flat: &Flat) -> Result<(Items<InParam>, Items<Rep>), AllocError>
    ensures ins { IfOk result (λ both. both.0 ≡ flat.now.params) }
    ensures outs { IfOk result (λ both. both.1 ≡ flat.now.shown) }
{
    let ins = params(alloc, flat.params.as_slice())?;
    match Items::from_slice(alloc, flat.shown.as_slice()) {
        Ok(outs) => Ok((ins, outs)),
        Err(error) => {
            drop(ins);
            Err(error)
        }
    }
}

/// The procedures of the text, the branches, and what they call of the library.
fn all_procs(
    alloc: Global,
    own: Items<Proc>,
    made: Items<Proc>,
) -> Result<Items<Proc>, AllocError> {
    let mut procs = own;
    match procs.append(made) {
        Ok(()) => with_library(alloc, procs),
        Err(error) => {
            drop(procs);
            Err(error)
        }
    }
}

/// With what they call of the library.
fn with_library(alloc: Global, procs: Items<Proc>) -> Result<Items<Proc>, AllocError> {
    let mut procs = procs;
    match add_library(alloc, &mut procs) {
        Ok(()) => Ok(procs),
        Err(error) => {
            drop(procs);
            Err(error)
        }
    }
}

/// The procedures of the library that are called come behind those that call them.
fn add_library(alloc: Global, procs: &mut Items<Proc>) -> Result<(), AllocError> {
    let library = library(alloc)?;
    match wanted(alloc, procs.as_slice(), library.as_slice()) {
        Ok(wanted) => add_called(procs, library, wanted.as_slice()),
        Err(error) => {
            drop(library);
            Err(error)
        }
    }
}

/// Which procedures of the library are called.
fn wanted(alloc: Global, procs: &[Proc], library: &[Proc]) -> Result<Vec<bool>, AllocError> {
    let mut called = Called::new(alloc, library)?;
    called.procs(procs)?;
    called.close(library)?;
    Ok(called.wanted())
}

/// The procedures that are wanted, behind others.
fn add_called(
    procs: &mut Items<Proc>,
    library: Vec<Proc>,
    wanted: &[bool],
) -> Result<(), AllocError> {
    'each: for (number, proc) in library.into_iter().enumerate() {
        match wanted.get(number) {
            Some(true) => procs.push(proc)?,
            _ => drop(proc),
        }
    }
    Ok(())
}

/// The same parameter.
fn param(alloc: Global, param: &InParam) -> Result<InParam, AllocError>
    ensures { IfOk result (λ same. same ≡ param.now) }
{
    Ok(InParam {
        name: param.name.copy(alloc)?,
        rep: param.rep,
        kept: param.kept,
    })
}

/// The same parameters.
fn params(alloc: Global, list: &[InParam]) -> Result<Items<InParam>, AllocError>
    ensures { IfOk result (λ same. same ≡ list.now) }
{
    let mut same = Items::new(alloc);
    'each: for item in list {
        same.push(param(alloc, item)?)?;
    }
    Ok(same)
}
