//! A program that was printed for a specification and then checked.

ghost use Rattle.std.specs.Prelude.{◌≡◌, true, IfOk, IfSome};
ghost use Rattle.nres_core.specs.FlatTree.{flat_whole_of};
ghost use Rattle.proof_check.specs.Verdict.{IsTypedFlat};
ghost use Rattle.sepref_synth.specs.Made.{IsMadeFor, IsRead};
ghost use Rattle.sequential.specs.Sequential.{sequential_whole};

use nres_core::Flat;
use proof_check::{Follower, verify};
use proof_text::ProofLine;
use sequential::is_sequential;
use sqlite_items::Items;
use std::alloc::{AllocError, Global};
use target_code::Program;
use target_text::{NotProgram, print_program, read_program};
use translate::translate;

/// A program that fits a specification by a derivation, with its text.
#[derive(Drop)]
pub struct Synthesized {
    /// The program.
    pub program: Program,
    /// Its text.
    pub text: Vec<u8>,
    /// The lines of the derivation.
    pub lines: Items<ProofLine>,
}

/// A program as its text reads, with the text; none where it has no text that reads.
fn read_back(alloc: Global, program: &Program) -> Result<Option<(Program, Vec<u8>)>, AllocError>
    ensures { IfOk result (λ found. IfSome found (λ x. IsRead x.0 x.1.items)) }
{
    let text = print_program(alloc, program)?;
    match read_program(alloc, text.as_slice()) {
        Ok(read) => Ok(Some((read, text))),
        Err(NotProgram::Line(_)) => Ok(None),
        Err(NotProgram::Memory) => Err(AllocError),
    }
}

/// A program with its text, if it fits a specification by a derivation.
fn checked<F: Follower>(
    alloc: Global,
    flat: &Flat,
    program: Program,
    text: Vec<u8>,
    lines: Items<ProofLine>,
) -> Result<Option<Synthesized>, AllocError>
    requires typed { IsTypedFlat (flat_whole_of flat.now) }
    requires read { IsRead program text.items }
    requires served { sequential_whole (flat_whole_of flat.now) ≡ true }
    ensures { IfOk result (λ found. IfSome found (λ x. IsMadeFor (flat_whole_of flat.now) x)) }
{
    match verify::<F>(alloc, flat, &program, lines.as_slice())? {
        None => Ok(Some(Synthesized {
            program,
            text,
            lines,
        })),
        Some(_) => Ok(None),
    }
}

/// A program of a specification without branches, as [`synthesize`] gives it.
fn translated<F: Follower>(alloc: Global, flat: &Flat) -> Result<Option<Synthesized>, AllocError>
    requires typed { IsTypedFlat (flat_whole_of flat.now) }
    requires served { sequential_whole (flat_whole_of flat.now) ≡ true }
    ensures { IfOk result (λ found. IfSome found (λ x. IsMadeFor (flat_whole_of flat.now) x)) }
{
    let Ok(translation) = translate(alloc, flat)? else {
        return Ok(None);
    };
    match read_back(alloc, &translation.program)? {
        Some((program, text)) => checked::<F>(alloc, flat, program, text, translation.lines),
        None => Ok(None),
    }
}

/// A program of the flat tree of a typed specification, which fits it by a derivation, over the table of rows and the library.
/// None where the specification has branches, and where the translation has none that passes the check.
///
/// # Errors
///
/// Only where memory runs out.
pub fn synthesize<F: Follower>(
    alloc: Global,
    flat: &Flat,
) -> Result<Option<Synthesized>, AllocError>
    requires typed { IsTypedFlat (flat_whole_of flat.now) }
    ensures { IfOk result (λ found. IfSome found (λ x. IsMadeFor (flat_whole_of flat.now) x)) }
{
    if is_sequential(flat) {
        translated::<F>(alloc, flat)
    } else {
        Ok(None)
    }
}
