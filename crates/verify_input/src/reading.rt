//! The specification, the program and the derivation that an input of `verify` is.

ghost use Rattle.std.specs.Prelude.{ℕ, ◌≡◌, ◌≢◌, Err, IfOk, IfErr};
ghost use Rattle.nres_core.specs.declared.place.Place.{Place as PlaceOf};
ghost use Rattle.nres_rules.specs.Types.{HasTyping, refusal_of};
ghost use Rattle.nres_types.specs.Wholes.{IsTold};
ghost use Rattle.nres_types.specs.declared.refusal.TypeRefusal.{TypeRefusal as TypeRefusalOf};
ghost use Rattle.proof_text.specs.Parts.{spec_part};
ghost use Rattle.proof_text.specs.Readings.{IsReadAs};
ghost use Rattle.target_code.specs.Formed.{Formed};
ghost use Rattle.target_lines.specs.Programs.{program_text};
ghost use Rattle.target_text.specs.Refusals.{RefusedAt as LineRefused};
ghost use Rattle.verify_input.specs.Verifications.{IsTypedAs, IsUnreadOrMemory, IsUntyped, IsUntypedOrMemory, IsVerification, NoProgramAt, StopsAt, StopsDeep, is_memory, unread};

use nres_core::{Place, Spec, Typing};
use nres_syntax::{SyntaxRefusal, read_spec};
use nres_types::{TypeRefusal, type_of};
use proof_text::{Proof, parts, read_proof};
use std::alloc::{AllocError, Global};
use target_code::Program;
use target_text::{NotProgram, read_program};

/// An input of `verify`.
#[derive(Drop)]
pub struct Verification {
    /// The specification.
    pub spec: Spec,
    /// Its typing.
    pub typing: Typing,
    /// The program, which is formed.
    pub program: Program,
    /// The derivation.
    pub proof: Proof,
}

/// Why an input of `verify` is none.
#[derive(Drop)]
pub enum Unverified {
    /// The first part is no specification: this is the first place at which none can go on.
    Syntax(Place),
    /// The same, where a limit alone is at fault.
    TooDeep(Place),
    /// The specification is not typed; never for want of memory.
    Untyped(TypeRefusal),
    /// The second part is the text of no program: this line of it is refused.
    NotProgram(u64),
    /// There was no memory.
    Memory,
}

fn is_memory(refusal: &TypeRefusal) -> bool
    ensures { result ≡ is_memory refusal.now }
{
    matches!(refusal, TypeRefusal::Memory)
}

/// A specification with its typing.
fn typing_found(alloc: Global, spec: Spec) -> Result<(Spec, Typing), Unverified>
    ensures ok { IfOk result (λ found. (found.0 ≡ spec) × HasTyping spec found.1) }
    ensures untyped { (r : TypeRefusalOf) → result ≡ Err (Unverified.Untyped r) → IsTold r (refusal_of spec) × (r ≢ TypeRefusal.Memory) }
    ensures others { IfErr result (λ e. IsUntypedOrMemory e) }
{
    match type_of(alloc, &spec) {
        Ok(typing) => Ok((spec, typing)),
        Err(refusal) => {
            drop(spec);
            if is_memory(&refusal) {
                drop(refusal);
                Err(Unverified::Memory)
            } else {
                Err(Unverified::Untyped(refusal))
            }
        }
    }
}

/// The typed specification that the first part is.
fn read_typed(alloc: Global, part: &[u8]) -> Result<(Spec, Typing), Unverified>
    ensures ok { IfOk result (λ found. IsTypedAs part.now found.0 found.1) }
    ensures syntax { (q : PlaceOf) → result ≡ Err (Unverified.Syntax q) → StopsAt part.now q }
    ensures too_deep { (q : PlaceOf) → result ≡ Err (Unverified.TooDeep q) → StopsDeep part.now q }
    ensures untyped { (r : TypeRefusalOf) → result ≡ Err (Unverified.Untyped r) → IsUntyped part.now r }
    ensures no_line { (k : ℕ) → result ≡ Err (Unverified.NotProgram k) → ⊥ }
{
    match read_spec(alloc, part) {
        Ok((spec, withs)) => {
            drop(withs);
            typing_found(alloc, spec)
        }
        Err(SyntaxRefusal::At(place)) => Err(Unverified::Syntax(place)),
        Err(SyntaxRefusal::TooDeep(place)) => Err(Unverified::TooDeep(place)),
        Err(SyntaxRefusal::Memory) => Err(Unverified::Memory),
    }
}

/// A typed specification and a program with the derivation that the third part is.
fn with_proof(
    alloc: Global,
    found: (Spec, Typing),
    program: Program,
    part: &[u8],
) -> Result<Verification, Unverified>
    ensures ok { IfOk result (λ x. (x.spec ≡ found.0) × (x.typing ≡ found.1) × (x.program ≡ program) × IsReadAs part.now x.proof) }
    ensures memory { IfErr result (λ e. e ≡ Unverified.Memory) }
{
    match read_proof(alloc, part) {
        Ok(proof) => Ok(Verification {
            spec: found.0,
            typing: found.1,
            program,
            proof,
        }),
        Err(AllocError) => {
            drop((found, program));
            Err(Unverified::Memory)
        }
    }
}

fn no_program(refusal: NotProgram) -> Unverified
    ensures { result ≡ unread refusal }
{
    match refusal {
        NotProgram::Line(line) => Unverified::NotProgram(line),
        NotProgram::Memory => Unverified::Memory,
    }
}

/// A typed specification with the program and the derivation that the other parts are.
fn with_program(
    alloc: Global,
    program_part: &[u8],
    proof_part: &[u8],
    found: (Spec, Typing),
) -> Result<Verification, Unverified>
    ensures ok { IfOk result (λ x. (x.spec ≡ found.0) × (x.typing ≡ found.1) × Formed x.program
        × (program_part.now ≡ program_text x.program) × IsReadAs proof_part.now x.proof) }
    ensures not_program { (k : ℕ) → result ≡ Err (Unverified.NotProgram k) → LineRefused program_part.now k }
    ensures others { IfErr result (λ e. IsUnreadOrMemory e) }
{
    match read_program(alloc, program_part) {
        Ok(program) => with_proof(alloc, found, program, proof_part),
        Err(refusal) => {
            drop(found);
            Err(no_program(refusal))
        }
    }
}

/// What an input of `verify` is: what stands before the line `--- program` is a typed specification, what stands from there
/// up to the line `--- proof` a program, and the rest a derivation.
///
/// # Errors
///
/// In the order of the tests: `Syntax` and `TooDeep` where the first part is no specification, with the first place at which
/// none can go on; `Untyped` where it is none that is typed; `NotProgram` where the second part is the text of no program,
/// with the line of this part, counted from its first. `Memory` where memory runs out.
pub fn read_verification(alloc: Global, text: &[u8]) -> Result<Verification, Unverified>
    ensures ok { IfOk result (λ x. IsVerification text.now x) }
    ensures syntax { (q : PlaceOf) → result ≡ Err (Unverified.Syntax q) → StopsAt (spec_part text.now) q }
    ensures too_deep { (q : PlaceOf) → result ≡ Err (Unverified.TooDeep q) → StopsDeep (spec_part text.now) q }
    ensures untyped { (r : TypeRefusalOf) → result ≡ Err (Unverified.Untyped r) → IsUntyped (spec_part text.now) r }
    ensures not_program { (k : ℕ) → result ≡ Err (Unverified.NotProgram k) → NoProgramAt text.now k }
{
    let cut = parts(text);
    match read_typed(alloc, cut.spec) {
        Ok(found) => with_program(alloc, cut.program, cut.proof, found),
        Err(why) => Err(why),
    }
}
