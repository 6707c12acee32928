//! The line that tells why a specification is not typed.

ghost use Rattle.std.specs.Prelude.{◌≡◌, ◌≢◌, ◌++◌, IfOk, OnOk};
ghost use Rattle.sepref_top.specs.TypeLines as lines;

use nres_core::{Place, Ty};
use nres_types::TypeRefusal;
use std::alloc::{AllocError, Global};
use target_code::{Name, push_number, push_rep};

/// The beginning of the line: the place, and words.
#[tactic(auto, unfolding(crate::specs::TypeLines::begin))]
fn begin(alloc: Global, place: Place, words: &[u8]) -> Result<Vec<u8>, AllocError>
    ensures { IfOk result (λ line. line.items ≡ lines.begin place words.now) }
{
    let mut line = Vec::new(alloc);
    line.extend_from_slice(b"! type ")?;
    push_number(&mut line, place.line)?;
    line.extend_from_slice(b" ")?;
    push_number(&mut line, place.column)?;
    line.extend_from_slice(b" ")?;
    line.extend_from_slice(words)?;
    Ok(line)
}

/// A line that ends with a name.
#[tactic(auto, unfolding(crate::specs::TypeLines::ended))]
fn named(alloc: Global, place: Place, words: &[u8], name: &Name) -> Result<Vec<u8>, AllocError>
    ensures { IfOk result (λ line. line.items ≡ lines.ended (lines.begin place words.now) name.now) }
{
    let mut line = begin(alloc, place, words)?;
    line.extend_from_slice(name.bytes())?;
    line.push(b'\n')?;
    Ok(line)
}

/// A line that ends with two types.
#[tactic(auto, unfolding(crate::specs::TypeLines::ended, crate::specs::TypeLines::mismatch_line))]
fn mismatch(alloc: Global, place: Place, want: Ty, found: Ty) -> Result<Vec<u8>, AllocError>
    ensures { IfOk result (λ line. line.items ≡ lines.mismatch_line place want found) }
{
    let mut line = begin(alloc, place, b"mismatch ")?;
    line.extend_from_slice(want.word())?;
    line.extend_from_slice(b" ")?;
    line.extend_from_slice(found.word())?;
    line.push(b'\n')?;
    Ok(line)
}

/// A line that ends with two numbers.
#[tactic(auto, unfolding(crate::specs::TypeLines::ended, crate::specs::TypeLines::arity_line))]
fn arity(alloc: Global, place: Place, want: u32, found: u32) -> Result<Vec<u8>, AllocError>
    ensures { IfOk result (λ line. line.items ≡ lines.arity_line place want found) }
{
    let mut line = begin(alloc, place, b"arity ")?;
    push_number(&mut line, u64::from(want))?;
    line.extend_from_slice(b" ")?;
    push_number(&mut line, u64::from(found))?;
    line.push(b'\n')?;
    Ok(line)
}

/// A line that ends with a word and a type.
#[tactic(auto, unfolding(crate::specs::TypeLines::ended, crate::specs::TypeLines::no_operation_line))]
fn no_operation(alloc: Global, place: Place, word: &Name, found: Ty) -> Result<Vec<u8>, AllocError>
    ensures { IfOk result (λ line. line.items ≡ lines.no_operation_line place word.now found) }
{
    let mut line = begin(alloc, place, b"no operation ")?;
    line.extend_from_slice(word.bytes())?;
    line.extend_from_slice(b" ")?;
    line.extend_from_slice(found.word())?;
    line.push(b'\n')?;
    Ok(line)
}

/// The line of a refusal. There is none for want of memory.
#[tactic(auto, unfolding(crate::specs::TypeLines::ended))]
pub(crate) fn type_line(alloc: Global, refusal: &TypeRefusal) -> Result<Vec<u8>, AllocError>
    ensures line { IfOk result (λ line. line.items ≡ lines.refusal_line refusal.now) }
    ensures real { IfOk result (λ line. refusal.now ≢ TypeRefusal.Memory) }
{
    match refusal {
        TypeRefusal::Unbound { place, name } => named(alloc, *place, b"unbound ", name),
        TypeRefusal::Mismatch { place, want, found } => mismatch(alloc, *place, *want, *found),
        TypeRefusal::Arity { place, want, found } => arity(alloc, *place, *want, *found),
        TypeRefusal::NoOperation { place, word, found } => {
            no_operation(alloc, *place, word, *found)
        }
        TypeRefusal::Duplicate { place, name } => named(alloc, *place, b"duplicate ", name),
        TypeRefusal::OtherRep { place, rep } => {
            let mut line = begin(alloc, *place, b"representation ")?;
            push_rep(&mut line, *rep)?;
            line.push(b'\n')?;
            Ok(line)
        }
        TypeRefusal::Memory => Err(AllocError),
    }
}
