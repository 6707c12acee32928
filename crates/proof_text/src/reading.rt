//! Derivations from text. A line is taken for what its first word says, and then held against the text of that.

ghost use Rattle.std.specs.Prelude.{◌≡◌, ◌≤◌, ◌<◌, ◌++◌, ◌∷◌, ℕ, [], List, Some, length, drop, decimal, IfOk, IfSome, IfNone};
ghost use Rattle.std.specs.Str.{bytes_eq};
ghost use Rattle.target_lines.specs.Texts.{register_text, registers_text};
ghost use Rattle.target_lines.specs.Fits.{IsSmall, AreSmall};
ghost use Rattle.proof_text.specs.declared.line.ProofLine.{ProofLine as LineOf};
ghost use Rattle.proof_text.specs.declared.words.Word.TheVariants as word;
ghost use Rattle.proof_text.specs.Texts.{line_text, HasText};
ghost use Rattle.proof_text.specs.Readings.{IsOfKind, IsReadAs};
ghost use Rattle.proof_text.specs.Guesses.{Lacks, IsCut, IsGuess, IsKnown};

use crate::line::{Proof, ProofLine};
use crate::printing;
use crate::words::{self, Word};
use sqlite_items::Items;
use std::alloc::{AllocError, Global};
use target_code::{Name, NameRefusal};

/// What stands before the first such byte, and what stands behind it.
pub(crate) fn cut(byte: u8, bytes: &[u8]) -> Option<(&[u8], &[u8])>
    ensures some { IfSome result (λ parts. (bytes.now ≡ parts.0.now ++ (byte ∷ parts.1.now)) × Lacks byte parts.0.now) }
    ensures none { IfNone result (Lacks byte bytes.now) }
{
    let mut end = 0;
    while end < bytes.len() {
        if bytes[end] == byte {
            return Some((&bytes[..end], &bytes[end + 1..]));
        }
        end += 1;
    }
    None
}

/// The number with these decimal digits.
fn number(digits: &[u8]) -> u32
    ensures { (n : ℕ) → IsSmall n → digits.now ≡ decimal n → result ≡ n }
{
    match std::str::from_utf8(digits) {
        Ok(digits) => digits.parse().unwrap_or(0),
        Err(_) => 0,
    }
}

fn register(bytes: &[u8]) -> u32
    ensures value { (r : ℕ) → IsSmall r → bytes.now ≡ register_text r → result ≡ r }
    ensures small { IsSmall result }
{
    match bytes {
        [_, digits @ ..] => number(digits),
        [] => 0,
    }
}

/// What stands behind a space.
fn after_space(bytes: &[u8]) -> &[u8]
    ensures { result.now ≡ drop 1 bytes.now }
{
    match bytes {
        [_, after @ ..] => after,
        [] => bytes,
    }
}

/// One register or more.
fn some_registers(alloc: Global, bytes: &[u8]) -> Result<Items<u32>, AllocError>
    ensures value { IfOk result (λ list. (r : ℕ) (rs : List ℕ) → AreSmall (r ∷ rs) → bytes.now ≡ registers_text (r ∷ rs) → list ≡ r ∷ rs) }
    ensures small { IfOk result (λ list. AreSmall list) }
{
    let mut list = Items::new(alloc);
    let mut rest = bytes;
    'each: loop {
        match cut(b',', rest) {
            Some((front, behind)) => {
                let item = register(front);
                list.push(item)?;
                rest = after_space(behind);
            }
            None => {
                let last = register(rest);
                list.push(last)?;
                return Ok(list);
            }
        }
    }
}

fn registers(alloc: Global, bytes: &[u8]) -> Result<Items<u32>, AllocError>
    ensures value { IfOk result (λ list. (rs : List ℕ) → AreSmall rs → bytes.now ≡ registers_text rs → list ≡ rs) }
    ensures small { IfOk result (λ list. AreSmall list) }
{
    match bytes {
        [] => Ok(Items::new(alloc)),
        _ => some_registers(alloc, bytes),
    }
}

fn row(alloc: Global, bytes: &[u8]) -> Result<ProofLine, AllocError>
    ensures guess { IfOk result (λ l. IsGuess (Some word.Row) bytes.now l) }
    ensures known { IfOk result (λ l. IsKnown l) }
{
    match Name::new(alloc, bytes) {
        Ok(name) => Ok(ProofLine::Row(name)),
        Err(NameRefusal::NotAName) => Ok(ProofLine::Other),
        Err(NameRefusal::Memory) => Err(AllocError),
    }
}

fn split(bytes: &[u8]) -> ProofLine
    ensures guess { IsGuess (Some word.Split) bytes.now result }
    ensures known { IsKnown result }
{
    match cut(b' ', bytes) {
        Some((before, behind)) => {
            let from = register(before);
            let at = register(behind);
            ProofLine::Split(from, at)
        }
        None => ProofLine::Other,
    }
}

/// The line with this first word and these operands.
fn begun(alloc: Global, word: Option<Word>, operands: &[u8]) -> Result<ProofLine, AllocError>
    ensures guess { IfOk result (λ l. IsGuess word operands.now l) }
    ensures known { IfOk result (λ l. IsKnown l) }
{
    match word {
        Some(Word::Calc) => Ok(ProofLine::Calc),
        Some(Word::Row) => row(alloc, operands),
        Some(Word::Reg) => Ok(ProofLine::Reg),
        Some(Word::Any) => Ok(ProofLine::Any(register(operands))),
        Some(Word::Left) => Ok(ProofLine::Left),
        Some(Word::Right) => Ok(ProofLine::Right),
        Some(Word::If) => Ok(ProofLine::If(registers(alloc, operands)?)),
        Some(Word::While) => Ok(ProofLine::While(registers(alloc, operands)?)),
        Some(Word::Par) => Ok(ProofLine::Par),
        Some(Word::Split) => Ok(split(operands)),
        Some(Word::Use) => Ok(ProofLine::Use),
        None => Ok(ProofLine::Other),
    }
}

/// The first word of a line, and what stands behind it and a space.
fn first_word(text: &[u8]) -> (&[u8], &[u8])
    ensures { IsCut text.now result.0.now result.1.now }
{
    match cut(b' ', text) {
        Some(parts) => parts,
        None => (text, &[]),
    }
}

/// What a line may be.
fn guess(alloc: Global, text: &[u8]) -> Result<ProofLine, AllocError>
    ensures only { IfOk result (λ guess. (l : LineOf) → HasText l → text.now ≡ line_text l → guess ≡ l) }
    ensures known { IfOk result (λ guess. IsKnown guess) }
{
    let (word, operands) = first_word(text);
    begun(alloc, words::word_of(word), operands)
}

/// Whether this is the text of the line.
fn is_spelled(alloc: Global, line: &ProofLine, text: &[u8]) -> Result<bool, AllocError>
    ensures { IfOk result (λ same. same ≡ bytes_eq (line_text line.now) text.now) }
{
    let mut spelled = Vec::new(alloc);
    printing::line(&mut spelled, line)?;
    Ok(spelled.as_slice() == text)
}

/// The line with this text before its line feed.
fn line(alloc: Global, text: &[u8]) -> Result<ProofLine, AllocError>
    ensures { IfOk result (λ l. IsOfKind (text.now ++ (10 ∷ [])) l) }
{
    let line = guess(alloc, text)?;
    match is_spelled(alloc, &line, text) {
        Ok(true) => Ok(line),
        Ok(false) => {
            drop(line);
            Ok(ProofLine::Other)
        }
        Err(error) => {
            drop(line);
            Err(error)
        }
    }
}

/// The lines of a text as those of a derivation. A line that has the text of no line of a derivation, or no line feed,
/// is `Other`. An error comes only where memory runs out.
pub fn read_proof(alloc: Global, bytes: &[u8]) -> Result<Proof, AllocError>
    ensures { IfOk result (λ proof. IsReadAs bytes.now proof) }
{
    let mut lines = Items::new(alloc);
    let mut rest = bytes;
    'each: loop {
        match cut(b'\n', rest) {
            Some((text, after)) => {
                lines.push(line(alloc, text)?)?;
                rest = after;
            }
            None => break,
        }
    }
    if !rest.is_empty() {
        lines.push(ProofLine::Other)?;
    }
    Ok(Proof { lines })
}
