//! Derivations as text.

ghost use Rattle.std.specs.Prelude.{◌≡◌, ◌++◌, IfOk, OnOk};
ghost use Rattle.std.specs.List.{list_all};
ghost use Rattle.proof_text.specs.Texts as texts;

use crate::line::{Proof, ProofLine};
use std::alloc::{AllocError, Global};
use target_lines::writing::register;

/// Registers behind a word.
fn behind(out: &mut Vec<u8>, list: &[u32]) -> Result<(), AllocError>
    ensures { OnOk result (out.new.items ≡ out.old.items ++ texts.behind list.now) }
{
    if let [first, others @ ..] = list {
        out.push(b' ')?;
        register(out, *first)?;
        'each: for other in others {
            out.extend_from_slice(b", ")?;
            register(out, *other)?;
        }
    }
    Ok(())
}

/// A word and two registers.
fn split(out: &mut Vec<u8>, from: u32, at: u32) -> Result<(), AllocError>
    ensures { OnOk result (out.new.items ≡ out.old.items ++ texts.split_text from at) }
{
    out.extend_from_slice(b"split ")?;
    register(out, from)?;
    out.push(b' ')?;
    register(out, at)
}

/// A line without its line feed.
pub(crate) fn line(out: &mut Vec<u8>, line: &ProofLine) -> Result<(), AllocError>
    ensures { OnOk result (out.new.items ≡ out.old.items ++ texts.line_text line.now) }
{
    match line {
        ProofLine::Calc => out.extend_from_slice(b"calc"),
        ProofLine::Row(name) => {
            out.extend_from_slice(b"row ")?;
            out.extend_from_slice(name.bytes())
        }
        ProofLine::Reg => out.extend_from_slice(b"reg"),
        ProofLine::Any(value) => {
            out.extend_from_slice(b"any ")?;
            register(out, *value)
        }
        ProofLine::Left => out.extend_from_slice(b"left"),
        ProofLine::Right => out.extend_from_slice(b"right"),
        ProofLine::If(list) => {
            out.extend_from_slice(b"if")?;
            behind(out, list.as_slice())
        }
        ProofLine::While(list) => {
            out.extend_from_slice(b"while")?;
            behind(out, list.as_slice())
        }
        ProofLine::Par => out.extend_from_slice(b"par"),
        ProofLine::Split(from, at) => split(out, *from, *at),
        ProofLine::Use => out.extend_from_slice(b"use"),
        ProofLine::Other => Ok(()),
    }
}

/// Whether no line of a derivation is `Other`.
pub fn is_whole(proof: &Proof) -> bool
    ensures { result ≡ list_all texts.is_one proof.now.lines }
{
    for item in proof.lines.as_slice() {
        if matches!(item, ProofLine::Other) {
            return false;
        }
    }
    true
}

/// The text of a derivation none of whose lines is `Other`, each line with a line feed. An error comes only where memory
/// runs out.
pub fn print_proof(alloc: Global, proof: &Proof) -> Result<Vec<u8>, AllocError>
    requires { texts.NoOther proof.now.lines }
    ensures { IfOk result (λ bytes. bytes.items ≡ texts.proof_text proof.now) }
{
    let mut out = Vec::new(alloc);
    for item in proof.lines.as_slice() {
        line(&mut out, item)?;
        out.push(b'\n')?;
    }
    Ok(out)
}
