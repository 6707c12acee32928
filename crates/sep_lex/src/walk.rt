//! The tokens of a text.

ghost use Rattle.std.specs.Prelude.{ℕ, List, ◌≡◌, ◌<◌, ◌≤◌, ◌+◌, ◌^◌, length, IfOk};
ghost use Rattle.nres_core.specs.Tokens as spec;
ghost use Rattle.nres_core.specs.Tokens.{Lexes, StopsAt, first};
ghost use Rattle.sep_lex.specs.Spans.{AllWithin, line_start};

use crate::piece::front;
use crate::refusal::LexRefusal;
use nres_core::{Piece, Place, Token};
use std::alloc::Global;

/// The place behind these bytes, which begin at a place.
pub fn after(place: Place, bytes: &[u8]) -> Place
    requires line { place.line + length bytes.now < 2 ^ 64 }
    requires column { place.column + length bytes.now < 2 ^ 64 }
    requires begun { 1 ≤ place.column }
    ensures value { result ≡ spec.after place bytes.now }
    ensures line { result.line ≤ place.line + length bytes.now }
    ensures column { result.column ≤ place.column + length bytes.now }
    ensures begun { 1 ≤ result.column }
{
    let Place {
        mut line,
        mut column,
    } = place;
    for b in bytes {
        if *b == b'\n' {
            line += 1;
            column = 1;
        } else {
            column += 1;
        }
    }
    Place { line, column }
}

/// The tokens of a text whose first line has this number, in order, each a part of the text. The text is refused at the
/// first byte at which no token, blank or comment stands, and it is so exactly where there is one.
pub fn tokens_from(alloc: Global, input: &[u8], line: u64) -> Result<Vec<Token>, LexRefusal>
    requires { line + length input.now < 2 ^ 64 }
    ensures ok { IfOk result (λ ts. Lexes 0 (line_start line) input.now ts.items) }
    ensures within { IfOk result (λ ts. AllWithin input.now ts.items) }
    ensures at { (p : Place) → result ≡ Err (LexRefusal.At p) → StopsAt (line_start line) input.now p }
{
    let mut all = Vec::new(alloc);
    let mut place = Place { line, column: 1 };
    let mut at = 0;
    'each: while at < input.len() {
        let rest = &input[at..];
        match front(rest) {
            Piece::Space(n) => {
                place = after(place, &rest[..n]);
                at += n;
            }
            Piece::Token(kind, n) => {
                all.push(Token {
                    kind,
                    start: at,
                    end: at + n,
                    place,
                })?;
                place = after(place, &rest[..n]);
                at += n;
            }
            Piece::Wrong => return Err(LexRefusal::At(place)),
        }
    }
    Ok(all)
}

/// The tokens of a text, in order, each a part of the text. The text is refused at the first byte at which no token, blank
/// or comment stands, and it is so exactly where there is one.
pub fn tokens(alloc: Global, input: &[u8]) -> Result<Vec<Token>, LexRefusal>
    ensures ok { IfOk result (λ ts. Lexes 0 first input.now ts.items) }
    ensures within { IfOk result (λ ts. AllWithin input.now ts.items) }
    ensures at { (p : Place) → result ≡ Err (LexRefusal.At p) → StopsAt first input.now p }
{
    tokens_from(alloc, input, 1)
}

/// A law: a text has one list of tokens, and no place to refuse it at, or it has such a place and no list of tokens.
pub fn one_reading()
    ensures one { (at : ℕ) (p : Place) (z : List ℕ) (ts us : List Token) → Lexes at p z ts → Lexes at p z us → ts ≡ us }
    ensures either { (at : ℕ) (p q : Place) (z : List ℕ) (ts : List Token) → StopsAt p z q → Lexes at p z ts → ⊥ }
{}
