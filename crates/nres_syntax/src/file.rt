//! Reads whole texts.

ghost use Rattle.std.specs.Prelude.{ℕ, List, ◌≡◌, ◌≢◌, ◌<◌, ◌≤◌, ◌+◌, ◌^◌, [], ◌∷◌, ◌++◌, length, IfOk, OnOk, Ok, Err};
ghost use Rattle.nres_core.specs.Sizes.{nesting_of, size_of};
ghost use Rattle.nres_core.specs.Texts.{SpecText, WithText, open_at_once, operators};
ghost use Rattle.nres_core.specs.Tokens.{Lexes, first};
ghost use Rattle.nres_core.specs.Vocabulary.{all_seen};
ghost use Rattle.nres_core.specs.declared.place.Place.{Place as PlaceOf};
ghost use Rattle.nres_core.specs.declared.token.Token.{Token as TokenOf};
ghost use Rattle.nres_core.specs.declared.tree.Spec.{Spec as SpecOf};
ghost use Rattle.nres_core.specs.declared.tree.With.{With as WithOf};
ghost use Rattle.sep_lex.specs.Spans.{AllWithin};
ghost use Rattle.nres_automaton.specs.Cursor.{left};
ghost use Rattle.nres_syntax.specs.Files.{Gives, GivesFile, GivesValues};
ghost use Rattle.nres_automaton.specs.Lexemes.{lexes};
ghost use Rattle.nres_automaton.specs.Automaton as automaton;
ghost use Rattle.nres_syntax.specs.Refusals.{RefusedAt, RefusedDeep, ValuesRefusedAt};

use crate::head::heading;
use crate::value::value;
use nres_automaton::{Cursor, Fixed, Lexeme, SyntaxRefusal, is_fixed, name_to};
use nres_core::{Fun, Place, Spec, Token, With};
use sep_lex::{LexRefusal, after, tokens_from};
use sqlite_items::Items;
use std::alloc::Global;

/// How many blocks and brackets may be open at once.
const ROOM: u8 = 64;

/// The values for parameters, up to the end.
fn withs(alloc: Global, cursor: &mut Cursor<'_>) -> Result<Items<With>, SyntaxRefusal>
    ensures reads { Gives (automaton.withs []) (left cursor.old) result }
{
    let mut all = Items::new(alloc);
    'each: loop {
        let next = cursor.peek();
        if !is_fixed(Fixed::With, next.lexeme) {
            return match next.lexeme {
                Lexeme::End => Ok(all),
                _ => Err(SyntaxRefusal::At(next.place)),
            };
        }
        cursor.take();
        let found = name_to(alloc, cursor, ROOM, Fixed::Equals)?;
        let given = value(alloc, cursor, ROOM)?;
        all.push(With {
            name: found.name,
            place: found.place,
            value: given,
        })?;
    }
}

/// The procedures of a specification, and the values for its parameters.
#[derive(Drop)]
struct Rest {
    funs: Items<Fun>,
    withs: Items<With>,
}

/// All that stands behind a specification's own block.
fn behind(alloc: Global, cursor: &mut Cursor<'_>) -> Result<Rest, SyntaxRefusal>
    ensures reads { Gives (λ k. automaton.funs [] (λ fs ws. k (record { funs = fs; withs = ws }))) (left cursor.old) result }
{
    let mut funs = Items::new(alloc);
    'each: loop {
        let next = cursor.peek();
        if !is_fixed(Fixed::Fun, next.lexeme) {
            let given = withs(alloc, cursor)?;
            return Ok(Rest { funs, withs: given });
        }
        cursor.take();
        let head = heading(alloc, cursor, ROOM, true)?;
        funs.push(Fun {
            name: head.name.name,
            place: head.name.place,
            params: head.params,
            shown: head.shown,
            body: head.body,
        })?;
    }
}

/// A whole specification.
fn file(alloc: Global, cursor: &mut Cursor<'_>) -> Result<(Spec, Items<With>), SyntaxRefusal>
    ensures reads { GivesFile (left cursor.old) result }
{
    let next = cursor.peek();
    if !is_fixed(Fixed::Spec, next.lexeme) {
        return Err(SyntaxRefusal::At(next.place));
    }
    cursor.take();
    let head = heading(alloc, cursor, ROOM, false)?;
    let rest = behind(alloc, cursor)?;
    let spec = Spec {
        name: head.name.name,
        params: head.params,
        shown: head.shown,
        body: head.body,
        funs: rest.funs,
    };
    Ok((spec, rest.withs))
}

/// The specification that the tokens are, with the values for its parameters.
fn file_of(
    alloc: Global,
    input: &[u8],
    tokens: &[Token],
    end: Place,
) -> Result<(Spec, Items<With>), SyntaxRefusal>
    requires { AllWithin input.now tokens.now }
    ensures { GivesFile (lexes end (all_seen input.now tokens.now), operators) result }
{
    let mut cursor = Cursor::new(input, tokens, end);
    file(alloc, &mut cursor)
}

/// The values that the tokens are.
fn values_of(
    alloc: Global,
    input: &[u8],
    tokens: &[Token],
    end: Place,
) -> Result<Items<With>, SyntaxRefusal>
    requires { AllWithin input.now tokens.now }
    ensures { GivesValues (lexes end (all_seen input.now tokens.now), operators) result }
{
    let mut cursor = Cursor::new(input, tokens, end);
    withs(alloc, &mut cursor)
}

/// The specification that a text is, with the values for its parameters.
pub fn read_spec(alloc: Global, input: &[u8]) -> Result<(Spec, Items<With>), SyntaxRefusal>
    // What is read has this text, and what has this text is read.
    ensures ok { IfOk result (λ y. SpecText input.now y.0 y.1) }
    ensures only { (p : SpecOf) (ws : List WithOf) → SpecText input.now p ws → result ≢ Err SyntaxRefusal.Memory → result ≡ Ok (p, ws) }
    // The tree is no larger than the text has tokens, and its blocks nest at most 64 deep.
    ensures size { IfOk result (λ y. (ts : List TokenOf) → Lexes 0 first input.now ts → size_of y.0 ≤ length ts) }
    ensures nesting { IfOk result (λ y. nesting_of y.0 ≤ open_at_once) }
    // A refusal names the first place at which no specification can go on.
    ensures at { (q : PlaceOf) → result ≡ Err (SyntaxRefusal.At q) → RefusedAt input.now q }
    ensures too_deep { (q : PlaceOf) → result ≡ Err (SyntaxRefusal.TooDeep q) → RefusedDeep input.now q }
{
    let found = match tokens_from(alloc, input, 1) {
        Ok(found) => found,
        Err(LexRefusal::At(place)) => return Err(SyntaxRefusal::At(place)),
        Err(LexRefusal::Memory) => return Err(SyntaxRefusal::Memory),
    };
    let end = after(Place { line: 1, column: 1 }, input);
    file_of(alloc, input, found.as_slice(), end)
}

/// The values for parameters that a text gives, whose first line has this number.
pub fn read_withs(
    alloc: Global,
    input: &[u8],
    first_line: u64,
) -> Result<Items<With>, SyntaxRefusal>
    requires { first_line + length input.now < 2 ^ 64 }
    ensures ok { IfOk result (λ ws. WithText first_line input.now ws) }
    ensures only { (ws : List WithOf) → WithText first_line input.now ws → result ≢ Err SyntaxRefusal.Memory → result ≡ Ok ws }
    ensures at { (q : PlaceOf) → result ≡ Err (SyntaxRefusal.At q) → ValuesRefusedAt first_line input.now q }
    ensures never_deep { (q : PlaceOf) → result ≢ Err (SyntaxRefusal.TooDeep q) }
{
    let found = match tokens_from(alloc, input, first_line) {
        Ok(found) => found,
        Err(LexRefusal::At(place)) => return Err(SyntaxRefusal::At(place)),
        Err(LexRefusal::Memory) => return Err(SyntaxRefusal::Memory),
    };
    let start = Place {
        line: first_line,
        column: 1,
    };
    let end = after(start, input);
    values_of(alloc, input, found.as_slice(), end)
}
