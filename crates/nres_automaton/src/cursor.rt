//! The tokens of a text that were not read yet, behind which comes the end, and how many operators may still come.

ghost use Rattle.std.specs.Prelude.{◌≡◌, ◌≢◌, [], ◌∷◌, suc};
ghost use Rattle.nres_core.specs.Vocabulary.{all_seen};
ghost use Rattle.nres_core.specs.Texts.{operators};
ghost use Rattle.nres_automaton.specs.Lexemes.{lexes};
ghost use Rattle.nres_automaton.specs.Cursor.{behind, left, next_is, text_of, Passes, Spends};
ghost use Rattle.sep_lex.specs.Spans.{AllWithin};

use crate::lexeme::{Fixed, Lexeme, classify, is_fixed};
use crate::refusal::SyntaxRefusal;
use nres_core::{Place, Token};
use std::marker::Model;

/// How many operators an expression that stands in no other may have.
pub const OPERATORS: u32 = 1000;

/// What comes next, and where it stands.
#[derive(Clone, Copy)]
pub struct Next {
    pub lexeme: Lexeme,
    pub place: Place,
}

/// A text, and its tokens that were not read yet.
#[derive(Drop)]
pub struct Cursor<'a> {
    input: &'a [u8],
    tokens: &'a [Token],
    end: Place,
    operators: u32,
    lexeme: Lexeme,
}

impl<'a> Model for Cursor<'a> {
    ghost use Rattle.std.specs.Prelude.{List, ℕ};
    ghost use Rattle.nres_core.specs.declared.place.Place.{Place as PlaceOf};
    ghost use Rattle.nres_core.specs.declared.token.Token.{Token as TokenOf};

    ghost Value = { (List ℕ × (List TokenOf × PlaceOf)) × ℕ };

    ghost use Rattle.nres_automaton.specs.Cursor.{shown, IsReady};

    ghost view = { shown };

    ghost invariant = { IsReady };
}

/// What a token of the text is, or the end where there is none.
fn first_lexeme(input: &[u8], tokens: &[Token]) -> Lexeme
    requires { AllWithin input.now tokens.now }
    ensures { next_is input.now tokens.now result }
{
    match tokens {
        [token, ..] => classify(token.kind, &input[token.start..token.end]),
        [] => Lexeme::End,
    }
}

impl<'a> Cursor<'a> {
    /// All tokens of a text, whose end stands at this place.
    pub fn new(input: &'a [u8], tokens: &'a [Token], end: Place) -> Cursor<'a>
        requires { AllWithin input.now tokens.now }
        ensures { left result ≡ (lexes end (all_seen input.now tokens.now), operators) }
    {
        Cursor {
            input,
            tokens,
            end,
            operators: OPERATORS,
            lexeme: first_lexeme(input, tokens),
        }
    }

    /// What comes next.
    pub fn peek(&self) -> Next
        ensures next { (left self.now).0 ≡ record { lexeme = result.lexeme; bytes = text_of (left self.now).0; place = result.place } ∷ behind (left self.now).0 }
        ensures more { result.lexeme ≢ Lexeme.End → behind (left self.now).0 ≢ [] }
        ensures ends { result.lexeme ≡ Lexeme.End → behind (left self.now).0 ≡ [] }
    {
        match self.tokens {
            [token, ..] => Next {
                lexeme: self.lexeme,
                place: token.place,
            },
            [] => Next {
                lexeme: Lexeme::End,
                place: self.end,
            },
        }
    }

    /// The bytes of the next token, none at the end.
    pub fn bytes(&self) -> &'a [u8]
        ensures { result.now ≡ text_of (left self.now).0 }
    {
        match self.tokens {
            [token, ..] => &self.input[token.start..token.end],
            [] => &[],
        }
    }

    /// Goes past a token that is not the end.
    pub fn take(&mut self)
        requires { behind (left self.old).0 ≢ [] }
        ensures rest { (left self.new).0 ≡ behind (left self.old).0 }
        ensures operators { (left self.new).1 ≡ (left self.old).1 }
    {
        if let [_, rest @ ..] = self.tokens {
            self.lexeme = first_lexeme(self.input, rest);
            self.tokens = rest;
        }
    }

    /// An expression that stands in no other was read.
    pub fn restart(&mut self)
        ensures rest { (left self.new).0 ≡ (left self.old).0 }
        ensures operators { (left self.new).1 ≡ operators }
    {
        self.operators = OPERATORS;
    }

    /// One more operator comes.
    pub fn spend(&mut self) -> Result<(), SyntaxRefusal>
        ensures { Spends result (left self.old) (left self.new) }
    {
        if self.operators == 0 {
            return Err(SyntaxRefusal::TooDeep(self.peek().place));
        }
        self.operators -= 1;
        Ok(())
    }

    /// Goes past this word or sign, and gives its place.
    pub fn pass(&mut self, fixed: Fixed) -> Result<Place, SyntaxRefusal>
        ensures { Passes fixed result (left self.old) (left self.new) }
    {
        let next = self.peek();
        if is_fixed(fixed, next.lexeme) {
            self.take();
            Ok(next.place)
        } else {
            Err(SyntaxRefusal::At(next.place))
        }
    }
}
