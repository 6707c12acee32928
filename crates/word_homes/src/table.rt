//! Where variables stand, with what was put since marks.

ghost use Rattle.std.specs.Prelude.{◌≡◌, [], ℕ, Some, OnErr, OnOk, option_map};
ghost use Rattle.fits.specs.Places.{put};
ghost use Rattle.fit_tokens.specs.Changes.{back_at, marked, token_of};
ghost use Rattle.word_homes.specs.Puts.{home_named, homes, name_of};

use fit_tokens::{Token, Tokens};
use prints::Home;
use std::alloc::{AllocError, Global};
use std::marker::Model;

/// The home of each variable's first word, with what was put since marks. What was not put anywhere is the literal 0.
#[derive(Drop)]
pub struct Homes {
    names: Tokens,
}

impl Model for Homes {
    ghost use Rattle.fit_tokens.specs.Changes.{Known};

    ghost Value = { Known };

    ghost view = { λ x. x.names };
}

impl Homes {
    /// No variable was put anywhere. Takes no memory.
    pub fn new(alloc: Global) -> Homes
        ensures { result ≡ record { changes = []; saved = [] } }
    {
        Homes {
            names: Tokens::new(alloc),
        }
    }

    /// The home of a variable.
    pub fn get(&self, var: u32) -> Home
        ensures { result ≡ homes self.now var }
    {
        home_named(self.names.get(var))
    }

    /// A variable stands there from here on. Where there is no memory, nothing changes.
    pub fn put(&mut self, var: u32, home: Home) -> Result<(), AllocError>
        ensures ok { OnOk result ((v : ℕ) → homes self.new v ≡ put (homes self.old) var home v) }
        ensures saved { OnOk result (self.new.saved ≡ self.old.saved) }
        ensures err { OnErr result (self.new ≡ self.old) }
    {
        self.names.set(var, Some(name_of(home)))
    }

    /// From here on what is put can be undone. Where there is no memory, nothing changes.
    pub fn mark(&mut self) -> Result<(), AllocError>
        ensures ok { OnOk result (self.new ≡ marked self.old) }
        ensures err { OnErr result (self.new ≡ self.old) }
    {
        self.names.mark()
    }

    /// Each variable stands where it did at the last mark, which goes; without a mark none was put anywhere. Takes no memory.
    pub fn undo(&mut self)
        ensures { self.new ≡ back_at self.old }
    {
        self.names.undo();
    }
}

/// A literal is kept by its number, a register as the first word of its number.
fn name_of(home: Home) -> Token
    ensures { token_of result ≡ name_of home }
{
    match home {
        Home::Register(register) => Token::Of(register, 0),
        Home::Literal(number) => Token::Number(number),
    }
}

/// Where something stands by its name.
fn home_named(name: Option<Token>) -> Home
    ensures { result ≡ home_named (option_map token_of name) }
{
    match name {
        Some(Token::Of(register, _)) => Home::Register(register),
        Some(Token::Number(number)) => Home::Literal(number),
        None => Home::Literal(0),
    }
}
