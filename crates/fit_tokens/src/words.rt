//! The words that stand for entries, by place.

ghost use Rattle.std.specs.Option.{option_copied};
ghost use Rattle.std.specs.Prelude.{◌≡◌, ◌∷◌, ◌-◌, [], drop, length, OnOk, OnErr, option_map};
ghost use Rattle.fit_tokens.specs.Changes.{token_of, tokens_of};
ghost use Rattle.fit_tokens.specs.Standing.{IsNext, first_variable, is_of, newest_of, standing_in, standing_of};

use crate::token::{Token, first_is};
use indexmap::IndexMap;
use sqlite_items::Items;
use std::alloc::{AllocError, Global};
use std::marker::Model;

/// What stands for an entry: its words, and whether only a part of each share of it is held.
#[derive(Drop)]
pub struct Words {
    /// The words.
    pub list: Items<Token>,
    /// Whether only a part is held.
    pub part: bool,
}

/// Words with the newest place below whose first word is of the same variable, if there is one.
#[derive(Drop)]
struct Placed {
    words: Words,
    below: Option<usize>,
}

/// What stands for the entries of a context, in order of creation, seen with the newest first. The places whose first word is of a
/// variable are found at once.
#[derive(Drop)]
pub struct WordStack {
    stack: Items<Placed>,
    table: IndexMap<u32, Option<usize>>,
}

impl Model for WordStack {
    ghost use Rattle.std.specs.Prelude.{List};
    ghost use Rattle.fit_tokens.specs.Standing.{Standing};

    ghost Value = { List Standing };

    ghost use Rattle.std.specs.Prelude.{[]};
    ghost use Rattle.fit_tokens.specs.Stacks.{onto, IsStack};

    ghost view = { λ x. onto x.stack [] };

    ghost invariant = { λ x. IsStack x.stack x.table };
}

impl WordStack {
    /// No entry. Takes no memory.
    pub fn new(alloc: Global) -> WordStack
        ensures { result ≡ [] }
    {
        WordStack {
            stack: Items::new(alloc),
            table: IndexMap::new(alloc),
        }
    }

    /// How many entries there are.
    pub fn len(&self) -> usize
        ensures { result ≡ length self.now }
    {
        self.stack.len()
    }

    /// What stands for the entry at a place, from 0 in order of creation.
    pub fn get(&self, index: usize) -> Option<&Words>
        ensures { option_map standing_of (option_copied result) ≡ standing_in self.now index }
    {
        match self.stack.get(index) {
            Some(placed) => Some(&placed.words),
            None => None,
        }
    }

    /// The newest place whose first word is of a variable.
    fn newest_of(&self, var: u32) -> Option<usize>
        ensures { result ≡ newest_of self.now var }
    {
        match self.table.get(&var) {
            Some(found) => *found,
            None => None,
        }
    }

    /// One more entry. Where there is no memory, nothing changes.
    pub fn push(&mut self, words: Words) -> Result<(), AllocError>
        ensures ok { OnOk result (self.new ≡ standing_of words ∷ self.old) }
        ensures err { OnErr result (self.new ≡ self.old) }
    {
        let index = self.stack.len();
        match first_variable(words.list.as_slice()) {
            None => {
                self.stack.push(Placed { words, below: None })?;
                Ok(())
            }
            Some(var) => {
                let below = self.newest_of(var);
                self.stack.push(Placed { words, below })?;
                if self.table.insert(var, Some(index)).is_err() {
                    self.stack.pop();
                    return Err(AllocError);
                }
                Ok(())
            }
        }
    }

    /// Only the oldest entries are left, so many. Takes no memory.
    pub fn cut(&mut self, count: usize)
        ensures { self.new ≡ drop (length self.old - count) self.old }
    {
        while self.len() > count {
            self.pop();
        }
    }

    /// The newest entry goes.
    fn pop(&mut self)
        ensures { self.new ≡ drop 1 self.old }
    {
        if let Some(placed) = self.stack.pop() {
            if let Some(var) = first_variable(placed.words.list.as_slice()) {
                if self.table.insert(var, placed.below).is_err() {
                    unreachable!();
                }
            }
        }
    }

    /// The newest place at which this may be the first word. None above it has it.
    pub fn newest(&self, token: Token) -> Option<usize>
        ensures { IsNext self.now (token_of token) (length self.now) result }
    {
        match token {
            Token::Of(var, _) => self.newest_of(var),
            Token::Number(_) => self.stack.len().checked_sub(1),
        }
    }

    /// The newest place below another at which this may be the first word. None between has it.
    pub fn next(&self, token: Token, index: usize) -> Option<usize>
        ensures { IsNext self.now (token_of token) index result }
    {
        match (token, self.stack.get(index)) {
            (Token::Of(var, _), Some(placed)) if is_first_of(var, placed.words.list.as_slice()) =>
                placed.below,
            _ => index.checked_sub(1),
        }
    }
}

/// The variable of which the first word is.
fn first_variable(words: &[Token]) -> Option<u32>
    ensures { result ≡ first_variable (tokens_of words.now) }
{
    match words {
        [Token::Of(var, _), ..] => Some(*var),
        _ => None,
    }
}

/// Whether the first word is of this variable.
fn is_first_of(var: u32, words: &[Token]) -> bool
    ensures { result ≡ is_of var (tokens_of words.now) }
{
    match words {
        [Token::Of(other, _), ..] => *other == var,
        _ => false,
    }
}
