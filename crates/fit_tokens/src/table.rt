//! Tokens by register, with what was changed since marks.

ghost use Rattle.std.specs.Prelude.{◌≡◌, [], take, IfOk, OnOk, OnErr, option_map};
ghost use Rattle.fit_tokens.specs.Changes.{change, changes_of, back_at, marked, token_of, tokens_of, toks, with_change};
ghost use Rattle.fits.specs.Places.{has_token, hold_words};
ghost use Rattle.fit_tokens.specs.Logs.{IsLogged, logged_of};

use crate::token::{Token, same_token};
use indexmap::IndexMap;
use sqlite_items::Items;
use std::alloc::{AllocError, Global};
use std::marker::Model;

/// The token that a register has from here on, or that it has none.
#[derive(Clone, Copy)]
pub struct Change {
    /// The register.
    pub reg: u32,
    /// Its token.
    pub token: Option<Token>,
}

/// A change, with the token of its register before.
#[derive(Clone, Copy)]
struct Logged {
    reg: u32,
    token: Option<Token>,
    before: Option<Token>,
}

/// The tokens of registers, seen as the changes since the last mark, and those from each mark to the next. No register has a token
/// without a change.
#[derive(Drop)]
pub struct Tokens {
    log: Items<Logged>,
    table: IndexMap<u32, Option<Token>>,
    marks: Items<usize>,
}

impl Model for Tokens {
    ghost use Rattle.fit_tokens.specs.Changes.{Known};

    ghost Value = { Known };

    ghost use Rattle.std.specs.Prelude.{[]};
    ghost use Rattle.fit_tokens.specs.Logs.{known_of, logged_of, marks_of, IsSound};

    ghost view = { λ x. known_of (logged_of x.log) (marks_of x.marks []) };

    ghost invariant = { λ x. IsSound x.log x.table (marks_of x.marks []) };
}

impl Tokens {
    /// No register has a token. Takes no memory.
    pub fn new(alloc: Global) -> Tokens
        ensures { result ≡ record { changes = []; saved = [] } }
    {
        Tokens {
            log: Items::new(alloc),
            table: IndexMap::new(alloc),
            marks: Items::new(alloc),
        }
    }

    /// The token of a register.
    pub fn get(&self, reg: u32) -> Option<Token>
        ensures { option_map token_of result ≡ toks self.now reg }
    {
        match self.table.get(&reg) {
            Some(found) => *found,
            None => None,
        }
    }

    /// A register has this token from here on, or none. Where there is no memory, nothing changes.
    pub fn set(&mut self, reg: u32, token: Option<Token>) -> Result<(), AllocError>
        ensures ok { OnOk result (self.new ≡ with_change self.old (change reg (option_map token_of token))) }
        ensures err { OnErr result (self.new ≡ self.old) }
    {
        let before = self.get(reg);
        self.log.push(Logged { reg, token, before })?;
        if self.table.insert(reg, token).is_err() {
            self.log.pop();
            return Err(AllocError);
        }
        Ok(())
    }

    /// From here on changes can be undone. Where there is no memory, nothing changes.
    pub fn mark(&mut self) -> Result<(), AllocError>
        ensures ok { OnOk result (self.new ≡ marked self.old) }
        ensures err { OnErr result (self.new ≡ self.old) }
    {
        self.marks.push(self.log.len())?;
        Ok(())
    }

    /// The tokens are those at the last mark, which goes; without a mark there are none. Takes no memory.
    pub fn undo(&mut self)
        ensures { self.new ≡ back_at self.old }
    {
        match self.marks.pop() {
            Some(mark) => restore(&mut self.log, &mut self.table, mark),
            None => restore(&mut self.log, &mut self.table, 0),
        }
    }

    /// The changes since the last mark, in order.
    pub fn changes(&self, alloc: Global) -> Result<Items<Change>, AllocError>
        ensures { IfOk result (λ changes. changes_of changes ≡ self.now.changes) }
    {
        plain_changes(alloc, self.newest())
    }

    /// What was logged since the last mark.
    fn newest(&self) -> &[Logged]
        ensures { logged_of result.now ≡ self.now.changes }
    {
        match self.marks.as_slice().last() {
            Some(mark) => {
                let (_, since) = self.log.as_slice().split_at(*mark);
                since
            }
            None => self.log.as_slice(),
        }
    }

    /// Whether a register has this token.
    pub fn has(&self, reg: u32, token: Token) -> bool
        ensures { result ≡ has_token (toks self.now reg) (token_of token) }
    {
        match self.get(reg) {
            Some(found) => same_token(found, token),
            None => false,
        }
    }

    /// Whether registers hold these words.
    pub fn hold(&self, regs: &[u32], words: &[Token]) -> bool
        ensures { result ≡ hold_words (toks self.now) regs.now (tokens_of words.now) }
    {
        if regs.len() != words.len() {
            return false;
        }
        'each: for index in 0..regs.len() {
            if !self.has(regs[index], words[index]) {
                return false;
            }
        }
        true
    }
}

/// Changes without what was before.
fn plain_changes(alloc: Global, logged: &[Logged]) -> Result<Items<Change>, AllocError>
    ensures { IfOk result (λ changes. changes_of changes ≡ logged_of logged.now) }
{
    let mut changes = Items::new(alloc);
    'each: for one in logged {
        changes.push(Change {
            reg: one.reg,
            token: one.token,
        })?;
    }
    Ok(changes)
}

/// Undoes changes, the last first, until so many are left.
fn restore(log: &mut Items<Logged>, table: &mut IndexMap<u32, Option<Token>>, count: usize)
    requires { IsLogged log.old table.old }
    ensures log { log.new ≡ take count log.old }
    ensures logged { IsLogged log.new table.new }
{
    'each: while log.len() > count {
        if let Some(last) = log.pop() {
            if table.insert(last.reg, last.before).is_err() {
                unreachable!();
            }
        }
    }
}
