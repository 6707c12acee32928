//! Tokens where the sides of an `if` meet, and where a turn of a loop ends.

ghost use Rattle.std.specs.Prelude.{◌≡◌, ◌++◌, ℕ, IfOk, OnOk, option_map};
ghost use Rattle.fit_tokens.specs.Changes.{NoneFrom, after, agreed, all_kept, back_at, changes_of, seen_at, token_of, toks, toks_at_mark};
ghost use Rattle.fits.specs.Places.{both_tokens, keep_tokens, keeps_token};

use crate::table::{Change, Tokens};
use crate::token::{Token, same_token};
use sqlite_items::Items;
use std::alloc::{AllocError, Global};

impl Tokens {
    /// The changes since the last mark, which are undone.
    pub fn take_back(&mut self, alloc: Global) -> Result<Items<Change>, AllocError>
        ensures changes { IfOk result (λ changes. changes_of changes ≡ self.old.changes) }
        ensures undone { IfOk result (λ changes. self.new ≡ back_at self.old) }
    {
        let changes = self.changes(alloc)?;
        self.undo();
        Ok(changes)
    }

    /// The second of two sides that began at the last mark is over, and `left` are the changes of the first: the mark goes, and each
    /// register has its token where both sides left it the same.
    pub fn meet(&mut self, alloc: Global, left: &[Change]) -> Result<(), AllocError>
        ensures tokens { OnOk result ((r : ℕ) → toks self.new r ≡ both_tokens (after (changes_of left.now) (toks_at_mark self.old) r) (toks self.old r)) }
        ensures saved { OnOk result (self.new.saved ≡ (back_at self.old).saved) }
    {
        let mut right = Items::new(alloc);
        self.note(&mut right, left)?;
        let since = self.changes(alloc)?;
        self.note(&mut right, since.as_slice())?;
        self.undo();
        self.put_all(left)?;
        self.agree(right.as_slice())
    }

    /// Notes the tokens of the registers of changes as they are now.
    fn note(&self, noted: &mut Items<Change>, changes: &[Change]) -> Result<(), AllocError>
        ensures { OnOk result (changes_of noted.new ≡ changes_of noted.old ++ seen_at (toks self.now) (changes_of changes.now)) }
    {
        'each: for change in changes {
            noted.push(Change {
                reg: change.reg,
                token: self.get(change.reg),
            })?;
        }
        Ok(())
    }

    /// Each of these registers keeps its token where it is the same there.
    fn agree(&mut self, others: &[Change]) -> Result<(), AllocError>
        ensures ok { OnOk result (toks self.new ≡ agreed (toks self.old) (changes_of others.now)) }
        ensures saved { self.new.saved ≡ self.old.saved }
    {
        'each: for other in others {
            let both = both_tokens(self.get(other.reg), other.token);
            self.set(other.reg, both)?;
        }
        Ok(())
    }

    /// Whether each register has the token that it had at the last mark, if it had one. All is undone.
    pub fn undo_kept(&mut self, alloc: Global) -> Result<bool, AllocError>
        ensures kept { IfOk result (λ kept. (R : ℕ) → NoneFrom R (toks_at_mark self.old) → kept ≡ keep_tokens R (toks_at_mark self.old) (toks self.old)) }
        ensures undone { IfOk result (λ kept. self.new ≡ back_at self.old) }
    {
        let mut ends = Items::new(alloc);
        let since = self.changes(alloc)?;
        self.note(&mut ends, since.as_slice())?;
        self.undo();
        Ok(self.keeps(ends.as_slice()))
    }

    /// Whether these registers have there the token that they have here, if they have one.
    fn keeps(&self, ends: &[Change]) -> bool
        ensures { result ≡ all_kept (toks self.now) (changes_of ends.now) }
    {
        'each: for end in ends {
            if !keeps_token(self.get(end.reg), end.token) {
                return false;
            }
        }
        true
    }
}

/// A token that both sides leave.
fn both_tokens(one: Option<Token>, other: Option<Token>) -> Option<Token>
    ensures { option_map token_of result ≡ both_tokens (option_map token_of one) (option_map token_of other) }
{
    match (one, other) {
        (Some(token), Some(found)) if same_token(found, token) => Some(token),
        _ => None,
    }
}

/// Whether a token is the same there, if there is one here.
fn keeps_token(here: Option<Token>, there: Option<Token>) -> bool
    ensures { result ≡ keeps_token (option_map token_of here) (option_map token_of there) }
{
    match (here, there) {
        (None, _) => true,
        (Some(token), Some(found)) => same_token(found, token),
        (Some(_), None) => false,
    }
}
