//! Several registers get tokens.

ghost use Rattle.std.specs.Prelude.{◌≡◌, ℕ, suc, [], cond, None, IfOk, OnOk, option_map};
ghost use Rattle.fit_tokens.specs.Changes.{changes_of, options_of, token_of, tokens_of, toks, with_changes};
ghost use Rattle.fits.specs.Follow.{nth_token, old_token, put_maybe};
ghost use Rattle.fits.specs.Places.{arg_tokens, put_tokens};
ghost use Rattle.fits.specs.Written.{is_one_of};

use crate::table::{Change, Tokens};
use crate::token::Token;
use std::alloc::{AllocError, Global};

impl Tokens {
    /// Makes changes, in order. Where there is no memory, some may be made.
    pub fn put_all(&mut self, changes: &[Change]) -> Result<(), AllocError>
        ensures ok { OnOk result (self.new ≡ with_changes self.old (changes_of changes.now)) }
        ensures saved { self.new.saved ≡ self.old.saved }
    {
        'each: for change in changes {
            self.set(change.reg, change.token)?;
        }
        Ok(())
    }

    /// These registers have no token from here on. Where there is no memory, some may have one.
    pub fn forget(&mut self, regs: &[u32]) -> Result<(), AllocError>
        ensures ok { OnOk result ((r : ℕ) → toks self.new r ≡ cond (is_one_of r regs.now) None (toks self.old r)) }
        ensures saved { self.new.saved ≡ self.old.saved }
    {
        'each: for reg in regs {
            self.set(*reg, None)?;
        }
        Ok(())
    }

    /// Tokens come to registers, as far as there are both. Where there is no memory, some may come.
    pub fn put(&mut self, regs: &[u32], words: &[Token]) -> Result<(), AllocError>
        ensures ok { OnOk result (toks self.new ≡ put_tokens (toks self.old) regs.now (tokens_of words.now)) }
        ensures saved { self.new.saved ≡ self.old.saved }
    {
        let count = regs.len().min(words.len());
        'each: for index in 0..count {
            self.set(regs[index], Some(words[index]))?;
        }
        Ok(())
    }

    /// Tokens come to registers, as far as there are both; some get none. Where there is no memory, some may come.
    pub fn put_maybe(&mut self, regs: &[u32], words: &[Option<Token>]) -> Result<(), AllocError>
        ensures ok { OnOk result (toks self.new ≡ put_maybe (toks self.old) regs.now (options_of words.now)) }
        ensures saved { self.new.saved ≡ self.old.saved }
    {
        let count = regs.len().min(words.len());
        'each: for index in 0..count {
            self.set(regs[index], words[index])?;
        }
        Ok(())
    }

    /// The first registers have these tokens, and no other has one.
    pub fn of_words(alloc: Global, words: &[Token]) -> Result<Tokens, AllocError>
        ensures { IfOk result (λ new. (toks new ≡ (λ i. nth_token i (tokens_of words.now))) × (new.saved ≡ [])) }
    {
        let mut tokens = Tokens::new(alloc);
        let mut reg = 0;
        'each: for word in words {
            tokens.set(reg, Some(*word))?;
            reg = next_register(reg)?;
        }
        Ok(tokens)
    }

    /// The first registers have the tokens that these have here, and no other has one.
    pub fn of_registers(&self, alloc: Global, regs: &[u32]) -> Result<Tokens, AllocError>
        ensures { IfOk result (λ new. (toks new ≡ arg_tokens (toks self.now) regs.now) × (new.saved ≡ [])) }
    {
        let mut tokens = Tokens::new(alloc);
        let mut place = 0;
        'each: for reg in regs {
            tokens.set(place, self.get(*reg))?;
            place = next_register(place)?;
        }
        Ok(tokens)
    }

    /// The same, without the words of variables from this one on.
    pub fn of_old_registers(
        &self,
        alloc: Global,
        regs: &[u32],
        bound: u64,
    ) -> Result<Tokens, AllocError>
        ensures { IfOk result (λ new. (toks new ≡ arg_tokens (λ r. old_token bound (toks self.now r)) regs.now) × (new.saved ≡ [])) }
    {
        let mut tokens = Tokens::new(alloc);
        let mut place = 0;
        'each: for reg in regs {
            tokens.set(place, old_token(self.get(*reg), bound))?;
            place = next_register(place)?;
        }
        Ok(tokens)
    }
}

/// The register after this one. There is no room for more than 2^32.
fn next_register(reg: u32) -> Result<u32, AllocError>
    ensures { IfOk result (λ next. next ≡ suc reg) }
{
    reg.checked_add(1).ok_or(AllocError)
}

/// A token that is no word of a variable from this one on.
fn old_token(token: Option<Token>, bound: u64) -> Option<Token>
    ensures { option_map token_of result ≡ old_token bound (option_map token_of token) }
{
    match token {
        Some(Token::Of(var, _)) if u64::from(var) >= bound => None,
        _ => token,
    }
}
