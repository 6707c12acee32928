//! The numbers that are known to be below a bound.

ghost use Rattle.std.specs.Prelude.{◌≡◌, ◌-◌, ◌∷◌, ◌++◌, [], length, drop, MatchOption, OnOk, OnErr};
ghost use Rattle.rule_check.specs.Facts.{any_tells, below, calc_tells, knows};
ghost use Rattle.facts.specs.Kept.{all_but_last, least, lower, told_of};

use indexmap::IndexMap;
use nres_core::Arg;
use std::alloc::{AllocError, Global};
use std::marker::Model;
use target_code::Calc;

/// A variable is below a bound.
#[derive(Clone, Copy)]
pub struct Fact {
    /// The variable.
    pub var: u32,
    /// The bound.
    pub bound: u64,
}

/// A fact, with the least bound that was known of its variable before.
#[derive(Drop)]
struct Learnt {
    fact: Fact,
    before: Option<u64>,
}

/// The facts that are known, seen as a list, the newest first. A look-up takes the same time for any number of facts.
#[derive(Drop)]
pub struct Facts {
    log: Vec<Learnt>,
    bounds: IndexMap<u32, Option<u64>>,
}

impl Model for Facts {
    ghost use Rattle.std.specs.Prelude.{List};
    ghost use Rattle.rule_check.specs.Context.{Fact as FactOf};

    ghost Value = { List FactOf };

    ghost use Rattle.facts.specs.Logs.{facts_of, IsSound};

    ghost view = { λ s. facts_of s.log.items };

    ghost invariant = { λ s. IsSound s.log.items s.bounds };
}

/// The lower of two bounds.
fn lower(bound: u64, other: Option<u64>) -> u64
    ensures { result ≡ lower bound other }
{
    match other {
        Some(least) if least < bound => least,
        _ => bound,
    }
}

/// The facts before the last, and the last.
fn last_fact(facts: &[Fact]) -> Option<(&[Fact], &Fact)>
    ensures { MatchOption result (facts.now ≡ []) (λ found. facts.now ≡ found.0.now ++ found.1.now ∷ []) }
{
    match facts {
        [] => None,
        [before @ .., last] => Some((before, last)),
    }
}

impl Facts {
    /// No facts. Takes no memory.
    pub fn new(alloc: Global) -> Facts
        ensures { result ≡ [] }
    {
        Facts {
            log: Vec::new(alloc),
            bounds: IndexMap::new(alloc),
        }
    }

    /// How many facts are known.
    pub fn len(&self) -> usize
        ensures { result ≡ length self.now }
    {
        self.log.len()
    }

    /// The least bound that is known of a variable.
    fn least(&self, var: u32) -> Option<u64>
        ensures { result ≡ least self.now var }
    {
        match self.bounds.get(&var) {
            Some(found) => *found,
            None => None,
        }
    }

    /// Whether a value is known to be below a bound: a literal is, where it is below it, and a variable, where a fact says so.
    pub fn knows(&self, arg: Arg, bound: u64) -> bool
        ensures { result ≡ knows self.now arg bound }
    {
        match arg {
            Arg::Var(var) => match self.least(var) {
                Some(least) => least <= bound,
                None => false,
            },
            Arg::Num(number) => number < bound,
            Arg::Truth(_) => false,
        }
    }

    /// Adds a fact. Where there is no memory, the facts stay.
    pub fn know(&mut self, fact: Fact) -> Result<(), AllocError>
        ensures known { OnOk result (self.new ≡ below fact.var fact.bound ∷ self.old) }
        ensures unchanged { OnErr result (self.new ≡ self.old) }
    {
        let before = self.least(fact.var);
        let bound = lower(fact.bound, before);
        self.log.reserve(1)?;
        self.bounds.insert(fact.var, Some(bound))?;
        self.log.push(Learnt { fact, before }).unwrap();
        Ok(())
    }

    /// Adds facts, the last first, so that the first is the newest.
    pub fn know_all(&mut self, facts: &[Fact]) -> Result<(), AllocError>
        ensures { OnOk result (self.new ≡ told_of facts.now ++ self.old) }
    {
        let mut left = facts;
        'each: while let Some((before, fact)) = last_fact(left) {
            self.know(*fact)?;
            left = before;
        }
        Ok(())
    }

    /// Adds what `any` tells of its result: it is below an upper end that is a literal.
    pub fn know_any(&mut self, to: u32, high: Arg) -> Result<(), AllocError>
        ensures known { OnOk result (self.new ≡ any_tells to high ++ self.old) }
        ensures unchanged { OnErr result (self.new ≡ self.old) }
    {
        match high {
            Arg::Num(bound) => self.know(Fact { var: to, bound }),
            _ => Ok(()),
        }
    }

    /// Adds what a calculation tells of its result: the rest of a division by a literal above 0 is below it.
    pub fn know_calc(&mut self, word: Calc, to: u32, right: Arg) -> Result<(), AllocError>
        ensures known { OnOk result (self.new ≡ calc_tells word to right ++ self.old) }
        ensures unchanged { OnErr result (self.new ≡ self.old) }
    {
        match (word, right) {
            (Calc::Mod, Arg::Num(bound)) if bound > 0 => self.know(Fact { var: to, bound }),
            _ => Ok(()),
        }
    }

    /// Forgets the fact that was added last.
    fn forget(&mut self)
        ensures { self.new ≡ all_but_last self.old }
    {
        if let Some(Learnt { fact, before }) = self.log.pop() {
            if self.bounds.insert(fact.var, before).is_err() {
                unreachable!();
            }
        }
    }

    /// Forgets the facts that were added since there were so many.
    pub fn leave(&mut self, mark: usize)
        ensures { self.new ≡ drop (length self.old - mark) self.old }
    {
        while self.len() > mark {
            self.forget();
        }
    }
}
