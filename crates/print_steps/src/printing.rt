//! What is printed so far, and what is known where it was printed.

ghost use Rattle.std.specs.Prelude.{◌≡◌, IfOk};
ghost use Rattle.prints.specs.Homes as h;
ghost use Rattle.word_homes.specs.Puts.{homes};

use facts::{Calculations, Facts};
use nres_core::Arg;
use ownership::{Context, Entry, Shape};
use prints::Home;
use proof_text::ProofLine;
use rule_steps::State;
use sqlite_items::Items;
use std::alloc::{AllocError, Global};
use target_code::Proc;
use word_homes::{Homes, args_words, behind, free_after};

/// What the rule check knows, where variables stand, the first register that is free from here on, the number of branches so far, the lines
/// of the derivation, the procedures, and a bound on the registers that were written.
#[derive(Drop)]
pub struct Printing {
    /// What the rule check knows.
    pub rules: State,
    /// Where variables stand.
    pub homes: Homes,
    /// The first register that is free.
    pub free: u32,
    /// The number of branches.
    pub branch: u32,
    /// The lines.
    pub lines: Items<ProofLine>,
    /// The procedures of the text, `main` first.
    pub own: Items<Proc>,
    /// The procedures of the branches, in text order.
    pub made: Items<Proc>,
    /// Registers from this one on were not written.
    pub top: u32,
}

/// What is known of no body.
pub fn empty_rules(alloc: Global) -> State {
    State {
        context: Context::new(alloc),
        facts: Facts::new(alloc),
        calculations: Calculations::new(alloc),
        start: 0,
    }
}

impl Printing {
    /// Nothing is printed.
    pub fn new(alloc: Global) -> Printing {
        Printing {
            rules: empty_rules(alloc),
            homes: Homes::new(alloc),
            free: 0,
            branch: 0,
            lines: Items::new(alloc),
            own: Items::new(alloc),
            made: Items::new(alloc),
            top: 0,
        }
    }

    /// The home of an argument.
    pub fn home(&self, arg: Arg) -> Home
        ensures { result ≡ h.arg_home (homes self.now.homes) arg }
    {
        match arg {
            Arg::Var(var) => self.homes.get(var),
            Arg::Num(number) => Home::Literal(number),
            Arg::Truth(truth) => Home::Literal(u64::from(truth)),
        }
    }

    /// The homes of arguments.
    pub fn homes(&self, alloc: Global, args: &[Arg]) -> Result<Items<Home>, AllocError>
        ensures { IfOk result (λ found. found ≡ h.arg_homes (homes self.now.homes) args.now) }
    {
        let mut homes = Items::new(alloc);
        'each: for arg in args {
            homes.push(self.home(*arg))?;
        }
        Ok(homes)
    }

    /// The words of arguments, of which the entries are given.
    pub fn words(
        &self,
        alloc: Global,
        args: &[Arg],
        entries: &[Entry],
    ) -> Result<Items<Home>, AllocError> {
        let homes = self.homes(alloc, args)?;
        let mut words = Items::new(alloc);
        args_words(&mut words, homes.as_slice(), entries)?;
        Ok(words)
    }

    /// New variables stand in registers from this one on; behind them is free.
    pub fn bind(&mut self, first: u32, outs: &[u32], shapes: &[Shape]) -> Result<(), AllocError> {
        let mut next = first;
        let count = outs.len().min(shapes.len());
        'each: for index in 0..count {
            self.homes.put(outs[index], Home::Register(next))?;
            next = behind(next, shapes[index].rep.width())?;
        }
        self.free = free_after(first, shapes)?;
        Ok(())
    }

    /// New variables stand where these words do.
    pub fn alias(&mut self, outs: &[u32], homes: &[Home]) -> Result<(), AllocError> {
        let count = outs.len().min(homes.len());
        'each: for index in 0..count {
            self.homes.put(outs[index], homes[index])?;
        }
        Ok(())
    }

    /// Puts a line in the place of an earlier one.
    pub fn put_line(&mut self, index: usize, line: ProofLine) {
        if index < self.lines.len() {
            self.lines.set(index, line);
        } else {
            drop(line);
        }
    }

    /// Registers below this one were written.
    pub fn reach(&mut self, register: u32) {
        if self.top < register {
            self.top = register;
        }
    }
}
