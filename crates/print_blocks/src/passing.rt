//! What branches are passed, handed and lent.

use ownership::{Context, Entry};
use print_steps::Printing;
use prints::Home;
use sqlite_items::Items;
use std::alloc::{AllocError, Global};
use target_code::{Hand, Rep};
use word_homes::{behind, reg_of, span};

/// What a branch is passed, the oldest variable first, what it is handed and lent, and where its variables stand in it.
#[derive(Drop)]
pub struct Passing {
    /// The registers that it is passed.
    pub args: Items<u32>,
    /// The containers that it alone uses.
    pub hands: Items<Hand>,
    /// Those that the other branch uses too.
    pub lends: Items<Hand>,
    /// Its variables.
    pub vars: Items<u32>,
    /// Where they stand in it.
    pub homes: Items<Home>,
}

/// A part of a list that is cut: its variable, and where its words stand outside.
#[derive(Clone, Copy)]
pub struct Part {
    /// The variable of the slice.
    pub var: u32,
    /// The register of the block.
    pub block: u32,
    /// The register of the offset.
    pub from: u32,
    /// The register of the length.
    pub count: u32,
}

/// A branch that is to be printed: its entries, those of the other one, and the list that is cut, with its own part of it.
#[derive(Clone, Copy)]
pub struct Going<'a> {
    /// The entries.
    pub own: &'a Context,
    /// Those of the other branch.
    pub other: &'a Context,
    /// How many of the entries are no part of a list.
    pub count: usize,
    /// The list.
    pub list: Option<u32>,
    /// The part.
    pub part: Option<Part>,
}

/// What a branch is passed.
pub fn passing_of(
    alloc: Global,
    printing: &Printing,
    going: &Going,
) -> Result<Passing, AllocError> {
    let mut passing = Passing {
        args: Items::new(alloc),
        hands: Items::new(alloc),
        lends: Items::new(alloc),
        vars: Items::new(alloc),
        homes: Items::new(alloc),
    };
    match pass_all(&mut passing, printing, going) {
        Ok(()) => Ok(passing),
        Err(error) => {
            drop(passing);
            Err(error)
        }
    }
}

/// The variables are passed, the part of a list behind them; of the containers this part comes first, and then the newest.
fn pass_all(passing: &mut Passing, printing: &Printing, going: &Going) -> Result<(), AllocError> {
    pass_entries(passing, printing, going)?;
    if let Some(part) = going.part {
        pass_part(passing, &part)?;
    }
    hand_entries(passing, printing, going)
}

/// The variables are passed, the oldest first, but for a list that is cut.
fn pass_entries(
    passing: &mut Passing,
    printing: &Printing,
    going: &Going,
) -> Result<(), AllocError> {
    'each: for index in 0..going.count {
        if let Some(entry) = going.own.get(index) {
            if going.list != Some(entry.var) {
                pass(passing, printing.homes.get(entry.var), &entry)?;
            }
        }
    }
    Ok(())
}

/// The containers are handed or lent, the newest first, but for a list that is cut.
fn hand_entries(
    passing: &mut Passing,
    printing: &Printing,
    going: &Going,
) -> Result<(), AllocError> {
    let mut index = going.count;
    'back: while index > 0 {
        index -= 1;
        if let Some(entry) = going.own.get(index) {
            if going.list != Some(entry.var) {
                let home = printing.homes.get(entry.var);
                let shared = going.other.index_of(entry.var).is_some();
                hand(passing, home, &entry, shared)?;
            }
        }
    }
    Ok(())
}

/// A variable is passed.
fn pass(passing: &mut Passing, home: Home, entry: &Entry) -> Result<(), AllocError> {
    let inside = match home {
        Home::Register(first) => {
            let place = behind(0, passing.args.len())?;
            span(&mut passing.args, first, entry.rep.width())?;
            Home::Register(place)
        }
        Home::Literal(number) => Home::Literal(number),
    };
    passing.vars.push(entry.var)?;
    passing.homes.push(inside)
}

/// A part of a list is passed and handed.
fn pass_part(passing: &mut Passing, part: &Part) -> Result<(), AllocError> {
    let place = behind(0, passing.args.len())?;
    passing.args.push(part.block)?;
    passing.args.push(part.from)?;
    passing.args.push(part.count)?;
    passing.vars.push(part.var)?;
    passing.homes.push(Home::Register(place))?;
    passing.hands.push(Hand {
        block: part.block,
        span: Some((part.from, part.count)),
    })
}

/// A container is handed, or lent where both branches use it.
fn hand(passing: &mut Passing, home: Home, entry: &Entry, shared: bool) -> Result<(), AllocError> {
    if matches!(entry.rep, Rep::Word | Rep::Flag) {
        return Ok(());
    }
    let hand = hand_of(home, entry.rep)?;
    if shared {
        passing.lends.push(hand)
    } else {
        passing.hands.push(hand)
    }
}

/// A block whole, and of a slice its range.
fn hand_of(home: Home, rep: Rep) -> Result<Hand, AllocError> {
    let block = reg_of(home);
    let span = match rep {
        Rep::Slice => Some((behind(block, 1)?, behind(block, 2)?)),
        _ => None,
    };
    Ok(Hand { block, span })
}
