//! The words of arguments.

ghost use Rattle.std.specs.Prelude.{◌≡◌, ◌++◌, ℕ, length, IfOk, OnOk};
ghost use Rattle.ownership.specs.Entries.{spots_of};
ghost use Rattle.prints.specs.Homes as h;
ghost use Rattle.word_homes.specs.Words.{homes_words};

use crate::registers::behind;
use ownership::Entry;
use prints::Home;
use sqlite_items::Items;
use std::alloc::{AllocError, Global};
use target_code::Rep;

/// All words of a value in a representation, behind others.
pub fn words_at(words: &mut Items<Home>, home: Home, rep: Rep) -> Result<(), AllocError>
    ensures { OnOk result (words.new ≡ words.old ++ h.words_at home rep) }
{
    match home {
        Home::Register(first) => registers(words, first, rep.width()),
        Home::Literal(_) => words.push(home),
    }
}

/// So many registers from this one on, as words behind others.
fn registers(words: &mut Items<Home>, first: u32, count: usize) -> Result<(), AllocError>
    ensures { OnOk result (words.new ≡ words.old ++ h.registers (h.span first count)) }
{
    let mut next = first;
    'each: for _ in 0..count {
        words.push(Home::Register(next))?;
        next = behind(next, 1)?;
    }
    Ok(())
}

/// The words of arguments, of which the homes and the entries are given, as far as there are both, behind others.
pub fn args_words(
    words: &mut Items<Home>,
    homes: &[Home],
    entries: &[Entry],
) -> Result<(), AllocError>
    ensures { OnOk result (words.new ≡ words.old ++ homes_words homes.now (spots_of entries.now)) }
{
    let count = homes.len().min(entries.len());
    'each: for index in 0..count {
        words_at(words, homes[index], entries[index].rep)?;
    }
    Ok(())
}

/// Literals as words, behind others.
pub fn literals(words: &mut Items<Home>, numbers: &[u64]) -> Result<(), AllocError>
    ensures { OnOk result (words.new ≡ words.old ++ h.literals numbers.now) }
{
    'each: for number in numbers {
        words.push(Home::Literal(*number))?;
    }
    Ok(())
}

/// The word of this number of the first argument.
pub fn first_word_at(homes: &[Home], word: usize) -> Result<Home, AllocError>
    ensures { IfOk result (λ found. found ≡ h.first_word_at homes.now word) }
{
    match homes.first() {
        Some(Home::Register(first)) => Ok(Home::Register(behind(*first, word)?)),
        Some(literal) => Ok(*literal),
        None => Ok(Home::Literal(0)),
    }
}
