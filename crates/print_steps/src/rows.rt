//! What a row of the table is called with, and what it gives.

use nres_core::LibName;
use ownership::{Context, Entry, Shape, var_entry};
use prints::Home;
use sqlite_items::Items;
use std::alloc::{AllocError, Global};
use target_code::{Name, Rep};
use word_homes::args_words;

/// The bound of a representation.
fn bound_in(rep: Rep) -> Option<u32> {
    match rep {
        Rep::Bits(bound) | Rep::Amap(bound) => Some(bound),
        _ => None,
    }
}

/// The first bound of arguments.
fn first_bound(entries: &[Entry]) -> Option<u32> {
    'each: for entry in entries {
        if let Some(bound) = bound_in(entry.rep) {
            return Some(bound);
        }
    }
    None
}

/// The bound that a procedure takes before its arguments: that of what it makes, or the first one of these.
fn row_bound(made: Option<Rep>, entries: &[Entry]) -> Option<u32> {
    let own = match made {
        Some(rep) => bound_in(rep),
        None => None,
    };
    match own {
        Some(bound) => Some(bound),
        None => first_bound(entries),
    }
}

/// The words of a row's arguments, behind the bound where there is one.
pub fn row_words(
    alloc: Global,
    made: Option<Rep>,
    homes: &[Home],
    entries: &[Entry],
) -> Result<Items<Home>, AllocError> {
    let mut words = Items::new(alloc);
    if let Some(bound) = row_bound(made, entries) {
        words.push(Home::Literal(u64::from(bound)))?;
    }
    args_words(&mut words, homes, entries)?;
    Ok(words)
}

/// What variables are in.
pub fn var_shapes(
    alloc: Global,
    context: &Context,
    vars: &[u32],
) -> Result<Items<Shape>, AllocError> {
    let mut shapes = Items::new(alloc);
    'each: for var in vars {
        let entry = var_entry(context, *var);
        shapes.push(entry.shape())?;
    }
    Ok(shapes)
}

/// The name of a procedure of the library.
pub fn lib_word(alloc: Global, name: LibName) -> Result<Name, AllocError> {
    Name::new(alloc, lib_names::lib_name(name)).or(Err(AllocError))
}
