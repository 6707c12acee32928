//! What procedures are called.

use std::alloc::{AllocError, Global};
use target_code::Name;

/// What a procedure is called after: `main`, or its number among those of the text or among the branches, counted from 0.
#[derive(Clone, Copy)]
pub enum Title {
    /// The specification.
    Main,
    /// A procedure of the text.
    Procedure(u32),
    /// A branch.
    Branch(u32),
}

/// The name of a procedure.
pub fn name_of(alloc: Global, title: Title) -> Result<Name, AllocError> {
    match title {
        Title::Main => Name::new(alloc, b"main").or(Err(AllocError)),
        Title::Procedure(number) => numbered(alloc, b'p', number),
        Title::Branch(number) => numbered(alloc, b'b', number),
    }
}

/// A letter, and a number from 1.
fn numbered(alloc: Global, letter: u8, number: u32) -> Result<Name, AllocError> {
    let mut bytes = Vec::new(alloc);
    bytes.push(letter)?;
    target_code::push_number(&mut bytes, u64::from(number) + 1)?;
    Name::new(alloc, bytes.as_slice()).or(Err(AllocError))
}
