//! What following is given, and what it comes to.

use fit_state::Views;
use ownership::Shape;
use proof_text::ProofLine;
use sqlite_items::Items;

/// What is looked up, and how many registers the procedure has.
#[derive(Clone, Copy)]
pub struct Frame<'a> {
    /// What is looked up.
    pub views: Views<'a>,
    /// How many registers there are.
    pub regs: u32,
}

/// Lines of which the first was not found.
#[derive(Clone, Copy)]
pub struct Unmet<'a> {
    /// The lines.
    pub lines: &'a [ProofLine],
}

/// How a block ends.
#[derive(Clone, Copy)]
pub struct Ends<'a> {
    /// So many entries there were where it began.
    pub count: usize,
    /// The variables from this one on are its own.
    pub mark: u64,
    /// The list of which it owes a slice.
    pub owed: Option<u32>,
    /// The registers of its results.
    pub targets: &'a [u32],
}

/// A block that was followed to its end.
#[derive(Drop)]
pub struct Over<'a> {
    /// The lines behind it.
    pub lines: &'a [ProofLine],
    /// What its results are in.
    pub shapes: Items<Shape>,
}
