//! The lines of a derivation.

use sqlite_items::Items;
use target_code::Name;

/// A derivation: its lines, in order.
#[derive(Drop)]
pub struct Proof {
    /// The lines.
    pub lines: Items<ProofLine>,
}

/// A line of a derivation. Registers count from 0.
#[derive(Drop)]
pub enum ProofLine {
    /// `calc`
    Calc,
    /// `row NAME`, with the name of a rule row.
    Row(Name),
    /// `reg`
    Reg,
    /// `any rR`
    Any(u32),
    /// `left`
    Left,
    /// `right`
    Right,
    /// `if RS`, or `if` alone where there are no registers.
    If(Items<u32>),
    /// `while RS`, or `while` alone where there are no registers.
    While(Items<u32>),
    /// `par`
    Par,
    /// `split rA rB`
    Split(u32, u32),
    /// `use`
    Use,
    /// A line that is none of these, or that has no line feed.
    Other,
}
