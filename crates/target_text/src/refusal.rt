//! Why bytes are no program's text.

use thiserror::Error;

/// Why bytes are the text of no program.
#[derive(Clone, Copy, PartialEq, Eq, Debug, Error)]
pub enum NotProgram {
    /// The line, counted from 1: the first with which no program's text begins, or the one behind the last where the text
    /// only ends too early.
    #[error("line {0}")]
    Line(u64),
    /// There was no memory.
    #[error("out of memory")]
    Memory,
}
