//! What a step on word 0 announces.
use crate::Part;

/// Says of a part that the next split of the seat hands it on. The split learns by such steps which
/// parts it is given.
#[derive(Clone, Copy)]
pub struct Mark {
    /// The part.
    pub part: Part,
    /// Whether half of each share goes, rounded down, and not all of it.
    pub half: bool,
}
