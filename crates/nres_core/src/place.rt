//! Places in a text.

use target_code::Name;

/// A place in a text. Lines and columns count from 1; columns count bytes.
#[derive(Clone, Copy, PartialEq, Eq, Debug)]
pub struct Place {
    /// The line.
    pub line: u64,
    /// The byte in that line.
    pub column: u64,
}

/// A name and where it stands.
#[derive(Drop)]
pub struct Named {
    /// The name.
    pub name: Name,
    /// The place of its first byte.
    pub place: Place,
}
