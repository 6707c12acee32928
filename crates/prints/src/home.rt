//! Where words stand while code is printed.

/// Where a word stands while code is printed.
#[derive(Clone, Copy)]
pub enum Home {
    /// In a register.
    Register(u32),
    /// Nowhere: it is a literal, which is printed where it is used.
    Literal(u64),
}
