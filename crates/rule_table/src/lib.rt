//! The table of rule rows with the library: all rows are sound, and the library, as it is made, is closed under its calls.
#![tactic(auto)]

pub mod laws;
pub mod procedures;

pub use procedures::library;
pub use row_index::row_of;
pub use rule_check::table::RULES;
