//! The images that values have in representations.
#![tactic(auto)]

mod bounded;
mod encoding;
mod fit;
mod lists;
mod tables;

pub use encoding::encode;
pub use fit::NoFit;
