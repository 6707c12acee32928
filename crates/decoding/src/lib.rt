//! Values that registers and whole blocks represent.
#![tactic(auto)]

mod bounded;
mod lists;
mod reading;
mod tables;

pub use reading::decode;
