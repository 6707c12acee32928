//! What is known at a place of a program while a derivation is followed.

use fit_tokens::{Tokens, WordStack};
use rule_steps::State;

/// What the rule check knows, the tokens of registers, what stands for the entries, a bound on the variables so far, and the number of
/// branches so far. Entries stand in the same order in both.
#[derive(Drop)]
pub struct FitState {
    /// What the rule check knows.
    pub rules: State,
    /// The tokens of registers.
    pub tokens: Tokens,
    /// What stands for the entries.
    pub words: WordStack,
    /// The variables so far are below this.
    pub next: u64,
    /// So many branches came before.
    pub branch: u64,
}
