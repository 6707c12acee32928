//! Tests of the calls of the rule check on contexts. Nothing else stands here.
#![tactic(auto)]

#[cfg(test)]
mod contexts;
