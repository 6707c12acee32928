//! Tests of specifications: what no contract says of the crates that read, type, print, flatten and evaluate them, and of the commands.
//! That calls answer where there is memory, and what comes out, by texts and outputs that were written down by hand.
#![tactic(auto)]

#[cfg(test)]
mod canonical;
#[cfg(test)]
mod commands;
#[cfg(test)]
mod each_operation;
#[cfg(test)]
mod evaluations;
#[cfg(test)]
mod executions;
#[cfg(test)]
mod faults;
#[cfg(test)]
mod flat;
#[cfg(test)]
mod passes;
#[cfg(test)]
mod rules;
#[cfg(test)]
mod runs;
#[cfg(test)]
mod streams;
#[cfg(test)]
mod texts;
#[cfg(test)]
mod types;
