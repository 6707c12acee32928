//! Tests of programs: whether they are formed, how the machine runs them, and their texts. Nothing else stands here.
#![tactic(auto)]

#[cfg(test)]
mod forms;
#[cfg(test)]
mod reading;
#[cfg(test)]
mod refusals;
#[cfg(test)]
mod steps;
