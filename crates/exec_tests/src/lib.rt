//! Tests of `exec`: programs on values, and what is told of them, by texts and outputs that were written down by hand.
#![tactic(auto)]

#[cfg(test)]
mod ends;
#[cfg(test)]
mod limits;
#[cfg(test)]
mod outcome;
#[cfg(test)]
mod programs;
#[cfg(test)]
mod results;
#[cfg(test)]
mod streams;
#[cfg(test)]
mod values;
