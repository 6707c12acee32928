//! Tests of programs that run on one thread. Nothing else stands here.
#![tactic(auto)]

#[cfg(test)]
mod ends;
#[cfg(test)]
mod forks;
#[cfg(test)]
mod runs;
