//! Tests of `synth` and `run`, on texts.
#![tactic(auto)]

#[cfg(test)]
mod branches;
#[cfg(test)]
mod outcome;
#[cfg(test)]
mod refused;
#[cfg(test)]
mod results;
#[cfg(test)]
mod streams;
