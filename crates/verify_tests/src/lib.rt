//! Tests of `verify`, on texts.
#![tactic(auto)]

#[cfg(test)]
mod cuts;
#[cfg(test)]
mod derivations;
#[cfg(test)]
mod outcome;
#[cfg(test)]
mod parts;
#[cfg(test)]
mod rows;
#[cfg(test)]
mod texts;
