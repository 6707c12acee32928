//! Tests of images and of what blocks are read as. Nothing else stands here.
#![tactic(auto)]

#[cfg(test)]
mod blocks;
#[cfg(test)]
mod encoded;
