//! Tests of replays: schedules that are read and followed, and the lines of their answers. Nothing else stands here.
#![tactic(auto)]

#[cfg(test)]
mod replays;
