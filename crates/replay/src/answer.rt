//! What a replay answers.

use target_code::Name;
use target_meaning::{Path, Reason};

/// The answer of a replay. Steps are counted from 1, so a number of steps that were made is also that of the last one.
#[derive(Drop)]
pub enum ReplayEnd {
    /// After so many steps two leaves race.
    Race {
        /// How many steps were made.
        after: u64,
        /// The leaf that lies left.
        left: Path,
        /// The other one.
        right: Path,
    },
    /// After so many steps a leaf is stuck, and none race.
    Stuck {
        /// How many steps were made.
        after: u64,
        /// The path of the leftmost stuck leaf.
        path: Path,
        /// The procedure of its innermost frame.
        proc: Name,
        /// The line at which it is stuck, counted from 0 at the `proc` line of the procedure.
        line: u64,
        /// Why it is stuck.
        reason: Reason,
    },
    /// This step made the machine full.
    Full {
        /// The number of the step.
        at: u64,
    },
    /// This step ended the root.
    End {
        /// The number of the step.
        at: u64,
    },
    /// The schedule has so many steps, and nothing came of them.
    Open {
        /// How many steps it has.
        steps: u64,
    },
    /// This step could not be made.
    BadStep {
        /// The number of the step.
        at: u64,
        /// Whether its name was no new one; else its path names nothing that can make a step.
        used: bool,
    },
    /// The next step of the schedule would pass a limit of depth.
    Depth {
        /// The path of its leaf.
        path: Path,
    },
}
