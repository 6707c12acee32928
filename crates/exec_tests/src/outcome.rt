//! Runs of the program in memory, and what they write.

use derivation_walk::DerivationWalk;
use plain_store::memory::PlainStore;
use sep_io::{MemSink, MemSource};
use sepref_runs::sepref_main;
use std::alloc::Global;
use std::test::Fail;

/// A number that no call of a test has.
pub(crate) const NEVER: u64 = u64::MAX;

/// What an input is answered.
#[derive(Clone, Copy)]
pub(crate) enum Outcome {
    /// Status 0, with these lines of results.
    Shows(&'static str),
    /// This status, with its line.
    Tells(u8, &'static str),
}

impl Outcome {
    /// The status.
    pub(crate) fn status(self) -> u8 {
        match self {
            Outcome::Shows(_) => 0,
            Outcome::Tells(status, _) => status,
        }
    }

    /// What is written.
    pub(crate) fn output(self) -> &'static str {
        match self {
            Outcome::Shows(lines) => lines,
            Outcome::Tells(_, line) => line,
        }
    }
}

/// An input of `exec`, and what it is answered.
pub(crate) type Case = (&'static str, Outcome);

/// Whether these words are answered so on an input. At most 16 bytes are read and written at once, and one read and one
/// write fail.
pub(crate) fn is_answered(
    alloc: Global,
    word: &str,
    input: &[u8],
    fails: (u64, u64),
    outcome: Outcome,
) -> Result<bool, Fail> {
    let mut words = Vec::new(alloc);
    words.push(String::from_str(alloc, word)?)?;
    let input = Vec::from_slice(alloc, input)?;
    let mut source = MemSource::new(input, 16, Vec::from_slice(alloc, &[fails.0])?);
    let mut sink = MemSink::new(alloc, 4096, 16, Vec::from_slice(alloc, &[fails.1])?)?;
    let status = sepref_main::<PlainStore, DerivationWalk, MemSource, MemSink>(
        alloc,
        words.as_slice(),
        &mut source,
        &mut sink,
    );
    Ok(status.code() == outcome.status() && sink.written() == outcome.output().as_bytes())
}

/// How many of the first inputs of `exec` are answered as they should be.
pub(crate) fn answered(alloc: Global, cases: &[Case]) -> Result<usize, Fail> {
    for (at, case) in cases.iter().enumerate() {
        if !is_answered(alloc, "exec", case.0.as_bytes(), (NEVER, NEVER), case.1)? {
            return Ok(at);
        }
    }
    Ok(cases.len())
}
