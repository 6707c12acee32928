//! Runs of the program in memory, and what they write.

use derivation_walk::DerivationWalk;
use sep_io::{MemSink, MemSource};
use sepref_top::calm_main;
use std::alloc::Global;
use std::test::Fail;

/// A number that no call of a test has.
pub(crate) const NEVER: u64 = u64::MAX;

// The number of the status, where these bytes were written. At most 16 bytes are read and written at once, and one read and one
// write fail.
pub(crate) fn ended(
    alloc: Global,
    words: &[&str],
    input: &[u8],
    fails: (u64, u64),
    output: &[u8],
) -> Result<Option<u8>, Fail> {
    let mut owned = Vec::new(alloc);
    for word in words {
        owned.push(String::from_str(alloc, word)?)?;
    }
    let input = Vec::from_slice(alloc, input)?;
    let mut source = MemSource::new(input, 16, Vec::from_slice(alloc, &[fails.0])?);
    let mut sink = MemSink::new(alloc, 4096, 16, Vec::from_slice(alloc, &[fails.1])?)?;
    let status = calm_main::<DerivationWalk, MemSource, MemSink>(
        alloc,
        owned.as_slice(),
        &mut source,
        &mut sink,
    );
    Ok((sink.written() == output).then_some(status.code()))
}

// Whether a word answers to a text with this status and this output.
pub(crate) fn answers(
    alloc: Global,
    word: &str,
    text: &str,
    status: u8,
    output: &str,
) -> Result<bool, Fail> {
    let found = ended(
        alloc,
        &[word],
        text.as_bytes(),
        (NEVER, NEVER),
        output.as_bytes(),
    )?;
    Ok(found == Some(status))
}

// How many of the first texts a word answers to with their status and their output.
pub(crate) fn answered(
    alloc: Global,
    word: &str,
    cases: &[(&str, u8, &str)],
) -> Result<usize, Fail> {
    for (at, case) in cases.iter().enumerate() {
        if !answers(alloc, word, case.0, case.1, case.2)? {
            return Ok(at);
        }
    }
    Ok(cases.len())
}
