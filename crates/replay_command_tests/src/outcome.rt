//! Runs of the program in memory, and what they write.

use derivation_walk::DerivationWalk;
use plain_store::memory::PlainStore;
use sep_io::{MemSink, MemSource};
use sepref_runs::sepref_main;
use std::alloc::Global;
use std::test::Fail;

/// A number that no call of a test has.
pub(crate) const NEVER: u64 = u64::MAX;

/// A program, what stands behind it, and the status and the output that it is answered.
pub(crate) type Case = (&'static str, &'static str, u8, &'static str);

/// Whether `replay` answers an input with a status and an output. At most 16 bytes are read and written at once, and one read and
/// one write fail.
pub(crate) fn is_answered(
    alloc: Global,
    input: &[u8],
    fails: (u64, u64),
    status: u8,
    output: &[u8],
) -> Result<bool, Fail> {
    let mut words = Vec::new(alloc);
    words.push(String::from_str(alloc, "replay")?)?;
    let input = Vec::from_slice(alloc, input)?;
    let mut source = MemSource::new(input, 16, Vec::from_slice(alloc, &[fails.0])?);
    let mut sink = MemSink::new(alloc, 4096, 16, Vec::from_slice(alloc, &[fails.1])?)?;
    let told = sepref_main::<PlainStore, DerivationWalk, MemSource, MemSink>(
        alloc,
        words.as_slice(),
        &mut source,
        &mut sink,
    );
    Ok(told.code() == status && sink.written() == output)
}

/// A program with what stands behind it.
pub(crate) fn whole(alloc: Global, program: &str, rest: &str) -> Result<Vec<u8>, Fail> {
    let mut input = Vec::from_slice(alloc, program.as_bytes())?;
    input.extend_from_slice(rest.as_bytes())?;
    Ok(input)
}

/// How many of the first inputs are answered as they should be.
pub(crate) fn answered(alloc: Global, cases: &[Case]) -> Result<usize, Fail> {
    for (at, case) in cases.iter().enumerate() {
        let input = whole(alloc, case.0, case.1)?;
        if !is_answered(
            alloc,
            input.as_slice(),
            (NEVER, NEVER),
            case.2,
            case.3.as_bytes(),
        )? {
            return Ok(at);
        }
    }
    Ok(cases.len())
}
