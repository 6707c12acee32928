//! Runs of the program in memory, and what they write.

ghost use Rattle.std.specs.Prelude.{◌≤◌};

use derivation_walk::DerivationWalk;
use plain_store::memory::PlainStore;
use sep_io::{MemSink, MemSource};
use sepref_runs::sepref_main;
use std::alloc::Global;
use std::test::Fail;

/// A number that no call of a test has.
pub(crate) const NEVER: u64 = u64::MAX;

/// The most bytes that a test writes.
const ROOM: usize = 65_536;

/// The status with which a word ends on an input, and what is then written. At most so many bytes are read and written at
/// once, and one read and one write fail.
pub(crate) fn ended(
    alloc: Global,
    word: &str,
    input: Vec<u8>,
    most: (usize, usize),
    fails: (u64, u64),
) -> Result<(u8, Vec<u8>), Fail>
    requires reads { 1 ≤ most.0 }
    requires writes { 1 ≤ most.1 }
{
    let mut words = Vec::new(alloc);
    words.push(String::from_str(alloc, word)?)?;
    let mut source = MemSource::new(input, most.0, Vec::from_slice(alloc, &[fails.0])?);
    let mut sink = MemSink::new(alloc, ROOM, most.1, Vec::from_slice(alloc, &[fails.1])?)?;
    let status = sepref_main::<PlainStore, DerivationWalk, MemSource, MemSink>(
        alloc,
        words.as_slice(),
        &mut source,
        &mut sink,
    );
    Ok((status.code(), Vec::from_slice(alloc, sink.written())?))
}

/// One text behind another.
fn joined(alloc: Global, front: &[u8], rest: &str) -> Result<Vec<u8>, Fail> {
    let mut text = Vec::from_slice(alloc, front)?;
    text.extend_from_slice(rest.as_bytes())?;
    Ok(text)
}

/// Whether a word ends so on two texts, one behind the other.
pub(crate) fn ends_so(
    alloc: Global,
    word: &str,
    texts: (&[u8], &str),
    status: u8,
    output: &str,
) -> Result<bool, Fail> {
    let input = joined(alloc, texts.0, texts.1)?;
    let (found, written) = ended(alloc, word, input, (4096, 4096), (NEVER, NEVER))?;
    Ok(found == status && written.as_slice() == output.as_bytes())
}

/// A specification, values behind it, and the status and the output of its run.
pub(crate) type Case = (&'static str, &'static str, u8, &'static str);

/// Whether `run` ends so, and the program that `synth` writes ends so by `exec`.
fn runs_so(alloc: Global, case: Case) -> Result<bool, Fail> {
    let (text, values, status, output) = case;
    if !ends_so(alloc, "run", (text.as_bytes(), values), status, output)? {
        return Ok(false);
    }
    let input = Vec::from_slice(alloc, text.as_bytes())?;
    let (made, program) = ended(alloc, "synth", input, (4096, 4096), (NEVER, NEVER))?;
    if made != 0 {
        return Ok(false);
    }
    ends_so(alloc, "exec", (program.as_slice(), values), status, output)
}

/// How many of the first specifications run so.
pub(crate) fn ran(alloc: Global, cases: &[Case]) -> Result<usize, Fail> {
    for (at, case) in cases.iter().enumerate() {
        if !runs_so(alloc, *case)? {
            return Ok(at);
        }
    }
    Ok(cases.len())
}

/// How many of the first inputs a word answers with their status and their output.
pub(crate) fn answered(
    alloc: Global,
    word: &str,
    cases: &[(&str, u8, &str)],
) -> Result<usize, Fail> {
    for (at, case) in cases.iter().enumerate() {
        if !ends_so(alloc, word, (case.0.as_bytes(), ""), case.1, case.2)? {
            return Ok(at);
        }
    }
    Ok(cases.len())
}
