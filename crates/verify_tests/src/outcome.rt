//! Runs of `verify` in memory, and what they write.

use derivation_walk::DerivationWalk;
use sep_io::{MemSink, MemSource};
use sepref_top::calm_main;
use std::alloc::Global;
use std::test::Fail;

/// A specification, a program and a derivation.
pub(crate) type Text = (&'static str, &'static str, &'static str);

/// Whether `verify` answers an input with a status and an output.
pub(crate) fn is_answered(
    alloc: Global,
    input: Vec<u8>,
    status: u8,
    output: &[u8],
) -> Result<bool, Fail> {
    let mut words = Vec::new(alloc);
    words.push(String::from_str(alloc, "verify")?)?;
    let mut source = MemSource::new(input, 4096, Vec::new(alloc));
    let mut sink = MemSink::new(alloc, 4096, 4096, Vec::new(alloc))?;
    let told = calm_main::<DerivationWalk, MemSource, MemSink>(
        alloc,
        words.as_slice(),
        &mut source,
        &mut sink,
    );
    Ok(told.code() == status && sink.written() == output)
}

/// A specification, a program and a derivation as one text.
pub(crate) fn whole(
    alloc: Global,
    spec: &str,
    program: &str,
    proof: &[u8],
) -> Result<Vec<u8>, Fail> {
    let mut input = Vec::from_slice(alloc, spec.as_bytes())?;
    input.extend_from_slice(b"--- program\n")?;
    input.extend_from_slice(program.as_bytes())?;
    input.extend_from_slice(b"--- proof\n")?;
    input.extend_from_slice(proof)?;
    Ok(input)
}

/// Whether a specification and a program are answered so with a derivation.
pub(crate) fn is_told(
    alloc: Global,
    text: Text,
    proof: &[u8],
    status: u8,
    output: &[u8],
) -> Result<bool, Fail> {
    let input = whole(alloc, text.0, text.1, proof)?;
    is_answered(alloc, input, status, output)
}

/// How many of the first derivations of a specification and a program are answered with these outputs, all with one status.
pub(crate) fn told(
    alloc: Global,
    text: Text,
    status: u8,
    cases: &[(&str, &str)],
) -> Result<usize, Fail> {
    for (at, case) in cases.iter().enumerate() {
        if !is_told(alloc, text, case.0.as_bytes(), status, case.1.as_bytes())? {
            return Ok(at);
        }
    }
    Ok(cases.len())
}
