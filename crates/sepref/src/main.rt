//! The program: it hands the words, standard input and standard output to the top call, and ends with the status's number.
#![tactic(auto)]

use derivation_walk::DerivationWalk;
use plain_store::memory::PlainStore;
use sep_io::{StdSink, StdSource};
use sepref_runs::sepref_main;
use std::alloc::{AllocError, Global};
use std::env::Args;
use std::io::ErrorKind;
use std::process::ExitCode;
use std::{env, io};

/// The status of a run whose words cannot be had for want of memory.
const NO_MEMORY: u8 = 30;

/// The status of a run whose words cannot be had for another cause.
const NO_WORDS: u8 = 31;

/// The words behind the program's name.
fn words_behind_name(alloc: Global, args: Args) -> Result<Vec<String>, AllocError> {
    let mut words = Vec::new(alloc);
    for word in args.skip(1) {
        words.push(word)?;
    }
    Ok(words)
}

/// The words, or the number to end with. Words that are not UTF-8 are no command line, as no words are none.
fn words(alloc: Global, args: io::Result<Args>) -> Result<Vec<String>, u8> {
    match args {
        Ok(args) => words_behind_name(alloc, args).map_err(|_| NO_MEMORY),
        Err(error) => match error.kind() {
            ErrorKind::InvalidData => Ok(Vec::new(alloc)),
            ErrorKind::OutOfMemory => Err(NO_MEMORY),
            _ => Err(NO_WORDS),
        },
    }
}

fn main(rt: HostRuntime) -> ExitCode {
    let words = match words(rt.alloc(), env::args(&rt)) {
        Ok(words) => words,
        Err(number) => return ExitCode::from(number),
    };
    let mut source = StdSource::new(rt.stdin());
    let mut sink = StdSink::new(io::writer(&rt));
    let status = sepref_main::<PlainStore, DerivationWalk, _, _>(
        rt.alloc(),
        words.as_slice(),
        &mut source,
        &mut sink,
    );
    ExitCode::from(status.code())
}
