//! Whether programs are formed, and names.

use crate::reading::{FIRST_ELEMENT, program};
use sqlite_items::Items;
use std::alloc::{AllocError, Global};
use std::test::Fail;
use target_code::{Code, InParam, Instr, Name, Program, RESERVED, Rep, is_formed};

fn name(alloc: Global, bytes: &[u8]) -> Result<Name, AllocError> {
    Name::new(alloc, bytes).map_err(|_| AllocError)
}

/// Whether the program that gives the first element is formed where its input has this name and representation.
fn is_formed_with(alloc: Global, input: &[u8], rep: Rep) -> Result<bool, AllocError> {
    let mut ins = Items::new(alloc);
    ins.push(InParam {
        name: name(alloc, input)?,
        rep,
        kept: true,
    })?;
    let program = program(alloc, FIRST_ELEMENT)?;
    let (outs, procs) = (program.outs, program.procs);
    Ok(is_formed(&Program { ins, outs, procs }))
}

#[test]
fn a_program_is_formed(rt: HostRuntime) -> Result<(), Fail> {
    let cases: [(&[u8], Rep, bool); 8] = [
        (b"xs", Rep::Array, true),
        (b"slice", Rep::Vec, true),
        (b"take_min", Rep::Array, false),
        (b"map", Rep::Array, false),
        (b"xs", Rep::Slice, false),
        (b"xs", Rep::Word, false),
        (b"xs", Rep::Bits(7), false),
        (b"xs", Rep::Heap, true),
    ];
    for (input, rep, formed) in cases {
        assert_eq!(rt;
            is_formed_with(rt.alloc(), input, rep)?,
            formed,
            "at {rep:?}"
        );
    }
    Ok(())
}

/// So many blocks around a `free`.
fn nested(alloc: Global, blocks: u64) -> Result<Code, AllocError> {
    let mut list = Items::new(alloc);
    list.push(Instr::Free { block: 0 })?;
    for _ in 0..blocks {
        let yes = Code { list };
        let no = Code {
            list: Items::new(alloc),
        };
        list = Items::new(alloc);
        list.push(Instr::If { test: 0, yes, no })?;
    }
    Ok(Code { list })
}

/// Whether a program of so many blocks is formed.
fn is_formed_nested(alloc: Global, blocks: u64) -> Result<bool, AllocError> {
    let code = nested(alloc, blocks)?;
    let mut program = program(alloc, b"sepref 1\nproc main 0 1\n  ret\nend\n")?;
    match program.procs.pop() {
        Some(main) => {
            let mut main = main;
            main.code = code;
            program.procs.push(main)?;
            Ok(is_formed(&program))
        }
        None => Ok(false),
    }
}

#[test]
fn a_hundred_blocks_are_the_most(rt: HostRuntime) -> Result<(), Fail> {
    let most = is_formed_nested(rt.alloc(), 100)?;
    let more = is_formed_nested(rt.alloc(), 101)?;
    assert!(rt; most && !more);
    Ok(())
}

/// Whether the bytes are a name.
fn is_name(alloc: Global, bytes: &[u8]) -> bool {
    match Name::new(alloc, bytes) {
        Ok(name) => name.bytes() == bytes,
        Err(_) => false,
    }
}

#[test]
fn names(rt: HostRuntime) -> Result<(), Fail> {
    let long = [b'a'; 65];
    assert!(rt; is_name(rt.alloc(), b"x") && is_name(rt.alloc(), &long[..64]));
    for refused in [b"1x".as_slice(), b"", b"x-y", &long] {
        assert!(rt; !is_name(rt.alloc(), refused));
    }
    assert!(rt; Name::of_number(rt.alloc(), 4095)?.bytes() == b"4095".as_slice());
    assert_eq!(rt; RESERVED.len(), 67);
    Ok(())
}
