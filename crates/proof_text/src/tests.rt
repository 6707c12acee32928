use crate::{Proof, is_whole, parts, print_proof, read_proof};
use std::alloc::{AllocError, Global};
use std::test::Fail;

/// A line of each kind, with and without registers.
const EACH: &[u8] =
    b"calc\nrow array_get\nreg\nany r0\nleft\nright\nif\nif r1, r20\nwhile\nwhile r4294967295\npar\nsplit r3 r4\nuse\n";

/// Texts of one line that is none of these.
const OTHERS: [&[u8]; 34] = [
    b"\n",
    b"calc",
    b"calc \n",
    b" calc\n",
    b"Calc\n",
    b"calc\r\n",
    b"nothing\n",
    b"row\n",
    b"row \n",
    b"row 1a\n",
    b"row a b\n",
    b"row  a\n",
    b"row abcdefghijklmnopqrstuvwxyzabcdefghijklmnopqrstuvwxyzabcdefghijklm\n",
    b"reg r1\n",
    b"any\n",
    b"any r\n",
    b"any 1\n",
    b"any x1\n",
    b"any r01\n",
    b"any r+1\n",
    b"any r-1\n",
    b"any r1 \n",
    b"any r4294967296\n",
    b"any r99999999999999999999999\n",
    b"any r1, r2\n",
    b"if \n",
    b"if r1,\n",
    b"if r1,r2\n",
    b"if r1,  r2\n",
    b"if r1 r2\n",
    b"while r1, \n",
    b"split r1\n",
    b"split r1  r2\n",
    b"split r1, r2\n",
];

/// Texts, and what stands in them before, between and after the two lines.
const PARTS: [(&[u8], &[u8], &[u8], &[u8]); 6] = [
    (b"s\n--- program\np\n--- proof\nd\n", b"s\n", b"p\n", b"d\n"),
    (
        b" --- program\n--- program\n--- program\n--- proof\n--- proof\n",
        b" --- program\n",
        b"--- program\n",
        b"--- proof\n",
    ),
    (b"--- proof\n--- program\np", b"--- proof\n", b"p", b""),
    (b"s\n--- program\n--- proof", b"s\n", b"", b""),
    (
        b"--- programs\n--- proof\n",
        b"--- programs\n--- proof\n",
        b"",
        b"",
    ),
    (b"", b"", b"", b""),
];

/// Whether a derivation has no line that is other, and this text.
fn is_printed_as(alloc: Global, proof: &Proof, text: &[u8]) -> Result<bool, AllocError> {
    if !is_whole(proof) {
        return Ok(false);
    }
    let printed = print_proof(alloc, proof)?;
    Ok(printed.as_slice() == text)
}

/// Whether a text is read and printed back as it was.
fn is_printed_back(alloc: Global, text: &[u8]) -> Result<bool, AllocError> {
    let proof = read_proof(alloc, text)?;
    is_printed_as(alloc, &proof, text)
}

/// Whether a text is read as one line, which is other.
fn is_other(alloc: Global, text: &[u8]) -> Result<bool, AllocError> {
    let proof = read_proof(alloc, text)?;
    Ok(proof.lines.len() == 1 && !is_whole(&proof))
}

fn are_other(alloc: Global, texts: &[&[u8]]) -> Result<bool, AllocError> {
    for text in texts {
        if !is_other(alloc, text)? {
            return Ok(false);
        }
    }
    Ok(true)
}

/// Whether 20,000 lines, and one with 100,000 registers, are read and printed back.
fn long_is_printed_back(alloc: Global) -> Result<bool, AllocError> {
    let mut text = Vec::new(alloc);
    for _ in 0..20_000_u32 {
        text.extend_from_slice(b"row array_get\n")?;
    }
    text.extend_from_slice(b"while r0")?;
    for _ in 1..100_000_u32 {
        text.extend_from_slice(b", r4294967295")?;
    }
    text.extend_from_slice(b"\n")?;
    is_printed_back(alloc, text.as_slice())
}

/// Whether a text has these parts.
fn has_parts(text: &[u8], spec: &[u8], program: &[u8], proof: &[u8]) -> bool {
    let found = parts(text);
    found.spec == spec && found.program == program && found.proof == proof
}

fn have_parts(texts: &[(&[u8], &[u8], &[u8], &[u8])]) -> bool {
    for (text, spec, program, proof) in texts {
        if !has_parts(text, spec, program, proof) {
            return false;
        }
    }
    true
}

#[test]
fn each_kind_is_read_and_printed_back(rt: HostRuntime) -> Result<(), Fail> {
    assert!(rt; is_printed_back(rt.alloc(), EACH)?);
    Ok(())
}

#[test]
fn other_lines_are_told(rt: HostRuntime) -> Result<(), Fail> {
    assert!(rt; are_other(rt.alloc(), &OTHERS)?);
    Ok(())
}

#[test]
fn a_long_text_is_read_and_printed_back(rt: HostRuntime) -> Result<(), Fail> {
    assert!(rt; long_is_printed_back(rt.alloc())?);
    Ok(())
}

#[test]
fn a_text_is_cut_into_its_parts(rt: HostRuntime) -> Result<(), Fail> {
    assert!(rt; have_parts(&PARTS));
    Ok(())
}
