//! Names of parameters, variables and procedures.

ghost use Rattle.std.specs.Prelude.{◌≡◌, ◌↔◌, IfOk, IsErrOf, decimal, false, true, map};
ghost use Rattle.std.specs.List.{list_all, list_any};
ghost use Rattle.std.specs.Str.{bytes_eq};
ghost use Rattle.target_code.specs.Names.{is_name, is_name_start, is_name_byte};
ghost use Rattle.target_code.specs.Reserved.{is_reserved, is_input_name, is_lower, is_proc_byte, is_proc_name};

use itoa::Buffer;
use sqlite_items::Items;
use std::alloc::{AllocError, Global};
use std::marker::Model;
use thiserror::Error;

/// The reserved words of specifications: those of the grammar, then those of operations. `set` is both.
pub const RESERVED: [&[u8]; 67] = [
    b"spec",
    b"end",
    b"with",
    b"as",
    b"kept",
    b"return",
    b"assert",
    b"if",
    b"then",
    b"else",
    b"while",
    b"from",
    b"do",
    b"par",
    b"and",
    b"split",
    b"at",
    b"left",
    b"right",
    b"either",
    b"or",
    b"any",
    b"foreach",
    b"in",
    b"true",
    b"false",
    b"nat",
    b"bool",
    b"list",
    b"set",
    b"map",
    b"bag",
    b"array",
    b"vec",
    b"bits",
    b"hset",
    b"amap",
    b"hmap",
    b"heap",
    b"min",
    b"max",
    b"fun",
    b"call",
    b"slice",
    b"zeros",
    b"nil",
    b"len",
    b"get",
    b"swap",
    b"push",
    b"pop",
    b"copy",
    b"empty",
    b"size",
    b"has",
    b"insert",
    b"remove",
    b"pick",
    b"union",
    b"elems",
    b"lookup",
    b"put",
    b"del",
    b"keys",
    b"add",
    b"minimum",
    b"take_min",
];

/// A name: a list of bytes, 1 to 64 of them where it names something.
#[derive(Debug, Drop)]
pub struct Name {
    bytes: Items<u8>,
}

impl Model for Name {
    ghost use Rattle.std.specs.Prelude.{List, ℕ};

    ghost Value = { List ℕ };

    ghost view = { λ name. name.bytes };
}

/// Why bytes made no `Name`.
#[derive(Debug, Drop, Error)]
pub enum NameRefusal {
    /// The bytes are no name.
    #[error("not a name")]
    NotAName,
    /// There was no memory for the bytes.
    #[error("out of memory")]
    Memory,
}

impl Name {
    /// The name with these bytes: an ASCII letter or `_`, then letters, digits or `_`, at most 64 in all. Words that a
    /// specification reserves are names here.
    pub fn new(alloc: Global, bytes: &[u8]) -> Result<Name, NameRefusal>
        ensures ok { IfOk result (λ name. (name ≡ bytes.now) × (is_name bytes.now ≡ true)) }
        ensures refused { IsErrOf result NameRefusal.NotAName ↔ (is_name bytes.now ≡ false) }
    {
        if !names_something(bytes) {
            return Err(NameRefusal::NotAName);
        }
        let bytes = Items::from_slice(alloc, bytes).map_err(|_| NameRefusal::Memory)?;
        Ok(Name { bytes })
    }

    /// The decimal digits of a number, for a literal that a refusal names. No other call makes a `Name` that is no name.
    pub fn of_number(alloc: Global, number: u64) -> Result<Name, AllocError>
        ensures { IfOk result (λ name. name ≡ decimal number) }
    {
        let mut buffer = Buffer::new();
        let digits = buffer.format(number).as_bytes();
        Ok(Name {
            bytes: Items::from_slice(alloc, digits)?,
        })
    }

    /// The same name.
    pub fn copy(&self, alloc: Global) -> Result<Name, AllocError>
        ensures { IfOk result (λ name. name ≡ self.now) }
    {
        Ok(Name {
            bytes: Items::from_slice(alloc, self.bytes.as_slice())?,
        })
    }

    /// The bytes.
    pub fn bytes(&self) -> &[u8]
        ensures { result.now ≡ self.now }
    {
        self.bytes.as_slice()
    }
}

/// Whether a byte may begin a name.
fn begins_name(byte: u8) -> bool
    ensures { result ≡ is_name_start byte }
{
    byte.is_ascii_alphabetic() || byte == b'_'
}

/// Whether a byte may stand inside a name.
fn continues_name(byte: u8) -> bool
    ensures { result ≡ is_name_byte byte }
{
    byte.is_ascii_alphanumeric() || byte == b'_'
}

/// Whether each byte may stand inside a name.
fn all_continue(bytes: &[u8]) -> bool
    ensures { result ≡ list_all is_name_byte bytes.now }
{
    bytes.iter().all(|byte| continues_name(*byte))
}

/// Whether the bytes are a name.
fn names_something(bytes: &[u8]) -> bool
    ensures { result ≡ is_name bytes.now }
{
    match bytes {
        [] => false,
        [first, others @ ..] => {
            begins_name(*first) && others.len() <= 63 && all_continue(others)
        }
    }
}

/// Whether the bytes are a word that specifications reserve.
pub fn is_reserved(bytes: &[u8]) -> bool
    ensures { result ≡ is_reserved bytes.now }
{
    is_one_of(&RESERVED, bytes)
}

/// Whether the bytes are one of the words.
fn is_one_of(words: &[&[u8]], bytes: &[u8]) -> bool
    ensures { result ≡ list_any (λ word. bytes_eq word bytes.now) (map (λ word. word.now) words.now) }
{
    for word in words {
        if *word == bytes {
            return true;
        }
    }
    false
}

/// Whether the bytes may name an input of a program: a name that is not reserved, but `fun`, `call` and `slice` may.
pub(crate) fn names_input(bytes: &[u8]) -> bool
    ensures { result ≡ is_input_name bytes.now }
{
    names_something(bytes)
        && (!is_reserved(bytes)
            || bytes == b"fun".as_slice()
            || bytes == b"call".as_slice()
            || bytes == b"slice".as_slice())
}

/// Whether a byte may stand inside the name of a procedure.
fn continues_proc_name(byte: u8) -> bool
    ensures { result ≡ is_proc_byte byte }
{
    byte.is_ascii_lowercase() || byte.is_ascii_digit() || byte == b'_'
}

/// Whether each byte may stand inside the name of a procedure.
fn all_continue_proc(bytes: &[u8]) -> bool
    ensures { result ≡ list_all is_proc_byte bytes.now }
{
    bytes.iter().all(|byte| continues_proc_name(*byte))
}

/// Whether the bytes may name a procedure.
pub(crate) fn names_proc(bytes: &[u8]) -> bool
    ensures { result ≡ is_proc_name bytes.now }
{
    match bytes {
        [] => false,
        [first, others @ ..] => {
            first.is_ascii_lowercase() && others.len() <= 63 && all_continue_proc(others)
        }
    }
}
