//! Reading to the end, and writing whole.

ghost use Rattle.std.specs.Prelude.{ℕ, ◌≡◌, ◌+◌, ◌<◌, ◌≤◌, ◌↔◌, take, IfOk, OnOk, OnErr, IsErrOf};
ghost use Rattle.std.specs.Io.KnownBytes.{Appends, Consumes, IsAtEnd};
ghost use Rattle.sep_io.specs.Faults.{Rose, Gave};

use crate::edge::{Failed, ReadEnd, Sink, Source};
use std::alloc::Global;

/// The bytes that are asked for at once.
const CHUNK: usize = 8192;

/// Reads a source to its end. At most `limit` bytes are taken in: the byte after them ends the reading with `TooLong`,
/// and no further byte is read.
pub fn read_all<S: Source>(alloc: Global, source: &mut S, limit: u64) -> Result<Vec<u8>, ReadEnd>
    // The bytes are all that were left.
    ensures bytes { IfOk result (λ bytes. Consumes (S.remaining source.old) (S.remaining source.new) bytes.items) }
    ensures end { OnOk result (IsAtEnd (S.remaining source.new)) }

    // The source is too long exactly where it gave more than `limit` bytes, and it then gave one more.
    ensures gave { (n : ℕ) × (Gave (S.remaining source.old) (S.remaining source.new) n
        × ((IsErrOf result ReadEnd.TooLong ↔ (limit < n)) × (n ≤ limit + 1))) }

    ensures fault { IsErrOf result ReadEnd.Fault → Rose (S.faults source.old) (S.faults source.new) }
    ensures count { S.faults source.old ≤ S.faults source.new }
{
    let mut bytes = Vec::new(alloc);
    let mut chunk = [0u8; CHUNK];
    loop {
        let room = limit - bytes.len() as u64;
        let asked = room.min(CHUNK as u64 - 1) as usize + 1;
        let Ok(got) = source.read(&mut chunk[..asked]) else {
            return Err(ReadEnd::Fault);
        };
        if got == 0 {
            return Ok(bytes);
        }
        if got as u64 > room {
            return Err(ReadEnd::TooLong);
        }
        if bytes.extend_from_slice(&chunk[..got]).is_err() {
            return Err(ReadEnd::Memory);
        }
    }
}

/// Writes bytes whole. After `Failed` what went out is a prefix of the bytes.
pub fn write_all<K: Sink>(sink: &mut K, bytes: &[u8]) -> Result<(), Failed>
    ensures ok { OnOk result (Appends (K.contents sink.old) (K.contents sink.new) bytes.now) }
    ensures prefix { OnErr result ((n : ℕ) × Appends (K.contents sink.old) (K.contents sink.new) (take n bytes.now)) }
    ensures failed { OnErr result (Rose (K.faults sink.old) (K.faults sink.new)) }
    ensures count { K.faults sink.old ≤ K.faults sink.new }
{
    let mut sent = 0;
    while sent < bytes.len() {
        let taken = sink.write(&bytes[sent..])?;
        if taken == 0 {
            return Err(Failed);
        }
        sent += taken;
    }
    Ok(())
}
