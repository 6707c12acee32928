//! The standard streams: the trusted edge, since no clause can say what they really hold.

ghost use Rattle.std.specs.Prelude.{◌≡◌, ◌≤◌, length, IfSome, None};

use crate::edge::{Failed, Sink, Source};
use std::io::{ErrorKind, Read, Write};

/// A reader as a source that tells no bytes. Its count of faults stays at 2^64 - 1 once it stands there.
#[derive(Drop)]
pub struct StdSource<R> {
    reader: R,
    faults: u64,
}

/// A writer as a sink that tells no bytes. Its count of faults stays at 2^64 - 1 once it stands there.
#[derive(Drop)]
pub struct StdSink<W> {
    writer: W,
    faults: u64,
}

/// Reads, again where a signal cut the read off; `None` where it failed.
fn read_through<R: Read>(reader: &mut R, buf: &mut [u8]) -> Option<usize>
    ensures { IfSome result (λ n. n ≤ length buf.new) }
{
    for _ in 0..u64::MAX {
        match reader.read(buf) {
            Ok(count) => return Some(count),
            Err(error) if error.kind() == ErrorKind::Interrupted => {}
            Err(_) => break,
        }
    }
    None
}

/// Writes, again where a signal cut the write off; `None` where it failed.
fn write_through<W: Write>(writer: &mut W, piece: &[u8]) -> Option<usize>
    ensures { IfSome result (λ n. n ≤ length piece.now) }
{
    for _ in 0..u64::MAX {
        match writer.write(piece) {
            Ok(count) => return Some(count),
            Err(error) if error.kind() == ErrorKind::Interrupted => {}
            Err(_) => break,
        }
    }
    None
}

impl<R: Read> StdSource<R> {
    /// A source over a reader, with no fault yet.
    pub fn new(reader: R) -> StdSource<R>
        ensures { result.faults ≡ 0 }
    {
        StdSource { reader, faults: 0 }
    }
}

impl<R: Read> Source for StdSource<R> {
    ghost remaining = { λ _. None };

    ghost faults = { λ s. s.faults };

    fn read(&mut self, buf: &mut [u8]) -> Result<usize, Failed> {
        if let Some(count) = read_through(&mut self.reader, buf) {
            return Ok(count);
        }
        self.faults = self.faults.saturating_add(1);
        Err(Failed)
    }
}

impl<W: Write> StdSink<W> {
    /// A sink over a writer, with no fault yet.
    pub fn new(writer: W) -> StdSink<W>
        ensures { result.faults ≡ 0 }
    {
        StdSink { writer, faults: 0 }
    }
}

impl<W: Write> Sink for StdSink<W> {
    ghost contents = { λ _. None };

    ghost faults = { λ s. s.faults };

    fn write(&mut self, piece: &[u8]) -> Result<usize, Failed> {
        match write_through(&mut self.writer, piece) {
            Some(count) if count > 0 || piece.is_empty() => Ok(count),
            _ => {
                self.faults = self.faults.saturating_add(1);
                Err(Failed)
            }
        }
    }
}
