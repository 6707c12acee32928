//! Sources in memory.

ghost use Rattle.std.specs.Prelude.{◌≡◌, ◌≤◌, ◌↔◌, min, take, length, vec_len, true, IfOk, IsErr, IsOkAnd, OnErr, Some};
ghost use Rattle.std.specs.Io.{ReadsAtMost};
ghost use Rattle.std.specs.Io.KnownBytes.{ReadConsumes};
ghost use Rattle.sep_io.specs.Faults.{Rose};

use crate::edge::{Failed, Source};
use crate::script::Script;

/// Bytes in memory, given in pieces, with calls that fail.
#[derive(Drop)]
pub struct MemSource {
    bytes: Vec<u8>,
    at: usize,
    most: usize,
    script: Script,
    ghost within: { at ≤ vec_len bytes },
    ghost gives: { 1 ≤ most },
}

/// Bytes in memory, given without a fault.
#[derive(Drop)]
pub struct WholeSource {
    bytes: Vec<u8>,
    at: usize,
    ghost within: { at ≤ vec_len bytes },
}

/// Copies bytes to the front of a buffer, at most `most` and as many as fit, and says how many.
fn give(bytes: &[u8], most: usize, buf: &mut [u8]) -> usize
    ensures count { result ≡ min (min (length bytes.now) most) (length buf.old) }
    ensures bytes { take result buf.new ≡ take result bytes.now }
{
    let count = bytes.len().min(most).min(buf.len());
    buf[..count].copy_from_slice(&bytes[..count]);
    count
}

impl MemSource {
    ghost use Rattle.sep_io.specs.Streams.{mem_left};

    /// A call gives as many bytes as are left and as the buffer has room for, but at most `most`; the calls whose numbers,
    /// from 0, stand in `fails` fail.
    pub fn new(bytes: Vec<u8>, most: usize, fails: Vec<u64>) -> MemSource
        requires { 1 ≤ most }
        ensures bytes { mem_left result ≡ bytes.items }
        ensures most { result.most ≡ most }
        ensures script { result.script ≡ record { fails = fails; calls = 0; faults = 0 } }
    {
        MemSource {
            bytes,
            at: 0,
            most,
            script: Script::new(fails),
        }
    }
}

impl Source for MemSource {
    ghost use Rattle.sep_io.specs.Streams.{mem_left};
    ghost use Rattle.sep_io.specs.Scripts.{fails_now, after_call};

    ghost remaining = { λ s. Some (mem_left s) };

    ghost faults = { λ s. s.script.faults };

    fn read(&mut self, buf: &mut [u8]) -> Result<usize, Failed>
        ensures fails { IsErr result ↔ (fails_now self.old.script ≡ true) }
        ensures gives { IfOk result (λ n. n ≡ min (min (length (mem_left self.old)) self.old.most) (length buf.old)) }
        ensures script { self.new.script ≡ after_call self.old.script }
        ensures most { self.new.most ≡ self.old.most }
        ensures bound { ReadsAtMost result buf.new }
        ensures bytes { ReadConsumes (Some (mem_left self.old)) (Some (mem_left self.new)) result buf.new }
        ensures failed { OnErr result (Rose self.old.script.faults self.new.script.faults) }
        ensures count { self.old.script.faults ≤ self.new.script.faults }
    {
        if self.script.call_fails() {
            return Err(Failed);
        }
        let count = give(&self.bytes[self.at..], self.most, buf);
        self.at += count;
        Ok(count)
    }
}

impl WholeSource {
    ghost use Rattle.sep_io.specs.Streams.{whole_left};

    /// A call gives as many bytes as are left and as the buffer has room for.
    pub fn new(bytes: Vec<u8>) -> WholeSource
        ensures { whole_left result ≡ bytes.items }
    {
        WholeSource { bytes, at: 0 }
    }
}

impl Source for WholeSource {
    ghost use Rattle.sep_io.specs.Streams.{whole_left};

    ghost remaining = { λ s. Some (whole_left s) };

    ghost faults = { λ _. 0 };

    fn read(&mut self, buf: &mut [u8]) -> Result<usize, Failed>
        ensures gives { IsOkAnd result (λ n. n ≡ min (length (whole_left self.old)) (length buf.old)) }
        ensures bound { ReadsAtMost result buf.new }
        ensures bytes { ReadConsumes (Some (whole_left self.old)) (Some (whole_left self.new)) result buf.new }
        ensures failed { OnErr result (Rose 0 0) }
        ensures count { 0 ≤ 0 }
    {
        let count = give(&self.bytes[self.at..], usize::MAX, buf);
        self.at += count;
        Ok(count)
    }
}
