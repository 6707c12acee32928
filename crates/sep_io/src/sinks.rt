//! Sinks in memory.

ghost use Rattle.std.specs.Prelude.{[], ◌≡◌, ◌<◌, ◌≤◌, ◌↔◌, ◌||◌, min, length, vec_len, vec_capacity, true, IsErr, OnErr, IfOk, Some, if◌then◌else◌};
ghost use Rattle.std.specs.Io.{WritesAtMost};
ghost use Rattle.std.specs.Io.KnownBytes.{WriteAppends};
ghost use Rattle.sep_io.specs.Faults.{Rose};

use crate::edge::{Failed, Sink};
use crate::script::Script;
use std::alloc::{AllocError, Global};

/// Bytes in memory, taken in pieces, with calls that fail and an end of the room.
#[derive(Drop)]
pub struct MemSink {
    bytes: Vec<u8>,
    room: usize,
    most: usize,
    script: Script,
    ghost fits: { vec_len bytes ≤ room },
    ghost reserved: { room ≤ vec_capacity bytes },
    ghost takes: { 1 ≤ most },
}

/// Bytes in memory, taken without a fault up to the end of the room.
#[derive(Drop)]
pub struct WholeSink {
    bytes: Vec<u8>,
    room: usize,
    faults: u64,
    ghost fits: { vec_len bytes ≤ room },
    ghost reserved: { room ≤ vec_capacity bytes },
}

impl MemSink {
    ghost use Rattle.sep_io.specs.Streams.{mem_room};

    /// A write takes as much of the piece as what is left of `room` and `most` allow; where nothing is left, a piece that
    /// is not empty is a fault. The calls whose numbers, from 0, stand in `fails` fail. Memory for `room` bytes is taken
    /// here, and none later.
    pub fn new(
        alloc: Global,
        room: usize,
        most: usize,
        fails: Vec<u64>,
    ) -> Result<MemSink, AllocError>
        requires { 1 ≤ most }
        ensures bytes { IfOk result (λ s. s.bytes.items ≡ []) }
        ensures room { IfOk result (λ s. (s.room ≡ room) × (s.most ≡ most)) }
        ensures script { IfOk result (λ s. s.script ≡ record { fails = fails; calls = 0; faults = 0 }) }
    {
        Ok(MemSink {
            bytes: Vec::with_capacity(alloc, room)?,
            room,
            most,
            script: Script::new(fails),
        })
    }

    /// The bytes that were taken.
    pub fn written(&self) -> &[u8]
        ensures { result.now ≡ self.now.bytes.items }
    {
        self.bytes.as_slice()
    }
}

impl Sink for MemSink {
    ghost use Rattle.sep_io.specs.Streams.{mem_room, is_full, after_write};
    ghost use Rattle.sep_io.specs.Scripts.{fails_now};

    ghost contents = { λ s. Some s.bytes.items };

    ghost faults = { λ s. s.script.faults };

    fn write(&mut self, piece: &[u8]) -> Result<usize, Failed>
        ensures fails { IsErr result
            ↔ ((fails_now self.old.script || is_full (mem_room self.old) piece.now) ≡ true) }
        ensures takes { IfOk result (λ n. n ≡ min (min (length piece.now) self.old.most) (mem_room self.old)) }
        ensures bound { WritesAtMost result piece.now }
        ensures bytes { WriteAppends (Some self.old.bytes.items) (Some self.new.bytes.items) result piece.now }
        ensures failed { OnErr result (Rose self.old.script.faults self.new.script.faults) }
        ensures nothing { IfOk result (λ n. n ≡ 0 → 0 < length piece.now
            → Rose self.old.script.faults self.new.script.faults) }
        ensures count { self.old.script.faults ≤ self.new.script.faults }
        ensures rest { (self.new.room ≡ self.old.room) × (self.new.most ≡ self.old.most) }
        ensures script { self.new.script ≡ after_write self.old piece.now }
    {
        if self.script.call_fails() {
            return Err(Failed);
        }
        let room = self.room - self.bytes.len();
        if room == 0 && !piece.is_empty() {
            self.script.fault();
            return Err(Failed);
        }
        let count = piece.len().min(self.most).min(room);
        self.bytes.extend_from_slice(&piece[..count]).unwrap();
        Ok(count)
    }
}

impl WholeSink {
    ghost use Rattle.sep_io.specs.Streams.{whole_room};

    /// A write takes as much of the piece as what is left of `room`; where nothing is left, a piece that is not empty is a
    /// fault. Memory for `room` bytes is taken here, and none later.
    pub fn new(alloc: Global, room: usize) -> Result<WholeSink, AllocError>
        ensures bytes { IfOk result (λ s. s.bytes.items ≡ []) }
        ensures room { IfOk result (λ s. (s.room ≡ room) × (s.faults ≡ 0)) }
    {
        Ok(WholeSink {
            bytes: Vec::with_capacity(alloc, room)?,
            room,
            faults: 0,
        })
    }

    /// The bytes that were taken.
    pub fn written(&self) -> &[u8]
        ensures { result.now ≡ self.now.bytes.items }
    {
        self.bytes.as_slice()
    }
}

impl Sink for WholeSink {
    ghost use Rattle.sep_io.specs.Streams.{whole_room, is_full};
    ghost use Rattle.sep_io.specs.Scripts.{counted};

    ghost contents = { λ s. Some s.bytes.items };

    ghost faults = { λ s. s.faults };

    fn write(&mut self, piece: &[u8]) -> Result<usize, Failed>
        ensures fails { IsErr result ↔ (is_full (whole_room self.old) piece.now ≡ true) }
        ensures takes { IfOk result (λ n. n ≡ min (length piece.now) (whole_room self.old)) }
        ensures bound { WritesAtMost result piece.now }
        ensures bytes { WriteAppends (Some self.old.bytes.items) (Some self.new.bytes.items) result piece.now }
        ensures failed { OnErr result (Rose self.old.faults self.new.faults) }
        ensures nothing { IfOk result (λ n. n ≡ 0 → 0 < length piece.now
            → Rose self.old.faults self.new.faults) }
        ensures count { self.old.faults ≤ self.new.faults }
        ensures room { self.new.room ≡ self.old.room }
        ensures faults { self.new.faults ≡ (if is_full (whole_room self.old) piece.now
            then counted self.old.faults else self.old.faults) }
    {
        let room = self.room - self.bytes.len();
        if room == 0 && !piece.is_empty() {
            self.faults = self.faults.saturating_add(1);
            return Err(Failed);
        }
        let count = piece.len().min(room);
        self.bytes.extend_from_slice(&piece[..count]).unwrap();
        Ok(count)
    }
}
