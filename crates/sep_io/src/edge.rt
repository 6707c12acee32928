//! The traits.

ghost use Rattle.std.specs.Prelude.{ℕ, List, Option, ◌≡◌, ◌<◌, ◌≤◌, length, OnErr, IfOk};
ghost use Rattle.std.specs.Io.{ReadsAtMost, WritesAtMost};
ghost use Rattle.std.specs.Io.KnownBytes.{ReadConsumes, WriteAppends};
ghost use Rattle.sep_io.specs.Faults.{Rose};

use thiserror::Error;

/// A read or a write failed, and the count of faults of the object that failed rose.
#[derive(Clone, Copy)]
pub struct Failed;

/// Why a source was not read to its end.
#[derive(Clone, Copy, Debug, Error)]
pub enum ReadEnd {
    /// A read failed.
    #[error("read fault")]
    Fault,
    /// The source gave more bytes than the limit.
    #[error("too long")]
    TooLong,
    /// There was no memory for the bytes.
    #[error("out of memory")]
    Memory,
}

/// Gives bytes. It means the bytes that are left, where it tells them, and a count of faults.
pub trait Source {
    // The bytes that are left, where they are told.
    ghost remaining: { Self → Option (List ℕ) };

    // The faults so far, at most 2^64 - 1.
    ghost faults: { Self → ℕ };

    /// Writes the next bytes to the front of the buffer, and says how many: none only at the end, or for an empty buffer.
    /// A failed read takes no byte. What lies behind the bytes in the buffer may be anything.
    fn read(&mut self, buf: &mut [u8]) -> Result<usize, Failed>
        ensures bound { ReadsAtMost result buf.new }
        ensures bytes { ReadConsumes (remaining self.old) (remaining self.new) result buf.new }
        ensures failed { OnErr result (Rose (faults self.old) (faults self.new)) }
        ensures count { faults self.old ≤ faults self.new };
}

/// Takes bytes. It means the bytes that were written, where it tells them, and a count of faults.
pub trait Sink {
    // The bytes that were written, where they are told.
    ghost contents: { Self → Option (List ℕ) };

    // The faults so far, at most 2^64 - 1.
    ghost faults: { Self → ℕ };

    /// Takes bytes from the front of the piece, and says how many. Taking nothing of a piece that has bytes is a fault.
    /// A failed write takes no byte.
    fn write(&mut self, piece: &[u8]) -> Result<usize, Failed>
        ensures bound { WritesAtMost result piece.now }
        ensures bytes { WriteAppends (contents self.old) (contents self.new) result piece.now }
        ensures failed { OnErr result (Rose (faults self.old) (faults self.new)) }
        ensures nothing { IfOk result (λ n. n ≡ 0 → 0 < length piece.now → Rose (faults self.old) (faults self.new)) }
        ensures count { faults self.old ≤ faults self.new };
}
