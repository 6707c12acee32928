//! What `replay` writes for an input.

ghost use Rattle.std.specs.Prelude.{◌<◌, ◌^◌, IfOk, length};
ghost use Rattle.sepref_runs.specs.Replays.{Replayed};
ghost use Rattle.sepref_runs.specs.Texts.{bytes_of};

use crate::status::RunStatus;
use crate::telling::{Telling, Text};
use sepref_replay::replay_told;
use std::alloc::{AllocError, Global};

/// What `replay` writes for a text, with a heap of so many words.
pub fn schedule_told(alloc: Global, heap: u64, text: &[u8]) -> Result<Telling, AllocError>
    requires short { length text.now < 2 ^ 32 }
    ensures { IfOk result (λ told. Replayed heap text.now told.status (bytes_of told.text)) }
{
    let (cause, bytes) = replay_told(alloc, text, heap)?;
    Ok(Telling {
        status: RunStatus::of_cause(&cause),
        text: Text::Made(bytes),
    })
}
