//! What a thread steps with.
ghost use Rattle.std.specs.Prelude.{◌≡◌, ◌+◌, ◌<◌, []};
ghost use Rattle.block_dir.specs.Views.{Sound, Unmarked};

use crate::mark::Mark;
use crate::view::View;
use atomic_table::Seat;

/// What a thread steps with: it stands for what the thread holds of the directory, its position on
/// the chain of blocks, the blocks that it drew, and a weight. At run time it is its position
/// alone.
///
/// `seat_is_sound` says what is so of each seat. A seat that is dropped takes with it what it held:
/// nobody can release it.
#[derive(Drop)]
pub struct DirSeat {
    pub(crate) seat: Seat<Mark, View>,
    pub(crate) position: u64,
    ghost placed: { position ≡ seat.me.0.position },
    ghost bare: { seat.me.1 ≡ [] },
    ghost counts: { 0 < seat.me.0.weight },
    ghost roomy: { seat.me.0.room + 1 ≡ seat.table_id.words },
    ghost unmarked: { Unmarked seat.me.0 },
    ghost sound: { Sound seat.me.0 },
}
