//! A directory of blocks of words, which threads share without a lock.
//!
//! Its words are atomic. From word 1 on the blocks follow one another, each behind a header that
//! tells its length and whether it is live. A thread steps with a seat of its own, [`DirSeat`],
//! which knows what it holds: of a name or a word a share, up to 2^64, which is the whole. Whoever
//! holds a share may read, and who holds the whole may write and release.
#![tactic(auto)]

mod claims;
mod directory;
mod law;
mod mark;
mod plays;
mod seat;
mod sides;
#[cfg(test)]
mod tests;
mod view;

pub use directory::{Claim, Directory};
pub use law::{
    joined_shares_add_up, opened_seat_holds_nothing, released_block_is_gone, rule_means,
    seat_is_sound, split_and_join_give_all_back, split_keeps_values, won_block_is_whole,
    written_word_has_the_value,
};
pub use mark::Mark;
pub use seat::DirSeat;
pub use view::{Cell, View};

/// What a split hands on or lends: a block, or some of its words.
#[derive(Clone, Copy)]
pub struct Part {
    /// The block's name, from 1 to the capacity.
    pub block: u64,
    /// `None` is the name and all words of the block. `Some((offset, count))` is `count` of its
    /// words from the word `offset` on, counted from 0, without the name.
    pub span: Option<(u64, u64)>,
}
