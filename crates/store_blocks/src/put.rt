//! A block with its words.

ghost use Rattle.store_blocks.specs.Blocks.{Puts};

use branch_exec::store::{Got, Store};

/// Makes a block of these words, whole in the top piece. Its answers are those of a claim of so many words; where it is
/// not won, the pieces and the list of blocks are as before.
pub fn put_block<S: Store>(store: &mut S, words: &[u64]) -> Got
    ensures { Puts result (S.kept store.old) (S.kept store.new) words.now }
{
    match store.claim(words.len() as u64) {
        Got::Won(name) => {
            for (index, word) in words.iter().enumerate() {
                let _done = store.write(name, index as u64, *word);
            }
            Got::Won(name)
        }
        Got::Full { at } => Got::Full { at },
        Got::Memory => Got::Memory,
    }
}
