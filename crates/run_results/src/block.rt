//! Blocks that a store holds whole.

ghost use Rattle.std.specs.Prelude.{IfOk};
ghost use Rattle.run_results.specs.Results.{IsBlock};

use branch_exec::store::Seen;
use run_stores::RunStore;
use sqlite_items::Items;
use std::alloc::{AllocError, Global};

/// The words of a block that a store holds whole, its name and each of its words.
pub(crate) fn held_words<S: RunStore>(
    alloc: Global,
    store: &S,
    block: u64,
) -> Result<Option<Items<u64>>, AllocError>
    ensures { IfOk result (λ words. IsBlock (S.kept store.now).top block words) }
{
    let Some(len) = store.whole_block(block) else {
        return Ok(None);
    };
    let mut words = Vec::new(alloc);
    for index in 0..len {
        match store.word(block, index) {
            Seen::Word(word) => words.push(word)?,
            Seen::Outside | Seen::Unowned => return Ok(None),
        }
    }
    Ok(Some(Items::from_vec(words)))
}
