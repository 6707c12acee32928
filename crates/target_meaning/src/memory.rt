//! The heap of the machine.

ghost use Rattle.std.specs.Prelude.{◌≡◌, ◌≤◌, ◌<◌, ◌+◌, ◌-◌, ◌^◌, ℕ, length, MatchOption, IfOk, OnErr, OnOk};
ghost use Rattle.target_meaning.specs.Leaf as leaf;
ghost use Rattle.target_meaning.specs.Machine as machine;
ghost use Rattle.target_meaning.specs.Machine.{claims, words_of};
ghost use Rattle.target_meaning.specs.Memories.{by_claim, by_done, by_word, heap_of};

use crate::answer::Reason;
use sqlite_items::Items;
use std::alloc::{AllocError, Global};
use std::collections::BTreeMap;

/// The heap: the blocks made, with their words until they are freed.
#[derive(Drop)]
pub struct Memory {
    blocks: BTreeMap<u64, Option<Items<u64>>>,
    claimed: u64,
    cap: u64,
}

/// How an `alloc` went.
#[derive(Clone, Copy)]
pub enum Claimed {
    /// The block was made.
    Made,
    /// It does not fit.
    NoRoom,
    /// The name lies outside 1 to the capacity, or was made before.
    Used,
}

impl Memory {
    /// A heap of `cap` words in which these blocks were made, each with its name, in this order.
    pub fn with_blocks(
        alloc: Global,
        blocks: &[(u64, Items<u64>)],
        cap: u64,
    ) -> Result<Memory, AllocError>
        requires { claims blocks.now ≤ cap }
        ensures { IfOk result (λ memory. heap_of memory ≡
            machine.with_blocks (machine.no_blocks cap) blocks.now) }
    {
        let mut memory = Memory {
            blocks: BTreeMap::new(alloc),
            claimed: 0,
            cap,
        };
        for block in blocks {
            memory.add(alloc, block.0, block.1.as_slice())?;
        }
        Ok(memory)
    }

    /// Makes a block with these words.
    fn add(&mut self, alloc: Global, name: u64, words: &[u64]) -> Result<(), AllocError>
        requires { self.old.claimed + length words.now + 1 < 2 ^ 64 }
        ensures { OnOk result (heap_of self.new ≡ machine.with_words (heap_of self.old) name words.now) }
    {
        let claimed = self.claimed + words.len() as u64 + 1;
        self.blocks
            .insert(name, Some(Items::from_slice(alloc, words)?))?;
        self.claimed = claimed;
        Ok(())
    }

    /// The words of a block that is live.
    pub fn words(&self, block: u64) -> Option<&[u64]>
        ensures { MatchOption result (words_of ((heap_of self.now).cells block) ≡ None)
            (λ words. words_of ((heap_of self.now).cells block) ≡ Some words.now) }
    {
        match self.blocks.get(&block) {
            Some(Some(words)) => Some(words.as_slice()),
            _ => None,
        }
    }

    /// A word, or why there is none.
    pub fn load(&self, block: u64, index: u64) -> Result<u64, Reason>
        ensures { (next : ℕ → leaf.Stack) (name : ℕ) →
            machine.perform machine.nothing machine.has_room tt (leaf.Read block index next)
            (heap_of self.now) name ≡ by_word result next (heap_of self.now) }
    {
        match self.blocks.get(&block) {
            Some(Some(words)) => {
                let words = words.as_slice();
                let index = index as usize;
                if index < words.len() {
                    Ok(words[index])
                } else {
                    Err(Reason::Index)
                }
            }
            _ => Err(Reason::Block),
        }
    }

    /// Changes a word, or says why it can not.
    pub fn store(&mut self, block: u64, index: u64, value: u64) -> Result<(), Reason>
        ensures step { (next : leaf.Stack) (name : ℕ) →
            machine.perform machine.nothing machine.has_room tt (leaf.Write block index value next)
            (heap_of self.old) name ≡ by_done result next (heap_of self.new) }
        ensures err { OnErr result (heap_of self.new ≡ heap_of self.old) }
    {
        let index = index as usize;
        match self.blocks.get(&block) {
            Some(Some(words)) => {
                if index >= words.len() {
                    return Err(Reason::Index);
                }
            }
            _ => return Err(Reason::Block),
        }
        if let Some(slot) = self.blocks.get_mut(&block) {
            if let Some(mut words) = slot.take() {
                words.set(index, value);
                *slot = Some(words);
                return Ok(());
            }
        }
        Err(Reason::Block)
    }

    /// Frees a block, or says why it can not.
    pub fn free(&mut self, block: u64) -> Result<(), Reason>
        ensures step { (next : leaf.Stack) (name : ℕ) →
            machine.perform machine.nothing machine.has_room tt (leaf.Cut block next) (heap_of self.old) name
            ≡ by_done result next (heap_of self.new) }
        ensures err { OnErr result (heap_of self.new ≡ heap_of self.old) }
    {
        if let Some(words) = self.blocks.get_mut(&block) {
            if words.is_some() {
                *words = None;
                return Ok(());
            }
        }
        Err(Reason::Block)
    }

    /// Makes a block of zeros with this name, where it fits and the name is new.
    pub fn claim(&mut self, alloc: Global, len: u64, name: u64) -> Result<Claimed, AllocError>
        ensures step { IfOk result (λ claimed. (next : ℕ → leaf.Stack) →
            machine.perform machine.nothing machine.has_room tt (leaf.Make len next) (heap_of self.old) name ≡
            by_claim claimed (next name) (heap_of self.new)) }
        ensures same { IfOk result (λ claimed. (claimed ≡ Claimed.Made → ⊥) → heap_of self.new ≡
            heap_of self.old) }
        ensures err { OnErr result (heap_of self.new ≡ heap_of self.old) }
    {
        if self.claimed as u128 + len as u128 + 1 > self.cap as u128 {
            return Ok(Claimed::NoRoom);
        }
        if name == 0 || name > self.cap || self.blocks.contains_key(&name) {
            return Ok(Claimed::Used);
        }
        let words = vec![in alloc; 0; len as usize]?;
        self.blocks.insert(name, Some(Items::from_vec(words)))?;
        self.claimed += len + 1;
        Ok(Claimed::Made)
    }
}
