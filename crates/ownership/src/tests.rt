//! What is tested of the entries of arguments: the first that breaks a rule.

ghost use Rattle.std.specs.Prelude.{◌≡◌, IfOk};
ghost use Rattle.ownership.specs.Entries.{spots_of};
ghost use Rattle.rule_check.specs.Context as d;

use crate::entry::{Entry, is_container};
use indexmap::IndexSet;
use std::alloc::{AllocError, Global};

/// The first container that is gone.
pub fn first_gone(entries: &[Entry]) -> Option<u32>
    ensures { result ≡ d.first_gone (spots_of entries.now) }
{
    'each: for entry in entries {
        if entry.is_gone() {
            return Some(entry.var);
        }
    }
    None
}

/// The first container that must stay.
pub fn first_kept(entries: &[Entry]) -> Option<u32>
    ensures { result ≡ d.first_kept (spots_of entries.now) }
{
    'each: for entry in entries {
        if entry.is_kept() {
            return Some(entry.var);
        }
    }
    None
}

/// Whether a container of this variable is among the entries.
pub fn stands(var: u32, entries: &[Entry]) -> bool
    ensures { result ≡ d.stands var (spots_of entries.now) }
{
    'each: for entry in entries {
        if is_container(entry.rep) && var == entry.var {
            return true;
        }
    }
    false
}

/// The first container that stands once more behind, and is one of those that are destroyed.
pub fn first_clash(destroyed: &[Entry], entries: &[Entry]) -> Option<u32>
    ensures { result ≡ d.first_clash (spots_of destroyed.now) (spots_of entries.now) }
{
    'each: for index in 0..entries.len() {
        let entry = &entries[index];
        let (_, others) = entries.split_at(index + 1);
        if is_container(entry.rep) && stands(entry.var, others) && stands(entry.var, destroyed) {
            return Some(entry.var);
        }
    }
    None
}

/// The first container that stands once more behind.
pub fn first_twice(alloc: Global, entries: &[Entry]) -> Result<Option<u32>, AllocError>
    ensures { IfOk result (λ found. found ≡ d.first_twice (spots_of entries.now)) }
{
    let mut behind: IndexSet<u32> = IndexSet::new(alloc);
    let mut found = None;
    let mut index = entries.len();
    'each: while index > 0 {
        index -= 1;
        let entry = &entries[index];
        if is_container(entry.rep) {
            if behind.contains(&entry.var) {
                found = Some(entry.var);
            } else {
                behind.insert(entry.var)?;
            }
        }
    }
    Ok(found)
}
