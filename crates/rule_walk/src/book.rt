//! What the rule check looks things up in.

ghost use Rattle.std.specs.Prelude.{◌≡◌};
ghost use Rattle.proc_rules.specs.Calls.{sig_seen};
ghost use Rattle.rule_check.specs.Steps.{sig_at};
ghost use Rattle.rule_walk.specs.Walks.{book_in};

use nres_core::FlatFun;
use proc_rules::{Sig, sig_of};
use sqlite_items::at;
use target_code::Name;

/// The names of the variables, and the procedures.
#[derive(Clone, Copy)]
pub(crate) struct Book<'a> {
    /// The names.
    pub names: &'a [Name],
    /// The procedures.
    pub funs: &'a [FlatFun],
}

/// What a procedure takes and gives.
pub(crate) fn sig_in<'a>(book: &Book<'a>, fun: u32) -> Option<Sig<'a>>
    ensures { sig_seen result ≡ sig_at (book_in book.now).sigs fun }
{
    match at(book.funs, fun as usize) {
        Some(fun) => Some(sig_of(fun)),
        None => None,
    }
}
