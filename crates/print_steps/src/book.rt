//! What is looked up while code is printed.

use nres_core::FlatFun;
use proc_rules::{Sig, sig_of};
use sqlite_items::at;
use std::alloc::Global;
use target_code::Name;

/// The names of the variables, and the procedures.
#[derive(Clone, Copy)]
pub struct Book<'a> {
    /// Where memory is taken.
    pub alloc: Global,
    /// The names.
    pub names: &'a [Name],
    /// The procedures.
    pub funs: &'a [FlatFun],
}

/// What a procedure takes and gives.
pub fn sig_in<'a>(book: &Book<'a>, fun: u32) -> Option<Sig<'a>> {
    match at(book.funs, fun as usize) {
        Some(fun) => Some(sig_of(fun)),
        None => None,
    }
}
