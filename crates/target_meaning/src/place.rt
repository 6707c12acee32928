//! Places in code.

ghost use Rattle.std.specs.Prelude.{◌≡◌, slice_get};
ghost use Rattle.std.specs.Option.{option_copied};
ghost use Rattle.target_meaning.specs.Place.{inner_of, list_at};

use sqlite_items::at;
use target_code::Instr;

/// Which inner code of an instruction.
#[derive(Clone, Copy)]
pub enum Inner {
    /// What an `if` does where its register is not 0.
    Yes,
    /// What it does else.
    No,
    /// The condition of a loop.
    Cond,
    /// The body of a loop.
    Body,
}

/// An instruction by its index, and one of its inner codes.
#[derive(Clone, Copy)]
pub struct Outer {
    /// The index of the instruction in its list.
    pub index: usize,
    /// The inner code.
    pub inner: Inner,
}

/// The list of an inner code, none where no instruction stands or it has no such code.
pub fn inner_list<'a>(inner: Inner, instr: Option<&'a Instr>) -> &'a [Instr]
    ensures { result.now ≡ inner_of inner (option_copied instr.entry) }
{
    match (inner, instr) {
        (Inner::Yes, Some(Instr::If { yes, .. })) => yes.list.as_slice(),
        (Inner::No, Some(Instr::If { no, .. })) => no.list.as_slice(),
        (Inner::Cond, Some(Instr::While { cond, .. })) => cond.list.as_slice(),
        (Inner::Body, Some(Instr::While { body, .. })) => body.list.as_slice(),
        _ => &[],
    }
}

/// The list that a place is in.
pub fn list_of<'a>(code: &'a [Instr], outer: &[Outer]) -> &'a [Instr]
    ensures { result.now ≡ list_at code.now outer.now }
{
    let mut list = code;
    for level in outer {
        list = inner_list(level.inner, at(list, level.index));
    }
    list
}
