//! Laws of beginnings. Each function does nothing; its contract is the law.

ghost use Rattle.run_begins.specs.Beginning.{GivenInputsFit, LaterNamesAreNew, PlacedInputsBegin, UnplacedInputsAreUnfit};

/// The values that `with` lines give a formed program's inputs fit the representations of these.
pub fn given_inputs_fit()
    ensures { GivenInputsFit }
{}

/// Once the inputs were put into an empty store, the program is at its beginning on them: what the store holds is what is
/// live in the heap that it begins with, and the blocks have names from 1 on.
pub fn placed_inputs_begin()
    ensures { PlacedInputsBegin }
{}

/// The names that the store draws after the inputs are new in that heap, and fit it.
pub fn later_names_are_new()
    ensures { LaterNamesAreNew }
{}

/// Where a block of the inputs does not fit the store, it is the first that does not fit the capacity behind those before
/// it, and what is told are the words claimed before it and its length.
pub fn unplaced_inputs_are_unfit()
    ensures { UnplacedInputsAreUnfit }
{}
