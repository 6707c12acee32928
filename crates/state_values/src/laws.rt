//! Laws of beginnings. Each function does nothing; its contract is the law.

ghost use Rattle.state_values.specs.Beginning.{OneBeginning, UnfitBeginsNot};

/// A program begins in one way on values in a heap of one capacity, where its blocks have names from 1 on.
pub fn programs_begin_in_one_way()
    ensures { OneBeginning }
{}

/// Where the inputs do not fit a heap, there is no beginning in it; and one block of them is the first that does not fit.
pub fn unfit_inputs_begin_nothing()
    ensures { UnfitBeginsNot }
{}
