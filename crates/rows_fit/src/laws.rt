//! The laws. Each function does nothing; its contract is the law.

ghost use Rattle.rows_fit.specs.RowsFit.{AreSound, FoundAreSound, HasRows};

/// A program that finds the library's procedures by their names, the laws by which its runs are proved, and what looks
/// at the table, for bounds of sets and maps below 2^32.
pub trait HasTable {
    ghost served: { Self → HasRows };
}

/// Each row of the table is sound as the proof about fitting programs wants it: it keeps at most one container, its fact
/// is on one of its arguments, and its procedure, or its register, does what the operation means, in a number of steps
/// that no value decides; and a slice that it gives has the registers of the one that it took.
pub fn all_rows_fit<P: HasTable>()
    ensures { (x : P) → AreSound (P.served x) }
{}

/// A row of the table that is found is sound with each list of procedures in which those of the library are found, for the
/// bound of its sets and maps, below 2^32: its procedure is found and does, within its steps and claims, what the operation
/// means, or its register is the number that the operation gives.
pub fn found_rows_are_sound()
    ensures { FoundAreSound }
{}
