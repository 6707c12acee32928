//! Laws of names. Each function does nothing; what it ensures is the law.

ghost use Rattle.fits_table.specs.Table.{FoundAreNamed, TablesNameOperations};

/// Each row of the table that is found for an operation has its procedure: a row by register is found for a length or a
/// size alone, and each other row calls the procedure that is for its operation and, where it makes a container, for the
/// kind of what is made.
pub fn found_rows_have_their_procedures()
    ensures { FoundAreNamed }
{}

/// Who looks at the table alone, and calls the library's procedures as they are called, calls for each operation its
/// procedure.
pub fn rows_name_their_operations()
    ensures { TablesNameOperations }
{}
