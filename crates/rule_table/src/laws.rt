//! Laws of the table and the library. Their functions do nothing; what they ensure is the law.

ghost use Rattle.rule_table.specs.Laws.{TableSound};
ghost use Rattle.rule_table.specs.Library.{library, IsClosed};

use rule_check::table::RULES;

/// Each row of the table is sound with the library: its procedure is found there and does, for each bound of sets and
/// maps, what the operation means; a row by register gives the number that the operation gives.
pub fn rows_are_sound()
    ensures { TableSound RULES }
{}

/// The library's names ascend and are distinct, each procedure is found by its name, and each call finds its
/// procedure, with as many arguments and results.
pub fn library_is_closed()
    ensures { IsClosed library }
{}
