//! The law. Its function does nothing; what it ensures is the law.

ghost use Rattle.fit_laws.specs.Older.{KeepsOlder};

/// Where the following of binds, of a block or of a loop's condition comes to has the entries from before below those that it
/// made, and holds the numbers and truth values among them as before.
pub fn what_is_followed_keeps_the_older()
    ensures { KeepsOlder }
{}
