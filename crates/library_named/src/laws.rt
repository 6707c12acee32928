//! Laws of names. The function does nothing; what it ensures is the law.

ghost use Rattle.library_named.specs.Laws.{IsNamed};

/// The procedure of each row has the name by which texts call it.
pub fn library_is_named()
    ensures { IsNamed }
{}
