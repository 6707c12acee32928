//! Laws of texts. Their functions do nothing; what they ensure is the law.

ghost use Rattle.body_rules.specs.Texts.{ProcsInOrder, TextInOrder};

/// The refusal of a text is that of the specification, or else that of its procedures.
pub fn text_in_order()
    ensures { TextInOrder }
{}

/// The refusal of procedures is that of the first, or else that of those behind it, whose variables stand behind its own.
pub fn procs_in_order()
    ensures { ProcsInOrder }
{}
