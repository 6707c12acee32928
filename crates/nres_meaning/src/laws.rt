//! Laws of the meaning. Their functions do nothing; what they ensure is the law.

ghost use Rattle.std.specs.Prelude.{List};
ghost use Rattle.nres_core.specs.Tree.{Word};
ghost use Rattle.nres_core.specs.declared.op.Op.{Op};
ghost use Rattle.nres_core.specs.declared.value.Value.{Value};
ghost use Rattle.nres_meaning.specs.Laws as laws;
ghost use Rattle.nres_meaning.specs.Samples as samples;
ghost use Rattle.nres_meaning.specs.WordOperations.{op_named, known};

/// With more turns and deeper calls a specification gives and fails no less.
pub fn grows()
    ensures { laws.Grows Word op_named × laws.Grows Op known }
{}

/// So it is of a flat specification, and of its binds and its calls: with more turns and deeper calls they go in step with
/// what they did, which alone may break off.
pub fn flat_grows()
    ensures whole { laws.FlatGrows }
    ensures binds { laws.BindsGrow }
    ensures calls { laws.CallsGrow }
{}

/// The path of the first choices is a path.
pub fn first_is_one()
    ensures { laws.FirstIsOne Word op_named × laws.FirstIsOne Op known }
{}

/// What a part and the rest after it give, and where they fail.
pub fn part_then_rest()
    ensures { laws.PartThenRest (List Value) (List Value) }
{}

/// What two parts side by side give, and where they fail.
pub fn side_by_side()
    ensures { laws.SideBySide (List Value) (List Value) (List Value) }
{}

/// What small specifications allow, and where they can fail.
pub fn seen()
    ensures { samples.Seen }
{}

/// What the text `first` allows, and that it can fail.
pub fn first_seen()
    ensures { samples.FirstSeen }
{}

/// The text `first` has no tree but its own.
pub fn first_has_one_tree()
    ensures { samples.OneTree }
{}
