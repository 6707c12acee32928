//! Laws of values. Each function does nothing; its contract is the law.

ghost use Rattle.given_values.specs.Values.{GivenValuesAreHeld, SpecValuesAreHeld};

/// The numbers of the values that a text of fewer than 2^32 bytes gives to inputs are words, and they have fewer than 2^32
/// elements.
pub fn given_values_are_held()
    ensures { GivenValuesAreHeld }
{}

/// The same of the values that stand behind a specification.
pub fn spec_values_are_held()
    ensures { SpecValuesAreHeld }
{}
