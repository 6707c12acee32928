//! Representations, compared.

ghost use Rattle.std.specs.Prelude.{◌≡◌};
ghost use Rattle.rule_check.specs.Context as d;
ghost use Rattle.rule_check.specs.Steps as steps;

use branch_merge::same_rep;
use target_code::Rep;

/// Whether a value in a representation may be passed where another is declared: an array may also stand for a slice.
pub(crate) fn stands_for(rep: Rep, declared: Rep) -> bool
    ensures { result ≡ steps.stands_for rep declared }
{
    match (rep, declared) {
        (Rep::Array, Rep::Slice) => true,
        _ => same_rep(rep, declared),
    }
}

/// Whether it is that of a container.
pub(crate) fn is_container(rep: Rep) -> bool
    ensures { result ≡ d.is_container rep }
{
    !matches!(rep, Rep::Word | Rep::Flag)
}

/// Whether it is that of a slice.
pub(crate) fn is_slice(rep: Rep) -> bool
    ensures { result ≡ d.is_slice rep }
{
    matches!(rep, Rep::Slice)
}
