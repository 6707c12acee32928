//! The words of operations.

ghost use Rattle.std.specs.Prelude.{◌≡◌};
ghost use Rattle.rule_check.specs.OperationWords.{word_of};

use nres_core::Op;

/// The word by which refusals name an operation.
#[tactic(auto, unfolding(rule_check::specs::OperationWords::word_of))]
pub fn word_of(op: Op) -> &'static [u8]
    ensures { result.now ≡ word_of op }
{
    match op {
        Op::Zeros => b"zeros",
        Op::Nil => b"nil",
        Op::Len => b"len",
        Op::Get => b"get",
        Op::SetAt => b"set",
        Op::Swap => b"swap",
        Op::Push => b"push",
        Op::Pop => b"pop",
        Op::CopyList | Op::CopySet | Op::CopyMap | Op::CopyBag => b"copy",
        Op::EmptySet | Op::EmptyMap | Op::EmptyBag => b"empty",
        Op::SizeSet | Op::SizeMap | Op::SizeBag => b"size",
        Op::HasSet | Op::HasMap => b"has",
        Op::Insert => b"insert",
        Op::Remove => b"remove",
        Op::Pick => b"pick",
        Op::Union => b"union",
        Op::Elems => b"elems",
        Op::Lookup => b"lookup",
        Op::Put => b"put",
        Op::Del => b"del",
        Op::Keys => b"keys",
        Op::Add => b"add",
        Op::Minimum => b"minimum",
        Op::TakeMin => b"take_min",
    }
}
