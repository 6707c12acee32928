//! The translation.

ghost use Rattle.std.specs.Prelude.{◌≡◌, IfOk, IfSome, IsTrue, Ok, None, Contains, [], ◌∷◌};
ghost use Rattle.nres_core.specs.FlatTree.{FlatWhole};
ghost use Rattle.nres_rules.specs.Identify.{IsFlatOf};
ghost use Rattle.nres_core.specs.declared.tree.Param.{Param};
ghost use Rattle.smallest_form.specs.Smallest.{IsSmallest};
ghost use Rattle.soundness.specs.Behaviour.{of_spec};
ghost use Rattle.soundness.specs.Bound.{IsBoundedFor};
ghost use Rattle.soundness.specs.Samples.{array_get};
ghost use Rattle.soundness.specs.Shape.{Shape};
ghost use Rattle.soundness.specs.Sound.{Sound};
ghost use Rattle.target_code.specs.Formed.{Formed};
ghost use Rattle.target_code.specs.Reserved.{is_input_name};

use crate::form::form_in;
use crate::program::program_of;
use nres_core::Spec;
use std::alloc::{AllocError, Global};
use target_code::Program;

/// The program of a specification of the smallest form; none for every other specification. An error tells that memory
/// was wanting.
pub fn translate(alloc: Global, spec: &Spec) -> Result<Option<Program>, AllocError>
    requires named { (x : Param) → Contains spec.now.params x → IsTrue (is_input_name x.name) }
    ensures small { IfOk result (λ found. IfSome found (λ t. IsSmallest spec.now)) }
    ensures none { result ≡ Ok None → IsSmallest spec.now → ⊥ }
    ensures formed { IfOk result (λ found. IfSome found (λ t. Formed t)) }
    ensures shape { IfOk result (λ found. IfSome found (λ t. (f : FlatWhole) × IsFlatOf spec.now f × Shape (array_get ∷ []) f t)) }
    ensures sound { IfOk result (λ found. IfSome found (λ t. Sound spec.now t)) }
    ensures bounded { IfOk result (λ found. IfSome found (λ t. IsBoundedFor (of_spec spec.now) t)) }
{
    match form_in(spec) {
        None => Ok(None),
        Some(form) => Ok(Some(program_of(alloc, spec.params.as_slice(), form)?)),
    }
}
