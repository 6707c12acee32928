//! What each operation word takes and gives.

ghost use Rattle.std.specs.Prelude.{◌≡◌};
ghost use Rattle.nres_rules.specs.Types as types;
ghost use Rattle.nres_types.specs.Findings.{wrongs};
ghost use Rattle.nres_core.specs.Operations.{at_known, entry};
ghost use Rattle.nres_types.specs.Signatures.{sig_value};

use crate::fault::{Fault, same_type};
use nres_core::Ty::{Bag, List, Nat};
use nres_core::{ByType, Chosen, Meant, Op, OpEntry, Place, Ty, look_up, rep_type};
use target_code::{Calc, Rep};

/// What a word takes and gives, its operation, and the type of the first argument where the word has no operation for it.
#[derive(Clone, Copy)]
pub(crate) struct Signature {
    pub(crate) from: &'static [Ty],
    pub(crate) to: Option<Ty>,
    pub(crate) op: Option<Op>,
    pub(crate) lacks: Option<Ty>,
}

fn takes(from: &'static [Ty], to: Ty, op: Op) -> Signature
    ensures { sig_value result ≡ types.takes from.now to op }
{
    Signature {
        from,
        to: Some(to),
        op: Some(op),
        lacks: None,
    }
}

/// No operation is known, or there is none for this type.
fn unsettled(to: Option<Ty>, lacks: Option<Ty>) -> Signature
    ensures { sig_value result ≡ types.unsettled to lacks }
{
    Signature {
        from: &[],
        to,
        op: None,
        lacks,
    }
}

/// The signature of an operation; a word that takes an element out stands in no expression.
fn of_op(op: Op) -> Signature
    ensures { sig_value result ≡ types.entry_sig (entry op) op }
{
    match op.entry() {
        OpEntry::Gives(from, to) | OpEntry::Makes(from, to) => takes(from, to, op),
        OpEntry::TakesOut(_) => unsettled(None, None),
    }
}

/// By the operation, where there is one.
fn settled(op: Option<Op>, to: Option<Ty>, lacks: Option<Ty>) -> Signature
    ensures { sig_value result ≡ types.settled op to lacks }
{
    match op {
        Some(op) => of_op(op),
        None => unsettled(to, lacks),
    }
}

/// The operation for a type that may be unknown.
fn at_known(ty: Option<Ty>, ops: ByType) -> Option<Op>
    ensures { result ≡ at_known ty ops }
{
    ops.at(ty?)
}

/// The operation for the representation that is chosen.
fn at_made(rep: Option<Rep>, ops: ByType) -> Option<Op>
    ensures { result ≡ at_known (types.made_type rep) ops }
{
    match rep {
        Some(rep) => ops.at(rep_type(rep)),
        None => None,
    }
}

/// The signature of what a word stands for, with the representation that is chosen for it, whose first argument has this type.
fn meant_signature(meant: Option<Meant>, rep: Option<Rep>, first: Option<Ty>) -> Signature
    ensures { sig_value result ≡ types.meant_sig meant rep first }
{
    match meant {
        None => unsettled(None, None),
        Some(Meant::Always(op)) => of_op(op),
        Some(Meant::ByFirst(ops, to)) => settled(at_known(first, ops), to, first),
        Some(Meant::ByMade(ops)) => settled(at_made(rep, ops), None, None),
    }
}

/// The signature of a word.
pub(crate) fn signature_of(word: &[u8], rep: Option<Rep>, first: Option<Ty>) -> Signature
    ensures { sig_value result ≡ types.sig_of (word.now, rep) first }
{
    meant_signature(look_up(word), rep, first)
}

/// The operation that takes an element out, by what its word stands for.
fn meant_taker(meant: Option<Meant>) -> Op
    ensures { result ≡ types.meant_taker meant }
{
    match meant {
        Some(Meant::Always(op)) => match op.entry() {
            OpEntry::TakesOut(_) => op,
            OpEntry::Gives(_, _) | OpEntry::Makes(_, _) => Op::TakeMin,
        },
        Some(Meant::ByFirst(_, _) | Meant::ByMade(_)) | None => Op::TakeMin,
    }
}

/// The operation that takes an element out, by its word.
pub(crate) fn taker(word: &[u8]) -> Op
    ensures { result ≡ types.take_op word.now }
{
    meant_taker(look_up(word))
}

/// The type of container that an operation takes an element out of.
pub(crate) fn taken_from(op: Op) -> Ty
    ensures { result ≡ types.taken_from (entry op) }
{
    match op.entry() {
        OpEntry::TakesOut(from) => from,
        OpEntry::Gives(_, _) | OpEntry::Makes(_, _) => Bag,
    }
}

/// What the operands of a calculation are.
pub(crate) fn operand_type(word: Calc) -> Ty
    ensures { result ≡ types.operand word }
{
    match word {
        Calc::And | Calc::Or => Ty::Bool,
        _ => Nat,
    }
}

/// What a calculation gives.
pub(crate) fn outcome_type(word: Calc) -> Ty
    ensures { result ≡ types.outcome word }
{
    match word {
        Calc::And | Calc::Or | Calc::Lt | Calc::Le | Calc::Eq | Calc::Ne => Ty::Bool,
        _ => Nat,
    }
}

/// The fault of a word that has no operation for the type of its first argument.
pub(crate) fn lacks_operation<'a>(
    place: Place,
    word: &'a [u8],
    lacks: Option<Ty>,
) -> Option<Fault<'a>>
    ensures { wrongs result ≡ types.lacks_operation place word.now lacks }
{
    match lacks {
        Some(found) => Some(Fault::NoOperation { place, word, found }),
        None => None,
    }
}

/// The fault of a representation of another type.
pub(crate) fn rep_fits<'a>(place: Place, ty: Ty, rep: Rep) -> Option<Fault<'a>>
    ensures { wrongs result ≡ types.rep_fits place ty rep }
{
    if same_type(ty, rep_type(rep)) {
        None
    } else {
        Some(Fault::OtherRep { place, rep })
    }
}

/// The fault of a representation of a type for which a constructor has no operation.
fn made_by<'a>(chosen: Chosen, op: Option<Op>) -> Option<Fault<'a>>
    ensures { wrongs result ≡ types.made_by chosen.place chosen.rep op }
{
    match op {
        Some(_) => None,
        None => Some(Fault::OtherRep {
            place: chosen.place,
            rep: chosen.rep,
        }),
    }
}

/// The type of the representation that an operation wants.
fn made_as(op: Op) -> Ty
    ensures { result ≡ types.made_as (entry op) }
{
    match op.entry() {
        OpEntry::Makes(_, to) => to,
        OpEntry::Gives(_, _) | OpEntry::TakesOut(_) => List,
    }
}

/// The fault of a constructor, by what its word stands for.
fn meant_fits<'a>(meant: Option<Meant>, chosen: Chosen) -> Option<Fault<'a>>
    ensures { wrongs result ≡ types.meant_fits meant chosen }
{
    match meant {
        Some(Meant::Always(op)) => rep_fits(chosen.place, made_as(op), chosen.rep),
        Some(Meant::ByMade(ops)) => made_by(chosen, ops.at(rep_type(chosen.rep))),
        Some(Meant::ByFirst(_, _)) | None => rep_fits(chosen.place, List, chosen.rep),
    }
}

/// The fault of a constructor of another type than its representation: `zeros` and `nil` want a list's, `empty` that of a set, a
/// map or a multiset.
pub(crate) fn made_fits<'a>(word: &[u8], made: Option<Chosen>) -> Option<Fault<'a>>
    ensures { wrongs result ≡ types.made_fits word.now made }
{
    match made {
        Some(chosen) => meant_fits(look_up(word), chosen),
        None => None,
    }
}
