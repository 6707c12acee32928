//! Types of expressions.

ghost use Rattle.std.specs.Prelude.{◌≡◌, ◌<◌, length, IfOk, OnOk};
ghost use Rattle.nres_core.specs.Mirror.{exp_of, all_exps, rep_of};
ghost use Rattle.nres_core.specs.Tree as tree;
ghost use Rattle.nres_rules.specs.Types.{first_token, exp_type, exps_type, sig_of};
ghost use Rattle.nres_rules.specs.Types as types;
ghost use Rattle.nres_types.specs.Findings.{told_of, joined, noted, with_word, operand_told, IsExp, IsExps};

use crate::fault::Fault;
use crate::findings::{Findings, Head};
use crate::scope::Scope;
use crate::words::{lacks_operation, made_fits, operand_type, outcome_type, signature_of};
use nres_core::{Chosen, Expr, Named, Place, Ty};
use std::alloc::{AllocError, Global};
use target_code::{Name, Rep};

/// The place of an expression's first token.
pub(crate) fn first_token(tree: &Expr) -> Place
    ensures { result ≡ first_token (exp_of tree.now) }
{
    match tree {
        Expr::Var(name) => name.place,
        Expr::Num { place, .. }
        | Expr::Truth { place, .. }
        | Expr::Binary { place, .. }
        | Expr::Not { place, .. }
        | Expr::Apply { place, .. } => *place,
    }
}

/// The type of a name.
fn variable<'a>(scope: &Scope<'_>, findings: &mut Findings<'a>, name: &'a Named) -> Option<Ty>
    ensures { IsExp result (told_of findings.old) (told_of findings.new) (exp_type (tree.Var name.now) scope.now) }
{
    match scope.find(name.name.bytes()) {
        Some(ty) => ty,
        None => {
            findings.note(Some(Fault::Unbound {
                place: name.place,
                name: name.name.bytes(),
            }));
            None
        }
    }
}

fn chosen_rep(made: Option<Chosen>) -> Option<Rep>
    ensures { result ≡ rep_of made }
{
    match made {
        Some(chosen) => Some(chosen.rep),
        None => None,
    }
}

fn first_head(heads: &[Head]) -> Option<Ty>
    ensures { result ≡ types.first_head heads.now }
{
    match heads {
        [(_, ty), ..] => *ty,
        [] => None,
    }
}

/// Settles a word whose arguments have these types, and gives the type of the whole.
fn settle<'a>(
    findings: &mut Findings<'a>,
    at: usize,
    place: Place,
    word: &'a [u8],
    made: Option<Chosen>,
    heads: &[Head],
) -> Option<Ty>
    requires { at < length findings.old.words.items }
    ensures head { let sig = sig_of (word.now, rep_of made) (types.first_head heads.now) in result ≡ sig.to }
    ensures told { let sig = sig_of (word.now, rep_of made) (types.first_head heads.now) in
        told_of findings.new ≡ with_word (noted (noted (noted (told_of findings.old) (types.all_want heads.now sig.from)) (types.lacks_operation place word.now sig.lacks)) (types.made_fits word.now made)) at sig.op }
{
    let signature = signature_of(word, chosen_rep(made), first_head(heads));
    findings.expect_all(heads, signature.from);
    findings.note(lacks_operation(place, word, signature.lacks));
    findings.note(made_fits(word, made));
    findings.set_word(at, signature.op);
    signature.to
}

/// The type of an expression, where it is known.
#[cycle(exprs)]
pub(crate) fn expr<'a>(
    alloc: Global,
    scope: &Scope<'_>,
    findings: &mut Findings<'a>,
    tree: &'a Expr,
) -> Result<Option<Ty>, AllocError>
    ensures { IfOk result (λ head. IsExp head (told_of findings.old) (told_of findings.new) (exp_type (exp_of tree.now) scope.now)) }
{
    match tree {
        Expr::Num { .. } => Ok(Some(Ty::Nat)),
        Expr::Truth { .. } => Ok(Some(Ty::Bool)),
        Expr::Var(name) => Ok(variable(scope, findings, name)),
        Expr::Binary {
            word,
            left,
            right,
            ..
        } => {
            operand(alloc, scope, findings, left.get(), operand_type(*word))?;
            operand(alloc, scope, findings, right.get(), operand_type(*word))?;
            Ok(Some(outcome_type(*word)))
        }
        Expr::Not { arg, .. } => {
            operand(alloc, scope, findings, arg.get(), Ty::Bool)?;
            Ok(Some(Ty::Bool))
        }
        Expr::Apply {
            place,
            word,
            args,
            made,
        } => applied(alloc, scope, findings, *place, word, args.as_slice(), *made),
    }
}

/// An expression that has to be of a type.
#[cycle(exprs)]
pub(crate) fn operand<'a>(
    alloc: Global,
    scope: &Scope<'_>,
    findings: &mut Findings<'a>,
    tree: &'a Expr,
    want: Ty,
) -> Result<(), AllocError>
    ensures { OnOk result (told_of findings.new ≡ joined (told_of findings.old) (operand_told (exp_of tree.now) want scope.now)) }
{
    let found = expr(alloc, scope, findings, tree)?;
    findings.expect(first_token(tree), want, found);
    Ok(())
}

/// The type of an operation on arguments.
#[cycle(exprs)]
fn applied<'a>(
    alloc: Global,
    scope: &Scope<'_>,
    findings: &mut Findings<'a>,
    place: Place,
    word: &'a Name,
    args: &'a [Expr],
    made: Option<Chosen>,
) -> Result<Option<Ty>, AllocError>
    ensures { IfOk result (λ head. IsExp head (told_of findings.old) (told_of findings.new) (exp_type (tree.Apply place (word.now, rep_of made) (all_exps args.now) made) scope.now)) }
{
    let at = findings.words.len();
    findings.add_word(None)?;
    let heads = exprs(alloc, scope, findings, args)?;
    Ok(settle(findings, at, place, word.bytes(), made, heads.as_slice()))
}

/// The types of several expressions, with their places.
#[cycle(exprs)]
pub(crate) fn exprs<'a>(
    alloc: Global,
    scope: &Scope<'_>,
    findings: &mut Findings<'a>,
    trees: &'a [Expr],
) -> Result<Vec<Head>, AllocError>
    ensures { IfOk result (λ heads. IsExps heads.items (told_of findings.old) (told_of findings.new) (exps_type (all_exps trees.now) scope.now)) }
{
    let mut heads = Vec::new(alloc);
    for tree in trees {
        let found = expr(alloc, scope, findings, tree)?;
        heads.push((first_token(tree), found))?;
    }
    Ok(heads)
}
