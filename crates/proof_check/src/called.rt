//! Which procedures are called.

ghost use Rattle.std.specs.Prelude.{◌≡◌, ◌||◌, ◌<◌, List, ℕ, length, IfOk, IfSome, OnOk};
ghost use Rattle.soundness.specs.Shape.{names_of};
ghost use Rattle.unfit_line.specs.Tests.{all_in, calls_of, code_calls, is_in, is_nil, not_called};
ghost use Rattle.proof_check.specs.Whole.{first_place, names_in, procs_at, seen};

use crate::calls::{in_code, in_procs};
use scopes::Scope;
use std::alloc::{AllocError, Global};
use target_code::Proc;

/// Whether a name is known.
fn is_known(known: &Scope<'_, bool>, name: &[u8]) -> bool
    ensures { result ≡ is_in name.now (names_in known.now) }
{
    known.find(name).is_some()
}

/// Makes names known.
fn know_names<'a>(known: &mut Scope<'a, bool>, names: &[&'a [u8]]) -> Result<(), AllocError>
    ensures { OnOk result ((x : List ℕ) → is_in x (names_in known.new) ≡ (is_in x (seen names.now) || is_in x (names_in known.old))) }
{
    'each: for name in names {
        known.bind(name, true)?;
    }
    Ok(())
}

/// Makes the names of procedures known.
fn know_procs<'a>(known: &mut Scope<'a, bool>, procs: &'a [Proc]) -> Result<(), AllocError>
    ensures { OnOk result ((x : List ℕ) → is_in x (names_in known.new) ≡ (is_in x (names_of procs.now) || is_in x (names_in known.old))) }
{
    'each: for proc in procs {
        known.bind(proc.name.bytes(), true)?;
    }
    Ok(())
}

/// The place of the first procedure whose name is known.
fn first_known(known: &Scope<'_, bool>, procs: &[&Proc]) -> Option<usize>
    ensures place { result ≡ first_place (names_in known.now) (procs_at procs.now) }
    ensures within { IfSome result (λ place. place < length procs.now) }
{
    let mut place = 0;
    'each: for proc in procs {
        if is_known(known, proc.name.bytes()) {
            return Some(place);
        }
        place += 1;
    }
    None
}

/// Makes the names known that a procedure calls.
fn know_calls<'a>(
    alloc: Global,
    known: &mut Scope<'a, bool>,
    proc: &'a Proc,
) -> Result<(), AllocError>
    ensures { OnOk result ((x : List ℕ) → is_in x (names_in known.new) ≡ (is_in x (code_calls proc.now.code) || is_in x (names_in known.old))) }
{
    let mut names = Vec::new(alloc);
    in_code(&proc.code, &mut names)?;
    know_names(known, names.as_slice())
}

/// These procedures, one by one.
fn each_of(alloc: Global, procs: &[Proc]) -> Result<Vec<&Proc>, AllocError>
    ensures { IfOk result (λ list. procs_at list.items ≡ procs.now) }
{
    let mut list = Vec::new(alloc);
    'each: for proc in procs {
        list.push(proc)?;
    }
    Ok(list)
}

/// Whether each of these procedures is called, by one of the names or by another one that is called.
pub(crate) fn are_called(alloc: Global, names: &[&[u8]], procs: &[Proc]) -> Result<bool, AllocError>
    ensures { IfOk result (λ yes. yes ≡ is_nil (not_called (length procs.now) (seen names.now) procs.now)) }
{
    let mut known = Scope::new(alloc);
    know_names(&mut known, names)?;
    let mut rest = each_of(alloc, procs)?;
    'each: while let Some(place) = first_known(&known, rest.as_slice()) {
        let proc = rest.remove(place);
        know_calls(alloc, &mut known, proc)?;
    }
    Ok(rest.is_empty())
}

/// Whether all names are known.
fn all_known(known: &Scope<'_, bool>, names: &[&[u8]]) -> bool
    ensures { (xs : List (List ℕ)) (ys : List (List ℕ)) → ((x : List ℕ) → is_in x (names_in known.now) ≡ (is_in x xs || is_in x ys))
        → result ≡ all_in xs ys (seen names.now) }
{
    for name in names {
        if !is_known(known, name) {
            return false;
        }
    }
    true
}

/// Whether all that these procedures call by name is one of `own` or one of `called`.
pub(crate) fn call_known(
    alloc: Global,
    own: &[Proc],
    called: &[Proc],
    procs: &[Proc],
) -> Result<bool, AllocError>
    ensures { IfOk result (λ yes. yes ≡ all_in (names_of own.now) (names_of called.now) (calls_of procs.now)) }
{
    let names = in_procs(alloc, procs)?;
    let mut known = Scope::new(alloc);
    know_procs(&mut known, called)?;
    know_procs(&mut known, own)?;
    Ok(all_known(&known, names.as_slice()))
}
