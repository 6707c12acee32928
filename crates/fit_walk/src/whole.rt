//! A specification and its procedures are followed.

ghost use Rattle.std.specs.Prelude.{◌≡◌, ◌<◌, ◌^◌, true, IfOk};
ghost use Rattle.std.specs.Option.{option_copied};
ghost use Rattle.fit_state.specs.Rests.{ViewsAre};
ghost use Rattle.fit_walk.specs.Bodies.{BodyIs};
ghost use Rattle.sequential.specs.Sequential.{sequential, sequential_procs, sequential_whole};
ghost use Rattle.fit_walk.specs.Wholes.{FlatViews, WholeIs, main_followed, proc_followed};
ghost use Rattle.fits.specs.Follow.{Views as ViewsOf, proc_name};
ghost use Rattle.fits.specs.Places.{State};
ghost use Rattle.fits.specs.Programs as f;
ghost use Rattle.nres_core.specs.FlatTree.{flat_proc_of, flat_procs_of, flat_whole_of, flats_of};
ghost use Rattle.proof_lines.specs.Lines.{lines_of};
ghost use Rattle.target_meaning.specs.Leaf.{find};

use crate::body::{Body, Past, follow_body};
use body_rules::Header;
use fit_blocks::Unmet;
use fit_state::{Views, find_proc};
use fit_steps::is_numbered;
use nres_core::{Flat, FlatFun};
use proof_text::ProofLine;
use std::alloc::{AllocError, Global};
use target_code::Proc;
use var_count::behind;

/// Follows the lines of a derivation through a flat specification without `par` and `split` and the procedures of a program: how many
/// branches there are, where all lines are found; or else the lines of which the first is not found.
///
/// # Errors
///
/// Only where memory runs out.
pub fn follow_whole<'a>(
    alloc: Global,
    flat: &'a Flat,
    procs: &'a [Proc],
    lines: &'a [ProofLine],
) -> Result<Result<u64, Unmet<'a>>, AllocError>
    requires { sequential_whole (flat_whole_of flat.now) ≡ true }
    ensures { IfOk result (λ said. (V : ViewsOf) → FlatViews (flat_whole_of flat.now) procs.now V → WholeIs (f.follow_whole V (flat_whole_of flat.now) (lines_of lines.now)) said) }
{
    let views = Views {
        names: flat.names.as_slice(),
        funs: flat.funs.as_slice(),
        procs,
    };
    match follow_main(alloc, &views, flat, lines)? {
        Ok(past) => {
            let next = behind(0, flat.params.as_slice(), &flat.body)?;
            follow_procs(alloc, &views, next, views.funs, past)
        }
        Err(unmet) => Ok(Err(unmet)),
    }
}

/// The specification itself, which is the procedure `main`.
fn follow_main<'a>(
    alloc: Global,
    views: &Views<'a>,
    flat: &'a Flat,
    lines: &'a [ProofLine],
) -> Result<Result<Past<'a>, Unmet<'a>>, AllocError>
    ensures { IfOk result (λ past. (V : ViewsOf) → ViewsAre views.now V → sequential_whole (flat_whole_of flat.now) ≡ true → BodyIs (main_followed V (flat_whole_of flat.now) (lines_of lines.now)) past) }
{
    match find_proc(views.procs, b"main") {
        Some(proc) => {
            let header = Header {
                params: flat.params.as_slice(),
                shown: flat.shown.as_slice(),
            };
            let body = Body {
                first: 0,
                branch: 0,
                header,
                block: &flat.body,
                proc,
            };
            follow_body(alloc, views, &body, lines)
        }
        None => Ok(Err(Unmet { lines })),
    }
}

/// The procedures in text order, whose variables are those from this one on.
fn follow_procs<'a>(
    alloc: Global,
    views: &Views<'a>,
    first: u32,
    funs: &'a [FlatFun],
    past: Past<'a>,
) -> Result<Result<u64, Unmet<'a>>, AllocError>
    ensures { IfOk result (λ said. (V : ViewsOf) (s : State) → ViewsAre views.now V → sequential_procs (flat_procs_of funs.now) ≡ true → past.entry.branch ≡ s.branch → WholeIs (f.follow_from V 0 first (flat_procs_of funs.now) s (lines_of past.entry.lines.now)) said) }
{
    let mut next = first;
    let mut left = past;
    'each: for index in 0..funs.len() {
        let fun = &funs[index];
        match follow_fun(alloc, views, fun, index as u64, next, left)? {
            Ok(past) => left = past,
            Err(unmet) => return Ok(Err(unmet)),
        }
        next = behind(next, fun.params.as_slice(), &fun.body)?;
    }
    match left.lines {
        [] => Ok(Ok(left.branch)),
        _ => Ok(Err(Unmet { lines: left.lines })),
    }
}

/// The procedure of this number.
fn follow_fun<'a>(
    alloc: Global,
    views: &Views<'a>,
    fun: &'a FlatFun,
    number: u64,
    first: u32,
    past: Past<'a>,
) -> Result<Result<Past<'a>, Unmet<'a>>, AllocError>
    requires { number < 2 ^ 63 }
    ensures { IfOk result (λ over. (V : ViewsOf) → ViewsAre views.now V → sequential (flats_of fun.now.body).binds ≡ true → BodyIs (proc_followed V number first past.entry.branch (flat_proc_of fun.now) (lines_of past.entry.lines.now)) over) }
{
    match find_numbered(views.procs, number) {
        Some(proc) => {
            let header = Header {
                params: fun.params.as_slice(),
                shown: fun.shown.as_slice(),
            };
            let body = Body {
                first,
                branch: past.branch,
                header,
                block: &fun.body,
                proc,
            };
            follow_body(alloc, views, &body, past.lines)
        }
        None => Ok(Err(Unmet { lines: past.lines })),
    }
}

/// The first procedure that has the name of the one of this number, counted from 0.
fn find_numbered<'a>(procs: &'a [Proc], number: u64) -> Option<&'a Proc>
    requires { number < 2 ^ 63 }
    ensures { option_copied result ≡ find procs.now (proc_name number) }
{
    'each: for proc in procs {
        if is_numbered(proc.name.bytes(), b'p', number + 1) {
            return Some(proc);
        }
    }
    None
}
