//! Whether a row fits an operation on arguments in given representations, and the first of some rows that does.

ghost use Rattle.rule_check.specs.Context as context;
ghost use Rattle.rule_check.specs.Rows as check;
ghost use Rattle.rule_check.specs.Table as table;
ghost use Rattle.row_index.specs.FirstRow.{first_of, rule_of_row};
ghost use Rattle.std.specs.Prelude.{◌≡◌};

use nres_core::{Fate, Kind, Op, Row};
use target_code::Rep;

/// The kind of a representation.
pub fn kind(rep: Rep) -> Kind
    ensures { result ≡ table.kind_of rep }
{
    match rep {
        Rep::Word => Kind::Word,
        Rep::Flag => Kind::Flag,
        Rep::Array => Kind::Array,
        Rep::Slice => Kind::Slice,
        Rep::Vec => Kind::Vec,
        Rep::Bits(_) => Kind::Bits,
        Rep::Hset => Kind::Hset,
        Rep::Amap(_) => Kind::Amap,
        Rep::Hmap => Kind::Hmap,
        Rep::Heap => Kind::Heap,
    }
}

/// A number for each kind.
pub fn kind_number(kind: Kind) -> u8
    ensures { result ≡ table.kind_number kind }
{
    kind as u8
}

/// A number for each operation.
pub fn op_number(op: Op) -> u8
    ensures { result ≡ table.op_number op }
{
    op as u8
}

/// Whether a representation is of a kind.
fn is_of(rep: Rep, of: Kind) -> bool
    ensures { result ≡ table.same_kind of (table.kind_of rep) }
{
    kind_number(of) == kind_number(kind(rep))
}

/// Whether so many arguments are of these kinds.
fn takes_these(reps: &[Rep], count: u8, kinds: &[Kind], fates: &[Fate]) -> bool
    ensures { result ≡ table.takes_these (check.first_takes count kinds.now fates.now) reps.now }
{
    if count == 0 {
        return reps.is_empty();
    }
    match (kinds, fates) {
        ([of, kinds @ ..], [_, fates @ ..]) => match reps {
            [rep, others @ ..] => is_of(*rep, *of) && takes_these(others, count - 1, kinds, fates),
            [] => false,
        },
        _ => reps.is_empty(),
    }
}

/// Whether a row makes this.
fn makes_this(of: Option<Kind>, made: Option<Rep>) -> bool
    ensures { result ≡ table.makes_this of made }
{
    match (of, made) {
        (None, None) => true,
        (Some(of), Some(rep)) => is_of(rep, of),
        _ => false,
    }
}

/// The bound of a representation.
fn bound(rep: Rep) -> Option<u32>
    ensures { result ≡ context.bound_in rep }
{
    match rep {
        Rep::Bits(bound) | Rep::Amap(bound) => Some(bound),
        _ => None,
    }
}

/// The first bound.
fn first_bound(reps: &[Rep]) -> Option<u32>
    ensures { result ≡ table.bound_of reps.now }
{
    match reps {
        [] => None,
        [rep, others @ ..] => match bound(*rep) {
            Some(bound) => Some(bound),
            None => first_bound(others),
        },
    }
}

/// Whether there is no bound but this one.
fn bounds_are(reps: &[Rep], only: u32) -> bool
    ensures { result ≡ table.bounds_are only reps.now }
{
    match reps {
        [] => true,
        [rep, others @ ..] => match bound(*rep) {
            Some(bound) => only == bound && bounds_are(others, only),
            None => bounds_are(others, only),
        },
    }
}

/// Whether all bounds are one.
fn has_one_bound(reps: &[Rep]) -> bool
    ensures { result ≡ table.one_bound reps.now }
{
    match first_bound(reps) {
        Some(only) => bounds_are(reps, only),
        None => true,
    }
}

/// Whether a row fits.
pub fn fits(row: &Row, op: Op, reps: &[Rep], made: Option<Rep>) -> bool
    ensures { result ≡ table.fits (check.rule_of row.now) op reps.now made }
{
    op_number(row.op) == op_number(op)
        && takes_these(reps, row.count, &row.args, &row.fates)
        && makes_this(row.made, made)
        && has_one_bound(reps)
}

/// The first of some rows that fits.
fn first_fit(rows: &[Row], op: Op, reps: &[Rep], made: Option<Rep>) -> Option<Row>
    ensures { result ≡ first_of rows.now op reps.now made }
{
    match rows {
        [] => None,
        [row, others @ ..] => {
            if fits(row, op, reps, made) {
                Some(*row)
            } else {
                first_fit(others, op, reps, made)
            }
        }
    }
}

/// The first of some rows that fits an operation on arguments in these representations, with the representation that was
/// chosen for what it makes; none exactly where no row fits. All bounds have to be one. Takes no memory.
pub fn first_fitting(rows: &[Row], op: Op, reps: &[Rep], made: Option<Rep>) -> Option<Row>
    ensures first { result ≡ first_of rows.now op reps.now made }
    ensures fits { rule_of_row result ≡ table.first_fit (check.rules_of rows.now) op reps.now made }
{
    first_fit(rows, op, reps, made)
}
