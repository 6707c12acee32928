//! The rows of the table by operation and kind, in which a row is found by halving.

ghost use Rattle.row_index.specs.FirstRow.{first_of, rule_of_row};
ghost use Rattle.row_index.specs.Index as spec;
ghost use Rattle.rule_check.specs.Table as table;
ghost use Rattle.std.specs.Prelude.{◌≡◌};

use crate::fitting;
use nres_core::{Fate, Kind, LibName, Op, Row, RowCode};
use rule_check::table::RULES;
use target_code::Rep;

/// What a row takes and gives, where a container of one kind is what it is on.
#[derive(Clone, Copy)]
pub enum Form {
    /// It makes the container of so many numbers.
    Makes(u8),
    /// It has so many arguments, the kept container and numbers, and gives something of this kind.
    Reads(u8, Kind),
    /// It has so many arguments, the container and numbers, and gives the container changed.
    Changes(u8),
    /// As `Changes`, where the first number must be known to be below the bound.
    ChangesBelow(u8),
    /// It gives a number, and the container without it.
    Takes,
    /// It has two containers, and gives the first one changed.
    Joins,
}

/// A row in short: its operation, the kind of container that it is on, what it takes and gives, and how.
#[derive(Clone, Copy)]
pub struct Entry(Op, Kind, Form, RowCode);

/// The rows in short, ascending by operation and then by kind.
static INDEX: [Entry; 58] = [
    Entry(
        Op::Zeros,
        Kind::Array,
        Form::Makes(1),
        RowCode::Proc(LibName::ArrayZeros),
    ),
    Entry(
        Op::Nil,
        Kind::Vec,
        Form::Makes(0),
        RowCode::Proc(LibName::VecNil),
    ),
    Entry(
        Op::Len,
        Kind::Array,
        Form::Reads(1, Kind::Word),
        RowCode::Register(2),
    ),
    Entry(
        Op::Len,
        Kind::Slice,
        Form::Reads(1, Kind::Word),
        RowCode::Register(2),
    ),
    Entry(
        Op::Len,
        Kind::Vec,
        Form::Reads(1, Kind::Word),
        RowCode::Register(1),
    ),
    Entry(
        Op::Get,
        Kind::Array,
        Form::Reads(2, Kind::Word),
        RowCode::Proc(LibName::ArrayGet),
    ),
    Entry(
        Op::Get,
        Kind::Slice,
        Form::Reads(2, Kind::Word),
        RowCode::Proc(LibName::ArrayGet),
    ),
    Entry(
        Op::Get,
        Kind::Vec,
        Form::Reads(2, Kind::Word),
        RowCode::Proc(LibName::VecGet),
    ),
    Entry(
        Op::SetAt,
        Kind::Array,
        Form::Changes(3),
        RowCode::Proc(LibName::ArraySet),
    ),
    Entry(
        Op::SetAt,
        Kind::Slice,
        Form::Changes(3),
        RowCode::Proc(LibName::ArraySet),
    ),
    Entry(
        Op::SetAt,
        Kind::Vec,
        Form::Changes(3),
        RowCode::Proc(LibName::VecSet),
    ),
    Entry(
        Op::Swap,
        Kind::Array,
        Form::Changes(3),
        RowCode::Proc(LibName::ArraySwap),
    ),
    Entry(
        Op::Swap,
        Kind::Slice,
        Form::Changes(3),
        RowCode::Proc(LibName::ArraySwap),
    ),
    Entry(
        Op::Swap,
        Kind::Vec,
        Form::Changes(3),
        RowCode::Proc(LibName::VecSwap),
    ),
    Entry(
        Op::Push,
        Kind::Vec,
        Form::Changes(2),
        RowCode::Proc(LibName::VecPush),
    ),
    Entry(
        Op::Pop,
        Kind::Vec,
        Form::Takes,
        RowCode::Proc(LibName::VecPop),
    ),
    Entry(
        Op::CopyList,
        Kind::Array,
        Form::Reads(1, Kind::Array),
        RowCode::Proc(LibName::ArrayCopy),
    ),
    Entry(
        Op::CopyList,
        Kind::Slice,
        Form::Reads(1, Kind::Array),
        RowCode::Proc(LibName::ArrayCopy),
    ),
    Entry(
        Op::CopyList,
        Kind::Vec,
        Form::Reads(1, Kind::Vec),
        RowCode::Proc(LibName::VecCopy),
    ),
    Entry(
        Op::EmptySet,
        Kind::Bits,
        Form::Makes(0),
        RowCode::Proc(LibName::BitsEmpty),
    ),
    Entry(
        Op::EmptySet,
        Kind::Hset,
        Form::Makes(0),
        RowCode::Proc(LibName::HsetEmpty),
    ),
    Entry(
        Op::SizeSet,
        Kind::Bits,
        Form::Reads(1, Kind::Word),
        RowCode::Register(1),
    ),
    Entry(
        Op::SizeSet,
        Kind::Hset,
        Form::Reads(1, Kind::Word),
        RowCode::Register(2),
    ),
    Entry(
        Op::HasSet,
        Kind::Bits,
        Form::Reads(2, Kind::Flag),
        RowCode::Proc(LibName::BitsHas),
    ),
    Entry(
        Op::HasSet,
        Kind::Hset,
        Form::Reads(2, Kind::Flag),
        RowCode::Proc(LibName::HsetHas),
    ),
    Entry(
        Op::Insert,
        Kind::Bits,
        Form::ChangesBelow(2),
        RowCode::Proc(LibName::BitsInsert),
    ),
    Entry(
        Op::Insert,
        Kind::Hset,
        Form::Changes(2),
        RowCode::Proc(LibName::HsetInsert),
    ),
    Entry(
        Op::Remove,
        Kind::Bits,
        Form::Changes(2),
        RowCode::Proc(LibName::BitsRemove),
    ),
    Entry(
        Op::Remove,
        Kind::Hset,
        Form::Changes(2),
        RowCode::Proc(LibName::HsetRemove),
    ),
    Entry(
        Op::Pick,
        Kind::Bits,
        Form::Reads(1, Kind::Word),
        RowCode::Proc(LibName::BitsPick),
    ),
    Entry(
        Op::Pick,
        Kind::Hset,
        Form::Reads(1, Kind::Word),
        RowCode::Proc(LibName::HsetPick),
    ),
    Entry(
        Op::Union,
        Kind::Bits,
        Form::Joins,
        RowCode::Proc(LibName::BitsUnion),
    ),
    Entry(
        Op::Elems,
        Kind::Bits,
        Form::Reads(1, Kind::Array),
        RowCode::Proc(LibName::BitsElems),
    ),
    Entry(
        Op::Elems,
        Kind::Hset,
        Form::Reads(1, Kind::Array),
        RowCode::Proc(LibName::HsetElems),
    ),
    Entry(
        Op::CopySet,
        Kind::Bits,
        Form::Reads(1, Kind::Bits),
        RowCode::Proc(LibName::BitsCopy),
    ),
    Entry(
        Op::CopySet,
        Kind::Hset,
        Form::Reads(1, Kind::Hset),
        RowCode::Proc(LibName::HsetCopy),
    ),
    Entry(
        Op::EmptyMap,
        Kind::Amap,
        Form::Makes(0),
        RowCode::Proc(LibName::AmapEmpty),
    ),
    Entry(
        Op::EmptyMap,
        Kind::Hmap,
        Form::Makes(0),
        RowCode::Proc(LibName::HmapEmpty),
    ),
    Entry(
        Op::SizeMap,
        Kind::Amap,
        Form::Reads(1, Kind::Word),
        RowCode::Register(1),
    ),
    Entry(
        Op::SizeMap,
        Kind::Hmap,
        Form::Reads(1, Kind::Word),
        RowCode::Register(2),
    ),
    Entry(
        Op::HasMap,
        Kind::Amap,
        Form::Reads(2, Kind::Flag),
        RowCode::Proc(LibName::AmapHas),
    ),
    Entry(
        Op::HasMap,
        Kind::Hmap,
        Form::Reads(2, Kind::Flag),
        RowCode::Proc(LibName::HmapHas),
    ),
    Entry(
        Op::Lookup,
        Kind::Amap,
        Form::Reads(2, Kind::Word),
        RowCode::Proc(LibName::AmapLookup),
    ),
    Entry(
        Op::Lookup,
        Kind::Hmap,
        Form::Reads(2, Kind::Word),
        RowCode::Proc(LibName::HmapLookup),
    ),
    Entry(
        Op::Put,
        Kind::Amap,
        Form::ChangesBelow(3),
        RowCode::Proc(LibName::AmapPut),
    ),
    Entry(
        Op::Put,
        Kind::Hmap,
        Form::Changes(3),
        RowCode::Proc(LibName::HmapPut),
    ),
    Entry(
        Op::Del,
        Kind::Amap,
        Form::Changes(2),
        RowCode::Proc(LibName::AmapDel),
    ),
    Entry(
        Op::Del,
        Kind::Hmap,
        Form::Changes(2),
        RowCode::Proc(LibName::HmapDel),
    ),
    Entry(
        Op::Keys,
        Kind::Amap,
        Form::Reads(1, Kind::Array),
        RowCode::Proc(LibName::AmapKeys),
    ),
    Entry(
        Op::Keys,
        Kind::Hmap,
        Form::Reads(1, Kind::Array),
        RowCode::Proc(LibName::HmapKeys),
    ),
    Entry(
        Op::CopyMap,
        Kind::Amap,
        Form::Reads(1, Kind::Amap),
        RowCode::Proc(LibName::AmapCopy),
    ),
    Entry(
        Op::CopyMap,
        Kind::Hmap,
        Form::Reads(1, Kind::Hmap),
        RowCode::Proc(LibName::HmapCopy),
    ),
    Entry(
        Op::EmptyBag,
        Kind::Heap,
        Form::Makes(0),
        RowCode::Proc(LibName::HeapEmpty),
    ),
    Entry(
        Op::SizeBag,
        Kind::Heap,
        Form::Reads(1, Kind::Word),
        RowCode::Register(1),
    ),
    Entry(
        Op::Add,
        Kind::Heap,
        Form::Changes(2),
        RowCode::Proc(LibName::HeapAdd),
    ),
    Entry(
        Op::Minimum,
        Kind::Heap,
        Form::Reads(1, Kind::Word),
        RowCode::Proc(LibName::HeapMinimum),
    ),
    Entry(
        Op::TakeMin,
        Kind::Heap,
        Form::Takes,
        RowCode::Proc(LibName::HeapTakeMin),
    ),
    Entry(
        Op::CopyBag,
        Kind::Heap,
        Form::Reads(1, Kind::Heap),
        RowCode::Proc(LibName::HeapCopy),
    ),
];

impl Entry {
    /// The row at its full length.
    fn row(self) -> Row
        ensures { result ≡ spec.row_of self }
    {
        let Entry(op, kind, form, code) = self;
        let row = Row {
            op,
            made: None,
            count: 0,
            args: [kind, Kind::Word, Kind::Word],
            fates: [Fate::Kept, Fate::Kept, Fate::Kept],
            fact: None,
            outs: 1,
            results: [kind, Kind::Word],
            code,
        };
        let fates = [Fate::Destroyed, Fate::Kept, Fate::Kept];
        match form {
            Form::Makes(count) => Row {
                made: Some(kind),
                count,
                args: [Kind::Word, Kind::Word, Kind::Word],
                ..row
            },
            Form::Reads(count, to) => Row {
                count,
                results: [to, Kind::Word],
                ..row
            },
            Form::Changes(count) => Row {
                count,
                fates,
                ..row
            },
            Form::ChangesBelow(count) => Row {
                count,
                fates,
                fact: Some(1),
                ..row
            },
            Form::Takes => Row {
                count: 1,
                fates,
                outs: 2,
                results: [Kind::Word, kind],
                ..row
            },
            Form::Joins => Row {
                count: 2,
                args: [kind, kind, Kind::Word],
                fates,
                ..row
            },
        }
    }
}

/// The place of an operation on a kind in the index's order.
fn key(op: Op, kind: Kind) -> u16
    ensures { result ≡ spec.key op kind }
{
    fitting::op_number(op) as u16 * 10 + fitting::kind_number(kind) as u16
}

/// The kind of container that an operation is on: what it makes, or its first argument.
fn own_kind(reps: &[Rep], made: Option<Rep>) -> Kind
    ensures { result ≡ spec.asked_kind made reps.now }
{
    match (made, reps) {
        (Some(rep), _) => fitting::kind(rep),
        (None, [rep, ..]) => fitting::kind(*rep),
        (None, []) => Kind::Word,
    }
}

/// The row of an operation on a kind, found by halving.
fn row_at(op: Op, kind: Kind) -> Option<Row>
    ensures { result ≡ spec.row_at RULES (spec.key op kind) }
{
    match INDEX.binary_search_by_key(&key(op, kind), |entry| key(entry.0, entry.1)) {
        Ok(place) => Some(INDEX[place].row()),
        Err(_) => None,
    }
}

/// A row, if there is one and it fits.
fn if_it_fits(row: Option<Row>, op: Op, reps: &[Rep], made: Option<Rep>) -> Option<Row>
    ensures { result ≡ spec.if_it_fits row op reps.now made }
{
    match row {
        Some(row) if fitting::fits(&row, op, reps, made) => Some(row),
        _ => None,
    }
}

/// The first row of the table that fits an operation on arguments in these representations, with the representation that was
/// chosen for what it makes; none exactly where no row fits. All bounds have to be one. Takes no memory.
pub fn row_of(op: Op, reps: &[Rep], made: Option<Rep>) -> Option<Row>
    ensures first { result ≡ first_of RULES op reps.now made }
    ensures fits { rule_of_row result ≡ table.row_for op reps.now made }
{
    if_it_fits(row_at(op, own_kind(reps, made)), op, reps, made)
}
