// What goes between the reader and a host in another language, as plain numbers: what stands beside the tables, rows, kinds.
//
// A host keeps sixteen numbers beside its lent tables: the first eight belong to the id slots, the next to the tables, and not all of
// either are used, so that a later one finds room.
#![tactic(auto)]

mod telling;

ghost use Rattle.std.specs.Prelude.{◌≡◌, ◌%◌, length, get_or, leb};
ghost use Rattle.common.specs.Pick.{pick};
ghost use Rattle.kinds.specs.Rules.{rank_of};
ghost use Rattle.table.specs.Table.{row_width, header_width, six, header_row_numbers};
ghost use Rattle.statement.specs.Rows.{told_row, header_row_of};
ghost use Rattle.host_numbers.specs.Numbers.{put_in, flags_of, ids_numbers, ids_by, tables_in, tables_by, kind_by};

use index::Ids;
use kinds::Kind;
use lookup::Tables;
use statement::{HeaderSpan, RecordSpan};
pub use telling::{put_answer, put_fault, put_found, put_past, put_read};

// A number of a lent list; 0 past its end.
fn number_at(xs: &[u64], i: usize) -> u64
    ensures { result ≡ get_or xs.now i 0 }
{
    xs.get(i).copied().unwrap_or(0)
}

// Its last 32 binary digits.
fn narrow(x: u64) -> u32
    ensures { result ≡ x % 4294967296 }
{
    (x % 4294967296) as u32
}

// What was found of the ids, as one number.
fn flags_of(direct: bool, distinct: bool) -> u64
    ensures { result ≡ flags_of direct distinct }
{
    u64::from(direct) + 2 * u64::from(distinct)
}

// What stands beside the slots, by a host's numbers.
pub fn ids_of(xs: &[u64]) -> Ids
    ensures { result ≡ ids_by xs.now }
{
    let flags = number_at(xs, 3);
    Ids {
        count: number_at(xs, 0) as usize,
        first: narrow(number_at(xs, 1)),
        last: narrow(number_at(xs, 2)),
        direct: flags % 2 == 1,
        distinct: flags / 2 % 2 == 1,
        even: number_at(xs, 4) % 2 == 1,
        shift: narrow(number_at(xs, 5)),
    }
}

// What goes with the tables, by a host's numbers.
pub fn tables_of(xs: &[u64]) -> Tables
    ensures { result ≡ tables_by xs.now }
{
    Tables {
        headers: number_at(xs, 8) as usize,
        records: number_at(xs, 9) as usize,
        max: narrow(number_at(xs, 10)),
        ids: ids_of(xs),
    }
}

// Puts N numbers at the start of `out`: 0, or 16 where there is no room for them.
fn put_numbers<const N: usize>(out: &mut [u64], xs: [u64; N]) -> u8
    ensures value { result ≡ pick (leb N (length out.old)) 0 16 }
    ensures out_after { out.new ≡ put_in N xs.entry out.old }
{
    if out.len() < N {
        return 16;
    }
    out[..N].copy_from_slice(&xs);
    0
}

// Puts what stands beside the slots at the start of `out`, where there is room for eight numbers.
pub fn put_ids(out: &mut [u64], b: Ids)
    ensures { out.new ≡ put_in 8 (ids_numbers b) out.old }
{
    if out.len() < 8 {
        return;
    }
    put_numbers(
        out,
        [
            b.count as u64,
            b.first as u64,
            b.last as u64,
            flags_of(b.direct, b.distinct),
            u64::from(b.even),
            b.shift as u64,
        ],
    );
}

// Puts what goes with the tables into `out`, where there is room for sixteen numbers.
pub fn put_tables(out: &mut [u64], t: Tables)
    ensures { out.new ≡ tables_in t out.old }
{
    if out.len() < 16 {
        return;
    }
    put_ids(out, t.ids);
    out[8] = t.headers as u64;
    out[9] = t.records as u64;
    out[10] = t.max as u64;
}

// Puts a row at the start of `out`: 0, or 16 where there is no room for six numbers.
pub fn put_row(out: &mut [u64], w: RecordSpan) -> u8
    ensures value { result ≡ pick (leb row_width (length out.old)) 0 16 }
    ensures out_after { out.new ≡ put_in row_width (six (told_row w)) out.old }
{
    put_numbers(
        out,
        [
            w.id as u64,
            w.keyword.start as u64,
            w.keyword.end as u64,
            w.args.start as u64,
            w.args.end as u64,
            w.complex as u64,
        ],
    )
}

// Puts a header record's or a part's row at the start of `out`: 0, or 16 where there is no room for four numbers.
pub fn put_part(out: &mut [u64], w: HeaderSpan) -> u8
    ensures value { result ≡ pick (leb header_width (length out.old)) 0 16 }
    ensures out_after { out.new ≡ put_in header_width (header_row_numbers (header_row_of w)) out.old }
{
    put_numbers(
        out,
        [
            w.keyword.start as u64,
            w.keyword.end as u64,
            w.args.start as u64,
            w.args.end as u64,
        ],
    )
}

// The kinds that have a number of their own, each at its number.
const KINDS: [Kind; 11] = [
    Kind::GeometricRepresentationContext,
    Kind::GlobalUnitAssignedContext,
    Kind::GlobalUncertaintyAssignedContext,
    Kind::LengthUnit,
    Kind::PlaneAngleUnit,
    Kind::SolidAngleUnit,
    Kind::SiUnit,
    Kind::ConversionBasedUnit,
    Kind::UncertaintyMeasureWithUnit,
    Kind::LengthMeasureWithUnit,
    Kind::Complex,
];

// A kind's number.
pub fn kind_number(k: Kind) -> u32
    ensures { result ≡ rank_of k }
{
    k as u32
}

// A kind by its number; any other number is `Other`.
pub fn kind_by(n: u32) -> Kind
    ensures { result ≡ kind_by n }
{
    KINDS.get(n as usize).copied().unwrap_or(Kind::Other)
}
