// The rows of a scanned file, looked up: by id, by number, by kind.
//
// As `get`, `require`, `args`, `by_kind` and their like of the Rust's lib.rs. The tables are lent slices of numbers,
// and what goes with them is one struct by value. Tables that are not what the scan and the index left are answered too: what is
// served lies in the table, and a span outside the file is 9.
#![tactic(auto)]

ghost use Rattle.std.specs.Prelude.{◌≡◌, ◌-◌, eqb, length, option_map};
ghost use Rattle.error.specs.Refusal.{told_result};
ghost use Rattle.index.specs.Search.{searched};
ghost use Rattle.statement.specs.Rows.{mapped, told_row};
ghost use Rattle.table.specs.Table.{table_rows};
ghost use Rattle.lookup.specs.Lookup.{row_in, row_found, required, span_in, args_by, kind_in, kind_found, row_is_kind};
ghost use Rattle.lookup.specs.First.{first_from};

use error::Fault;
use index::Ids;
use kinds::Kind;
use statement::{Range, RecordSpan};

// The numbers that go with the lent tables: how many rows each has, the largest id, and what stands beside the id slots.
#[derive(Clone, Copy)]
pub struct Tables {
    pub headers: usize,
    pub records: usize,
    pub max: u32,
    pub ids: Ids,
}

// How many records there are.
pub fn len(t: Tables) -> usize
    ensures { result ≡ t.records }
{
    t.records
}

// Whether there is none.
pub fn is_empty(t: Tables) -> bool
    ensures { result ≡ eqb t.records 0 }
{
    t.records == 0
}

// The row with this number, in file order; none past the table.
pub fn entity(rows: &[u32], t: Tables, k: usize) -> Option<RecordSpan>
    ensures { option_map told_row result ≡ row_in rows.now t.records k }
{
    if k < table::table_rows(rows.len(), t.records) {
        Some(table::read_row(rows, k))
    } else {
        None
    }
}

// The last record with this id, or none.
// Kept: `rows` and `slots` are slices of their own, as the C interface lends them.
pub fn get(rows: &[u32], slots: &[u64], t: Tables, id: u32) -> Option<RecordSpan>
    ensures { option_map told_row result ≡ row_found rows.now (searched rows.now slots.now t.ids id) }
{
    let row = index::get(rows, slots, t.ids, id)?;
    Some(table::read_row(rows, row as usize))
}

// The same, or 14.
pub fn require(rows: &[u32], slots: &[u64], t: Tables, id: u32) -> Result<RecordSpan, Fault>
    ensures { mapped told_row (told_result result) ≡ required (row_found rows.now (searched rows.now slots.now t.ids id)) }
{
    get(rows, slots, t, id).ok_or(Fault::NoRecord)
}

// A span of a file of this length, or 9 where it lies outside the file or runs backwards.
pub fn span_in(len: usize, span: Range) -> Result<Range, Fault>
    ensures { told_result result ≡ span_in len span.start span.end }
{
    if (span.start <= span.end) & (span.end <= len) {
        Ok(span)
    } else {
        Err(Fault::OutOfFile)
    }
}

// A row's keyword in the file.
pub fn keyword(file: &[u8], row: RecordSpan) -> Result<Range, Fault>
    ensures { told_result result ≡ span_in (length file.now) row.keyword.start row.keyword.end }
{
    span_in(file.len(), row.keyword)
}

// A row's arguments in the file.
pub fn args_of(file: &[u8], row: RecordSpan) -> Result<Range, Fault>
    ensures { told_result result ≡ span_in (length file.now) row.args.start row.args.end }
{
    span_in(file.len(), row.args)
}

#[tactic(auto, using(crate::specs::Laws::args_refused))]
// The arguments of the last record with this id; 14 where there is none.
pub fn args(file: &[u8], rows: &[u32], slots: &[u64], t: Tables, id: u32) -> Result<Range, Fault>
    ensures { told_result result ≡ args_by (length file.now) (row_found rows.now (searched rows.now slots.now t.ids id)) }
{
    args_of(file, require(rows, slots, t, id)?)
}

// A row's kind.
pub fn kind_in(file: &[u8], row: RecordSpan) -> Kind
    ensures { result ≡ kind_in file.now (told_row row) }
{
    if row.complex == 1 {
        return Kind::Complex;
    }
    match file.get(row.keyword.start..row.keyword.end) {
        Some(keyword) => kinds::intern(keyword),
        None => Kind::Other,
    }
}

// The kind of the last record with this id; `Other` where there is none.
pub fn kind_of(file: &[u8], rows: &[u32], slots: &[u64], t: Tables, id: u32) -> Kind
    ensures { result ≡ kind_found file.now (row_found rows.now (searched rows.now slots.now t.ids id)) }
{
    match get(rows, slots, t, id) {
        None => Kind::Other,
        Some(row) => kind_in(file, row),
    }
}

// The next row of a kind, from row `from` on, in file order.
pub fn by_kind(file: &[u8], rows: &[u32], t: Tables, kind: Kind, from: usize) -> Option<usize>
    ensures { result ≡ first_from (row_is_kind file.now rows.now kind) (table_rows rows.now t.records - from) from }
{
    for i in from..table::table_rows(rows.len(), t.records) {
        if kind_in(file, table::read_row(rows, i)) == kind {
            return Some(i);
        }
    }
    None
}
