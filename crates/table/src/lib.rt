// The table in lent memory: how a record's numbers lie there, and all that depends on it.
//
// Data rows of six numbers and header rows of four, row by row, in document 01's order. How many fit, the id of a row, a row read and a
// row put: no other crate knows a width or an offset. Every function answers for any memory and any row: a row that the memory has not
// reads as zeros, and putting it changes nothing.
#![tactic(auto)]

ghost use Rattle.std.specs.Prelude.{◌≡◌, ◌+◌, ◌*◌, ◌≤◌, ◌<◌, min, ltb, length};
ghost use Rattle.std.proofs.lemmas.List.Edits.{sets};
ghost use Rattle.common.specs.Pick.{JustWhere};
ghost use Rattle.statement.specs.Rows.{told_row, header_row_of};
ghost use Rattle.table.specs.Table.{rows_fit, headers_fit, AllIds, AllBelow, AllHave, id_of, row_numbers, header_numbers, six, header_row_numbers, row_put, header_put, narrow_row, narrow_header, narrow};
ghost use Rattle.table.specs.Laws.{spans_at};

use statement::{HeaderSpan, Range, RecordSpan};

// How many numbers a data row has, and a header row.
pub const ROW_WIDTH: usize = 6;

pub const HEADER_WIDTH: usize = 4;

// Kept: the pairs for data rows and header rows below. The two layouts differ in their fields too, so a const parameter would only turn `rows_fit(n)`
// into `fit::<6>(n)` at each caller, and the rules of specs/Table name each by its word.
//
// How many data rows lie in so many numbers.
pub fn rows_fit(numbers: usize) -> usize
    ensures { result ≡ rows_fit numbers }
{
    numbers / ROW_WIDTH
}

// How many header rows lie in so many numbers.
pub fn headers_fit(numbers: usize) -> usize
    ensures { result ≡ headers_fit numbers }
{
    numbers / HEADER_WIDTH
}

// How many data rows a table of so many numbers has: as many as are told, where the numbers suffice.
pub fn table_rows(numbers: usize, told: usize) -> usize
    ensures { result ≡ min told (rows_fit numbers) }
{
    told.min(rows_fit(numbers))
}

// How many header rows likewise.
pub fn header_rows(numbers: usize, told: usize) -> usize
    ensures { result ≡ min told (headers_fit numbers) }
{
    told.min(headers_fit(numbers))
}

// Whether the table has data row r.
pub fn has_row(rows: &[u32], r: u32) -> bool
    ensures { result ≡ ltb r (rows_fit (length rows.now)) }
{
    r as usize * 6 + 5 < rows.len()
}

// The same, by the number of rows: a loop over no more rows than the table has then needs no test of its own.
fn among_rows(rows: &[u32], k: usize) -> bool
    ensures { result ≡ ltb k (rows_fit (length rows.now)) }
{
    k < rows_fit(rows.len())
}

// Whether the table has header row k.
pub fn has_header(heads: &[u32], k: usize) -> bool
    ensures { result ≡ ltb k (headers_fit (length heads.now)) }
{
    k < headers_fit(heads.len())
}

// The id of row r; 0 where the table has none.
pub fn id_at(rows: &[u32], r: u32) -> u32
    ensures { result ≡ id_of rows.now r }
{
    let at = r as usize * 6;
    if at + 5 < rows.len() { rows[at] } else { 0 }
}

// The keyword and the arguments of which the four numbers from `at` on tell.
fn spans_at(xs: &[u32], at: usize) -> HeaderSpan
    requires { at + 4 ≤ length xs.now }
    ensures { header_row_of result ≡ spans_at xs.now at }
{
    let keyword = Range {
        start: xs[at] as usize,
        end: xs[at + 1] as usize,
    };
    let args = Range {
        start: xs[at + 2] as usize,
        end: xs[at + 3] as usize,
    };
    HeaderSpan { keyword, args }
}

// Row k of a table that has it.
fn row_there(rows: &[u32], k: usize) -> RecordSpan
    requires { k * 6 + 6 ≤ length rows.now }
    ensures { told_row result ≡ row_numbers rows.now k }
{
    let at = k * 6;
    let spans = spans_at(rows, at + 1);
    let keyword = spans.keyword;
    let args = spans.args;
    RecordSpan {
        id: rows[at],
        keyword,
        args,
        complex: rows[at + 5],
    }
}

// Row k; zeros where the table has none.
pub fn read_row(rows: &[u32], k: usize) -> RecordSpan
    ensures { told_row result ≡ row_numbers rows.now k }
{
    if among_rows(rows, k) {
        return row_there(rows, k);
    }
    RecordSpan::default()
}

// Header row k; zeros where the table has none.
pub fn read_header(heads: &[u32], k: usize) -> HeaderSpan
    ensures { header_row_of result ≡ header_numbers heads.now k }
{
    if has_header(heads, k) {
        return spans_at(heads, k * 4);
    }
    HeaderSpan::default()
}

// The lower 32 binary digits of a place: all of it, in a file that is read.
fn low(p: usize) -> u32
    ensures { result ≡ narrow p }
{
    (p % 4294967296) as u32
}

// Stores a keyword and arguments as the four numbers from `at` on, which the memory has.
fn store_spans(out: &mut [u32], at: usize, w: HeaderSpan)
    requires { at + 4 ≤ length out.old }
    ensures { out.new ≡ sets out.old at (header_row_numbers (narrow_header (header_row_of w))) }
{
    out[at] = low(w.keyword.start);
    out[at + 1] = low(w.keyword.end);
    out[at + 2] = low(w.args.start);
    out[at + 3] = low(w.args.end);
}

// Stores a data row as row k of memory that has it.
fn store_row(out: &mut [u32], k: usize, w: RecordSpan)
    requires { k * 6 + 6 ≤ length out.old }
    ensures { out.new ≡ sets out.old (k * 6) (six (narrow_row (told_row w))) }
{
    let at = k * 6;
    out[at] = w.id;
    let keyword = w.keyword;
    let args = w.args;
    store_spans(out, at + 1, HeaderSpan { keyword, args });
    out[at + 5] = w.complex;
}

// Puts a data row as row k. Memory that has no such row keeps its numbers.
pub fn put_row(out: &mut [u32], k: usize, w: RecordSpan)
    ensures { out.new ≡ row_put out.old k (narrow_row (told_row w)) }
{
    if among_rows(out, k) {
        store_row(out, k, w);
    }
}

// Puts a header row as row k. Memory that has no such row keeps its numbers.
pub fn put_header(out: &mut [u32], k: usize, w: HeaderSpan)
    ensures { out.new ≡ header_put out.old k (narrow_header (header_row_of w)) }
{
    if has_header(out, k) {
        store_spans(out, k * 4, w);
    }
}

// The highest of the numbers of a part, or 0.
fn highest(found: &[u32], from: usize, to: usize) -> u32
    requires { (from ≤ to) × (to ≤ length found.now) }
    ensures { AllBelow (result + 1) found.now from to × ((m : _) → 0 < m → AllBelow m found.now from to → result < m) }
{
    let mut top = 0;
    for i in from..to {
        top = top.max(found[i]);
    }
    top
}

// How many of the rows that are told, all of which the table has, have not their ids. It only counts them, so that no jump waits for a row.
fn misses(rows: &[u32], ids: &[u32], found: &[u32], from: usize, to: usize) -> usize
    requires { (from ≤ to) × (to ≤ length ids.now) × (to ≤ length found.now) × AllBelow (rows_fit (length rows.now)) found.now from to }
    ensures { (result ≡ 0 → AllIds rows.now ids.now found.now from to) × (AllIds rows.now ids.now found.now from to → result ≡ 0) }
{
    let mut missed = 0;
    for i in from..to {
        let row = found[i] as usize;
        missed += usize::from(rows[row * 6] != ids[i]);
    }
    missed
}

// Whether the rows that are told for a part of the ids are all some of the first n and have their ids.
pub fn all_have(rows: &[u32], n: usize, ids: &[u32], found: &[u32], from: usize, to: usize) -> bool
    ensures { JustWhere result (AllHave rows.now n ids.now found.now from to) }
{
    if to < from {
        return false;
    }
    if ids.len() < to {
        return false;
    }
    if found.len() < to {
        return false;
    }
    if rows_fit(rows.len()) < n {
        return false;
    }
    if n <= highest(found, from, to) as usize {
        return false;
    }
    misses(rows, ids, found, from, to) == 0
}
