// Rows kept beside a file: six little-endian numbers of 32 bits a row, in file order (added by the port).
//
// The kept form is row by row, 24 bytes a row, and this crate's own; how the rows lie in lent memory only `table` knows. Writing and
// reading go over the rows twice, first to decide, then to write, so that a refusal changes nothing that was lent. 9 comes before 16.
#![tactic(auto)]

ghost use Rattle.std.specs.Prelude.{◌≡◌, ◌+◌, ◌*◌, ◌≤◌, ◌<◌, length};
ghost use Rattle.std.proofs.lemmas.List.Edits.{sets};
ghost use Rattle.error.specs.Refusal.{told_result};
ghost use Rattle.statement.specs.Rows.{told_row};
ghost use Rattle.table.specs.Table.{rows_fit, row_numbers, rows_laid, narrow_row};
ghost use Rattle.rows_kept.specs.KeptRows.{little_four, row_bytes, little_at, kept_row_at, first_rows, fine_row, fine_all, bytes_after, kept_after, read_of, read_after, keep_table};

use error::Fault;
use statement::{Range, RecordSpan};

// Whether the spans of a row lie in a file of this length and run forwards, and its mark is 0 or 1.
fn fine(len: usize, w: RecordSpan) -> bool
    ensures { result ≡ fine_row len (told_row w) }
{
    (w.keyword.start <= w.keyword.end)
        & (w.keyword.end <= len)
        & (w.args.start <= w.args.end)
        & (w.args.end <= len)
        & (w.complex <= 1)
}

// Whether the first n rows of a table are.
fn fine_table(len: usize, rows: &[u32], n: usize) -> bool
    ensures { result ≡ fine_all len (row_numbers rows.now) n }
{
    for k in 0..n {
        if !fine(len, table::read_row(rows, k)) {
            return false;
        }
    }
    true
}

// The number in the four bytes from this place on.
fn number_at(bytes: &[u8], at: usize) -> u32
    requires { at + 4 ≤ length bytes.now }
    ensures { result ≡ little_at bytes.now at }
{
    u32::from_le_bytes([bytes[at], bytes[at + 1], bytes[at + 2], bytes[at + 3]])
}

// Row k of the bytes. The table stores it as it is: its numbers have 32 bits.
fn row_at(bytes: &[u8], k: usize) -> RecordSpan
    requires { k * 24 + 24 ≤ length bytes.now }
    ensures result_value { told_row result ≡ kept_row_at bytes.now k }
    ensures result_value_2 { narrow_row (told_row result) ≡ told_row result }
{
    let at = k * 24;
    let keyword = Range {
        start: number_at(bytes, at + 4) as usize,
        end: number_at(bytes, at + 8) as usize,
    };
    let args = Range {
        start: number_at(bytes, at + 12) as usize,
        end: number_at(bytes, at + 16) as usize,
    };
    RecordSpan {
        id: number_at(bytes, at),
        keyword,
        args,
        complex: number_at(bytes, at + 20),
    }
}

// Whether the first n rows that are kept in these bytes are.
fn fine_bytes(len: usize, bytes: &[u8], n: usize) -> bool
    requires { n * 24 ≤ length bytes.now }
    ensures { result ≡ fine_all len (kept_row_at bytes.now) n }
{
    for k in 0..n {
        if !fine(len, row_at(bytes, k)) {
            return false;
        }
    }
    true
}

// Stores a number in the four bytes from this place on: its lower 32 binary digits, which are all that a table's number has.
fn put_number(out: &mut [u8], at: usize, x: usize)
    requires { at + 4 ≤ length out.old }
    ensures { out.new ≡ sets out.old at (little_four x) }
{
    let low = (x % 4294967296) as u32;
    out[at..at + 4].copy_from_slice(&low.to_le_bytes());
}

// Stores a row's six numbers as row k of the bytes.
fn put_bytes(out: &mut [u8], k: usize, w: RecordSpan)
    requires { k * 24 + 24 ≤ length out.old }
    ensures { out.new ≡ sets out.old (k * 24) (row_bytes (told_row w)) }
{
    // Kept: six lines, as a row is read, and not a loop over an array of six that the row would first be copied to.
    let at = k * 24;
    put_number(out, at, w.id as usize);
    put_number(out, at + 4, w.keyword.start);
    put_number(out, at + 8, w.keyword.end);
    put_number(out, at + 12, w.args.start);
    put_number(out, at + 16, w.args.end);
    put_number(out, at + 20, w.complex as usize);
}

// Writes the first n rows of a table.
fn put_rows(rows: &[u32], n: usize, out: &mut [u8])
    requires { n * 24 ≤ length out.old }
    ensures { out.new ≡ bytes_after (first_rows (row_numbers rows.now) n) out.old }
{
    for k in 0..n {
        put_bytes(out, k, table::read_row(rows, k));
    }
}

// Reads n rows into a table.
fn get_rows(bytes: &[u8], n: usize, rows: &mut [u32])
    requires { (n ≤ rows_fit (length rows.old)) × (n * 24 ≤ length bytes.now) }
    ensures { rows.new ≡ rows_laid (first_rows (kept_row_at bytes.now) n) rows.old }
{
    for k in 0..n {
        table::put_row(rows, k, row_at(bytes, k));
    }
}

// Writes the first `count` rows of a table, for a file of this length. 9 where a span lies outside the file or runs backwards, or a
// mark is neither 0 nor 1; then 16 where the bytes do not suffice.
pub fn keep_rows(len: usize, rows: &[u32], count: usize, out: &mut [u8]) -> Result<usize, Fault>
    ensures result_value { told_result result ≡ keep_table len rows.now count (length out.old) }
    ensures out_after { out.new ≡ kept_after (row_numbers rows.now) (keep_table len rows.now count (length out.old)) out.old }
{
    let n = table::table_rows(rows.len(), count);
    if !fine_table(len, rows, n) {
        return Err(Fault::OutOfFile);
    }
    if out.len() < n * 24 {
        return Err(Fault::TooShort(0));
    }
    put_rows(rows, n, out);
    Ok(n)
}

// Reads rows that were kept for a file of this length. 9 as in writing, and where bytes are left over; then 16 where the rows do
// not suffice.
pub fn read_rows(len: usize, bytes: &[u8], rows: &mut [u32]) -> Result<usize, Fault>
    ensures result_value { told_result result ≡ read_of len bytes.now (rows_fit (length rows.old)) }
    ensures rows_after { rows.new ≡ read_after bytes.now (read_of len bytes.now (rows_fit (length rows.old))) rows.old }
{
    if bytes.len() % 24 != 0 {
        return Err(Fault::OutOfFile);
    }
    let n = bytes.len() / 24;
    if !fine_bytes(len, bytes, n) {
        return Err(Fault::OutOfFile);
    }
    if table::rows_fit(rows.len()) < n {
        return Err(Fault::TooShort(0));
    }
    get_rows(bytes, n, rows);
    Ok(n)
}
