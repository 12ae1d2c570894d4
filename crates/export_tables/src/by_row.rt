// Rows by number and by kind.
ghost use Rattle.std.specs.Prelude.{◌≡◌, length, Result};
ghost use Rattle.error.specs.Refusal.{good, Told, told_result};
ghost use Rattle.error.specs.declared.Fault.{Fault};
ghost use Rattle.statement.specs.Rows.{Row, told_row};
ghost use Rattle.statement.specs.declared.Range.{Range};
ghost use Rattle.statement.specs.declared.RecordSpan.{RecordSpan};
ghost use Rattle.table.specs.Table.{row_width, six};
ghost use Rattle.kinds.specs.Kind.{kind_of_keyword};
ghost use Rattle.kinds.specs.Rules.{rank_of};
ghost use Rattle.lookup.specs.Lookup.{FileSpan, kind_found};
ghost use Rattle.host_numbers.specs.Answers.{PutsFound, found_code};
ghost use Rattle.host_numbers.specs.Numbers.{tables_by, out_code, out_after};
ghost use Rattle.export_tables.specs.Tables.{host_row, next_of_kind, span_by, key_span, arg_span};

use error::Fault;
use kinds::Kind;
use statement::{Range, RecordSpan};

// How many records there are.
pub fn hooflift_len(tables: &[u64]) -> usize
    ensures { result ≡ (tables_by tables.now).records }
{
    lookup::len(host_numbers::tables_of(tables))
}

// Row k in file order: 0, with its six numbers in `row`; 255 past the table.
pub fn hooflift_entity(rows: &[u32], tables: &[u64], k: usize, row: &mut [u64]) -> u8
    ensures value { result ≡ out_code row_width (length row.old) (good (host_row rows.now tables.now k)) }
    ensures row_after { row.new ≡ out_after row_width six (good (host_row rows.now tables.now k)) row.old }
{
    match lookup::entity(rows, host_numbers::tables_of(tables), k) {
        Some(w) => host_numbers::put_row(row, w),
        None => 255,
    }
}

// Where a part of row k stands, which `part` finds: 0, the refusal's number, or 255 past the table.
fn put_part_of<F: FnOnce(&[u8], RecordSpan) -> Result<Range, Fault>>(
    file: &[u8],
    rows: &[u32],
    tables: &[u64],
    k: usize,
    part: F,
    start: &mut usize,
    stop: &mut usize,
) -> u8
    ghost by: { Row → Told FileSpan }
    requires callable { (w : RecordSpan) → F.pre part file w }
    requires tells { (w : RecordSpan) (r : Result Range Fault) → F.post part file w r → told_result r ≡ by (told_row w) }
    ensures value { result ≡ found_code (span_by by (host_row rows.now tables.now k)) }
    ensures puts_found { PutsFound (λ x. x.start) (span_by by (host_row rows.now tables.now k)) start }
    ensures puts_found_2 { PutsFound (λ x. x.end) (span_by by (host_row rows.now tables.now k)) stop }
{
    let Some(w) = lookup::entity(rows, host_numbers::tables_of(tables), k) else {
        return 255;
    };
    crate::put_span(part(file, w), start, stop)
}

// Where row k's keyword stands: 0, 9, or 255 past the table.
pub fn hooflift_keyword(
    file: &[u8],
    rows: &[u32],
    tables: &[u64],
    k: usize,
    start: &mut usize,
    stop: &mut usize,
) -> u8
    ensures value { result ≡ found_code (key_span (length file.now) (host_row rows.now tables.now k)) }
    ensures puts_found { PutsFound (λ x. x.start) (key_span (length file.now) (host_row rows.now tables.now k)) start }
    ensures puts_found_2 { PutsFound (λ x. x.end) (key_span (length file.now) (host_row rows.now tables.now k)) stop }
{
    put_part_of(file, rows, tables, k, lookup::keyword, start, stop)
}

// Where row k's arguments stand: 0, 9, or 255 past the table.
pub fn hooflift_args_of(
    file: &[u8],
    rows: &[u32],
    tables: &[u64],
    k: usize,
    start: &mut usize,
    stop: &mut usize,
) -> u8
    ensures value { result ≡ found_code (arg_span (length file.now) (host_row rows.now tables.now k)) }
    ensures puts_found { PutsFound (λ x. x.start) (arg_span (length file.now) (host_row rows.now tables.now k)) start }
    ensures puts_found_2 { PutsFound (λ x. x.end) (arg_span (length file.now) (host_row rows.now tables.now k)) stop }
{
    put_part_of(file, rows, tables, k, lookup::args_of, start, stop)
}

// The number of row k's kind; that of `Other` past the table.
pub fn hooflift_kind(file: &[u8], rows: &[u32], tables: &[u64], k: usize) -> u32
    ensures { result ≡ rank_of (kind_found file.now (host_row rows.now tables.now k)) }
{
    let kind = match lookup::entity(rows, host_numbers::tables_of(tables), k) {
        Some(w) => lookup::kind_in(file, w),
        None => Kind::Other,
    };
    host_numbers::kind_number(kind)
}

// The number of a keyword's kind.
pub fn hooflift_intern(keyword: &[u8]) -> u32
    ensures { result ≡ rank_of (kind_of_keyword keyword.now) }
{
    host_numbers::kind_number(kinds::intern(keyword))
}

// The next row of a kind from row `from` on, in file order: 0, with its number in `row`; 255 where there is none.
pub fn hooflift_by_kind(
    file: &[u8],
    rows: &[u32],
    tables: &[u64],
    kind: u32,
    from: usize,
    row: &mut usize,
) -> u8
    ensures value { result ≡ found_code (good (next_of_kind file.now rows.now tables.now kind from)) }
    ensures puts_found { PutsFound (λ i. i) (good (next_of_kind file.now rows.now tables.now kind from)) row }
{
    let found = lookup::by_kind(
        file,
        rows,
        host_numbers::tables_of(tables),
        host_numbers::kind_by(kind),
        from,
    );
    host_numbers::put_found(found, row)
}
