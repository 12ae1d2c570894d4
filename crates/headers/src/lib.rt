// Header records by keyword, over a table in lent memory.
//
// As `header_args` of the Rust's lib.rs. The search over a slice of structs is in the crate `header_structs`.
#![tactic(auto)]

ghost use Rattle.std.specs.Prelude.{◌≡◌, length};
ghost use Rattle.error.specs.Refusal.{told_result};
ghost use Rattle.headers.specs.Header.{header_named, is_header, header_found, args_found};
ghost use Rattle.table.specs.Table.{header_numbers};
ghost use Rattle.statement.specs.Rows.{header_row_of};

use error::Fault;
use lookup::Tables;
use statement::{HeaderSpan, Range};

// Whether a header record has this keyword, letters in either case. One whose keyword lies outside the file has none.
pub fn span_named(file: &[u8], w: HeaderSpan, name: &[u8]) -> bool
    ensures { result ≡ header_named file.now name.now (header_row_of w) }
{
    match file.get(w.keyword.start..w.keyword.end) {
        Some(keyword) => kinds::same_word(keyword, name),
        None => false,
    }
}

// Whether header row k has it.
fn is_named(file: &[u8], heads: &[u32], k: usize, name: &[u8]) -> bool
    ensures { result ≡ is_header file.now (header_numbers heads.now) name.now k }
{
    span_named(file, table::read_header(heads, k), name)
}

// The first header row with this keyword.
pub fn header_row(file: &[u8], heads: &[u32], t: Tables, name: &[u8]) -> Option<usize>
    ensures { result ≡ header_found file.now heads.now t.headers name.now }
{
    for k in 0..table::header_rows(heads.len(), t.headers) {
        if is_named(file, heads, k, name) {
            return Some(k);
        }
    }
    None
}

// The arguments of the first header record with this keyword; none where there is no such record; 9 where they lie outside the file.
pub fn header_args(
    file: &[u8],
    heads: &[u32],
    t: Tables,
    name: &[u8],
) -> Result<Option<Range>, Fault>
    ensures { told_result result ≡ args_found file.now heads.now t.headers name.now }
{
    let Some(k) = header_row(file, heads, t, name) else {
        return Ok(None);
    };
    let args = lookup::span_in(file.len(), table::read_header(heads, k).args)?;
    Ok(Some(args))
}
