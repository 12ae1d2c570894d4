// Rows kept beside a file.
ghost use Rattle.std.specs.Prelude.{◌≡◌, length};
ghost use Rattle.rows_kept.specs.KeptRows.{keep_table, kept_after, read_of, read_after};
ghost use Rattle.host_numbers.specs.Answers.{Puts, read_code};
ghost use Rattle.table.specs.Table.{rows_fit, row_numbers};

// As `export_records::hooflift_keep_rows`.
#[unsafe(no_mangle)]
pub extern "C" fn hooflift_keep_rows(
    len: usize,
    rows: &[u32],
    count: usize,
    out: &mut [u8],
    kept: &mut usize,
) -> u8
    ensures value { result ≡ read_code (keep_table len rows.now count (length out.old)) }
    ensures out_after { out.new ≡ kept_after (row_numbers rows.now) (keep_table len rows.now count (length out.old)) out.old }
    ensures puts { Puts (λ n. n) (keep_table len rows.now count (length out.old)) kept }
{
    export_records::hooflift_keep_rows(len, rows, count, out, kept)
}

// As `export_records::hooflift_read_rows`.
#[unsafe(no_mangle)]
pub extern "C" fn hooflift_read_rows(
    len: usize,
    bytes: &[u8],
    rows: &mut [u32],
    count: &mut usize,
) -> u8
    ensures value { result ≡ read_code (read_of len bytes.now (rows_fit (length rows.old))) }
    ensures rows_after { rows.new ≡ read_after bytes.now (read_of len bytes.now (rows_fit (length rows.old))) rows.old }
    ensures puts { Puts (λ n. n) (read_of len bytes.now (rows_fit (length rows.old))) count }
{
    export_records::hooflift_read_rows(len, bytes, rows, count)
}
