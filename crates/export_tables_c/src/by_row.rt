// Rows by number and by kind.
ghost use Rattle.std.specs.Prelude.{◌≡◌, length};
ghost use Rattle.error.specs.Refusal.{good};
ghost use Rattle.table.specs.Table.{row_width, six};
ghost use Rattle.kinds.specs.Kind.{kind_of_keyword};
ghost use Rattle.kinds.specs.Rules.{rank_of};
ghost use Rattle.lookup.specs.Lookup.{kind_found};
ghost use Rattle.host_numbers.specs.Answers.{PutsFound, found_code};
ghost use Rattle.host_numbers.specs.Numbers.{tables_by, out_code, out_after};
ghost use Rattle.export_tables.specs.Tables.{host_row, next_of_kind, key_span, arg_span};

// As `export_tables::hooflift_len`.
#[unsafe(no_mangle)]
pub extern "C" fn hooflift_len(tables: &[u64]) -> usize
    ensures { result ≡ (tables_by tables.now).records }
{
    export_tables::hooflift_len(tables)
}

// As `export_tables::hooflift_entity`.
#[unsafe(no_mangle)]
pub extern "C" fn hooflift_entity(rows: &[u32], tables: &[u64], k: usize, row: &mut [u64]) -> u8
    ensures value { result ≡ out_code row_width (length row.old) (good (host_row rows.now tables.now k)) }
    ensures row_after { row.new ≡ out_after row_width six (good (host_row rows.now tables.now k)) row.old }
{
    export_tables::hooflift_entity(rows, tables, k, row)
}

// As `export_tables::hooflift_keyword`.
#[unsafe(no_mangle)]
pub extern "C" fn hooflift_keyword(
    file: &[u8],
    rows: &[u32],
    tables: &[u64],
    k: usize,
    start: &mut usize,
    stop: &mut usize,
) -> u8
    ensures value { result ≡ found_code (key_span (length file.now) (host_row rows.now tables.now k)) }
    ensures puts_found { PutsFound (λ x. x.start) (key_span (length file.now) (host_row rows.now tables.now k)) start }
    ensures puts_found_2 { PutsFound (λ x. x.end) (key_span (length file.now) (host_row rows.now tables.now k)) stop }
{
    export_tables::hooflift_keyword(file, rows, tables, k, start, stop)
}

// As `export_tables::hooflift_args_of`.
#[unsafe(no_mangle)]
pub extern "C" fn hooflift_args_of(
    file: &[u8],
    rows: &[u32],
    tables: &[u64],
    k: usize,
    start: &mut usize,
    stop: &mut usize,
) -> u8
    ensures value { result ≡ found_code (arg_span (length file.now) (host_row rows.now tables.now k)) }
    ensures puts_found { PutsFound (λ x. x.start) (arg_span (length file.now) (host_row rows.now tables.now k)) start }
    ensures puts_found_2 { PutsFound (λ x. x.end) (arg_span (length file.now) (host_row rows.now tables.now k)) stop }
{
    export_tables::hooflift_args_of(file, rows, tables, k, start, stop)
}

// As `export_tables::hooflift_kind`.
#[unsafe(no_mangle)]
pub extern "C" fn hooflift_kind(file: &[u8], rows: &[u32], tables: &[u64], k: usize) -> u32
    ensures { result ≡ rank_of (kind_found file.now (host_row rows.now tables.now k)) }
{
    export_tables::hooflift_kind(file, rows, tables, k)
}

// As `export_tables::hooflift_intern`.
#[unsafe(no_mangle)]
pub extern "C" fn hooflift_intern(keyword: &[u8]) -> u32
    ensures { result ≡ rank_of (kind_of_keyword keyword.now) }
{
    export_tables::hooflift_intern(keyword)
}

// As `export_tables::hooflift_by_kind`.
#[unsafe(no_mangle)]
pub extern "C" fn hooflift_by_kind(
    file: &[u8],
    rows: &[u32],
    tables: &[u64],
    kind: u32,
    from: usize,
    row: &mut usize,
) -> u8
    ensures value { result ≡ found_code (good (next_of_kind file.now rows.now tables.now kind from)) }
    ensures puts_found { PutsFound (λ i. i) (good (next_of_kind file.now rows.now tables.now kind from)) row }
{
    export_tables::hooflift_by_kind(file, rows, tables, kind, from, row)
}
