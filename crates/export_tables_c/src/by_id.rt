// Records by id: the last of an id.
ghost use Rattle.std.specs.Prelude.{◌≡◌, length};
ghost use Rattle.table.specs.Table.{row_width, six};
ghost use Rattle.statement.specs.Rows.{mapped};
ghost use Rattle.kinds.specs.Rules.{rank_of};
ghost use Rattle.lookup.specs.Lookup.{required, args_by, kind_found};
ghost use Rattle.host_numbers.specs.Answers.{Puts, read_code};
ghost use Rattle.host_numbers.specs.Numbers.{out_code, out_after};
ghost use Rattle.export_tables.specs.Tables.{host_record};

// As `export_tables::hooflift_require`.
#[unsafe(no_mangle)]
pub extern "C" fn hooflift_require(
    rows: &[u32],
    slots: &[u64],
    tables: &[u64],
    id: u32,
    row: &mut [u64],
) -> u8
    ensures value { result ≡ out_code row_width (length row.old) (mapped Some (required (host_record rows.now slots.now tables.now id))) }
    ensures row_after { row.new ≡ out_after row_width six (mapped Some (required (host_record rows.now slots.now tables.now id))) row.old }
{
    export_tables::hooflift_require(rows, slots, tables, id, row)
}

// As `export_tables::hooflift_args`.
#[unsafe(no_mangle)]
pub extern "C" fn hooflift_args(
    file: &[u8],
    rows: &[u32],
    slots: &[u64],
    tables: &[u64],
    id: u32,
    start: &mut usize,
    stop: &mut usize,
) -> u8
    ensures value { result ≡ read_code (args_by (length file.now) (host_record rows.now slots.now tables.now id)) }
    ensures puts { Puts (λ x. x.start) (args_by (length file.now) (host_record rows.now slots.now tables.now id)) start }
    ensures puts_2 { Puts (λ x. x.end) (args_by (length file.now) (host_record rows.now slots.now tables.now id)) stop }
{
    export_tables::hooflift_args(file, rows, slots, tables, id, start, stop)
}

// As `export_tables::hooflift_kind_of`.
#[unsafe(no_mangle)]
pub extern "C" fn hooflift_kind_of(
    file: &[u8],
    rows: &[u32],
    slots: &[u64],
    tables: &[u64],
    id: u32,
) -> u32
    ensures { result ≡ rank_of (kind_found file.now (host_record rows.now slots.now tables.now id)) }
{
    export_tables::hooflift_kind_of(file, rows, slots, tables, id)
}
