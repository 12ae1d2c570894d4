// Records by id: the last of an id.
ghost use Rattle.std.specs.Prelude.{◌≡◌, length};
ghost use Rattle.table.specs.Table.{row_width, six};
ghost use Rattle.statement.specs.Rows.{mapped};
ghost use Rattle.kinds.specs.Rules.{rank_of};
ghost use Rattle.lookup.specs.Lookup.{required, args_by, kind_found};
ghost use Rattle.host_numbers.specs.Answers.{Puts, read_code};
ghost use Rattle.host_numbers.specs.Numbers.{out_code, out_after};
ghost use Rattle.export_tables.specs.Tables.{host_record};

// The last record with this id: 0, with its six numbers in `row`; or 14.
pub fn hooflift_require(rows: &[u32], slots: &[u64], tables: &[u64], id: u32, row: &mut [u64]) -> u8
    ensures value { result ≡ out_code row_width (length row.old) (mapped Some (required (host_record rows.now slots.now tables.now id))) }
    ensures row_after { row.new ≡ out_after row_width six (mapped Some (required (host_record rows.now slots.now tables.now id))) row.old }
{
    match lookup::require(rows, slots, host_numbers::tables_of(tables), id) {
        Ok(w) => host_numbers::put_row(row, w),
        Err(f) => f.number(),
    }
}

// Where the arguments of the last record with this id stand: 0, 9, or 14.
pub fn hooflift_args(
    file: &[u8],
    rows: &[u32],
    slots: &[u64],
    tables: &[u64],
    id: u32,
    start: &mut usize,
    stop: &mut usize,
) -> u8
    ensures value { result ≡ read_code (args_by (length file.now) (host_record rows.now slots.now tables.now id)) }
    ensures puts { Puts (λ x. x.start) (args_by (length file.now) (host_record rows.now slots.now tables.now id)) start }
    ensures puts_2 { Puts (λ x. x.end) (args_by (length file.now) (host_record rows.now slots.now tables.now id)) stop }
{
    crate::put_span(
        lookup::args(file, rows, slots, host_numbers::tables_of(tables), id),
        start,
        stop,
    )
}

// The number of the kind of the last record with this id; that of `Other` where there is none.
pub fn hooflift_kind_of(file: &[u8], rows: &[u32], slots: &[u64], tables: &[u64], id: u32) -> u32
    ensures { result ≡ rank_of (kind_found file.now (host_record rows.now slots.now tables.now id)) }
{
    host_numbers::kind_number(lookup::kind_of(
        file,
        rows,
        slots,
        host_numbers::tables_of(tables),
        id,
    ))
}
