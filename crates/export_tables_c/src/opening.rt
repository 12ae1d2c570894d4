// A file opened.
ghost use Rattle.export_tables.specs.Tables.{Hosts};

// As `export_tables::hooflift_open`.
#[unsafe(no_mangle)]
pub extern "C" fn hooflift_open(
    file: &[u8],
    headers: &mut [u32],
    rows: &mut [u32],
    slots: &mut [u64],
    tables: &mut [u64],
    reason: &mut u8,
    fault: &mut usize,
) -> u8
    ensures { Hosts file.now headers rows slots tables reason fault result }
{
    export_tables::hooflift_open(file, headers, rows, slots, tables, reason, fault)
}
