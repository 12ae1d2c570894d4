// A file opened.
ghost use Rattle.export_tables.specs.Tables.{Hosts};

// Scans a file into lent rows and indexes its ids in the lent slots, one a record: 0, with what goes with the tables in sixteen numbers; or
// the refusal's number, with its reason and place; or 16 where `tables` has no room for sixteen.
pub fn hooflift_open(
    file: &[u8],
    headers: &mut [u32],
    rows: &mut [u32],
    slots: &mut [u64],
    tables: &mut [u64],
    reason: &mut u8,
    fault: &mut usize,
) -> u8
    ensures { Hosts file.now headers rows slots tables reason fault result }
{
    if tables.len() < 16 {
        return 16;
    }
    match store::open(file, headers, rows, slots) {
        Ok(t) => {
            host_numbers::put_tables(tables, t);
            0
        }
        Err(f) => {
            *reason = f.reason();
            host_numbers::put_fault(f, fault)
        }
    }
}
