// A file opened: scanned into lent rows, and its ids indexed in the lent slots.
//
// As `StepFile::from_bytes` of the Rust's lib.rs. What goes with the lent tables is one struct by value.
#![tactic(auto)]

ghost use Rattle.std.specs.Prelude.{◌≡◌};
ghost use Rattle.statement.specs.Rows.{mapped};
ghost use Rattle.scan.specs.ScanMemory.{counts_of, headers_after, rows_after};
ghost use Rattle.store.specs.Store.{scan_into, told_opened_file, Indexed};

use error::Fault;
use lookup::Tables;

// Scans a file into lent rows and indexes its ids in the lent slots, one a record. A refusal changes nothing that was lent.
pub fn open(
    file: &[u8],
    headers: &mut [u32],
    rows: &mut [u32],
    slots: &mut [u64],
) -> Result<Tables, Fault>
    ensures result_value { told_opened_file result ≡ mapped counts_of (scan_into file.now headers.old rows.old slots.old) }
    ensures headers_after { headers.new ≡ headers_after (scan_into file.now headers.old rows.old slots.old) headers.old }
    ensures rows_after { rows.new ≡ rows_after (scan_into file.now headers.old rows.old slots.old) rows.old }
    ensures indexed { Indexed result rows.new slots.old slots.new }
{
    let counts = scan::scan(file, headers, rows, slots.len())?;
    Ok(Tables {
        headers: counts.headers,
        records: counts.records,
        max: counts.max,
        ids: index::build(rows, counts.records, slots),
    })
}
