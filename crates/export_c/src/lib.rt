// The functions of `export`, for hosts in C: the library answers each call, and each clause is its own. A static library exports the
// functions of its own files alone, and no crate is built on one.
// Kept: the C interface asks for a function of each name here: an exported function cannot be generic, and a static library is no crate
// that others build on.
#![tactic(auto)]

mod ids;
mod readers;
mod real;
mod text;

ghost use Rattle.std.specs.Prelude.{◌≡◌};
ghost use Rattle.statement.specs.Rows.{mapped};
ghost use Rattle.scan.specs.ScanMemory.{scan_lent, counts_of, headers_after, rows_after};
ghost use Rattle.host_numbers.specs.Answers.{read_code};
ghost use Rattle.host_numbers.specs.Numbers.{put_in};
ghost use Rattle.export.specs.Numbers.{numbers};

// As `export::hooflift_scan`.
#[unsafe(no_mangle)]
pub extern "C" fn hooflift_scan(
    file: &[u8],
    headers: &mut [u32],
    rows: &mut [u32],
    slots: usize,
    out: &mut [u64],
) -> u8
    ensures value { result ≡ read_code (mapped counts_of (scan_lent file.now headers.old rows.old slots)) }
    ensures headers_after { headers.new ≡ headers_after (scan_lent file.now headers.old rows.old slots) headers.old }
    ensures rows_after { rows.new ≡ rows_after (scan_lent file.now headers.old rows.old slots) rows.old }
    ensures out_after { out.new ≡ put_in 3 (numbers (mapped counts_of (scan_lent file.now headers.old rows.old slots))) out.old }
{
    export::hooflift_scan(file, headers, rows, slots, out)
}
