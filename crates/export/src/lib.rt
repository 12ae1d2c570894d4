// The scan, the id index, the argument reader, the reals and the texts for hosts in other languages: slices and numbers only. Used
// by the benchmarks; a load node's interface grows here.
#![tactic(auto)]

mod ids;
mod readers;
mod real;
mod text;

ghost use Rattle.std.specs.Prelude.{◌≡◌, ◌≤◌, length};
ghost use Rattle.error.specs.Refusal.{told_result};
ghost use Rattle.statement.specs.Rows.{mapped};
ghost use Rattle.scan.specs.ScanMemory.{scan_lent, counts_of, headers_after, rows_after};
ghost use Rattle.host_numbers.specs.Answers.{read_code};
ghost use Rattle.host_numbers.specs.Numbers.{put_in};
ghost use Rattle.export.specs.Numbers.{numbers};

use error::Fault;
pub use ids::{hooflift_get, hooflift_get_all, hooflift_index};
pub use readers::{hooflift_any_f64_list, hooflift_f64_list, hooflift_skip};
pub use real::{hooflift_any_real, hooflift_real};
use scan::Counts;
pub use text::{hooflift_text, hooflift_text_length};

// Puts numbers at the start of `out`, where there is room for three.
fn put_numbers(out: &mut [u64], xs: &[u64])
    requires { length xs.now ≤ 3 }
    ensures { out.new ≡ put_in 3 xs.now out.old }
{
    if out.len() < 3 {
        return;
    }
    out[..xs.len()].copy_from_slice(xs);
}

// Puts an answer's numbers at the start of `out`, where there is room for three: the counts, or a refusal's reason and place;
// and answers 0 or the refusal's number.
fn put_scanned(r: Result<Counts, Fault>, out: &mut [u64]) -> u8
    ensures value { result ≡ read_code (told_result r) }
    ensures out_after { out.new ≡ put_in 3 (numbers (told_result r)) out.old }
{
    match r {
        Ok(c) => {
            put_numbers(out, &[c.headers as u64, c.records as u64, u64::from(c.max)]);
            0
        }
        Err(f) => {
            put_numbers(out, &[u64::from(f.reason()), f.place() as u64]);
            f.number()
        }
    }
}

// Scans a file into lent rows: 0, with header rows, data rows and the largest id in `out`; or the refusal's number, with its
// reason and place there.
pub fn hooflift_scan(
    file: &[u8],
    headers: &mut [u32],
    rows: &mut [u32],
    slots: usize,
    out: &mut [u64],
) -> u8
    ensures value { result ≡ read_code (mapped counts_of (scan_lent file.now headers.old rows.old slots)) }
    ensures headers_after { headers.new ≡ headers_after (scan_lent file.now headers.old rows.old slots) headers.old }
    ensures rows_after { rows.new ≡ rows_after (scan_lent file.now headers.old rows.old slots) rows.old }
    ensures out_after { out.new ≡ put_in 3 (numbers (mapped counts_of (scan_lent file.now headers.old rows.old slots))) out.old }
{
    put_scanned(scan::scan(file, headers, rows, slots), out)
}
