// The parts of a complex record.
ghost use Rattle.std.specs.Prelude.{◌≡◌, length};
ghost use Rattle.parts.specs.Rules.{told_next};
ghost use Rattle.parts.specs.Part.{next_part_of, part_of};
ghost use Rattle.table.specs.Table.{header_width, header_row_numbers};
ghost use Rattle.host_numbers.specs.Answers.{read_fault};
ghost use Rattle.host_numbers.specs.Numbers.{out_code, out_after, kind_by};
ghost use Rattle.export_records.specs.Records.{told_part};

use error::Fault;
use statement::HeaderSpan;

// Tells a part: 0, with its four numbers; 255 where there is none; or the refusal's number, with its place.
fn put_next(r: Result<Option<HeaderSpan>, Fault>, part: &mut [u64], fault: &mut usize) -> u8
    ensures value { result ≡ out_code header_width (length part.old) (told_part (told_next r)) }
    ensures part_after { part.new ≡ out_after header_width header_row_numbers (told_part (told_next r)) part.old }
    ensures fault_after { fault.new ≡ read_fault (told_next r) fault.old }
{
    match r {
        Ok(Some(p)) => host_numbers::put_part(part, p),
        Ok(None) => 255,
        Err(f) => host_numbers::put_fault(f, fault),
    }
}

// The next part of a complex record from the place `at` on, whose arguments end at `end`: 0, with where its keyword and its arguments stand
// in `part`; 255 where there is none.
pub fn hooflift_next_part(
    file: &[u8],
    at: usize,
    end: usize,
    part: &mut [u64],
    fault: &mut usize,
) -> u8
    ensures value { result ≡ out_code header_width (length part.old) (told_part (next_part_of file.now at end)) }
    ensures part_after { part.new ≡ out_after header_width header_row_numbers (told_part (next_part_of file.now at end)) part.old }
    ensures fault_after { fault.new ≡ read_fault (next_part_of file.now at end) fault.old }
{
    put_next(parts::next_part(file, at, end), part, fault)
}

// The first part of a kind of the record whose arguments run from `start` up to `end` and whose mark is `complex`.
pub fn hooflift_complex_part(
    file: &[u8],
    start: usize,
    end: usize,
    complex: u32,
    kind: u32,
    part: &mut [u64],
    fault: &mut usize,
) -> u8
    ensures value { result ≡ out_code header_width (length part.old) (told_part (part_of file.now start end complex (kind_by kind))) }
    ensures part_after { part.new ≡ out_after header_width header_row_numbers (told_part (part_of file.now start end complex (kind_by kind))) part.old }
    ensures fault_after { fault.new ≡ read_fault (part_of file.now start end complex (kind_by kind)) fault.old }
{
    put_next(
        parts::complex_part(file, start, end, complex, host_numbers::kind_by(kind)),
        part,
        fault,
    )
}
