// The parts of a complex record.
ghost use Rattle.std.specs.Prelude.{◌≡◌, length};
ghost use Rattle.parts.specs.Part.{next_part_of, part_of};
ghost use Rattle.table.specs.Table.{header_width, header_row_numbers};
ghost use Rattle.host_numbers.specs.Answers.{read_fault};
ghost use Rattle.host_numbers.specs.Numbers.{out_code, out_after, kind_by};
ghost use Rattle.export_records.specs.Records.{told_part};

// As `export_records::hooflift_next_part`.
#[unsafe(no_mangle)]
pub extern "C" fn hooflift_next_part(
    file: &[u8],
    at: usize,
    end: usize,
    part: &mut [u64],
    fault: &mut usize,
) -> u8
    ensures value { result ≡ out_code header_width (length part.old) (told_part (next_part_of file.now at end)) }
    ensures part_after { part.new ≡ out_after header_width header_row_numbers (told_part (next_part_of file.now at end)) part.old }
    ensures fault_after { fault.new ≡ read_fault (next_part_of file.now at end) fault.old }
{
    export_records::hooflift_next_part(file, at, end, part, fault)
}

// As `export_records::hooflift_complex_part`.
#[unsafe(no_mangle)]
pub extern "C" fn hooflift_complex_part(
    file: &[u8],
    start: usize,
    end: usize,
    complex: u32,
    kind: u32,
    part: &mut [u64],
    fault: &mut usize,
) -> u8
    ensures value { result ≡ out_code header_width (length part.old) (told_part (part_of file.now start end complex (kind_by kind))) }
    ensures part_after { part.new ≡ out_after header_width header_row_numbers (told_part (part_of file.now start end complex (kind_by kind))) part.old }
    ensures fault_after { fault.new ≡ read_fault (part_of file.now start end complex (kind_by kind)) fault.old }
{
    export_records::hooflift_complex_part(file, start, end, complex, kind, part, fault)
}
