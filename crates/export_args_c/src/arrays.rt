// Lists and grids, for hosts in other languages: in lent numbers, and for grids the row ends in others.
ghost use Rattle.std.specs.Prelude.{length};
ghost use Rattle.reals.specs.Scalar.{reference_of, whole_of, real_of, any_real_of};
ghost use Rattle.lists.specs.Answer.{how_many};
ghost use Rattle.lists.specs.Read.{list_read};
ghost use Rattle.grids.specs.Grid.{grid_read, how_large, numbers_of, ends_of};
ghost use Rattle.host_numbers.specs.Answers.{HostReaderTold, Puts, PutsList, PutsReals};

// As `export_args::hooflift_ref_list`.
#[unsafe(no_mangle)]
pub extern "C" fn hooflift_ref_list(
    file: &[u8],
    place: &mut usize,
    end: usize,
    out: &mut [u32],
    count: &mut usize,
    fault: &mut usize,
) -> u8
    ensures host_reader_told { HostReaderTold (how_many (list_read reference_of (length out.old) file.now place.old end)) result place fault }
    ensures puts_list { PutsList (list_read reference_of (length out.old) file.now place.old end).answer out }
    ensures puts { Puts (λ n. n) (how_many (list_read reference_of (length out.old) file.now place.old end)).answer count }
{
    export_args::hooflift_ref_list(file, place, end, out, count, fault)
}

// As `export_args::hooflift_i64_list`.
#[unsafe(no_mangle)]
pub extern "C" fn hooflift_i64_list(
    file: &[u8],
    place: &mut usize,
    end: usize,
    out: &mut [i64],
    count: &mut usize,
    fault: &mut usize,
) -> u8
    ensures host_reader_told { HostReaderTold (how_many (list_read whole_of (length out.old) file.now place.old end)) result place fault }
    ensures puts_list { PutsList (list_read whole_of (length out.old) file.now place.old end).answer out }
    ensures puts { Puts (λ n. n) (how_many (list_read whole_of (length out.old) file.now place.old end)).answer count }
{
    export_args::hooflift_i64_list(file, place, end, out, count, fault)
}

// As `export_args::hooflift_ref_grid`.
#[unsafe(no_mangle)]
pub extern "C" fn hooflift_ref_grid(
    file: &[u8],
    place: &mut usize,
    end: usize,
    out: &mut [u32],
    ends: &mut [usize],
    count: &mut usize,
    rows: &mut usize,
    fault: &mut usize,
) -> u8
    ensures host_reader_told { HostReaderTold (how_large (grid_read reference_of (length out.old) (length ends.old) file.now place.old end)) result place fault }
    ensures puts_list { PutsList (numbers_of (grid_read reference_of (length out.old) (length ends.old) file.now place.old end).answer) out }
    ensures puts_list_2 { PutsList (ends_of (grid_read reference_of (length out.old) (length ends.old) file.now place.old end).answer) ends }
    ensures puts { Puts (λ s. s.numbers) (how_large (grid_read reference_of (length out.old) (length ends.old) file.now place.old end)).answer count }
    ensures puts_2 { Puts (λ s. s.rows) (how_large (grid_read reference_of (length out.old) (length ends.old) file.now place.old end)).answer rows }
{
    export_args::hooflift_ref_grid(file, place, end, out, ends, count, rows, fault)
}

// As `export_args::hooflift_f64_grid`.
#[unsafe(no_mangle)]
pub extern "C" fn hooflift_f64_grid(
    file: &[u8],
    place: &mut usize,
    end: usize,
    out: &mut [f64],
    ends: &mut [usize],
    count: &mut usize,
    rows: &mut usize,
    fault: &mut usize,
) -> u8
    ensures host_reader_told { HostReaderTold (how_large (grid_read real_of (length out.old) (length ends.old) file.now place.old end)) result place fault }
    ensures puts_reals { PutsReals (numbers_of (grid_read real_of (length out.old) (length ends.old) file.now place.old end).answer) out }
    ensures puts_list { PutsList (ends_of (grid_read real_of (length out.old) (length ends.old) file.now place.old end).answer) ends }
    ensures puts { Puts (λ s. s.numbers) (how_large (grid_read real_of (length out.old) (length ends.old) file.now place.old end)).answer count }
    ensures puts_2 { Puts (λ s. s.rows) (how_large (grid_read real_of (length out.old) (length ends.old) file.now place.old end)).answer rows }
{
    export_args::hooflift_f64_grid(file, place, end, out, ends, count, rows, fault)
}

// As `export_args::hooflift_any_f64_grid`.
#[unsafe(no_mangle)]
pub extern "C" fn hooflift_any_f64_grid(
    file: &[u8],
    place: &mut usize,
    end: usize,
    out: &mut [f64],
    ends: &mut [usize],
    count: &mut usize,
    rows: &mut usize,
    fault: &mut usize,
) -> u8
    ensures host_reader_told { HostReaderTold (how_large (grid_read any_real_of (length out.old) (length ends.old) file.now place.old end)) result place fault }
    ensures puts_reals { PutsReals (numbers_of (grid_read any_real_of (length out.old) (length ends.old) file.now place.old end).answer) out }
    ensures puts_list { PutsList (ends_of (grid_read any_real_of (length out.old) (length ends.old) file.now place.old end).answer) ends }
    ensures puts { Puts (λ s. s.numbers) (how_large (grid_read any_real_of (length out.old) (length ends.old) file.now place.old end)).answer count }
    ensures puts_2 { Puts (λ s. s.rows) (how_large (grid_read any_real_of (length out.old) (length ends.old) file.now place.old end)).answer rows }
{
    export_args::hooflift_any_f64_grid(file, place, end, out, ends, count, rows, fault)
}
