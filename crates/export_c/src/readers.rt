// The argument reader, for hosts in other languages: its place goes in and comes back, and a refusal's place goes beside it.
ghost use Rattle.std.specs.Prelude.{length};
ghost use Rattle.reals.specs.Scalar.{real_of, any_real_of};
ghost use Rattle.params.specs.Skips.{skip_of};
ghost use Rattle.lists.specs.Answer.{how_many};
ghost use Rattle.lists.specs.Read.{list_read};
ghost use Rattle.host_numbers.specs.Answers.{HostReaderTold, Puts, PutsReals};

// As `export::hooflift_skip`.
#[unsafe(no_mangle)]
pub extern "C" fn hooflift_skip(file: &[u8], place: &mut usize, end: usize, fault: &mut usize) -> u8
    ensures { HostReaderTold (skip_of file.now place.old end) result place fault }
{
    export::hooflift_skip(file, place, end, fault)
}

// As `export::hooflift_f64_list`.
#[unsafe(no_mangle)]
pub extern "C" fn hooflift_f64_list(
    file: &[u8],
    place: &mut usize,
    end: usize,
    out: &mut [f64],
    count: &mut usize,
    fault: &mut usize,
) -> u8
    ensures host_reader_told { HostReaderTold (how_many (list_read real_of (length out.old) file.now place.old end)) result place fault }
    ensures puts_reals { PutsReals (list_read real_of (length out.old) file.now place.old end).answer out }
    ensures puts { Puts (λ n. n) (how_many (list_read real_of (length out.old) file.now place.old end)).answer count }
{
    export::hooflift_f64_list(file, place, end, out, count, fault)
}

// As `export::hooflift_any_f64_list`.
#[unsafe(no_mangle)]
pub extern "C" fn hooflift_any_f64_list(
    file: &[u8],
    place: &mut usize,
    end: usize,
    out: &mut [f64],
    count: &mut usize,
    fault: &mut usize,
) -> u8
    ensures host_reader_told { HostReaderTold (how_many (list_read any_real_of (length out.old) file.now place.old end)) result place fault }
    ensures puts_reals { PutsReals (list_read any_real_of (length out.old) file.now place.old end).answer out }
    ensures puts { Puts (λ n. n) (how_many (list_read any_real_of (length out.old) file.now place.old end)).answer count }
{
    export::hooflift_any_f64_list(file, place, end, out, count, fault)
}
