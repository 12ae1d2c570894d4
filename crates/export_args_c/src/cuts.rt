// Parameters that are cut and not read.
ghost use Rattle.std.specs.Prelude.{◌≡◌};
ghost use Rattle.params.specs.Reader.{param_of};
ghost use Rattle.params.specs.Skips.{empty_of, skips_of};
ghost use Rattle.params.specs.Answer.{opened_of};
ghost use Rattle.host_numbers.specs.Answers.{HostReaderTold, Puts, read_code, truth_number};

// As `export_args::hooflift_new`.
#[unsafe(no_mangle)]
pub extern "C" fn hooflift_new(file: &[u8], place: usize, end: usize) -> u8
    ensures { result ≡ read_code (opened_of file.now place end) }
{
    export_args::hooflift_new(file, place, end)
}

// As `export_args::hooflift_param`.
#[unsafe(no_mangle)]
pub extern "C" fn hooflift_param(
    file: &[u8],
    place: &mut usize,
    end: usize,
    start: &mut usize,
    stop: &mut usize,
    fault: &mut usize,
) -> u8
    ensures host_reader_told { HostReaderTold (param_of file.now place.old end) result place fault }
    ensures puts { Puts (λ x. x.start) (param_of file.now place.old end).answer start }
    ensures puts_2 { Puts (λ x. x.stop) (param_of file.now place.old end).answer stop }
{
    export_args::hooflift_param(file, place, end, start, stop, fault)
}

// As `export_args::hooflift_is_empty`.
#[unsafe(no_mangle)]
pub extern "C" fn hooflift_is_empty(
    file: &[u8],
    place: &mut usize,
    end: usize,
    empty: &mut u8,
    fault: &mut usize,
) -> u8
    ensures host_reader_told { HostReaderTold (empty_of file.now place.old end) result place fault }
    ensures puts { Puts truth_number (empty_of file.now place.old end).answer empty }
{
    export_args::hooflift_is_empty(file, place, end, empty, fault)
}

// As `export_args::hooflift_skip_n`.
#[unsafe(no_mangle)]
pub extern "C" fn hooflift_skip_n(
    file: &[u8],
    place: &mut usize,
    end: usize,
    count: usize,
    fault: &mut usize,
) -> u8
    ensures { HostReaderTold (skips_of count file.now place.old end) result place fault }
{
    export_args::hooflift_skip_n(file, place, end, count, fault)
}
