// One value of a parameter: a reference, an integer, a real, a boolean.
ghost use Rattle.std.specs.Prelude.{◌≡◌};
ghost use Rattle.std.specs.Float.{binary64};
ghost use Rattle.std.specs.Float.Ieee.{to_bits};
ghost use Rattle.reals.specs.Scalar.{reference_of, whole_of, real_of, any_real_of};
ghost use Rattle.scalars.specs.Scalars.{option_of, measure_by, measure_of, truth_of};
ghost use Rattle.scalars.specs.Answer.{next_of};
ghost use Rattle.host_numbers.specs.Answers.{HostReaderTold, Puts, PutsReal};
ghost use Rattle.export_args.specs.Values.{given_value, given_set, logical_number};

// As `export_args::hooflift_ref`.
#[unsafe(no_mangle)]
pub extern "C" fn hooflift_ref(
    file: &[u8],
    place: &mut usize,
    end: usize,
    value: &mut u32,
    fault: &mut usize,
) -> u8
    ensures host_reader_told { HostReaderTold (next_of reference_of file.now place.old end) result place fault }
    ensures puts { Puts (λ x. x) (next_of reference_of file.now place.old end).answer value }
{
    export_args::hooflift_ref(file, place, end, value, fault)
}

// As `export_args::hooflift_opt_ref`.
#[unsafe(no_mangle)]
pub extern "C" fn hooflift_opt_ref(
    file: &[u8],
    place: &mut usize,
    end: usize,
    value: &mut u32,
    set: &mut u8,
    fault: &mut usize,
) -> u8
    ensures host_reader_told { HostReaderTold (next_of (option_of reference_of) file.now place.old end) result place fault }
    ensures value_after { value.new ≡ given_value (next_of (option_of reference_of) file.now place.old end).answer value.old }
    ensures puts { Puts given_set (next_of (option_of reference_of) file.now place.old end).answer set }
{
    export_args::hooflift_opt_ref(file, place, end, value, set, fault)
}

// As `export_args::hooflift_i64`.
#[unsafe(no_mangle)]
pub extern "C" fn hooflift_i64(
    file: &[u8],
    place: &mut usize,
    end: usize,
    value: &mut i64,
    fault: &mut usize,
) -> u8
    ensures host_reader_told { HostReaderTold (next_of whole_of file.now place.old end) result place fault }
    ensures puts { Puts (λ x. x) (next_of whole_of file.now place.old end).answer value }
{
    export_args::hooflift_i64(file, place, end, value, fault)
}

// As `export_args::hooflift_f64`.
#[unsafe(no_mangle)]
pub extern "C" fn hooflift_f64(
    file: &[u8],
    place: &mut usize,
    end: usize,
    value: &mut f64,
    fault: &mut usize,
) -> u8
    ensures host_reader_told { HostReaderTold (next_of real_of file.now place.old end) result place fault }
    ensures puts_real { PutsReal (λ x. x) (next_of real_of file.now place.old end).answer value }
{
    export_args::hooflift_f64(file, place, end, value, fault)
}

// As `export_args::hooflift_any_f64`.
#[unsafe(no_mangle)]
pub extern "C" fn hooflift_any_f64(
    file: &[u8],
    place: &mut usize,
    end: usize,
    value: &mut f64,
    fault: &mut usize,
) -> u8
    ensures host_reader_told { HostReaderTold (next_of any_real_of file.now place.old end) result place fault }
    ensures puts_real { PutsReal (λ x. x) (next_of any_real_of file.now place.old end).answer value }
{
    export_args::hooflift_any_f64(file, place, end, value, fault)
}

// As `export_args::hooflift_opt_f64`.
#[unsafe(no_mangle)]
pub extern "C" fn hooflift_opt_f64(
    file: &[u8],
    place: &mut usize,
    end: usize,
    value: &mut f64,
    set: &mut u8,
    fault: &mut usize,
) -> u8
    ensures host_reader_told { HostReaderTold (next_of (option_of real_of) file.now place.old end) result place fault }
    ensures value_after { to_bits binary64 value.new ≡ given_value (next_of (option_of real_of) file.now place.old end).answer (to_bits binary64 value.old) }
    ensures puts { Puts given_set (next_of (option_of real_of) file.now place.old end).answer set }
{
    export_args::hooflift_opt_f64(file, place, end, value, set, fault)
}

// As `export_args::hooflift_any_opt_f64`.
#[unsafe(no_mangle)]
pub extern "C" fn hooflift_any_opt_f64(
    file: &[u8],
    place: &mut usize,
    end: usize,
    value: &mut f64,
    set: &mut u8,
    fault: &mut usize,
) -> u8
    ensures host_reader_told { HostReaderTold (next_of (option_of any_real_of) file.now place.old end) result place fault }
    ensures value_after { to_bits binary64 value.new ≡ given_value (next_of (option_of any_real_of) file.now place.old end).answer (to_bits binary64 value.old) }
    ensures puts { Puts given_set (next_of (option_of any_real_of) file.now place.old end).answer set }
{
    export_args::hooflift_any_opt_f64(file, place, end, value, set, fault)
}

// As `export_args::hooflift_measure`.
#[unsafe(no_mangle)]
pub extern "C" fn hooflift_measure(
    file: &[u8],
    place: &mut usize,
    end: usize,
    value: &mut f64,
    fault: &mut usize,
) -> u8
    ensures host_reader_told { HostReaderTold (next_of measure_of file.now place.old end) result place fault }
    ensures puts_real { PutsReal (λ x. x) (next_of measure_of file.now place.old end).answer value }
{
    export_args::hooflift_measure(file, place, end, value, fault)
}

// As `export_args::hooflift_any_measure`.
#[unsafe(no_mangle)]
pub extern "C" fn hooflift_any_measure(
    file: &[u8],
    place: &mut usize,
    end: usize,
    value: &mut f64,
    fault: &mut usize,
) -> u8
    ensures host_reader_told { HostReaderTold (next_of (measure_by any_real_of) file.now place.old end) result place fault }
    ensures puts_real { PutsReal (λ x. x) (next_of (measure_by any_real_of) file.now place.old end).answer value }
{
    export_args::hooflift_any_measure(file, place, end, value, fault)
}

// As `export_args::hooflift_bool`.
#[unsafe(no_mangle)]
pub extern "C" fn hooflift_bool(
    file: &[u8],
    place: &mut usize,
    end: usize,
    value: &mut u8,
    fault: &mut usize,
) -> u8
    ensures host_reader_told { HostReaderTold (next_of truth_of file.now place.old end) result place fault }
    ensures puts { Puts logical_number (next_of truth_of file.now place.old end).answer value }
{
    export_args::hooflift_bool(file, place, end, value, fault)
}
