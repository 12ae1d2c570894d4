// One value of a parameter: a reference, an integer, a real, a boolean.
ghost use Rattle.std.specs.Prelude.{◌≡◌};
ghost use Rattle.std.specs.Float.{binary64};
ghost use Rattle.std.specs.Float.Ieee.{to_bits};
ghost use Rattle.reals.specs.Scalar.{reference_of, whole_of, real_of, any_real_of};
ghost use Rattle.scalars.specs.Scalars.{option_of, measure_by, measure_of, truth_of};
ghost use Rattle.scalars.specs.Answer.{next_of};
ghost use Rattle.host_numbers.specs.Answers.{HostReaderTold, Puts, PutsReal};
ghost use Rattle.export_args.specs.Values.{given_value, given_set, logical_number};

use crate::reading;
use params::State;
use reals::Reals;
use scalars::Truth;

// The next parameter as a reference: 0, with its id in `value`.
pub fn hooflift_ref(
    file: &[u8],
    place: &mut usize,
    end: usize,
    value: &mut u32,
    fault: &mut usize,
) -> u8
    ensures host_reader_told { HostReaderTold (next_of reference_of file.now place.old end) result place fault }
    ensures puts { Puts (λ x. x) (next_of reference_of file.now place.old end).answer value }
{
    reading::value_at(scalars::next_ref, file, place, end, value, fault)
}

// The next parameter as a reference or `$`: 0, with 1 in `set` and its id in `value`, or with 0 in `set`.
pub fn hooflift_opt_ref(
    file: &[u8],
    place: &mut usize,
    end: usize,
    value: &mut u32,
    set: &mut u8,
    fault: &mut usize,
) -> u8
    ensures host_reader_told { HostReaderTold (next_of (option_of reference_of) file.now place.old end) result place fault }
    ensures value_after { value.new ≡ given_value (next_of (option_of reference_of) file.now place.old end).answer value.old }
    ensures puts { Puts given_set (next_of (option_of reference_of) file.now place.old end).answer set }
{
    reading::given_at(scalars::next_opt_ref, file, place, end, value, set, fault)
}

// The next parameter as an integer: 0, with it in `value`.
pub fn hooflift_i64(
    file: &[u8],
    place: &mut usize,
    end: usize,
    value: &mut i64,
    fault: &mut usize,
) -> u8
    ensures host_reader_told { HostReaderTold (next_of whole_of file.now place.old end) result place fault }
    ensures puts { Puts (λ x. x) (next_of whole_of file.now place.old end).answer value }
{
    reading::value_at(scalars::next_i64, file, place, end, value, fault)
}

// The next parameter as a real: 0, with its f64 in `value`.
pub fn hooflift_f64(
    file: &[u8],
    place: &mut usize,
    end: usize,
    value: &mut f64,
    fault: &mut usize,
) -> u8
    ensures host_reader_told { HostReaderTold (next_of real_of file.now place.old end) result place fault }
    ensures puts_real { PutsReal (λ x. x) (next_of real_of file.now place.old end).answer value }
{
    reading::real_at(scalars::next_f64, file, place, end, value, fault)
}

// The next parameter as any real, whatever its digits and its exponent: as `hooflift_f64`, and never 13.
pub fn hooflift_any_f64(
    file: &[u8],
    place: &mut usize,
    end: usize,
    value: &mut f64,
    fault: &mut usize,
) -> u8
    ensures host_reader_told { HostReaderTold (next_of any_real_of file.now place.old end) result place fault }
    ensures puts_real { PutsReal (λ x. x) (next_of any_real_of file.now place.old end).answer value }
{
    reading::real_at(
        |file, at| scalars::next_real(Reals::Any, file, at),
        file,
        place,
        end,
        value,
        fault,
    )
}

// The next parameter as a real or `$`: 0, with 1 in `set` and its f64 in `value`, or with 0 in `set`.
pub fn hooflift_opt_f64(
    file: &[u8],
    place: &mut usize,
    end: usize,
    value: &mut f64,
    set: &mut u8,
    fault: &mut usize,
) -> u8
    ensures host_reader_told { HostReaderTold (next_of (option_of real_of) file.now place.old end) result place fault }
    ensures value_after { to_bits binary64 value.new ≡ given_value (next_of (option_of real_of) file.now place.old end).answer (to_bits binary64 value.old) }
    ensures puts { Puts given_set (next_of (option_of real_of) file.now place.old end).answer set }
{
    reading::given_real_at(scalars::next_opt_f64, file, place, end, value, set, fault)
}

// The next parameter as any real or `$`: as `hooflift_opt_f64`, and never 13.
pub fn hooflift_any_opt_f64(
    file: &[u8],
    place: &mut usize,
    end: usize,
    value: &mut f64,
    set: &mut u8,
    fault: &mut usize,
) -> u8
    ensures host_reader_told { HostReaderTold (next_of (option_of any_real_of) file.now place.old end) result place fault }
    ensures value_after { to_bits binary64 value.new ≡ given_value (next_of (option_of any_real_of) file.now place.old end).answer (to_bits binary64 value.old) }
    ensures puts { Puts given_set (next_of (option_of any_real_of) file.now place.old end).answer set }
{
    reading::given_real_at(
        |file, at| scalars::next_opt_real(Reals::Any, file, at),
        file,
        place,
        end,
        value,
        set,
        fault,
    )
}

// The next parameter as a measure, a real or `KEYWORD(real)`: 0, with its f64 in `value`.
pub fn hooflift_measure(
    file: &[u8],
    place: &mut usize,
    end: usize,
    value: &mut f64,
    fault: &mut usize,
) -> u8
    ensures host_reader_told { HostReaderTold (next_of measure_of file.now place.old end) result place fault }
    ensures puts_real { PutsReal (λ x. x) (next_of measure_of file.now place.old end).answer value }
{
    reading::real_at(scalars::next_measure_f64, file, place, end, value, fault)
}

// The next parameter as a measure with any real: as `hooflift_measure`, and never 13.
pub fn hooflift_any_measure(
    file: &[u8],
    place: &mut usize,
    end: usize,
    value: &mut f64,
    fault: &mut usize,
) -> u8
    ensures host_reader_told { HostReaderTold (next_of (measure_by any_real_of) file.now place.old end) result place fault }
    ensures puts_real { PutsReal (λ x. x) (next_of (measure_by any_real_of) file.now place.old end).answer value }
{
    reading::real_at(
        |file, at| scalars::next_measure(Reals::Any, file, at),
        file,
        place,
        end,
        value,
        fault,
    )
}

// The next parameter as a boolean: 0, with 0 in `value` for `.F.`, 1 for `.T.` and 2 for `.U.`.
pub fn hooflift_bool(
    file: &[u8],
    place: &mut usize,
    end: usize,
    value: &mut u8,
    fault: &mut usize,
) -> u8
    ensures host_reader_told { HostReaderTold (next_of truth_of file.now place.old end) result place fault }
    ensures puts { Puts logical_number (next_of truth_of file.now place.old end).answer value }
{
    let mut at = State { place: *place, end };
    let r = scalars::next_bool(file, &mut at);
    if let Ok(t) = r {
        *value = match t {
            Truth::False => 0,
            Truth::True => 1,
            Truth::Unknown => 2,
        };
    }
    reading::put_place(r, at, place, fault)
}
