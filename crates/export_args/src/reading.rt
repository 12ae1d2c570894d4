// Readers at a host's place: each function below makes the reader's place once, reads by a reader that it is passed, and puts the place back.
ghost use Rattle.std.specs.Prelude.{◌≡◌, ℕ, Option};
ghost use Rattle.std.specs.Float.{binary64};
ghost use Rattle.std.specs.Float.Ieee.{to_bits};
ghost use Rattle.params.specs.Answer.{Read, Span, told_read};
ghost use Rattle.scalars.specs.Answer.{told_read_real, told_read_opt_real};
ghost use Rattle.host_numbers.specs.Answers.{HostReaderTold, Puts, PutsReal};
ghost use Rattle.export_args.specs.Reading.{Tells};
ghost use Rattle.export_args.specs.Values.{given_value, given_set};

use error::Fault;
use params::{Span, State};

// What a reader's answer tells beside its value: 0, or the refusal's number, with its place in `fault`; and where the reader then stands.
pub fn put_place<A: Copy>(
    r: Result<A, Fault>,
    at: State,
    place: &mut usize,
    fault: &mut usize,
) -> u8
    ensures { HostReaderTold (told_read r at) result place fault }
{
    *place = at.place;
    match r {
        Ok(_) => 0,
        Err(f) => host_numbers::put_fault(f, fault),
    }
}

// A value: 0, with it in `value`.
pub fn value_at<A: Copy, F: FnOnce(&[u8], &mut State) -> Result<A, Fault>>(
    read: F,
    file: &[u8],
    place: &mut usize,
    end: usize,
    value: &mut A,
    fault: &mut usize,
) -> u8
    ghost by: { ℕ → ℕ → Read A }
    requires callable { F.IsAlwaysCallable read }
    requires tells { Tells (F.post read file) told_read by }
    ensures host_reader_told { HostReaderTold (by place.old end) result place fault }
    ensures puts { Puts (λ x. x) (by place.old end).answer value }
{
    let mut at = State { place: *place, end };
    let r = read(file, &mut at);
    host_numbers::put_read(r, at, place, value, fault)
}

// A real or a measure: 0, with it in `value`.
pub fn real_at<F: FnOnce(&[u8], &mut State) -> Result<f64, Fault>>(
    read: F,
    file: &[u8],
    place: &mut usize,
    end: usize,
    value: &mut f64,
    fault: &mut usize,
) -> u8
    ghost by: { ℕ → ℕ → Read ℕ }
    requires callable { F.IsAlwaysCallable read }
    requires tells { Tells (F.post read file) told_read_real by }
    ensures host_reader_told { HostReaderTold (by place.old end) result place fault }
    ensures puts_real { PutsReal (λ x. x) (by place.old end).answer value }
{
    let mut at = State { place: *place, end };
    let r = read(file, &mut at);
    host_numbers::put_read(r, at, place, value, fault)
}

// What a reader of a value that may be unset answers and leaves: 1 in `set` and the value in `value`, or 0 in `set`.
fn put_given<A: Copy>(
    r: Result<Option<A>, Fault>,
    at: State,
    place: &mut usize,
    value: &mut A,
    set: &mut u8,
    fault: &mut usize,
) -> u8
    ensures host_reader_told { HostReaderTold (told_read r at) result place fault }
    ensures value_after { value.new ≡ given_value (told_read r at).answer value.old }
    ensures puts { Puts given_set (told_read r at).answer set }
{
    *place = at.place;
    match r {
        Ok(Some(x)) => {
            *value = x;
            *set = 1;
            0
        }
        Ok(None) => {
            *set = 0;
            0
        }
        Err(f) => host_numbers::put_fault(f, fault),
    }
}

// A value that may be unset: 0, with 1 in `set` and the value in `value`, or with 0 in `set`.
pub fn given_at<A: Copy, F: FnOnce(&[u8], &mut State) -> Result<Option<A>, Fault>>(
    read: F,
    file: &[u8],
    place: &mut usize,
    end: usize,
    value: &mut A,
    set: &mut u8,
    fault: &mut usize,
) -> u8
    ghost by: { ℕ → ℕ → Read (Option A) }
    requires callable { F.IsAlwaysCallable read }
    requires tells { Tells (F.post read file) told_read by }
    ensures host_reader_told { HostReaderTold (by place.old end) result place fault }
    ensures value_after { value.new ≡ given_value (by place.old end).answer value.old }
    ensures puts { Puts given_set (by place.old end).answer set }
{
    let mut at = State { place: *place, end };
    let r = read(file, &mut at);
    put_given(r, at, place, value, set, fault)
}

// A real that may be unset: 0, with 1 in `set` and the real in `value`, or with 0 in `set`.
pub fn given_real_at<F: FnOnce(&[u8], &mut State) -> Result<Option<f64>, Fault>>(
    read: F,
    file: &[u8],
    place: &mut usize,
    end: usize,
    value: &mut f64,
    set: &mut u8,
    fault: &mut usize,
) -> u8
    ghost by: { ℕ → ℕ → Read (Option ℕ) }
    requires callable { F.IsAlwaysCallable read }
    requires tells { Tells (F.post read file) told_read_opt_real by }
    ensures host_reader_told { HostReaderTold (by place.old end) result place fault }
    ensures value_after { to_bits binary64 value.new ≡ given_value (by place.old end).answer (to_bits binary64 value.old) }
    ensures puts { Puts given_set (by place.old end).answer set }
{
    let mut at = State { place: *place, end };
    let r = read(file, &mut at);
    put_given(r, at, place, value, set, fault)
}

// A part of the file: 0, with where it begins and ends.
pub fn span_at<F: FnOnce(&[u8], &mut State) -> Result<Span, Fault>>(
    read: F,
    file: &[u8],
    place: &mut usize,
    end: usize,
    start: &mut usize,
    stop: &mut usize,
    fault: &mut usize,
) -> u8
    ghost by: { ℕ → ℕ → Read Span }
    requires callable { F.IsAlwaysCallable read }
    requires tells { Tells (F.post read file) told_read by }
    ensures host_reader_told { HostReaderTold (by place.old end) result place fault }
    ensures puts { Puts (λ x. x.start) (by place.old end).answer start }
    ensures puts_2 { Puts (λ x. x.stop) (by place.old end).answer stop }
{
    let mut at = State { place: *place, end };
    let r = read(file, &mut at);
    if let Ok(x) = r {
        *start = x.start;
        *stop = x.stop;
    }
    put_place(r, at, place, fault)
}
