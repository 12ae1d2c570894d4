// What every function tells a host: a value or a refusal, and where the reader then stands.
ghost use Rattle.std.specs.Prelude.{◌≡◌};
ghost use Rattle.error.specs.Refusal.{good, bad, told, told_result};
ghost use Rattle.params.specs.Answer.{told_read};
ghost use Rattle.host_numbers.specs.Answers.{HostTold, HostReaderTold, Puts, PutsFound, found_code};

use error::Fault;
use params::State;

// A refusal: its number, with its place in `fault`.
pub fn put_fault(f: Fault, fault: &mut usize) -> u8
    ensures { HostTold {A = Unit {0}} (bad (told f)) result fault }
{
    *fault = f.place();
    f.number()
}

// An answer: 0, with its value in `value`; or a refusal, and `value` stays.
pub fn put_answer<T: Copy>(r: Result<T, Fault>, value: &mut T, fault: &mut usize) -> u8
    ensures host_told { HostTold (told_result r) result fault }
    ensures puts { Puts (λ x. x) (told_result r) value }
{
    match r {
        Ok(x) => {
            *value = x;
            0
        }
        Err(f) => put_fault(f, fault),
    }
}

// A reader's answer: as `put_answer`, with where the reader then stands in `place`.
pub fn put_read<T: Copy>(
    r: Result<T, Fault>,
    at: State,
    place: &mut usize,
    value: &mut T,
    fault: &mut usize,
) -> u8
    ensures host_reader_told { HostReaderTold (told_read r at) result place fault }
    ensures puts { Puts (λ x. x) (told_read r at).answer value }
{
    *place = at.place;
    put_answer(r, value, fault)
}

// A reader's answer that has no value.
pub fn put_past(r: Result<(), Fault>, at: State, place: &mut usize, fault: &mut usize) -> u8
    ensures { HostReaderTold (told_read r at) result place fault }
{
    put_read(r, at, place, &mut (), fault)
}

// What was found: 0, with it in `value`; or 255 where there is none, and `value` stays.
pub fn put_found<T: Copy>(r: Option<T>, value: &mut T) -> u8
    ensures code { result ≡ found_code (good r) }
    ensures puts_found { PutsFound (λ x. x) (good r) value }
{
    match r {
        Some(x) => {
            *value = x;
            0
        }
        None => 255,
    }
}
