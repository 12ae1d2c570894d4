// Parameters that are cut and not read.
ghost use Rattle.std.specs.Prelude.{◌≡◌};
ghost use Rattle.params.specs.Reader.{param_of};
ghost use Rattle.params.specs.Skips.{empty_of, skips_of};
ghost use Rattle.params.specs.Answer.{opened_of};
ghost use Rattle.host_numbers.specs.Answers.{HostReaderTold, Puts, read_code, truth_number};

use crate::reading;
use params::State;

// Whether a reader from `place` up to `end` lies in the file: 0, or 9.
pub fn hooflift_new(file: &[u8], place: usize, end: usize) -> u8
    ensures { result ≡ read_code (opened_of file.now place end) }
{
    match params::new(file, place, end) {
        Ok(_) => 0,
        Err(f) => f.number(),
    }
}

// The next parameter unread: 0, with where it begins and ends in the file.
pub fn hooflift_param(
    file: &[u8],
    place: &mut usize,
    end: usize,
    start: &mut usize,
    stop: &mut usize,
    fault: &mut usize,
) -> u8
    ensures host_reader_told { HostReaderTold (param_of file.now place.old end) result place fault }
    ensures puts { Puts (λ x. x.start) (param_of file.now place.old end).answer start }
    ensures puts_2 { Puts (λ x. x.stop) (param_of file.now place.old end).answer stop }
{
    reading::span_at(params::param_span, file, place, end, start, stop, fault)
}

// Whether no parameter is left: 0, with 1 or 0 in `empty`. The reader goes past the trivia.
pub fn hooflift_is_empty(
    file: &[u8],
    place: &mut usize,
    end: usize,
    empty: &mut u8,
    fault: &mut usize,
) -> u8
    ensures host_reader_told { HostReaderTold (empty_of file.now place.old end) result place fault }
    ensures puts { Puts truth_number (empty_of file.now place.old end).answer empty }
{
    let mut at = State { place: *place, end };
    let r = params::is_empty(file, &mut at);
    if let Ok(b) = r {
        *empty = u8::from(b);
    }
    reading::put_place(r, at, place, fault)
}

// Goes past `count` parameters, up to the first refusal.
pub fn hooflift_skip_n(
    file: &[u8],
    place: &mut usize,
    end: usize,
    count: usize,
    fault: &mut usize,
) -> u8
    ensures { HostReaderTold (skips_of count file.now place.old end) result place fault }
{
    let mut at = State { place: *place, end };
    let r = params::skip_n(file, &mut at, count);
    host_numbers::put_past(r, at, place, fault)
}
