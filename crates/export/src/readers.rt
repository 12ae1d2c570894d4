// The argument reader, for hosts in other languages: its place goes in and comes back, and a refusal's place goes beside it.
ghost use Rattle.std.specs.Prelude.{length};
ghost use Rattle.reals.specs.Scalar.{real_of, any_real_of};
ghost use Rattle.params.specs.Skips.{skip_of};
ghost use Rattle.lists.specs.Answer.{how_many};
ghost use Rattle.lists.specs.Read.{list_read};
ghost use Rattle.host_numbers.specs.Answers.{HostReaderTold, Puts, PutsReals};

use params::State;
use reals::Reals;

// Goes past one parameter: 0, or the refusal's number, with its place in `fault`; `place` is where the reader then stands.
pub fn hooflift_skip(file: &[u8], place: &mut usize, end: usize, fault: &mut usize) -> u8
    ensures { HostReaderTold (skip_of file.now place.old end) result place fault }
{
    let mut at = State { place: *place, end };
    let r = params::skip(file, &mut at);
    host_numbers::put_past(r, at, place, fault)
}

// Reads a list of reals into `out`: 0, with how many in `count`; or the refusal's number, with its place in `fault`.
pub fn hooflift_f64_list(
    file: &[u8],
    place: &mut usize,
    end: usize,
    out: &mut [f64],
    count: &mut usize,
    fault: &mut usize,
) -> u8
    ensures host_reader_told { HostReaderTold (how_many (list_read real_of (length out.old) file.now place.old end)) result place fault }
    ensures puts_reals { PutsReals (list_read real_of (length out.old) file.now place.old end).answer out }
    ensures puts { Puts (λ n. n) (how_many (list_read real_of (length out.old) file.now place.old end)).answer count }
{
    let mut at = State { place: *place, end };
    let r = lists::next_f64_list(file, &mut at, out);
    host_numbers::put_read(r, at, place, count, fault)
}

// Reads a list of any reals: as `hooflift_f64_list`, and never 13.
pub fn hooflift_any_f64_list(
    file: &[u8],
    place: &mut usize,
    end: usize,
    out: &mut [f64],
    count: &mut usize,
    fault: &mut usize,
) -> u8
    ensures host_reader_told { HostReaderTold (how_many (list_read any_real_of (length out.old) file.now place.old end)) result place fault }
    ensures puts_reals { PutsReals (list_read any_real_of (length out.old) file.now place.old end).answer out }
    ensures puts { Puts (λ n. n) (how_many (list_read any_real_of (length out.old) file.now place.old end)).answer count }
{
    let mut at = State { place: *place, end };
    let r = lists::next_real_list(Reals::Any, file, &mut at, out);
    host_numbers::put_read(r, at, place, count, fault)
}
