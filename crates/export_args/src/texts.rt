// A name or a text of a parameter.
ghost use Rattle.std.specs.Prelude.{◌≡◌, length};
ghost use Rattle.params.specs.Reader.{param_of};
ghost use Rattle.params.specs.Answer.{read_mapped};
ghost use Rattle.words.specs.Words.{name_at, string_at};
ghost use Rattle.words.specs.Room.{room_of};
ghost use Rattle.host_numbers.specs.Answers.{HostReaderTold, Puts, shown_room, shown_start, shown_stop};

use crate::reading;
use params::State;
use words::Text;

// The next parameter as a name between two dots: 0, with where the name begins and ends in the file, without its dots.
pub fn hooflift_enum(
    file: &[u8],
    place: &mut usize,
    end: usize,
    start: &mut usize,
    stop: &mut usize,
    fault: &mut usize,
) -> u8
    ensures host_reader_told { HostReaderTold (read_mapped (name_at file.now) (param_of file.now place.old end)) result place fault }
    ensures puts { Puts (λ x. x.start) (read_mapped (name_at file.now) (param_of file.now place.old end)).answer start }
    ensures puts_2 { Puts (λ x. x.stop) (read_mapped (name_at file.now) (param_of file.now place.old end)).answer stop }
{
    reading::span_at(words::next_enum, file, place, end, start, stop, fault)
}

// The next parameter as a text: 0, with where it begins and ends, in the file where `room` is then 0 and in `out` where it is 1.
pub fn hooflift_str(
    file: &[u8],
    place: &mut usize,
    end: usize,
    out: &mut [u8],
    room: &mut u8,
    start: &mut usize,
    stop: &mut usize,
    fault: &mut usize,
) -> u8
    ensures host_reader_told { HostReaderTold (read_mapped (string_at file.now (length out.old)) (param_of file.now place.old end)) result place fault }
    ensures out_after { out.new ≡ room_of file.now out.old (param_of file.now place.old end).answer }
    ensures puts { Puts shown_room (read_mapped (string_at file.now (length out.old)) (param_of file.now place.old end)).answer room }
    ensures puts_2 { Puts shown_start (read_mapped (string_at file.now (length out.old)) (param_of file.now place.old end)).answer start }
    ensures puts_3 { Puts shown_stop (read_mapped (string_at file.now (length out.old)) (param_of file.now place.old end)).answer stop }
{
    let mut at = State { place: *place, end };
    let r = words::next_str(file, &mut at, out);
    if let Ok(text) = r {
        let (in_room, a, z) = match text {
            Text::InFile(w) => (0, w.start, w.stop),
            Text::InRoom(n) => (1, 0, n),
        };
        *room = in_room;
        *start = a;
        *stop = z;
    }
    reading::put_place(r, at, place, fault)
}
