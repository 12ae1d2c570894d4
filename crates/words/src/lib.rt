// Names and texts of a parameter: the argument reader's `next_enum` and `next_str`.
//
// A name is a part of the file. A text is a part of the file, where nothing in it stands for something else, or else is written to
// lent room; `shown` gives the bytes of either.
#![tactic(auto)]

ghost use Rattle.std.specs.Prelude.{◌≡◌, ◌≤◌, length};
ghost use Rattle.params.specs.Reader.{param_of};
ghost use Rattle.error.specs.Refusal.{told_result};
ghost use Rattle.params.specs.Answer.{read_mapped, told_read};
ghost use Rattle.words.specs.Words.{is_name, is_string, name_at, string_at, room_at};
ghost use Rattle.words.specs.Room.{room_of};
ghost use Rattle.words.specs.Answer.{shown_by};

use error::Fault;
use params::{Span, State};
use strings::Decoded;

// Where a text stands: in the file, or so many bytes from the room's start.
#[derive(Clone, Copy, PartialEq, Eq)]
pub enum Text {
    InFile(Span),
    InRoom(usize),
}

// Whether a parameter is a name between two dots.
fn is_name(t: &[u8]) -> bool
    ensures { result ≡ is_name t.now }
{
    let n = t.len();
    if n < 2 {
        return false;
    }
    if (t[0] != b'.') | (t[n - 1] != b'.') {
        return false;
    }
    utf8::is_valid(&t[1..n - 1])
}

// The name that is the parameter w, without its dots.
fn name_at(file: &[u8], w: Span) -> Result<Span, Fault>
    requires { (w.start ≤ w.stop) × (w.stop ≤ length file.now) }
    ensures { told_result result ≡ name_at file.now w }
{
    if is_name(&file[w.start..w.stop]) {
        return Ok(Span {
            start: w.start + 1,
            stop: w.stop - 1,
        });
    }
    Err(Fault::WrongType(w.start))
}

// Reads a name between two dots.
pub fn next_enum(file: &[u8], at: &mut State) -> Result<Span, Fault>
    ensures { told_read result at.new ≡ read_mapped (name_at file.now) (param_of file.now at.old.place at.old.end) }
{
    let w = params::param_span(file, at)?;
    name_at(file, w)
}

// Whether a parameter is a string: two bytes or more, and a quote first.
fn is_string(t: &[u8]) -> bool
    ensures { result ≡ is_string t.now }
{
    (t.len() >= 2) && (t[0] == b'\'')
}

// The text of the parameter w.
fn text_at(file: &[u8], w: Span, out: &mut [u8]) -> Result<Text, Fault>
    requires { (w.start ≤ w.stop) × (w.stop ≤ length file.now) }
    ensures result_value { told_result result ≡ string_at file.now (length out.old) w }
    ensures out_after { out.new ≡ room_at file.now out.old w }
{
    let Span { start, stop } = w;
    let t = &file[start..stop];
    if t == b"$".as_slice() {
        return Ok(Text::InFile(Span { start, stop: start }));
    }
    if !is_string(t) {
        return Err(Fault::WrongType(start));
    }
    match strings::decode_string(&file[start + 1..stop - 1], out) {
        Some(Decoded::Plain) => Ok(Text::InFile(Span {
            start: start + 1,
            stop: stop - 1,
        })),
        Some(Decoded::Written(n)) => Ok(Text::InRoom(n)),
        None => Err(Fault::TooShort(start)),
    }
}

// Reads a string, or `$`, whose text is empty.
pub fn next_str(file: &[u8], at: &mut State, out: &mut [u8]) -> Result<Text, Fault>
    ensures result_value { told_read result at.new ≡ read_mapped (string_at file.now (length out.old)) (param_of file.now at.old.place at.old.end) }
    ensures out_after { out.new ≡ room_of file.now out.old (param_of file.now at.old.place at.old.end).answer }
{
    let w = params::param_span(file, at)?;
    text_at(file, w, out)
}

// A text's bytes: a part of the file or of the room; none for a refusal, and for places that are not in them.
pub fn shown<'a>(file: &'a [u8], out: &'a [u8], answer: Result<Text, Fault>) -> &'a [u8]
    ensures { result.now ≡ shown_by file.now out.now answer }
{
    match answer {
        Ok(Text::InFile(w)) if (w.start <= w.stop) & (w.stop <= file.len()) => {
            &file[w.start..w.stop]
        }
        Ok(Text::InRoom(n)) if n <= out.len() => &out[..n],
        _ => &out[..0],
    }
}
