// What a file's header says of itself: its name and the system that wrote it, the first and the sixth parameter of FILE_NAME.
//
// A text is shown where it stands in the file, or is written to lent room. It is empty where there is no such header record, where it
// has too few parameters, and where the parameter is no string; only a room that is too short refuses, and a table that is not the
// file's.
#![tactic(auto)]

ghost use Rattle.std.specs.Prelude.{◌≡◌, length};
ghost use Rattle.error.specs.Refusal.{told_result};
ghost use Rattle.headers.specs.Header.{args_found};
ghost use Rattle.file_name_texts.specs.Title.{as_title, title_in, room_in, title_by, room_by, file_name};

use error::Fault;
use lookup::Tables;
use params::{Span, State};
use statement::Range;
use words::Text;

// The empty text.
const EMPTY: Text = Text::InFile(Span { start: 0, stop: 0 });

// A text that was read: an empty one where it is no string.
fn titled(text: Result<Text, Fault>) -> Result<Text, Fault>
    ensures { told_result result ≡ as_title (told_result text) }
{
    match text {
        Ok(shown) => Ok(shown),
        Err(fault) => match fault {
            Fault::TooShort(_) => Err(fault),
            _ => Ok(EMPTY),
        },
    }
}

// The text that stands after so many parameters of a header record's arguments.
fn title_at(file: &[u8], args: Range, before: usize, out: &mut [u8]) -> Result<Text, Fault>
    ensures result_value { told_result result ≡ title_in file.now (length out.old) before args.start args.end }
    ensures out_after { out.new ≡ room_in file.now out.old before args.start args.end }
{
    let mut at = State {
        place: args.start,
        end: args.end,
    };
    match params::skip_n(file, &mut at, before) {
        Ok(()) => titled(words::next_str(file, &mut at, out)),
        Err(_) => Ok(EMPTY),
    }
}

// The text of FILE_NAME that stands after so many parameters.
fn title_of(
    file: &[u8],
    heads: &[u32],
    t: Tables,
    before: usize,
    out: &mut [u8],
) -> Result<Text, Fault>
    ensures result_value { told_result result ≡ title_by file.now (length out.old) before (args_found file.now heads.now t.headers file_name) }
    ensures out_after { out.new ≡ room_by file.now out.old before (args_found file.now heads.now t.headers file_name) }
{
    match headers::header_args(file, heads, t, b"FILE_NAME")? {
        Some(args) => title_at(file, args, before, out),
        None => Ok(EMPTY),
    }
}

// The file's name: the first parameter.
pub fn file_name(file: &[u8], heads: &[u32], t: Tables, out: &mut [u8]) -> Result<Text, Fault>
    ensures result_value { told_result result ≡ title_by file.now (length out.old) 0 (args_found file.now heads.now t.headers file_name) }
    ensures out_after { out.new ≡ room_by file.now out.old 0 (args_found file.now heads.now t.headers file_name) }
{
    title_of(file, heads, t, 0, out)
}

// The system that wrote the file: the sixth parameter.
pub fn originating_system(
    file: &[u8],
    heads: &[u32],
    t: Tables,
    out: &mut [u8],
) -> Result<Text, Fault>
    ensures result_value { told_result result ≡ title_by file.now (length out.old) 5 (args_found file.now heads.now t.headers file_name) }
    ensures out_after { out.new ≡ room_by file.now out.old 5 (args_found file.now heads.now t.headers file_name) }
{
    title_of(file, heads, t, 5, out)
}
