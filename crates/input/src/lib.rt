// What the programs are given and write with: files that arguments name, standard input and output, how much stack they may use, the sizes
// of their rooms, and how bytes and refusals are shown.
#![tactic(auto)]

mod feed;
mod limit;
mod output;
mod shown;
mod sizes;
mod source;

ghost use Rattle.io.specs.Counts.{IsPrefixLen};

pub use feed::{ChunkReader, Feed, NoNumber};
pub use limit::stack_limit;
pub use output::Output;
pub use shown::{Hex, Refusal};
pub use sizes::{
    CHUNK, FEW, LARGE, MIDDLE, MIDDLE_VALUES, SMALL, SMALL_KEPT, SMALL_VALUES, Sizes, TableRooms,
    ValueRooms, ValueSizes, room,
};
pub use source::{OpenedInput, Source, argument, open_argument, size};
use std::io::Read;
use std::{io, str};

// What was read into a room.
#[derive(Clone, Copy)]
pub struct BytesRead {
    // How many bytes were put at the start of the room.
    pub count: usize,
    // Where a read failed: the system's number of that, and 0 where it has none.
    pub failed: Option<i32>,
}

// Reads until the room is full, the input ends or a read fails.
pub fn fill<R: Read>(from: &mut R, room: &mut [u8]) -> BytesRead
    ensures { IsPrefixLen result.count room.new }
{
    let mut count = 0;
    // Kept: a read brings any number of bytes, so that no range counts them.
    while count < room.len() {
        match from.read(&mut room[count..]) {
            Ok(0) => break,
            Ok(n) => count += n,
            Err(e) => {
                return BytesRead {
                    count,
                    failed: Some(number_of(&e)),
                };
            }
        }
    }
    BytesRead {
        count,
        failed: None,
    }
}

// The system's number of an error, and 0 where it has none.
pub fn number_of(e: &io::Error) -> i32 {
    e.raw_os_error().unwrap_or(0)
}

// Says on standard error what failed, as its caller names it, and why, by the system's number of the error: a line that no proof speaks of.
pub fn fail<R: Eprint + Alloc>(rt: &R, what: &str, number: i32) {
    let error = io::Error::from_raw_os_error(number);
    let _ = match format!(in rt.alloc(); "{error}") {
        Ok(text) => eprintln!(rt; "{what}: {}", words_of(text.as_str())),
        Err(_) => eprintln!(rt; "{what}: {error}"),
    };
}

// What an error's text says in words, without its number.
fn words_of(text: &str) -> &str {
    match text.rsplit_once(" (os error ") {
        Some((words, _)) => words,
        None => text,
    }
}

// The number that decimal digits are; none where they are no digits alone, no digit, or too many for 64 bits.
pub fn decimal(digits: &[u8]) -> Option<usize> {
    if !digits.iter().all(|d| d.is_ascii_digit()) {
        return None;
    }
    str::from_utf8(digits).ok()?.parse().ok()
}
