// The next case of a run, brought into the room for a file.
//
// A case is its length in decimal, LF and so many bytes of standard input. Where the program has arguments, each names a
// file that is one case; but the word `--replay` says that the run is the gate's, of standard input. A room for a file has one byte
// more than the longest case that it takes.
#![tactic(auto)]

use input::{ChunkReader, Source};
use std::io::Read;
use std::rt::{Env, Files};

// What became of a case.
#[derive(Clone, Copy)]
pub enum Taken {
    // It is there, in so many bytes at the start of the room.
    Good(usize),
    // It is longer than the room.
    Long,
    // The input ends inside it: of so many bytes there are so many.
    Cut { count: usize, size: usize },
    // Both.
    LongCut { count: usize, size: usize },
    // Its file cannot be opened, or not be read.
    Unopened,
    Unread,
    // There is no further one.
    Over,
    // No length stands where it should.
    Malformed,
}

impl Taken {
    // Whether no other case follows.
    pub fn is_last(self) -> bool {
        match self {
            Taken::Over | Taken::Malformed | Taken::Cut { .. } | Taken::LongCut { .. } => true,
            _ => false,
        }
    }
}

// Whether the cases are the files that the arguments name.
fn is_named<R: Env>(rt: &R) -> bool {
    let mut word = [0u8; 1];
    input::argument(rt, 1, &mut word).is_some() && !replays(rt)
}

// Whether the first argument says that the run is the gate's.
pub fn replays<R: Env>(rt: &R) -> bool {
    let mut word = [0u8; 4096];
    match input::argument(rt, 1, &mut word) {
        Some(n) => matches!(&word[..n], b"--replay"),
        None => false,
    }
}

// Takes the case of this number, which is the next one.
pub fn take<R: Env + Files + Input + Eprint + Alloc, F: Read>(
    rt: &R,
    feed: &mut ChunkReader<'_, F>,
    file: &mut [u8],
    number: usize,
) -> Taken {
    if is_named(rt) {
        return take_named(rt, file, number.saturating_add(1));
    }
    follow(feed, file)
}

// Takes the next case of standard input. One for which there is no room is passed.
fn follow<F: Read>(feed: &mut ChunkReader<'_, F>, file: &mut [u8]) -> Taken {
    let size = match feed.number_line() {
        Ok(Some(n)) => n,
        Ok(None) => return Taken::Over,
        Err(_) => return Taken::Malformed,
    };
    if size < file.len() {
        let count = feed.bring(size, file);
        return if count < size {
            Taken::Cut { count, size }
        } else {
            Taken::Good(count)
        };
    }
    let count = feed.skip(size);
    if count < size {
        Taken::LongCut { count, size }
    } else {
        Taken::Long
    }
}

// Takes the case that is an argument's file.
fn take_named<R: Env + Files + Input + Eprint + Alloc>(
    rt: &R,
    file: &mut [u8],
    argument: usize,
) -> Taken {
    let mut name = [0u8; 4096];
    if input::argument(rt, argument, &mut name).is_none() {
        return Taken::Over;
    }
    match input::open_argument(rt, argument, &mut name).source {
        Some(mut source) => read(rt, &mut source, file, argument),
        None => Taken::Unopened,
    }
}

// Linux's number of what cannot be read, since it is closed.
const EBADF: i32 = 9;

// Reads the file that this argument names into the room; standard input once, as if it were closed behind the case. Where that fails, standard
// error says why.
fn read<E: Env + Eprint + Alloc, F: Read, S: Read>(
    rt: &E,
    from: &mut Source<F, S>,
    file: &mut [u8],
    argument: usize,
) -> Taken {
    if matches!(from, Source::Stdin(_)) && is_named_before(rt, argument) {
        input::fail(rt, "read", EBADF);
        return Taken::Unread;
    }
    let got = input::fill(from, file);
    if let Some(error) = got.failed {
        input::fail(rt, "read", error);
        return Taken::Unread;
    }
    if got.count == file.len() {
        return Taken::Long;
    }
    Taken::Good(got.count)
}

// Whether an argument before this one names standard input.
fn is_named_before<R: Env>(rt: &R, argument: usize) -> bool {
    (1..argument).any(|i| is_dash(rt, i))
}

fn is_dash<R: Env>(rt: &R, i: usize) -> bool {
    let mut name = [0u8; 2];
    match input::argument(rt, i, &mut name) {
        Some(n) => matches!(&name[..n], b"-"),
        None => false,
    }
}
