// A reader, as standard input, by way of a lent chunk: one read for many small ones.
ghost use Rattle.std.specs.Prelude.{◌≤◌, length};
ghost use Rattle.io.specs.Counts.{IsPrefixLen};

use crate::number_of;
use std::io::Read;

// How far a chunk is used. Its bytes from `at` up to `end` were read and are not used yet.
#[derive(Clone, Copy)]
pub struct Feed {
    pub at: usize,
    pub end: usize,
    // Where the last read failed: the system's number of that, and 0 where it has none.
    pub failed: Option<i32>,
}

// Kept: the library's BufReader holds its chunk on the heap, where making it may fail; this one is lent to programs that fail nowhere.
#[derive(Drop)]
pub struct ChunkReader<'a, R> {
    from: R,
    chunk: &'a mut [u8],
    feed: Feed,
}

// What stood behind the bytes that were passed.
#[derive(Clone, Copy, PartialEq, Eq)]
enum Stop {
    // The byte that was sought, which is passed too.
    Found,
    // The input's end, or a read that failed.
    End,
    // So many bytes as were asked for, with others behind them or none.
    Full,
}

// How many bytes were passed, and what stood behind them.
#[derive(Clone, Copy)]
struct Passed {
    count: usize,
    stop: Stop,
}

// A line that is no number of at most fifteen digits.
#[derive(Clone, Copy)]
pub struct NoNumber;

impl<'a, R: Read> ChunkReader<'a, R> {
    // A reader of which nothing was read yet.
    pub fn new(from: R, chunk: &'a mut [u8]) -> ChunkReader<'a, R> {
        ChunkReader {
            from,
            chunk,
            feed: Feed {
                at: 0,
                end: 0,
                failed: None,
            },
        }
    }

    // Where the last read failed, the system's number of that.
    pub fn failed(&self) -> Option<i32> {
        self.feed.failed
    }

    // The next byte; none at the input's end, and where a read fails. Where all of the chunk is used, more is read.
    fn next_byte(&mut self) -> Option<u8> {
        if self.feed.at >= self.feed.end {
            self.refill();
        }
        if self.feed.at >= self.feed.end {
            return None;
        }
        let at = self.feed.at;
        self.feed.at = at + 1;
        self.chunk.get(at).copied()
    }

    fn refill(&mut self) {
        self.feed.at = 0;
        match self.from.read(self.chunk) {
            Ok(n) => {
                self.feed.end = n;
                self.feed.failed = None;
            }
            Err(e) => {
                self.feed.end = 0;
                self.feed.failed = Some(number_of(&e));
            }
        }
    }

    // Goes past bytes, n at most, up to one that is sought and past it, and puts those that fit at the start of the room.
    fn pass(&mut self, n: usize, sought: Option<u8>, room: &mut [u8]) -> Passed
        ensures { result.count ≤ n }
    {
        for count in 0..n {
            let Some(byte) = self.next_byte() else {
                return Passed {
                    count,
                    stop: Stop::End,
                };
            };
            if sought == Some(byte) {
                return Passed {
                    count,
                    stop: Stop::Found,
                };
            }
            if count < room.len() {
                room[count] = byte;
            }
        }
        Passed {
            count: n,
            stop: Stop::Full,
        }
    }

    // Reads the next line, without its LF, as far as it fits into the room, and answers how many bytes it has; none behind the last one, which
    // may lack its LF. An error is the system's number of a read that failed.
    pub fn line(&mut self, room: &mut [u8]) -> Result<Option<usize>, i32> {
        let got = self.pass(usize::MAX, Some(b'\n'), room);
        if let Some(error) = self.feed.failed {
            return Err(error);
        }
        if got.stop == Stop::End && got.count == 0 {
            return Ok(None);
        }
        Ok(Some(got.count))
    }

    // Reads a number of at most fifteen digits and its LF; none where the input ended before it.
    pub fn number_line(&mut self) -> Result<Option<usize>, NoNumber> {
        let mut room = [0u8; 16];
        let got = self.pass(16, Some(b'\n'), &mut room);
        if got.stop == Stop::End && got.count == 0 {
            return Ok(None);
        }
        if got.stop != Stop::Found {
            return Err(NoNumber);
        }
        match crate::decimal(&room[..got.count]) {
            Some(n) => Ok(Some(n)),
            None => Err(NoNumber),
        }
    }

    // Puts the next n bytes at the start of the room, as far as the input and the room go, and answers how many they are.
    pub fn bring(&mut self, n: usize, room: &mut [u8]) -> usize
        ensures { IsPrefixLen result room.new }
    {
        self.pass(n.min(room.len()), None, room).count
    }

    // Goes past n bytes, as far as the input goes, and answers how many they are.
    pub fn skip(&mut self, n: usize) -> usize {
        self.pass(n, None, &mut []).count
    }
}
