// Decodes strings, one to a line of standard input, and prints a line for each: `plain HEX` where the text shown is the string
// itself, `text HEX` where it was written to the room, `16` where the room is too short. For the comparison with the Rust's
// decode_string.
//
// A line has the string's bytes in hex, two digits a byte; or `ROOM:HEX`, with the room's length in decimal. The room is filled with
// a mark before: what is not a text's byte must have its mark after.
#![tactic(auto)]

mod answer;
mod asked;

use input::{CHUNK, ChunkReader, Output};
use std::io;
use std::io::{Read, Write};

fn main(rt: HostRuntime) {
    let mut chunk = [0u8; CHUNK];
    let mut buffer = [0u8; CHUNK];
    let mut feed = ChunkReader::new(rt.stdin(), &mut chunk);
    let mut out = Output::new(&rt, &mut buffer);
    // nothing ends where it cannot be written: the output tells of that at the end
    let _ = answers(&rt, &mut feed, &mut out);
    out.finish();
}

// Answers the lines: all of them, or as many as 64 bits count.
fn answers<R: Eprint + Alloc, F: Read, W: Write>(
    rt: &R,
    feed: &mut ChunkReader<'_, F>,
    out: &mut W,
) -> io::Result<()> {
    let mut line = [0u8; 65536];
    let mut room = [0u8; 65536];
    for number in 1..u64::MAX {
        match feed.line(&mut line) {
            Ok(Some(n)) => match asked::by(&mut line, n) {
                Ok(a) => {
                    let lent = a.lent.min(room.len());
                    answer::put_text(&line[..a.count], &mut room[..lent], number, out)?;
                }
                Err(why) => writeln!(out, "line {number}: {why}")?,
            },
            Ok(None) => break,
            Err(error) => {
                input::fail(rt, "standard input", error);
                return writeln!(out, "standard input cannot be read");
            }
        }
    }
    Ok(())
}
