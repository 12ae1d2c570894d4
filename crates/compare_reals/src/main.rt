// Reads decimals, one to a line of standard input, and prints two answers to each, in a line with a blank between: that of the reading of the
// class, and that of the reading of any real. An answer is the 16 hex digits of the f64's bits, `12` where the line is no real, or `13` where it is
// a real outside the class. For the comparison with Rust's own reading of decimals.
//
// A line is all bytes up to an LF, blanks included; the last one may lack its LF. A line of more than 4,096 bytes is not read.
#![tactic(auto)]

use input::{CHUNK, ChunkReader, Output};
use reals::{NotRead, Reals};
use std::io::{Read, Write};
use std::{fmt, io};

fn main(rt: HostRuntime) {
    let mut chunk = [0u8; CHUNK];
    let mut buffer = [0u8; CHUNK];
    let mut feed = ChunkReader::new(rt.stdin(), &mut chunk);
    let mut out = Output::new(&rt, &mut buffer);
    // nothing ends where it cannot be written: the output tells of that at the end
    let _ = put_answers(&rt, &mut feed, &mut out);
    out.finish();
}

// Answers the lines: all of them, or as many as 64 bits count.
fn put_answers<R: Eprint + Alloc, F: Read, W: Write>(
    rt: &R,
    feed: &mut ChunkReader<'_, F>,
    out: &mut W,
) -> io::Result<()> {
    let mut line = [0u8; 4096];
    for _ in 0..u64::MAX {
        match feed.line(&mut line) {
            Ok(Some(n)) if n <= line.len() => {
                let t = &line[..n];
                let first = Answer(reals::read_real(Reals::Class, t));
                let second = Answer(reals::read_real(Reals::Any, t));
                writeln!(out, "{first} {second}")?;
            }
            Ok(Some(_)) => writeln!(out, "too long for this program")?,
            Ok(None) => break,
            Err(error) => {
                input::fail(rt, "standard input", error);
                return writeln!(out, "standard input cannot be read");
            }
        }
    }
    Ok(())
}

// What one of the two readings answers.
#[derive(Drop)]
struct Answer(Result<f64, NotRead>);

impl fmt::Display for Answer {
    fn fmt<W: fmt::Write>(&self, f: &mut fmt::Formatter<W>) -> fmt::Result {
        match &self.0 {
            Ok(x) => {
                let bits = nearest::bits(*x);
                write!(f, "{bits:016x}")
            }
            Err(NotRead::NotReal) => write!(f, "12"),
            Err(NotRead::Outside) => write!(f, "13"),
        }
    }
}
