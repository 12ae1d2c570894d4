// A run of cases: each is taken, opened and then told.
#![tactic(auto)]

use compare_input::Taken;
use compare_lines::Opened;
use input::{CHUNK, ChunkReader, Output, Refusal, Sizes, TableRooms, ValueRooms, ValueSizes};
use lookup::Tables;
use std::alloc::AllocError;
use std::io;
use std::io::{Read, Write};
use std::rt::{Env, Files};

// What is said of each case.
pub trait Course {
    // Of a case that is opened, by its number from 0.
    fn tell<W: Write>(
        &self,
        number: usize,
        c: &Opened<'_>,
        v: &mut ValueRooms,
        out: &mut W,
    ) -> io::Result<()>;

    // What is said behind that with the rooms for tables, in which other tables may then stand.
    fn tell_last<W: Write>(
        &self,
        file: &[u8],
        t: Tables,
        tables: &mut TableRooms,
        out: &mut W,
    ) -> io::Result<()>;
}

// Tells all cases, or as many as 64 bits count, with rooms of these sizes. The error is a lack of memory for the rooms.
pub fn run<R: Env + Files + Input + Print + Eprint + AllocGlobal, C: Course>(
    rt: &R,
    course: &C,
    n: Sizes,
    values: ValueSizes,
) -> Result<(), AllocError> {
    let mut chunk = input::room(rt.alloc(), 0, CHUNK)?;
    let mut buffer = input::room(rt.alloc(), 0, CHUNK)?;
    let mut file = input::room(rt.alloc(), 0, n.file)?;
    let mut tables = TableRooms::new(rt.alloc(), n)?;
    let mut v = ValueRooms::new(rt.alloc(), values)?;
    let mut feed = ChunkReader::new(rt.reader(), chunk.as_mut_slice());
    let mut out = Output::new(rt, buffer.as_mut_slice());
    for number in 0..usize::MAX {
        let got = compare_input::take(rt, &mut feed, file.as_mut_slice(), number);
        // nothing ends where it cannot be written: the output tells of that at the end
        let _ = match got {
            Taken::Good(n) => {
                let n = n.min(file.len());
                put_case(course, number, &file[..n], &mut tables, &mut v, &mut out)
            }
            _ => put_untold(got, number, &mut out),
        };
        if got.is_last() {
            break;
        }
    }
    let _ = put_failure(rt, &feed, &mut out);
    out.finish();
    Ok(())
}

// `case I`, and then its lines, or the refusal of the scan.
fn put_case<C: Course, W: Write>(
    course: &C,
    number: usize,
    file: &[u8],
    tables: &mut TableRooms,
    v: &mut ValueRooms,
    out: &mut W,
) -> io::Result<()> {
    writeln!(out, "case {number}")?;
    let opened = store::open(
        file,
        tables.headers.as_mut_slice(),
        tables.rows.as_mut_slice(),
        tables.slots.as_mut_slice(),
    );
    match opened {
        Ok(t) => {
            let c = Opened {
                file,
                heads: tables.headers.as_slice(),
                rows: tables.rows.as_slice(),
                slots: tables.slots.as_slice(),
                t,
            };
            course.tell(number, &c, v, out)?;
            course.tell_last(file, t, tables, out)
        }
        Err(f) => writeln!(out, "refused {}", Refusal(f)),
    }
}

// What else became of a case.
fn put_untold<W: Write>(got: Taken, number: usize, out: &mut W) -> io::Result<()> {
    match got {
        Taken::Good(_) | Taken::Over => Ok(()),
        Taken::Long => writeln!(out, "case {number}\ntoo long for this program"),
        Taken::Cut { count, size } => {
            writeln!(out, "case {number}")?;
            put_cut(count, size, out)
        }
        Taken::LongCut { count, size } => {
            writeln!(out, "case {number}\ntoo long for this program")?;
            put_cut(count, size, out)
        }
        Taken::Unopened => writeln!(out, "case {number}\ncannot be opened"),
        Taken::Unread => writeln!(out, "case {number}\ncannot be read"),
        Taken::Malformed => writeln!(
            out,
            "malformed: the length of a case should stand here, in digits, and then LF"
        ),
    }
}

fn put_cut<W: Write>(count: usize, size: usize, out: &mut W) -> io::Result<()> {
    writeln!(
        out,
        "malformed: the input ends after {count} of the case's {size} bytes"
    )
}

// Where standard input could not be read, says so.
fn put_failure<R: Eprint + Alloc, F: Read, W: Write>(
    rt: &R,
    feed: &ChunkReader<'_, F>,
    out: &mut W,
) -> io::Result<()> {
    match feed.failed() {
        Some(error) => {
            input::fail(rt, "standard input", error);
            writeln!(out, "standard input cannot be read")
        }
        None => Ok(()),
    }
}
