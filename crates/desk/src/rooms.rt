// The rooms that a file and its rows are read into.
//
// A file is read into rooms for 1 MiB. One that is larger, or has more records than these rooms, or of which the size is not told, is read
// into rooms for 64 MiB, where the stack limit is above their size (`ulimit -s`; the script `step` raises it).
ghost use Rattle.std.specs.Prelude.{◌≤◌, length, IfOk};

use crate::command::Task;
use crate::found;
use crate::shown::{Spot, put_refusal, words};
use error::Fault;
use input::{FEW, LARGE, Output, Refusal, Sizes, Source, TableRooms};
use std::alloc::AllocError;
use std::io::{Read, Write};
use std::rt::Files;
use std::{fmt, io};

// The stack limit from which on the large rooms are taken: their size, with something over.
const NEEDED: u64 = 188000000;

// Does a task over what was opened, if it could be.
pub fn read<R: Files + Print + Eprint + AllocGlobal, S: Read + Drop>(
    rt: &R,
    limit: u64,
    task: Task,
    source: Option<Source<R::File, S>>,
    out: &mut Output<'_, '_, R>,
) -> Result<(), AllocError> {
    // what is told so far is written first: where there is no memory for the rooms, it is not lost
    let _ = out.flush();
    let Some(mut from) = source else {
        let _ = writeln!(out, "cannot be opened");
        return Ok(());
    };
    if limit < NEEDED {
        return within(rt, FEW, FEW, task, &mut from, out);
    }
    let is_small = match input::size(rt, &mut from) {
        Some(n) => n < FEW.file as u64,
        None => false,
    };
    let first = if is_small { FEW } else { LARGE };
    within(rt, first, LARGE, task, &mut from, out)
}

// Does the task with rooms of the first sizes, behind which those for rows of the last ones may follow for the bytes that were read.
fn within<R: Files + Print + Eprint + AllocGlobal, S: Read>(
    rt: &R,
    first: Sizes,
    last: Sizes,
    task: Task,
    from: &mut Source<R::File, S>,
    out: &mut Output<'_, '_, R>,
) -> Result<(), AllocError> {
    let mut file = input::room(rt.alloc(), 0, first.file)?;
    let n = match whole(rt, from, file.as_mut_slice()) {
        Ok(n) => n,
        Err(why) => {
            let _ = writeln!(out, "{why}");
            return Ok(());
        }
    };
    let bytes = &file[..n];
    let Err(fault) = tell(rt, first, task, bytes, out)? else {
        return Ok(());
    };
    if !matches!(fault, Fault::NoRow(_)) || first.rows == last.rows {
        let _ = put_fault(first, task, bytes, fault, out);
        return Ok(());
    }
    if let Err(fault) = tell(rt, last, task, bytes, out)? {
        let _ = put_fault(last, task, bytes, fault, out);
    }
    Ok(())
}

// Tells what the task finds in a file's bytes, with rooms of these sizes for its rows. Of a refused file nothing is told yet.
fn tell<R: Print + AllocGlobal>(
    rt: &R,
    n: Sizes,
    task: Task,
    file: &[u8],
    out: &mut Output<'_, '_, R>,
) -> Result<Result<(), Fault>, AllocError> {
    let mut tables = TableRooms::new(rt.alloc(), n)?;
    match found::find(task, file, &mut tables) {
        Ok(found) => {
            let _ = found.tell(file, tables.rows.as_slice(), out);
            Ok(Ok(()))
        }
        Err(fault) => Ok(Err(fault)),
    }
}

// Why a file is not read whole.
#[derive(Clone, Copy)]
enum Unread {
    // A read failed behind so many bytes.
    Failed(usize),
    // So many bytes fill the room, which is for one less; and the file's size, if it is told.
    TooLarge(usize, Option<u64>),
}

impl fmt::Display for Unread {
    fn fmt<W: fmt::Write>(&self, f: &mut fmt::Formatter<W>) -> fmt::Result {
        match *self {
            Unread::Failed(n) => write!(f, "cannot be read, after {n} bytes"),
            Unread::TooLarge(n, size) => {
                let most = n.saturating_sub(1);
                let largest = LARGE.file - 1;
                match size {
                    Some(size) => write!(f, "too large: {size} bytes")?,
                    None => write!(f, "too large: {n} or more bytes")?,
                }
                write!(f, ", and there is room for {most}")?;
                if most < largest {
                    write!(
                        f,
                        " (under a larger stack limit, as ./step sets it, for {largest})"
                    )?;
                }
                Ok(())
            }
        }
    }
}

// Reads a file into this room, and answers how many bytes it has. Where a read fails, standard error says why.
fn whole<R: Files + Eprint + Alloc, S: Read>(
    rt: &R,
    from: &mut Source<R::File, S>,
    file: &mut [u8],
) -> Result<usize, Unread>
    ensures { IfOk result (λ n. n ≤ length file.new) }
{
    let got = input::fill(from, file);
    let n = got.count;
    if let Some(error) = got.failed {
        input::fail(rt, "read", error);
        return Err(Unread::Failed(n));
    }
    if n == file.len() {
        return Err(Unread::TooLarge(n, input::size(rt, from)));
    }
    Ok(n)
}

// A refusal: of 8, which speaks of rows that were lent, that the program's room ends and the file may be a good one; of another, where a
// verdict is asked, with the line and the column.
fn put_fault<W: Write>(n: Sizes, task: Task, file: &[u8], f: Fault, out: &mut W) -> io::Result<()> {
    match (f, task) {
        (Fault::NoRow(place), _) => put_too_many(n, place, out),
        (_, Task::Inspect) => {
            let spot = Spot::new(file, f.place());
            writeln!(out, "refused {}, {spot}: {}", Refusal(f), words(f))
        }
        _ => put_refusal(out, f),
    }
}

fn put_too_many<W: Write>(n: Sizes, place: usize, out: &mut W) -> io::Result<()> {
    let headers = table::headers_fit(n.headers);
    let records = table::rows_fit(n.rows);
    let most = table::rows_fit(LARGE.rows);
    write!(
        out,
        "too many records: at {place} the program's own room ends, which is for {headers} header records and {records} data records"
    )?;
    if records < most {
        let headers = table::headers_fit(LARGE.headers);
        write!(
            out,
            " (under a larger stack limit, as ./step sets it, for {headers} header records and {most} data records)"
        )?;
    }
    writeln!(out, "; the file is not refused")
}
