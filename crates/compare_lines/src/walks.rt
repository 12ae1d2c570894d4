// The walks: of each header row, each simple data row and each part of a complex one, what all readers say at each of its parameters.
use crate::opened::{Opened, state_of};
use crate::readers::{put_lists, put_scalars};
use input::{Refusal, ValueRooms};
use statement::Range;
use std::io;
use std::io::Write;

pub fn put_walks<W: Write>(c: &Opened<'_>, v: &mut ValueRooms, out: &mut W) -> io::Result<()> {
    for i in 0..c.t.headers {
        writeln!(out, "walk h {i}")?;
        put_walk(c.file, table::read_header(c.heads, i).args, v, out)?;
    }
    for i in 0..c.t.records {
        let Some(w) = lookup::entity(c.rows, c.t, i) else {
            break;
        };
        if w.complex == 1 {
            put_parts(c.file, i, w.args, v, out)?;
        } else {
            writeln!(out, "walk r {i}")?;
            put_walk(c.file, w.args, v, out)?;
        }
    }
    Ok(())
}

// All readers at each parameter, up to one that `skip` refuses.
fn put_walk<W: Write>(file: &[u8], args: Range, v: &mut ValueRooms, out: &mut W) -> io::Result<()> {
    let mut at = state_of(args);
    for _ in 0..u64::MAX {
        put_scalars(file, at, out)?;
        put_lists(file, at, usize::MAX, v, out)?;
        match params::skip(file, &mut at) {
            Ok(()) => writeln!(out, "skip @{}", at.place)?,
            Err(f) => return writeln!(out, "skip @{} {}", at.place, Refusal(f)),
        }
    }
    Ok(())
}

// `part I K KS KE AS AE` of each part, and its walk; `part I NO/REASON@PLACE` of a faulty one.
fn put_parts<W: Write>(
    file: &[u8],
    i: usize,
    args: Range,
    v: &mut ValueRooms,
    out: &mut W,
) -> io::Result<()> {
    let mut at = args.start;
    for k in 0..usize::MAX {
        match parts::next_part(file, at, args.end) {
            Ok(Some(p)) => {
                let w = p.keyword;
                let a = p.args;
                writeln!(
                    out,
                    "part {i} {k} {} {} {} {}",
                    w.start, w.end, a.start, a.end
                )?;
                put_walk(file, a, v, out)?;
                // behind the part's `)`
                at = a.end.saturating_add(1);
            }
            Ok(None) => return Ok(()),
            Err(f) => return writeln!(out, "part {i} {}", Refusal(f)),
        }
    }
    Ok(())
}
