// Rows as they are kept beside a file and read again, and the tables in rooms that are too short.
use crate::opened::Opened;
use crate::outside::put_answered;
use crate::shown::Part;
use error::Fault;
use input::{Refusal, TableRooms, ValueRooms};
use lookup::Tables;
use std::io;
use std::io::Write;

// The numbers of a header row, and of a data row; the bytes of a row as it is kept.
const HEADER: usize = 4;

const ROW: usize = 6;

const KEPT: usize = 24;

// The rows as they are kept, and the case as it is read again from them: into the rooms for texts and for references.
pub fn put_kept<W: Write>(c: &Opened<'_>, v: &mut ValueRooms, out: &mut W) -> io::Result<()> {
    let chars = v.chars.as_mut_slice();
    let refs = v.refs.as_mut_slice();
    put_keeps(c, chars, out)?;
    put_reads(c, chars, refs, out)?;
    c.put_scan(out)?;
    c.put_heads(out)?;
    c.put_rows(refs, out)
}

// `kept N HEX`, all; `kept short`, a byte too short; `kept far`, beside a file of no bytes.
fn put_keeps<W: Write>(c: &Opened<'_>, chars: &mut [u8], out: &mut W) -> io::Result<()> {
    let len = c.file.len();
    let n = c.t.records;
    let size = n.saturating_mul(KEPT);
    match rows_kept::keep_rows(len, c.rows, n, chars) {
        Ok(k) => {
            let bytes = Part(&chars[..k.saturating_mul(KEPT).min(chars.len())]);
            writeln!(out, "kept {k} {bytes}")?;
        }
        Err(f) => writeln!(out, "kept {}", Refusal(f))?,
    }
    let short = size.saturating_sub(1).min(chars.len());
    let got = rows_kept::keep_rows(len, c.rows, n, &mut chars[..short]);
    put_count("kept short", got, out)?;
    match rows_kept::keep_rows(0, c.rows, n, chars) {
        Ok(k) => writeln!(out, "kept far {k}"),
        Err(f) => writeln!(out, "kept far {}", Refusal(f)),
    }
}

// `read N`, all; `read cut`, without the last byte; `read short`, a number too short; `read far`, beside a file of no bytes. Of no rows the
// first alone.
fn put_reads<W: Write>(
    c: &Opened<'_>,
    chars: &[u8],
    refs: &mut [u32],
    out: &mut W,
) -> io::Result<()> {
    let len = c.file.len();
    let n = c.t.records;
    let size = n.saturating_mul(KEPT).min(chars.len());
    let bytes = &chars[..size];
    put_count("read", rows_kept::read_rows(len, bytes, refs), out)?;
    if n == 0 {
        return Ok(());
    }
    let cut = &chars[..size.saturating_sub(1)];
    put_count("read cut", rows_kept::read_rows(len, cut, refs), out)?;
    let short = (n.saturating_mul(ROW) - 1).min(refs.len());
    let got = rows_kept::read_rows(len, bytes, &mut refs[..short]);
    put_count("read short", got, out)?;
    put_count("read far", rows_kept::read_rows(0, bytes, refs), out)
}

// How many rows there are, `-` where there is none.
fn put_count<W: Write>(word: &str, got: Result<usize, Fault>, out: &mut W) -> io::Result<()> {
    match got {
        Ok(0) => writeln!(out, "{word} -"),
        Ok(n) => writeln!(out, "{word} {n}"),
        Err(f) => writeln!(out, "{word} {}", Refusal(f)),
    }
}

// `full`, and what is said where there is no room for one header row, one data row or one id slot; `answered` where there was none to spare.
pub fn put_full<W: Write>(
    file: &[u8],
    t: Tables,
    rooms: &mut TableRooms,
    out: &mut W,
) -> io::Result<()> {
    let h = t.headers.saturating_mul(HEADER);
    let r = t.records.saturating_mul(ROW);
    let s = t.records;
    write!(out, "full")?;
    put_answered(open_in(file, rooms, h.saturating_sub(1), r, s), out)?;
    put_answered(open_in(file, rooms, h, r.saturating_sub(1), s), out)?;
    put_answered(open_in(file, rooms, h, r, s.saturating_sub(1)), out)?;
    writeln!(out)
}

// Opens the file in the first numbers of each room.
fn open_in(
    file: &[u8],
    rooms: &mut TableRooms,
    headers: usize,
    rows: usize,
    slots: usize,
) -> Result<Tables, Fault> {
    let h = headers.min(rooms.headers.len());
    let r = rows.min(rooms.rows.len());
    let s = slots.min(rooms.slots.len());
    store::open(
        file,
        &mut rooms.headers[..h],
        &mut rooms.rows[..r],
        &mut rooms.slots[..s],
    )
}
