// What a task finds in a file's bytes, and what is said of it.
use crate::command::Task;
use crate::numerals::Decimal;
use crate::{show, shown};
use error::Fault;
use input::{Output, TableRooms};
use scan::Counts;
use statement::RecordSpan;
use std::io;
use std::io::Write;
use units::Values;

#[derive(Clone, Copy)]
pub enum Found {
    // The records, to be listed.
    Records(Counts),
    // That the file is accepted.
    Accepted(Counts),
    // The record that is served for an id, and how many have that id.
    Record(RecordSpan, usize),
    // No record has this id.
    NoRecord(u32),
    Units(Values),
}

// What the task finds. The rooms are lent for header rows, data rows and id slots.
pub fn find(task: Task, file: &[u8], t: &mut TableRooms) -> Result<Found, Fault> {
    let headers = t.headers.as_mut_slice();
    let rows = t.rows.as_mut_slice();
    let slots = t.slots.as_mut_slice();
    match task {
        Task::Scale => Ok(Found::Units(serve::units_of(file, headers, rows, slots)?)),
        Task::Show(id) => {
            let times = times(id, file, headers, rows);
            Ok(match serve::record_of(file, headers, rows, slots, id)? {
                Some(w) => Found::Record(w, times),
                None => Found::NoRecord(id),
            })
        }
        Task::List => Ok(Found::Records(counted(file, headers, rows)?)),
        Task::Inspect => Ok(Found::Accepted(counted(file, headers, rows)?)),
    }
}

fn counted(file: &[u8], headers: &mut [u32], rows: &mut [u32]) -> Result<Counts, Fault> {
    let most = table::rows_fit(rows.len());
    scan::scan(file, headers, rows, most)
}

// How many records of a file have an id: none of one that is refused.
fn times(id: u32, file: &[u8], headers: &mut [u32], rows: &mut [u32]) -> usize {
    match counted(file, headers, rows) {
        Ok(counts) => (0..counts.records)
            .filter(|k| table::read_row(rows, *k).id == id)
            .count(),
        Err(_) => 0,
    }
}

impl Found {
    // Says what was found in these bytes, of which these are the data rows.
    pub fn tell<R: Print>(
        self,
        file: &[u8],
        rows: &[u32],
        out: &mut Output<'_, '_, R>,
    ) -> io::Result<()> {
        match self {
            Found::Records(counts) => list(file, rows, counts, out),
            Found::Accepted(counts) => accepted(file, counts, out),
            Found::Record(w, times) => show::record(file, w, times, out),
            Found::NoRecord(id) => writeln!(out, "no record #{id}"),
            Found::Units(v) => units(v, out),
        }
    }
}

// `records N max M`, and then `ID KEYWORD START END` of each record, the last two of its arguments.
fn list<W: Write>(file: &[u8], rows: &[u32], counts: Counts, out: &mut W) -> io::Result<()> {
    writeln!(out, "records {} max {}", counts.records, counts.max)?;
    for k in 0..counts.records {
        let w = table::read_row(rows, k);
        write!(out, "{} ", w.id)?;
        put_keyword(file, w, out)?;
        writeln!(out, " {} {}", w.args.start, w.args.end)?;
    }
    Ok(())
}

// A record's keyword, or that it is complex.
pub fn put_keyword<W: Write>(file: &[u8], w: RecordSpan, out: &mut W) -> io::Result<()> {
    if w.complex == 1 {
        return write!(out, "(complex)");
    }
    shown::put_part(out, file, w.keyword.start, w.keyword.end)
}

// `accepted: H header records, N data records, largest id M, L bytes`
fn accepted<W: Write>(file: &[u8], counts: Counts, out: &mut W) -> io::Result<()> {
    let headers = counts.headers;
    let records = counts.records;
    let bytes = file.len();
    writeln!(
        out,
        "accepted: {headers} header record{}, {records} data record{}, largest id {}, {bytes} byte{}",
        plural(headers),
        plural(records),
        counts.max,
        plural(bytes)
    )
}

fn plural(n: usize) -> &'static str {
    if n == 1 { "" } else { "s" }
}

// The three values, each in decimal and as its bits, and whether the file gives them.
fn units<W: Write>(v: Values, out: &mut W) -> io::Result<()> {
    let bits = nearest::bits(v.length);
    let length = Decimal(v.length);
    writeln!(out, "length {length} mm per unit (0x{bits:016x})")?;
    let bits = nearest::bits(v.angle);
    let angle = Decimal(v.angle);
    writeln!(out, "angle {angle} rad per unit (0x{bits:016x})")?;
    let bits = nearest::bits(v.tolerance);
    let tolerance = Decimal(v.tolerance);
    writeln!(out, "tolerance {tolerance} (0x{bits:016x})")?;
    if v.resolved {
        return writeln!(out, "resolved: a context of the file gives a length unit");
    }
    writeln!(
        out,
        "unresolved: no context of the file gives a length unit, and these are assumed"
    )
}
