// What `asks` says: the lines `count`, `i`, `w`, `y`, `c`, `u`, `n`, `short` and `nine`. What a file's rows answer when they are asked by id, by
// row and by kind, and what its records answer one by one.
use crate::opened::{Opened, part_of, put_values, state_of};
use crate::outside::put_outside;
use crate::readers::put_lists;
use crate::shown::Part;
use input::{Refusal, ValueRooms};
use kinds::Kind;
use params::State;
use statement::RecordSpan;
use std::io;
use std::io::Write;

// The kinds in their order.
const ALL_KINDS: [Kind; 12] = [
    Kind::GeometricRepresentationContext,
    Kind::GlobalUnitAssignedContext,
    Kind::GlobalUncertaintyAssignedContext,
    Kind::LengthUnit,
    Kind::PlaneAngleUnit,
    Kind::SolidAngleUnit,
    Kind::SiUnit,
    Kind::ConversionBasedUnit,
    Kind::UncertaintyMeasureWithUnit,
    Kind::LengthMeasureWithUnit,
    Kind::Complex,
    Kind::Other,
];

// All but what needs a room for kept rows, or for tables.
//
// Kept: a case, the rooms and the output are lent one by one. A struct of the three would lend them all to functions that use two.
pub fn put_asked<W: Write>(c: &Opened<'_>, v: &mut ValueRooms, out: &mut W) -> io::Result<()> {
    let is_empty = lookup::is_empty(c.t);
    writeln!(out, "count {} {}", lookup::len(c.t), u8::from(is_empty))?;
    put_by_id(c, v.chars.as_mut_slice(), out)?;
    put_keywords(c, out)?;
    put_by_kind(c, out)?;
    put_records(c, out)?;
    put_reads(c, v, out)?;
    put_outside(c.file, out)
}

// `i ID KIND` of each id that is asked for, `-` where the kind has no name; behind it what `require` says, and then `args`.
fn put_by_id<W: Write>(c: &Opened<'_>, chars: &mut [u8], out: &mut W) -> io::Result<()> {
    for i in 0..usize::MAX {
        let Some(id) = c.wanted(i) else {
            break;
        };
        let kind = lookup::kind_of(c.file, c.rows, c.slots, c.t, id);
        write!(out, "i {id} ")?;
        match kinds::as_str(kind, chars) {
            Some(0) => write!(out, "-")?,
            Some(n) => out.write_all(&chars[..n.min(chars.len())])?,
            None => write!(out, "?")?,
        }
        put_required(c, id, out)?;
        match lookup::args(c.file, c.rows, c.slots, c.t, id) {
            Ok(s) => writeln!(out, " {} {}", s.start, s.end)?,
            Err(f) => writeln!(out, " {}", Refusal(f))?,
        }
    }
    Ok(())
}

// A row's numbers but for its id, or the refusal.
fn put_required<W: Write>(c: &Opened<'_>, id: u32, out: &mut W) -> io::Result<()> {
    match lookup::require(c.rows, c.slots, c.t, id) {
        Ok(w) => {
            let k = w.keyword;
            let a = w.args;
            write!(
                out,
                " {} {} {} {} {}",
                k.start, k.end, a.start, a.end, w.complex
            )
        }
        Err(f) => write!(out, " {}", Refusal(f)),
    }
}

// `w I HEX` of each row: its keyword, `-` where it is complex.
fn put_keywords<W: Write>(c: &Opened<'_>, out: &mut W) -> io::Result<()> {
    for i in 0..c.t.records {
        let Some(w) = lookup::entity(c.rows, c.t, i) else {
            break;
        };
        match lookup::keyword(c.file, w) {
            Ok(s) => writeln!(out, "w {i} {}", Part(part_of(c.file, s.start, s.end)))?,
            Err(f) => writeln!(out, "w {i} {}", Refusal(f))?,
        }
    }
    Ok(())
}

// `y ROWS ROWS ..`: for each kind the rows that `by_kind` gives one after the other, joined by commas, `-` where there is none.
fn put_by_kind<W: Write>(c: &Opened<'_>, out: &mut W) -> io::Result<()> {
    write!(out, "y")?;
    for kind in ALL_KINDS {
        put_rows_of_kind(c, kind, out)?;
    }
    writeln!(out)
}

fn put_rows_of_kind<W: Write>(c: &Opened<'_>, kind: Kind, out: &mut W) -> io::Result<()> {
    let mut from = 0;
    for _ in 0..u64::MAX {
        match lookup::by_kind(c.file, c.rows, c.t, kind, from) {
            Some(i) => {
                write!(out, "{}{i}", if from == 0 { " " } else { "," })?;
                from = i.saturating_add(1);
            }
            None => {
                return if from == 0 { write!(out, " -") } else { Ok(()) };
            }
        }
    }
    Ok(())
}

// `c I` and for each kind where the arguments of the first part of that kind start and end, `-` where there is none, or the refusal.
// Then `u I` and the units of the record as a context.
fn put_records<W: Write>(c: &Opened<'_>, out: &mut W) -> io::Result<()> {
    for i in 0..c.t.records {
        let Some(w) = lookup::entity(c.rows, c.t, i) else {
            break;
        };
        write!(out, "c {i}")?;
        for kind in ALL_KINDS {
            put_part(c.file, w, kind, out)?;
        }
        write!(out, "\nu {i}")?;
        let units = units::units_of_context(c.file, c.rows, c.slots, c.t, w);
        put_values(units, out)?;
    }
    Ok(())
}

fn put_part<W: Write>(file: &[u8], w: RecordSpan, kind: Kind, out: &mut W) -> io::Result<()> {
    match parts::complex_part(file, w.args.start, w.args.end, w.complex, kind) {
        Ok(Some(p)) => write!(out, " {}:{}", p.args.start, p.args.end),
        Ok(None) => write!(out, " -"),
        Err(f) => write!(out, " {}", Refusal(f)),
    }
}

// Of each row's arguments what is said of 0, 1, 2 and 5 parameters, and the readers in rooms for one.
fn put_reads<W: Write>(c: &Opened<'_>, v: &mut ValueRooms, out: &mut W) -> io::Result<()> {
    for i in 0..c.t.headers {
        let at = state_of(table::read_header(c.heads, i).args);
        put_row_reads(c.file, 'h', i, at, v, out)?;
    }
    for i in 0..c.t.records {
        let Some(w) = lookup::entity(c.rows, c.t, i) else {
            break;
        };
        put_row_reads(c.file, 'r', i, state_of(w.args), v, out)?;
    }
    Ok(())
}

// `n h I` or `n r I`, and what `skip_n` and then `is_empty` say; then `short h I` or `short r I`, and the readers that need a room.
fn put_row_reads<W: Write>(
    file: &[u8],
    table: char,
    i: usize,
    at: State,
    v: &mut ValueRooms,
    out: &mut W,
) -> io::Result<()> {
    write!(out, "n {table} {i}")?;
    for n in [0, 1, 2, 5] {
        put_skips(file, at, n, out)?;
    }
    writeln!(out, "\nshort {table} {i}")?;
    put_lists(file, at, 1, v, out)
}

// ` @P`, and `!NO/REASON@PLACE` where it is refused: n parameters skipped. Then, from there, `,1@P` where no parameter is left, `,0@P` where
// one is, and where the reader then stands; or the refusal.
fn put_skips<W: Write>(file: &[u8], at: State, n: usize, out: &mut W) -> io::Result<()> {
    let mut to = at;
    let skipped = params::skip_n(file, &mut to, n);
    write!(out, " @{}", to.place)?;
    if let Err(f) = skipped {
        write!(out, "!{}", Refusal(f))?;
    }
    match params::is_empty(file, &mut to) {
        Ok(yes) => write!(out, ",{}@{}", u8::from(yes), to.place),
        Err(f) => write!(out, "!{}", Refusal(f)),
    }
}
