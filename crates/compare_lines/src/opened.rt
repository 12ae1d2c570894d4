// A case whose tables are built, and what `answers` says of it: the lines `scan`, `h`, `r`, `l`, `f`, `name`, `system` and `units`.
use crate::shown::{Bits, Part};
use error::Fault;
use input::Refusal;
use lookup::Tables;
use params::State;
use statement::Range;
use std::io;
use std::io::Write;
use units::Values;
use words::Text;

// The file's bytes, its tables and what was lent for them.
#[derive(Clone, Copy)]
pub struct Opened<'a> {
    pub file: &'a [u8],
    pub heads: &'a [u32],
    pub rows: &'a [u32],
    pub slots: &'a [u64],
    pub t: Tables,
}

impl Opened<'_> {
    // `scan H R MAX`
    pub fn put_scan<W: Write>(&self, out: &mut W) -> io::Result<()> {
        let t = self.t;
        writeln!(out, "scan {} {} {}", t.headers, t.records, t.max)
    }

    // `h I KS KE AS AE` of each header row.
    pub fn put_heads<W: Write>(&self, out: &mut W) -> io::Result<()> {
        for i in 0..self.t.headers {
            let w = table::read_header(self.heads, i);
            let k = w.keyword;
            let a = w.args;
            writeln!(out, "h {i} {} {} {} {}", k.start, k.end, a.start, a.end)?;
        }
        Ok(())
    }

    // `r I ID KS KE AS AE C` of each data row, as it stands in these rows.
    pub fn put_rows<W: Write>(&self, rows: &[u32], out: &mut W) -> io::Result<()> {
        for i in 0..self.t.records {
            let Some(w) = lookup::entity(rows, self.t, i) else {
                break;
            };
            let k = w.keyword;
            let a = w.args;
            write!(out, "r {i} {} {} {}", w.id, k.start, k.end)?;
            writeln!(out, " {} {} {}", a.start, a.end, w.complex)?;
        }
        Ok(())
    }

    // An id that is asked for: the ids of all records, in file order; then 0, 1, the largest id and one where there is such an id, and the
    // largest number there is.
    pub fn wanted(&self, i: usize) -> Option<u32> {
        if i < self.t.records {
            return Some(lookup::entity(self.rows, self.t, i)?.id);
        }
        let max = self.t.max;
        match i - self.t.records {
            0 => Some(0),
            1 => Some(1),
            2 => Some(max.saturating_add(1)),
            3 if max < u32::MAX => Some(u32::MAX),
            _ => None,
        }
    }

    // `l ID J`, or `l ID none`
    fn put_ids<W: Write>(&self, out: &mut W) -> io::Result<()> {
        for i in 0..usize::MAX {
            let Some(id) = self.wanted(i) else {
                break;
            };
            match index::get(self.rows, self.slots, self.t.ids, id) {
                Some(row) => writeln!(out, "l {id} {row}")?,
                None => writeln!(out, "l {id} none")?,
            }
        }
        Ok(())
    }

    // `f KEYWORD I`, or `f KEYWORD none`
    fn put_find<W: Write>(&self, word: &str, out: &mut W) -> io::Result<()> {
        match headers::header_row(self.file, self.heads, self.t, word.as_bytes()) {
            Some(row) => writeln!(out, "f {word} {row}"),
            None => writeln!(out, "f {word} none"),
        }
    }

    // `units LENGTH ANGLE TOLERANCE RESOLVED`, or `units NO/REASON@PLACE`
    fn put_units<W: Write>(&self, out: &mut W) -> io::Result<()> {
        write!(out, "units")?;
        put_values(
            units::resolve(self.file, self.rows, self.slots, self.t),
            out,
        )
    }
}

// The three reals one after the other, and 1 where a length unit was found, else 0; or the refusal.
pub fn put_values<W: Write>(got: Result<Values, Fault>, out: &mut W) -> io::Result<()> {
    match got {
        Ok(v) => {
            write!(out, " {} {}", Bits(v.length), Bits(v.angle))?;
            writeln!(out, " {} {}", Bits(v.tolerance), u8::from(v.resolved))
        }
        Err(f) => writeln!(out, " {}", Refusal(f)),
    }
}

// `name HEX` or `system HEX`, or the refusal.
fn put_title<W: Write>(
    word: &str,
    c: &Opened<'_>,
    got: Result<Text, Fault>,
    chars: &[u8],
    out: &mut W,
) -> io::Result<()> {
    match got {
        Ok(text) => writeln!(out, "{word} {}", Part(text_bytes(c.file, text, chars))),
        Err(f) => writeln!(out, "{word} {}", Refusal(f)),
    }
}

// A part of a file; none where it is not in it.
pub fn part_of<'a>(file: &'a [u8], start: usize, end: usize) -> &'a [u8] {
    file.get(start..end).unwrap_or(&[])
}

// The bytes of a text: of the file, or of the room for texts.
pub fn text_bytes<'a>(file: &'a [u8], text: Text, chars: &'a [u8]) -> &'a [u8] {
    match text {
        Text::InFile(part) => part_of(file, part.start, part.stop),
        Text::InRoom(n) => chars.get(..n).unwrap_or(&[]),
    }
}

// Where arguments stand, for the readers.
pub fn state_of(args: Range) -> State {
    State {
        place: args.start,
        end: args.end,
    }
}

// The tables' rows, the row of each id, the header's searches, its texts, the units.
pub fn put_answers<W: Write>(c: &Opened<'_>, chars: &mut [u8], out: &mut W) -> io::Result<()> {
    c.put_scan(out)?;
    c.put_heads(out)?;
    c.put_rows(c.rows, out)?;
    c.put_ids(out)?;
    c.put_find("FILE_NAME", out)?;
    c.put_find("file_schema", out)?;
    c.put_find("File_Description", out)?;
    c.put_find("NOPE", out)?;
    let name = file_name_texts::file_name(c.file, c.heads, c.t, chars);
    put_title("name", c, name, chars, out)?;
    let system = file_name_texts::originating_system(c.file, c.heads, c.t, chars);
    put_title("system", c, system, chars, out)?;
    c.put_units(out)
}
