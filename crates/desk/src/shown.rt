// How parts of a file and refusals are shown.
ghost use Rattle.io.specs.Counts.{IsPrefixLen};

use error::Fault;
use input::Refusal;
use line_column::LineColumn;
use std::io::Write;
use std::{fmt, io};

// A part of a file on one line: a byte below a space, or 127, is put as `\x` and its two hex digits, and the others as they are. A part that is
// not in the file is put as none.
pub fn put_part<W: Write>(out: &mut W, file: &[u8], start: usize, end: usize) -> io::Result<()> {
    // many bytes are put at once, since a call for each takes longer than its digits
    let mut room = [0u8; 256];
    for bytes in file.get(start..end).unwrap_or(&[]).chunks(64) {
        let n = put_shown(bytes, &mut room);
        out.write_all(&room[..n])?;
    }
    Ok(())
}

// Puts bytes as they are shown, as many as there is room for, of four bytes each, and answers how much of the room they take.
fn put_shown(bytes: &[u8], room: &mut [u8]) -> usize
    ensures { IsPrefixLen result room.new }
{
    let mut n = 0;
    for b in bytes {
        if room.len().saturating_sub(n) < 4 {
            break;
        }
        if is_hidden(*b) {
            let code = usize::from(*b);
            room[n] = b'\\';
            room[n + 1] = b'x';
            room[n + 2] = DIGITS[code / 16];
            room[n + 3] = DIGITS[code % 16];
            n += 4;
        } else {
            room[n] = *b;
            n += 1;
        }
    }
    n.min(room.len())
}

const DIGITS: &[u8; 16] = b"0123456789abcdef";

// Whether a byte is below a space, or 127: a line end in a file ends no line.
fn is_hidden(b: u8) -> bool {
    b < b' ' || b == 127
}

// `refused NUMBER/REASON@PLACE: WORDS`
pub fn put_refusal<W: Write>(out: &mut W, f: Fault) -> io::Result<()> {
    writeln!(out, "refused {}: {}", Refusal(f), words(f))
}

// What a refusal means, in the words of document 01's table.
pub fn words(f: Fault) -> &'static str {
    match f {
        Fault::NoMarker => "no Part 21 marker",
        Fault::TooLong => "file too long",
        Fault::OpenComment(_) => "comment open",
        Fault::OpenString(_) => "string open",
        Fault::NoEnd(_) => "record without ;",
        Fault::OpenParen(_) => "parenthesis open",
        Fault::BadRecord(why, _) => reason_words(why),
        Fault::NoRow(_) => "no row left",
        Fault::OutOfFile => "span or kept row outside the file or backwards",
        Fault::NoParameter(_) => "no parameter left",
        Fault::OpenLiteral(_) => "literal open in a parameter",
        Fault::WrongType(_) => "parameter of another type",
        Fault::OutsideClass(_) => "real outside the class",
        Fault::NoRecord => "no record with this id",
        Fault::TooDeep(_) => "unit chain too deep",
        Fault::TooShort(_) => "output too short",
    }
}

// Why a record is bad, by its reason's number, of which a fault holds any; 1 to 7 are those of `Reason`.
fn reason_words(why: u8) -> &'static str {
    match why {
        1 => "bad record: header record without (",
        2 => "bad record: no #",
        3 => "bad record: id above 4294967295",
        4 => "bad record: no digits",
        5 => "bad record: no =",
        6 => "bad record: nothing after =",
        7 => "bad record: no (",
        _ => "bad record",
    }
}

// Where a place of a file stands, as `line L column C`, both from 1.
#[derive(Clone, Copy)]
pub struct Spot(LineColumn);

impl Spot {
    pub fn new(file: &[u8], place: usize) -> Spot {
        match file.get(..place) {
            Some(before) => Spot(line_column::spot(before)),
            None => Spot(LineColumn { line: 0, column: 0 }),
        }
    }
}

impl fmt::Display for Spot {
    fn fmt<W: fmt::Write>(&self, f: &mut fmt::Formatter<W>) -> fmt::Result {
        let line = self.0.line.saturating_add(1);
        let column = self.0.column.saturating_add(1);
        write!(f, "line {line} column {column}")
    }
}
