// The line `nine`: what is answered of spans that lie outside the file or run backwards.
use error::Fault;
use input::Refusal;
use kinds::Kind;
use params::State;
use statement::{Range, RecordSpan};
use std::io;
use std::io::Write;

// `nine` and the answers to a span that ends past the file, and to one that runs backwards.
pub fn put_outside<W: Write>(file: &[u8], out: &mut W) -> io::Result<()> {
    write!(out, "nine")?;
    put_span(file, 0, file.len().saturating_add(1), out)?;
    put_span(file, 1, 0, out)?;
    writeln!(out)
}

// The answers of `new`, `skip_n`, `is_empty`, `next_ref`, `args_of`, `keyword` and `complex_part`.
fn put_span<W: Write>(file: &[u8], start: usize, end: usize, out: &mut W) -> io::Result<()> {
    let at = State { place: start, end };
    let span = Range { start, end };
    let row = RecordSpan {
        id: 1,
        keyword: span,
        args: span,
        complex: 0,
    };
    put_answered(params::new(file, start, end), out)?;
    let mut to = at;
    put_answered(params::skip_n(file, &mut to, 0), out)?;
    to = at;
    put_answered(params::is_empty(file, &mut to), out)?;
    to = at;
    put_answered(scalars::next_ref(file, &mut to), out)?;
    put_answered(lookup::args_of(file, row), out)?;
    put_answered(lookup::keyword(file, row), out)?;
    put_answered(parts::complex_part(file, start, end, 1, Kind::Other), out)
}

// ` answered`, whatever it is, or the refusal.
pub fn put_answered<W: Write, T: Drop>(got: Result<T, Fault>, out: &mut W) -> io::Result<()> {
    match got {
        Ok(_) => write!(out, " answered"),
        Err(f) => write!(out, " {}", Refusal(f)),
    }
}
