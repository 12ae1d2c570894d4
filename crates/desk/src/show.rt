// What is said of one record: where it stands, its parameters, and of a complex one its parts.
ghost use Rattle.desk.specs.Superseded.{Superseded};

use crate::found::put_keyword;
use crate::shown::{Spot, put_part, put_refusal};
use error::Fault;
use input::Output;
use params::State;
use printing::Pen;
use statement::{Range, RecordSpan};
use std::io;
use std::io::Write;

// `#ID KEYWORD`, and on the next line `arguments START to END, line L column C`; then all that stands in it.
pub fn record<R: Print>(
    file: &[u8],
    w: RecordSpan,
    times: usize,
    out: &mut Output<'_, '_, R>,
) -> io::Result<()> {
    let args = w.args;
    write!(out, "#{} ", w.id)?;
    put_keyword(file, w, out)?;
    let spot = Spot::new(file, args.start);
    writeln!(out, "\narguments {} to {}, {spot}", args.start, args.end)?;
    let pen = out.pen;
    out.pen = superseded(out.rt, out.buffer, pen, times);
    if w.complex == 1 {
        return parts(file, args, out);
    }
    parameters(file, args, out)
}

// Where an id stands more than once, that its last record is shown.
fn superseded<R: Print>(rt: &R, out: &mut [u8], pen: Pen, n: usize) -> Pen
    ensures { Superseded out.old pen.used n out.new result.used }
{
    if n < 2 {
        return pen;
    }
    let a = printing::bytes(rt, out, pen, b"the last of ");
    let b = printing::decimal(rt, out, a, n as u64);
    printing::bytes(rt, out, b, b" records with this id\n")
}

// `part KEYWORD, arguments START to END` of each part, and its parameters.
fn parts<W: Write>(file: &[u8], args: Range, out: &mut W) -> io::Result<()> {
    let mut at = args.start;
    for number in 1..u64::MAX {
        match parts::next_part(file, at, args.end) {
            Ok(Some(p)) => {
                write!(out, "part ")?;
                put_part(out, file, p.keyword.start, p.keyword.end)?;
                writeln!(out, ", arguments {} to {}", p.args.start, p.args.end)?;
                parameters(file, p.args, out)?;
                // behind the part's `)`
                at = p.args.end.saturating_add(1);
            }
            Ok(None) => {
                return if number == 1 {
                    writeln!(out, "no parts")
                } else {
                    Ok(())
                };
            }
            Err(f) => return put_refusal(out, f),
        }
    }
    Ok(())
}

// `  NUMBER at START: BYTES` of each parameter; why there is no further one, where there is more to say than that they are over.
fn parameters<W: Write>(file: &[u8], args: Range, out: &mut W) -> io::Result<()> {
    let mut at = State {
        place: args.start,
        end: args.end,
    };
    for number in 1..u64::MAX {
        match params::param_span(file, &mut at) {
            Ok(span) => {
                write!(out, "  {number} at {}: ", span.start)?;
                put_part(out, file, span.start, span.stop)?;
                writeln!(out)?;
            }
            Err(Fault::NoParameter(_)) => {
                return if number == 1 {
                    writeln!(out, "  no parameters")
                } else {
                    Ok(())
                };
            }
            Err(f) => return put_refusal(out, f),
        }
    }
    Ok(())
}
