// The argument reader's scalars: references, integers, reals, measures and booleans.
//
// As the readers `next_..` of the Rust's value.rs that give one value. Each cuts the next parameter and reads its bytes; a parameter
// that is none of its kind is passed all the same, and the refusal stands at its start.
#![tactic(auto)]

ghost use Rattle.std.specs.Prelude.{◌≡◌, ◌+◌, ◌-◌, ◌≤◌, ◌<◌, length, take, drop};
ghost use Rattle.lex.specs.Byte.{white};
ghost use Rattle.record.specs.Text.{past};
ghost use Rattle.record.specs.Word.{trimmed};
ghost use Rattle.reals.specs.Scalar.{reference_of, whole_of, real_of};
ghost use Rattle.reals.specs.Which.{real_by};
ghost use Rattle.reals.specs.Answer.{told_real};
ghost use Rattle.error.specs.Refusal.{told, refusal};
ghost use Rattle.params.specs.Answer.{told_read};
ghost use Rattle.scalars.specs.Scalars.{unopening, InnerAt, measure_by, measure_of, is_unset, option_of, told_truth, truth_of};
ghost use Rattle.scalars.specs.Answer.{next_of, number_of, told_read_real, told_read_opt_real};

use error::Fault;
use params::{Span, State};
use reals::{NotRead, Reals};

// What `.T.`, `.F.` and `.U.` say.
#[derive(Clone, Copy, PartialEq, Eq)]
pub enum Truth {
    True,
    False,
    Unknown,
}

// What is left of a text without the whitespace at its ends.
pub fn trim(b: &[u8]) -> Span
    ensures b_value { drop result.start b.now ≡ past white b.now }
    ensures b_value_2 { take (result.stop - result.start) (drop result.start b.now) ≡ trimmed b.now }
    ensures start_le_stop { (result.start ≤ result.stop) × (result.stop ≤ length b.now) }
{
    let start = record::leading_space(b);
    let stop = record::trail_at(b, start);
    Span { start, stop }
}

// The place of the first `(`, or the text's length.
fn first_open(t: &[u8]) -> usize
    ensures t_value { drop result t.now ≡ past unopening t.now }
    ensures upper_bound { result ≤ length t.now }
{
    for i in 0..t.len() {
        if t[i] == b'(' {
            return i;
        }
    }
    t.len()
}

// What stands between the first `(` and a `)` at the end.
fn inner_of(t: &[u8]) -> Option<Span>
    ensures { InnerAt t.now result }
{
    let from = first_open(t) + 1;
    let n = t.len();
    if n <= from {
        return None;
    }
    if t[n - 1] != b')' {
        return None;
    }
    let w = trim(&t[from..n - 1]);
    Some(Span {
        start: from + w.start,
        stop: from + w.stop,
    })
}

// Reads a measure, its real of the class or any.
fn parse_measure(which: Reals, t: &[u8]) -> Result<f64, NotRead>
    ensures { told_real result ≡ measure_by (real_by which) t.now }
{
    let bare = reals::read_real(which, t);
    let Err(NotRead::NotReal) = bare else {
        return bare;
    };
    match inner_of(t) {
        Some(w) => reals::read_real(which, &t[w.start..w.stop]),
        None => bare,
    }
}

fn is_unset(t: &[u8]) -> bool
    ensures { result ≡ is_unset t.now }
{
    t == b"$".as_slice()
}

fn parse_truth(t: &[u8]) -> Option<Truth>
    ensures { told_truth result ≡ truth_of t.now }
{
    if t == b".T.".as_slice() {
        return Some(Truth::True);
    }
    if t == b".F.".as_slice() {
        return Some(Truth::False);
    }
    if t == b".U.".as_slice() {
        return Some(Truth::Unknown);
    }
    None
}

// The refusal of a real that is not read: 12 or 13, at the place of its parameter or item.
pub fn refused_real(why: NotRead, place: usize) -> Fault
    ensures { told result ≡ refusal (number_of why) 0 place }
{
    match why {
        NotRead::Outside => Fault::OutsideClass(place),
        NotRead::NotReal => Fault::WrongType(place),
    }
}

// Reads a reference.
// Kept: beside `next_i64`, since each is two lines; a call of one function over a closure is no shorter.
pub fn next_ref(file: &[u8], at: &mut State) -> Result<u32, Fault>
    ensures { told_read result at.new ≡ next_of reference_of file.now at.old.place at.old.end }
{
    let w = params::param_span(file, at)?;
    reals::parse_ref(&file[w.start..w.stop]).ok_or(Fault::WrongType(w.start))
}

// Reads a reference, or `$`.
pub fn next_opt_ref(file: &[u8], at: &mut State) -> Result<Option<u32>, Fault>
    ensures { told_read result at.new ≡ next_of (option_of reference_of) file.now at.old.place at.old.end }
{
    let w = params::param_span(file, at)?;
    let t = &file[w.start..w.stop];
    if is_unset(t) {
        return Ok(None);
    }
    match reals::parse_ref(t) {
        Some(n) => Ok(Some(n)),
        None => Err(Fault::WrongType(w.start)),
    }
}

// Reads an integer.
pub fn next_i64(file: &[u8], at: &mut State) -> Result<i64, Fault>
    ensures { told_read result at.new ≡ next_of whole_of file.now at.old.place at.old.end }
{
    let w = params::param_span(file, at)?;
    reals::parse_int(&file[w.start..w.stop]).ok_or(Fault::WrongType(w.start))
}

// Reads a real, of the class or any; an integer is one too.
pub fn next_real(which: Reals, file: &[u8], at: &mut State) -> Result<f64, Fault>
    ensures { told_read_real result at.new ≡ next_of (real_by which) file.now at.old.place at.old.end }
{
    let w = params::param_span(file, at)?;
    match reals::read_real(which, &file[w.start..w.stop]) {
        Ok(x) => Ok(x),
        Err(why) => Err(refused_real(why, w.start)),
    }
}

// Reads a real of the class.
pub fn next_f64(file: &[u8], at: &mut State) -> Result<f64, Fault>
    ensures { told_read_real result at.new ≡ next_of real_of file.now at.old.place at.old.end }
{
    next_real(Reals::Class, file, at)
}

// Reads a real, of the class or any, or `$`.
pub fn next_opt_real(which: Reals, file: &[u8], at: &mut State) -> Result<Option<f64>, Fault>
    ensures { told_read_opt_real result at.new ≡ next_of (option_of (real_by which)) file.now at.old.place at.old.end }
{
    let w = params::param_span(file, at)?;
    let t = &file[w.start..w.stop];
    if is_unset(t) {
        return Ok(None);
    }
    match reals::read_real(which, t) {
        Ok(x) => Ok(Some(x)),
        Err(why) => Err(refused_real(why, w.start)),
    }
}

// Reads a real of the class, or `$`.
pub fn next_opt_f64(file: &[u8], at: &mut State) -> Result<Option<f64>, Fault>
    ensures { told_read_opt_real result at.new ≡ next_of (option_of real_of) file.now at.old.place at.old.end }
{
    next_opt_real(Reals::Class, file, at)
}

// Reads a measure: a real, of the class or any, or one in parentheses after a keyword.
pub fn next_measure(which: Reals, file: &[u8], at: &mut State) -> Result<f64, Fault>
    ensures { told_read_real result at.new ≡ next_of (measure_by (real_by which)) file.now at.old.place at.old.end }
{
    let w = params::param_span(file, at)?;
    match parse_measure(which, &file[w.start..w.stop]) {
        Ok(x) => Ok(x),
        Err(why) => Err(refused_real(why, w.start)),
    }
}

// Reads a measure with a real of the class.
pub fn next_measure_f64(file: &[u8], at: &mut State) -> Result<f64, Fault>
    ensures { told_read_real result at.new ≡ next_of measure_of file.now at.old.place at.old.end }
{
    next_measure(Reals::Class, file, at)
}

// Reads a boolean.
pub fn next_bool(file: &[u8], at: &mut State) -> Result<Truth, Fault>
    ensures { told_read result at.new ≡ next_of truth_of file.now at.old.place at.old.end }
{
    let w = params::param_span(file, at)?;
    parse_truth(&file[w.start..w.stop]).ok_or(Fault::WrongType(w.start))
}
