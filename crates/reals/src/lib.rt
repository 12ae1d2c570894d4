// Scalars of a parameter: reals, integers and references.
//
// Each takes the trimmed bytes of one parameter or item. As the Rust's parse_f64, parse_i64 and parse_ref, with
// the float's reading as own code. Of the class, most reals are one product or quotient of two exact f64s, so that they are rounded once, and the
// crate `nearest` says what that gives; the others of the class are answered by the crate `wide_reals`. Where any real is asked for, whole numbers alone
// answer it: up to nineteen digits by `wide_reals`, more by `long_reals`.
#![tactic(auto)]

ghost use Rattle.std.specs.Prelude.{◌≡◌, ◌+◌, ◌*◌, ◌-◌, ◌≤◌, ◌<◌, ◌^◌, min, true, false, ◌&&◌, length, drop, leb};
ghost use Rattle.std.specs.Float.{binary64};
ghost use Rattle.std.specs.Float.Ieee.{to_bits};
ghost use Rattle.common.specs.Pick.{pick};
ghost use Rattle.record.specs.Byte.{digit};
ghost use Rattle.nearest.specs.Near.{near};
ghost use Rattle.nearest.specs.Power.{near_by};
ghost use Rattle.nearest.specs.Nearest.{signed};
ghost use Rattle.nearest.specs.Product.{worth_of, finite};
ghost use Rattle.reals.specs.Scalar.{real_of, ScaleAt, ReachOf, whole_of, integer_in_range, reference_of, unsigned, is_minus, NumberAt, PlainAt, DecimalAt, TensAt, InClass, mantissa_bound};
ghost use Rattle.reals.specs.Which.{real_by};
ghost use Rattle.reals.specs.Answer.{told_real, told_whole, told_reference, farthest, read, refused};
ghost use Rattle.long_reals.specs.Number.{number_in};
ghost use Rattle.reals.specs.DigitLoop.{RunAt, RunFits, RunAdded};

// Which reals are answered: those of the class, as document 01 and #101 have it, or any.
#[derive(Clone, Copy)]
pub enum Reals {
    Class,
    Any,
}

// Why a text is not read as a real.
#[derive(Clone, Copy, PartialEq, Eq)]
pub enum NotRead {
    // 13: a real, but not of the class.
    Outside,
    // 12.
    NotReal,
}

// The class's two bounds, `longest` and `farthest` of specs/Answer.antt: m has at most 19 digits, so this is one more than the largest m, and
// -27 <= e <= 27.
const MOST: u64 = 10000000000000000000;

const FARTHEST: usize = 27;

// Exponents from here on count as this one: no text is long enough for its fraction to make up for it.
const LARGEST: u64 = 0xffff_ffff_ffff_ffff;

// Kept: from here on `t` and `at` go together, and five contracts ask `at ≤ length t`. A text cut at the place is no plainer: each answer is a place in the
// whole text, so every caller would add where it had cut. A struct of both, with that fact as a ghost field, is none either: of each answer (`Number`,
// `Decimal`) only the place goes on, so each caller would build the struct anew and prove the fact there, as it does now for the clause.
fn minus_at(t: &[u8], at: usize) -> bool
    ensures { result ≡ is_minus (drop at t.now) }
{
    at < t.len() && t[at] == b'-'
}

// The place after an optional sign.
fn past_sign(t: &[u8], at: usize) -> usize
    requires { at ≤ length t.now }
    ensures { (drop result t.now ≡ unsigned (drop at t.now)) × (result ≤ length t.now) × (at ≤ result) }
{
    if at < t.len() {
        let c = t[at];
        if (c == b'+') | (c == b'-') {
            return at + 1;
        }
    }
    at
}

// A number with some digits more, which make v and move it up by `scale`; or the cap: so that digits without end neither wrap nor count as few.
fn with_digits(n: u64, v: u64, scale: u64, cap: u64) -> u64
    requires { (v < scale) × (n ≤ cap) }
    ensures { result ≡ min cap (n * scale + v) }
{
    let upper = cap / scale;
    if n < upper {
        return n * scale + v;
    }
    if n == upper {
        if v < cap % scale {
            return n * scale + v;
        }
    }
    cap
}

fn with_digit(n: u64, c: u8, cap: u64) -> u64
    requires { (48 ≤ c) × (c ≤ 57) × (n ≤ cap) }
    ensures { result ≡ min cap (n * 10 + (c - 48)) }
{
    with_digits(n, (c - 48) as u64, 10, cap)
}

// A number and the place after its digits.
#[derive(Clone, Copy)]
struct Number {
    value: u64,
    next: usize,
}

// Reads on with the digits from a place.
fn digits_from(t: &[u8], at: usize, from: u64, cap: u64) -> Number
    requires { (at ≤ length t.now) × (from ≤ cap) }
    ensures { NumberAt t.now at from cap result }
{
    let mut n = from;
    for i in at..t.len() {
        let c = t[i];
        if !record::is_digit(c) {
            return Number { value: n, next: i };
        }
        n = with_digit(n, c, cap);
    }
    Number {
        value: n,
        next: t.len(),
    }
}

// Whether four bytes are digits.
fn are_digits(a: u8, b: u8, c: u8, d: u8) -> bool
    ensures { result ≡ (digit a && digit b) && (digit c && digit d) }
{
    (record::is_digit(a) & record::is_digit(b)) & (record::is_digit(c) & record::is_digit(d))
}

// The number that four digits make; `0` is 48, so that 53328 is what four of them have too much.
fn four_value(a: u8, b: u8, c: u8, d: u8) -> u64
    requires { (48 ≤ a) × (48 ≤ b) × (48 ≤ c) × (48 ≤ d) }
    ensures { result ≡ (a - 48) * 1000 + (b - 48) * 100 + (c - 48) * 10 + (d - 48) }
{
    (a as u64 * 1000 + b as u64 * 100) + (c as u64 * 10 + d as u64) - 53328
}

// The number of four digits from a place, where so many stand there. They do not wait for each other, as digits one by one do.
fn four_at(t: &[u8], at: usize) -> Option<u64>
    requires { at ≤ length t.now }
    ensures { RunAt t.now at 4 result }
{
    if t.len() - at < 4 {
        return None;
    }
    let a = t[at];
    let b = t[at + 1];
    let c = t[at + 2];
    let d = t[at + 3];
    if are_digits(a, b, c, d) {
        return Some(four_value(a, b, c, d));
    }
    None
}

// The number of eight digits from a place, where so many stand there.
fn eight_at(t: &[u8], at: usize) -> Option<u64>
    requires { at ≤ length t.now }
    ensures { RunAt t.now at 8 result }
{
    if t.len() - at < 8 {
        return None;
    }
    let Ok(bytes) = <&[u8; 8]>::try_from(&t[at..at + 8]) else {
        return None;
    };
    eights::number(bytes)
}

// A number with n digits more, which move it up by `scale`; or as it is, where there are none.
fn with_run(d: Number, run: Option<u64>, n: usize, scale: u64, cap: u64) -> Number
    requires { (d.value ≤ cap) × RunFits d.next n scale run }
    ensures { RunAdded d n scale cap run result }
{
    match run {
        Some(v) => Number {
            value: with_digits(d.value, v, scale, cap),
            next: d.next + n,
        },
        None => d,
    }
}

// Reads on with the digits from a place, of which there may be many, as in a fraction: twice eight, four, then one by one. No loop over the eights: with one,
// the compiler keeps so much at hand for it that the short fractions, which most are, take longer.
fn many_digits_from(t: &[u8], at: usize, from: u64, cap: u64) -> Number
    requires { (at ≤ length t.now) × (from ≤ cap) }
    ensures { NumberAt t.now at from cap result }
{
    let first = Number {
        value: from,
        next: at,
    };
    let d = with_run(first, eight_at(t, at), 8, 100000000, cap);
    let e = with_run(d, eight_at(t, d.next), 8, 100000000, cap);
    let g = with_run(e, four_at(t, e.next), 4, 10000, cap);
    digits_from(t, g.next, g.value, cap)
}

// All digits' number, how many stand after the point, and the place after them.
#[derive(Clone, Copy)]
struct Decimal {
    value: u64,
    places: usize,
    next: usize,
}

// Reads on with an optional point and its digits.
fn fraction_from(t: &[u8], at: usize, from: u64) -> Decimal
    requires { (at ≤ length t.now) × (from ≤ mantissa_bound) }
    ensures { DecimalAt t.now at from result }
{
    if at < t.len() {
        if t[at] == b'.' {
            let r = many_digits_from(t, at + 1, from, MOST);
            return Decimal {
                value: r.value,
                places: r.next - (at + 1),
                next: r.next,
            };
        }
    }
    Decimal {
        value: from,
        places: 0,
        next: at,
    }
}

// The number of a text's rest, where it is digits only, at least one; or the cap.
fn plain_from(t: &[u8], at: usize, cap: u64) -> Option<u64>
    requires { at ≤ length t.now }
    ensures { PlainAt (drop at t.now) cap result }
{
    let d = digits_from(t, at, 0, cap);
    if (d.next == t.len()) & (at < t.len()) {
        return Some(d.value);
    }
    None
}

// A power of ten: its exponent's size, and whether that is negative.
// Kept: `down` is the sign of `size`, which counts either way; `near_by` of nearest/specs/Power takes the two so.
#[derive(Clone, Copy)]
struct Power {
    down: bool,
    size: usize,
}

// The exponent that the rest of the text is, where it is well formed; none is 0.
fn tens_from(t: &[u8], at: usize) -> Option<Power>
    requires { at ≤ length t.now }
    ensures { TensAt (drop at t.now) result }
{
    if at == t.len() {
        return Some(Power {
            down: false,
            size: 0,
        });
    }
    let c = t[at];
    if (c == b'E') | (c == b'e') {
        let u = past_sign(t, at + 1);
        let size = plain_from(t, u, LARGEST)?;
        return Some(Power {
            down: minus_at(t, at + 1),
            size: size as usize,
        });
    }
    None
}

// The powers of ten that an f64 holds exactly.
static POWERS_OF_TEN: [f64; 23] = [
    1e0, 1e1, 1e2, 1e3, 1e4, 1e5, 1e6, 1e7, 1e8, 1e9, 1e10, 1e11, 1e12, 1e13, 1e14, 1e15, 1e16,
    1e17, 1e18, 1e19, 1e20, 1e21, 1e22,
];

fn power_of_ten(k: usize) -> f64
    requires { k < 23 }
    ensures { worth_of (to_bits binary64 result) ≡ finite false (10 ^ k * 2 ^ 1074) }
{
    POWERS_OF_TEN[k]
}

// The number with its sign, which zero has too.
fn exact(neg: bool, m: u64) -> f64
    requires { m ≤ 2 ^ 53 }
    ensures { worth_of (to_bits binary64 result) ≡ finite neg (m * 2 ^ 1074) }
{
    let x = m as f64;
    if neg {
        return -x;
    }
    x
}

// An f64 holds every whole number up to 2^53 and every power of ten up to 10^22: so far the short path goes.
const WHOLE: u64 = 0x20_0000_0000_0000;

const POWER: usize = 22;

// The f64 nearest to m * 10^k, or to m / 10^k, by the wide path: a function of its own, so that the compiler leaves it out of the way of the
// short path.
fn by_wide(neg: bool, m: u64, p: Power) -> f64
    ensures { to_bits binary64 result ≡ signed neg (near_by p.down m p.size) }
{
    if p.down {
        return wide_reals::lowered(neg, m, p.size);
    }
    wide_reals::raised(neg, m, p.size)
}

// The f64 nearest to m by a power of ten, by the short path where both are f64s, as in most files: their product or quotient is rounded once. The
// wide path would answer the same (specs/Agree.antt).
fn scaled(neg: bool, m: u64, p: Power) -> f64
    ensures { to_bits binary64 result ≡ signed neg (near_by p.down m p.size) }
{
    if (m <= WHOLE) & (p.size <= POWER) {
        let x = exact(neg, m);
        let y = power_of_ten(p.size);
        if p.down {
            return nearest::over(x, y);
        }
        return nearest::times(x, y);
    }
    by_wide(neg, m, p)
}

// The power of ten that a real's digits are multiplied by, of an exponent e and f fraction digits. Where it would be larger than a number is here, the
// largest stands for it: that far, all answers are zeros and infinities. Where nothing is left over they are multiplied, by 1: where that needs the wide
// path, a division takes longer.
fn less_places(e: Power, f: usize) -> Power
    requires { f < 2 ^ 63 }
    ensures near { ScaleAt f e.down e.size result }
    ensures reach { ReachOf f e.down e.size result }
{
    if e.down {
        return Power {
            down: true,
            size: e.size.saturating_add(f),
        };
    }
    if f <= e.size {
        return Power {
            down: false,
            size: e.size - f,
        };
    }
    Power {
        down: true,
        size: f - e.size,
    }
}

// The f64 nearest to a real with m, the digits t and a power of ten. The digits themselves are asked only where m does not hold them all.
fn any_real(neg: bool, t: &[u8], m: u64, p: Power) -> f64
    requires { m ≡ min mantissa_bound (number_in 0 t.now) }
    ensures { to_bits binary64 result ≡ signed neg (near_by p.down (number_in 0 t.now) p.size) }
{
    if m < MOST {
        return by_wide(neg, m, p);
    }
    long_reals::decimal(neg, t, p.down, p.size)
}

// The answer for a real of the class with m and a power of ten.
fn in_class(neg: bool, m: u64, p: Power) -> Result<f64, NotRead>
    ensures { InClass neg m p result }
{
    if (m < MOST) & (p.size <= FARTHEST) {
        return Ok(scaled(neg, m, p));
    }
    Err(NotRead::Outside)
}

// Reads a real, of the class or any.
pub fn read_real(which: Reals, t: &[u8]) -> Result<f64, NotRead>
    ensures { told_real result ≡ real_by which t.now }
{
    let neg = minus_at(t, 0);
    let a = past_sign(t, 0);
    let w = digits_from(t, a, 0, MOST);
    let point = w.next;
    let d = fraction_from(t, point, w.value);
    if (point == a) & (d.places == 0) {
        return Err(NotRead::NotReal);
    }
    let end = d.next;
    let Some(e) = tens_from(t, end) else {
        return Err(NotRead::NotReal);
    };
    let p = less_places(e, d.places);
    // Kept: one match on an enum. A closure in place of `which` would go through every list's and grid's reader down to here.
    match which {
        Reals::Class => in_class(neg, d.value, p),
        Reals::Any => Ok(any_real(neg, &t[a..end], d.value, p)),
    }
}

// Reads a real of the class.
// Kept: it is `read_real` of the class, but the one that docs/DESIGN.md names for the paper's 'Real class', with `real_of` in its contract.
pub fn parse_real(t: &[u8]) -> Result<f64, NotRead>
    ensures { told_real result ≡ real_of t.now }
{
    read_real(Reals::Class, t)
}

// The negative of a number, if it is in range.
fn below_zero(n: u64) -> Option<i64>
    ensures { told_whole result ≡ integer_in_range true n }
{
    0i64.checked_sub_unsigned(n)
}

fn above_zero(n: u64) -> Option<i64>
    ensures { told_whole result ≡ integer_in_range false n }
{
    i64::try_from(n).ok()
}

// Reads an integer.
pub fn parse_int(t: &[u8]) -> Option<i64>
    ensures { told_whole result ≡ whole_of t.now }
{
    let a = past_sign(t, 0);
    let n = plain_from(t, a, LARGEST)?;
    if minus_at(t, 0) {
        return below_zero(n);
    }
    above_zero(n)
}

// A number as a reference, if it is in range.
fn id_in_range(n: u64) -> Option<u32>
    ensures { told_reference result ≡ pick (leb n 4294967295) (read n) (refused 12) }
{
    u32::try_from(n).ok()
}

// Reads a reference.
pub fn parse_ref(t: &[u8]) -> Option<u32>
    ensures { told_reference result ≡ reference_of t.now }
{
    if t.is_empty() || t[0] != b'#' {
        return None;
    }
    id_in_range(plain_from(t, 1, LARGEST)?)
}
