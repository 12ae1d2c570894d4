// An f64 in decimal, for people.
//
// What is put is the decimal with the fewest digits among those m * 10^e that the f64 is nearest to, where m has at most fifteen digits and e
// lies from -22 to 22, or m has sixteen or seventeen and e lies from -22 to 0. Up to fifteen digits m and the power of ten are f64s
// themselves, so that one product or quotient, rounded once, tells whether it is. Sixteen or seventeen are read back by the wide path, as the
// reader does. Where there is none, `about` and fifteen digits are put. The bits beside it are what counts.
ghost use Rattle.std.specs.Prelude.{◌≤◌};

use std::fmt;

// A value, as it is put in decimal.
#[derive(Clone, Copy)]
pub struct Decimal(pub f64);

impl fmt::Display for Decimal {
    fn fmt<W: fmt::Write>(&self, f: &mut fmt::Formatter<W>) -> fmt::Result {
        let x = self.0;
        if x != x {
            return write!(f, "not a number");
        }
        if nearest::bits(x) < 0x8000_0000_0000_0000 {
            return write!(f, "{}", Magnitude(x));
        }
        write!(f, "-{}", Magnitude(0.0 - x))
    }
}

// A number that is not negative.
#[derive(Clone, Copy)]
struct Magnitude(f64);

impl fmt::Display for Magnitude {
    fn fmt<W: fmt::Write>(&self, f: &mut fmt::Formatter<W>) -> fmt::Result {
        let x = self.0;
        if x > 1.7976931348623157e308 {
            return write!(f, "infinite");
        }
        if let Some(d) = exact(x) {
            return write!(f, "{d}");
        }
        match fifteen(x) {
            Some(d) => write!(f, "about {d}"),
            None => write!(f, "too far from one to be put in decimal"),
        }
    }
}

// Digits, seventeen at most, and by how many places they are moved: to the left, or to the right.
#[derive(Clone, Copy)]
struct Digits {
    digits: u64,
    up: usize,
    down: usize,
}

// With zeros or a point; with an exponent where there would be more than six zeros behind them.
impl fmt::Display for Digits {
    fn fmt<W: fmt::Write>(&self, f: &mut fmt::Formatter<W>) -> fmt::Result {
        let m = self.digits;
        let up = self.up;
        let down = self.down;
        if up > 6 {
            return write!(f, "{m}E{up}");
        }
        if down > 0 {
            let one = tens(down);
            let before = m / one;
            let behind = m % one;
            return write!(f, "{before}.{behind:0down$}");
        }
        write!(f, "{m}{:0<up$}", "")
    }
}

// 10^k, and 10^17 from there on: above every number of seventeen digits.
fn tens(k: usize) -> u64
    ensures { 1 ≤ result }
{
    match k {
        0 => 1,
        1 => 10,
        2 => 100,
        3 => 1000,
        4 => 10000,
        5 => 100000,
        6 => 1000000,
        7 => 10000000,
        8 => 100000000,
        9 => 1000000000,
        10 => 10000000000,
        11 => 100000000000,
        12 => 1000000000000,
        13 => 10000000000000,
        14 => 100000000000000,
        15 => 1000000000000000,
        16 => 10000000000000000,
        _ => 100000000000000000,
    }
}

const POWERS: [f64; 23] = [
    1.0, 1e1, 1e2, 1e3, 1e4, 1e5, 1e6, 1e7, 1e8, 1e9, 1e10, 1e11, 1e12, 1e13, 1e14, 1e15, 1e16,
    1e17, 1e18, 1e19, 1e20, 1e21, 1e22,
];

fn power(k: usize) -> f64 {
    POWERS.get(k).copied().unwrap_or(1.0)
}

// The digits that stand for a number which is not negative.
fn exact(x: f64) -> Option<Digits> {
    if x == 0.0 {
        return Some(Digits {
            digits: 0,
            up: 0,
            down: 0,
        });
    }
    // of fifteen at most, for the largest power of ten that has some; then of sixteen, and of seventeen
    (1..23usize)
        .rev()
        .find_map(|k| whole_tens(x, k))
        .or_else(|| (0..23usize).find_map(|k| tenths(x, k)))
        .or_else(|| read_back(x, 1e16))
        .or_else(|| read_back(x, 1e17))
}

// Digits with k zeros behind them, where the number is nearest to that.
fn whole_tens(x: f64, k: usize) -> Option<Digits> {
    let y = whole(x / power(k));
    if y < 1e15 && y * power(k) == x {
        return Some(Digits {
            digits: counted(y),
            up: k,
            down: 0,
        });
    }
    None
}

// Digits of which k stand behind the point, where the number is nearest to that.
fn tenths(x: f64, k: usize) -> Option<Digits> {
    let y = whole(x * power(k));
    if y < 1e15 && y / power(k) == x {
        return Some(Digits {
            digits: counted(y),
            up: 0,
            down: k,
        });
    }
    None
}

// Digits of which some stand behind the point, below `most` and not below a tenth of it, that read as the number. A number of 10^17 or more
// has none here.
fn read_back(x: f64, most: f64) -> Option<Digits> {
    let k = (0..23usize).find(|k| is_below(x * power(*k), most))?;
    let m = closest(x, k);
    if wide_reals::lowered(false, m, k) == x {
        return Some(Digits {
            digits: m,
            up: 0,
            down: k,
        });
    }
    None
}

fn is_below(y: f64, most: f64) -> bool {
    most <= y * 10.0 && y < most
}

// 1.5 * 2^52: a small number of either sign added to it is rounded to a whole one, which is what its bits count.
const MIDDLE: f64 = 6755399441055744.0;

// The whole number closest to x * 10^k, which is below 10^17: its upper part, and the rest with what the product lost.
fn closest(x: f64, k: usize) -> u64 {
    let y = x * power(k);
    let high = whole(y / 1048576.0);
    let rest = (y - high * 1048576.0) + lost(x, power(k), y);
    let low = nearest::bits(rest + MIDDLE).wrapping_sub(0x4338_0000_0000_0000);
    (counted(high) << 20).wrapping_add(low)
}

// What the product y of a and b lost when it was rounded: the halves' products are exact.
fn lost(a: f64, b: f64, y: f64) -> f64 {
    let a1 = upper(a);
    let a2 = a - a1;
    let b1 = upper(b);
    let b2 = b - b1;
    ((a1 * b1 - y) + a1 * b2 + a2 * b1) + a2 * b2
}

// The upper half of a number's binary digits.
fn upper(a: f64) -> f64 {
    let c = 134217729.0 * a;
    c - (c - a)
}

// The fifteen digits that a number is closest to, for the largest power of ten that has so many.
fn fifteen(x: f64) -> Option<Digits> {
    (1..23usize)
        .rev()
        .find_map(|k| fifteen_of(x / power(k), k, 0))
        .or_else(|| (0..23usize).find_map(|k| fifteen_of(x * power(k), 0, k)))
}

fn fifteen_of(y: f64, up: usize, down: usize) -> Option<Digits> {
    if y < 1e14 || y >= 1e15 {
        return None;
    }
    if y < 999999999999999.5 {
        return Some(Digits {
            digits: counted(whole(y)),
            up,
            down,
        });
    }
    Some(next_power(up, down))
}

// What is rounded up to 10^15, in fifteen digits: ten times 10^14.
fn next_power(up: usize, down: usize) -> Digits {
    let digits = 100000000000000;
    if down > 0 {
        return Digits {
            digits,
            up,
            down: down - 1,
        };
    }
    Digits {
        digits,
        up: up.saturating_add(1),
        down: 0,
    }
}

// 2^52: between it and its double an f64 is a whole number, and its bits count up by one.
const STEP: f64 = 4503599627370496.0;

// The whole number next to a number below 10^15.
fn whole(y: f64) -> f64 {
    if y < 1e15 {
        return (y + STEP) - STEP;
    }
    1e15
}

fn counted(y: f64) -> u64 {
    nearest::bits(y + STEP).wrapping_sub(0x4330_0000_0000_0000)
}
