// The wide path: the f64 nearest to m * 10^k and to m / 10^k, for every 64-bit m and every k, by whole numbers alone.
//
// An f64 holds neither such an m nor such a power of ten exactly, so no single product or quotient of two of them serves. But 10^k is
// 5^k * 2^k, a power of two moves nothing but the exponent, and 5^27 has 63 binary digits: m * 5^k is one exact product of two numbers
// of 64 digits, and m / 5^k one long division in three digits, whose rest tells the tie. That division is asked for only where the product
// with a reciprocal, which is less than two too small, leaves a doubt; and reciprocals go on to 10^64, for the reals of files that stand for zero, as 1.0E-17. What
// is farther, or left in doubt there, goes the long path. No table is believed: the proof computes each entry.
//
// So `raised` and `lowered` are the fast ones, and call those of `long_reals`, which have the same answers, where they are in doubt.
#![tactic(auto)]

ghost use Rattle.std.specs.Prelude.{◌≡◌, Bool, ◌+◌, ◌-◌, ◌*◌, ◌/◌, ◌%◌, ◌≤◌, ◌<◌, ◌^◌};
ghost use Rattle.std.specs.Float.{binary64};
ghost use Rattle.std.specs.Float.Ieee.{to_bits};
ghost use Rattle.nearest.specs.Near.{near};
ghost use Rattle.nearest.specs.Nearest.{signed};
ghost use Rattle.f64_rounding.specs.CutNumbers.{RoundsTo, sure, digits_beyond53, RoundsNear};
ghost use Rattle.wide_reals.specs.Tens.{halvings_of, five_lift, Reciprocal};
ghost use Rattle.wide_reals.specs.Reach.{reach, far};

// How often 5^k can be halved: its binary digits but one are 4755 / 2048 times k, rounded down.
fn halvings(k: usize) -> u64
    requires { k ≤ far }
    ensures { result ≡ halvings_of k }
{
    k as u64 * 4755 / 2048
}

// By how many digits 5^k is moved up so that it has 63. The proof tries each k.
fn places(k: usize) -> u64
    requires { k ≤ reach }
    ensures { result ≡ five_lift k }
{
    62 - halvings(k)
}

// A number moved up, and by how many binary digits.
#[derive(Clone, Copy)]
struct Lifted {
    value: u64,
    by: u32,
}

// Moved up until it has 64 digits.
fn lift(n: u64) -> Lifted
    requires { 0 < n }
    ensures { (result.value ≡ n * 2 ^ result.by) × (2 ^ 63 ≤ result.value) × (result.value < 2 ^ 64) × (result.by < 64) }
{
    let by = u64::leading_zeros(n);
    Lifted { value: n << by, by }
}

// 5^k, moved up until it has 63.
fn lifted_five(k: usize) -> Lifted
    requires { k ≤ reach }
    ensures { (result.value ≡ 5 ^ k * 2 ^ result.by) × (2 ^ 62 ≤ result.value) × (result.value < 2 ^ 63) × (result.by < 64) }
{
    let by = places(k);
    Lifted {
        value: long_reals::power_of_five(k) << by,
        by: by as u32,
    }
}

// A product of two numbers: its upper 64 digits, and its lower 64.
#[derive(Clone, Copy)]
struct Product {
    high: u64,
    low: u64,
}

// The product, column by column with digits of 32 binary digits each, as by hand.
fn multiply(a: u64, b: u64) -> Product
    ensures { (result.high * 2 ^ 64 + result.low ≡ a * b) × (result.low < 2 ^ 64) }
{
    let a1 = a / 0x1_0000_0000;
    let a0 = a % 0x1_0000_0000;
    let b1 = b / 0x1_0000_0000;
    let b0 = b % 0x1_0000_0000;
    let first = a0 * b0;
    let second = a1 * b0 + first / 0x1_0000_0000;
    let third = second % 0x1_0000_0000 + a0 * b1;
    Product {
        high: a1 * b1 + second / 0x1_0000_0000 + third / 0x1_0000_0000,
        low: third % 0x1_0000_0000 * 0x1_0000_0000 + first % 0x1_0000_0000,
    }
}

// One digit of a long division, of 27 binary digits, and what is left.
#[derive(Clone, Copy)]
struct Digit {
    digit: u64,
    rest: u64,
}

// The next digit of r / d: by the upper part of d, made one larger, the digit comes out right or one too small.
fn next_digit(r: u64, d: u64) -> Digit
    requires { (2 ^ 62 ≤ d) × (d < 2 ^ 63) × (r < d) }
    ensures { (result.digit * d + result.rest ≡ r * 2 ^ 27) × (result.rest < d) }
{
    let upper = d / 0x800_0000 + 1;
    let digit = r / upper;
    let rest = r % upper * 0x800_0000 + digit * (0x800_0000 - d % 0x800_0000);
    if rest < d {
        return Digit { digit, rest };
    }
    Digit {
        digit: digit + 1,
        rest: rest - d,
    }
}

// A quotient with 54 binary digits below the point, and what is left.
#[derive(Clone, Copy)]
struct Quotient {
    digits: u64,
    rest: u64,
}

fn divide(n: u64, d: u64) -> Quotient
    requires { (2 ^ 63 ≤ n) × (2 ^ 62 ≤ d) × (d < 2 ^ 63) }
    ensures { (result.digits * d + result.rest ≡ n * 2 ^ 54) × (result.rest < d) × (2 ^ 54 ≤ result.digits) }
{
    let first = next_digit(n % d, d);
    let second = next_digit(first.rest, d);
    Quotient {
        digits: n / d * 0x40_0000_0000_0000 + first.digit * 0x800_0000 + second.digit,
        rest: second.rest,
    }
}

// How many binary digits of w are dropped, so that 53 are left.
fn surplus(w: u64) -> u32
    requires { 2 ^ 53 ≤ w }
    ensures { result ≡ digits_beyond53 w }
{
    11 - u64::leading_zeros(w)
}

// Whether w, or any number less than two above it, is rounded as its digits say: what is dropped is not just half of `unit`, nor the one below. One test
// for both: which side of half it is on is chance, and is not asked here.
fn is_sure(w: u64) -> bool
    requires { 2 ^ 54 ≤ w }
    ensures { result ≡ sure (w % 2 ^ digits_beyond53 w) (2 ^ digits_beyond53 w) }
{
    let drop = surplus(w);
    let unit = 1u64 << drop;
    let low = w - (w >> drop) * unit;
    (low + 1) / 2 * 4 != unit
}

// The f64 of w units of 2^(x - 1074), `more` or not, rounded once, with its sign; and where w is sure, that of what is less than two above it.
fn rounded(neg: bool, w: u64, more: bool, x: u64) -> f64
    requires { (2 ^ 53 ≤ w) × (x ≤ 2000) }
    ensures { RoundsTo neg w more x (to_bits binary64 result) × RoundsNear neg w x (to_bits binary64 result) }
{
    let drop = surplus(w);
    let pattern = (x + drop as u64) * 0x10_0000_0000_0000
        + f64_rounding::rounded_off(w, more, drop);
    f64_rounding::with_sign(neg, pattern)
}

// 2^(64 + e) by 5^k, rounded down, for each k up to 64, e being `halvings`; for k = 0, where that is 2^64, one below it.
static RECIPROCALS: [u64; 65] = [
    18446744073709551615,
    14757395258967641292,
    11805916207174113034,
    9444732965739290427,
    15111572745182864683,
    12089258196146291747,
    9671406556917033397,
    15474250491067253436,
    12379400392853802748,
    9903520314283042199,
    15845632502852867518,
    12676506002282294014,
    10141204801825835211,
    16225927682921336339,
    12980742146337069071,
    10384593717069655257,
    16615349947311448411,
    13292279957849158729,
    10633823966279326983,
    17014118346046923173,
    13611294676837538538,
    10889035741470030830,
    17422457186352049329,
    13937965749081639463,
    11150372599265311570,
    17840596158824498513,
    14272476927059598810,
    11417981541647679048,
    18268770466636286477,
    14615016373309029182,
    11692013098647223345,
    9353610478917778676,
    14965776766268445882,
    11972621413014756705,
    9578097130411805364,
    15324955408658888583,
    12259964326927110866,
    9807971461541688693,
    15692754338466701909,
    12554203470773361527,
    10043362776618689222,
    16069380442589902755,
    12855504354071922204,
    10284403483257537763,
    16455045573212060421,
    13164036458569648337,
    10531229166855718669,
    16849966666969149871,
    13479973333575319897,
    10783978666860255917,
    17254365866976409468,
    13803492693581127574,
    11042794154864902059,
    17668470647783843295,
    14134776518227074636,
    11307821214581659709,
    18092513943330655534,
    14474011154664524427,
    11579208923731619542,
    9263367138985295633,
    14821387422376473014,
    11857109937901178411,
    9485687950320942729,
    15177100720513508366,
    12141680576410806693,
];

// 2^(64 + e) by 5^k, rounded down. The proof tries each entry.
fn reciprocal(k: usize) -> u64
    requires { k ≤ far }
    ensures { Reciprocal k result }
{
    RECIPROCALS[k]
}

// A number other than 0, the exponent of the power of ten that it is multiplied or divided by, and the sign of what that gives.
#[derive(Clone, Copy)]
struct Scaled {
    neg: bool,
    m: u64,
    k: usize,
    ghost nonzero: { 0 < m },
}

impl Scaled {
    // m * 10^k, by one product.
    fn raised_within(self) -> f64
        requires { self.k ≤ reach }
        ensures { to_bits binary64 result ≡ signed self.neg (near (self.m * 10 ^ self.k) 1) }
    {
        let n = lift(self.m);
        let f = lifted_five(self.k);
        let p = multiply(n.value, f.value);
        rounded(
            self.neg,
            p.high,
            p.low != 0,
            1138 + self.k as u64 - n.by as u64 - f.by as u64,
        )
    }

    // The quotient by long division: whatever is left tells the tie.
    fn lowered_exactly(self) -> f64
        requires { self.k ≤ reach }
        ensures { to_bits binary64 result ≡ signed self.neg (near self.m (10 ^ self.k)) }
    {
        let n = lift(self.m);
        let f = lifted_five(self.k);
        let q = divide(n.value, f.value);
        rounded(
            self.neg,
            q.digits,
            q.rest != 0,
            1020 + f.by as u64 - n.by as u64 - self.k as u64,
        )
    }

    // The quotient: by the reciprocal, whose product is less than two too small, and where that leaves a doubt by long division.
    fn lowered_within(self) -> f64
        requires { self.k ≤ far }
        ensures { to_bits binary64 result ≡ signed self.neg (near self.m (10 ^ self.k)) }
    {
        let n = lift(self.m);
        let p = multiply(n.value, reciprocal(self.k));
        if is_sure(p.high) {
            return rounded(
                self.neg,
                p.high,
                false,
                1074 - halvings(self.k) - n.by as u64 - self.k as u64,
            );
        }
        if 27 < self.k {
            return long_reals::lowered(self.neg, self.m, self.k);
        }
        self.lowered_exactly()
    }
}

// The f64 nearest to m * 10^k, with its sign, which zero has too.
pub fn raised(neg: bool, m: u64, k: usize) -> f64
    ensures { to_bits binary64 result ≡ signed neg (near (m * 10 ^ k) 1) }
{
    if m == 0 {
        return f64_rounding::with_sign(neg, 0);
    }
    if 27 < k {
        return long_reals::raised(neg, m, k);
    }
    Scaled { neg, m, k }.raised_within()
}

// The f64 nearest to m / 10^k, with its sign, which zero has too.
pub fn lowered(neg: bool, m: u64, k: usize) -> f64
    ensures { to_bits binary64 result ≡ signed neg (near m (10 ^ k)) }
{
    if m == 0 {
        return f64_rounding::with_sign(neg, 0);
    }
    if 64 < k {
        return long_reals::lowered(neg, m, k);
    }
    Scaled { neg, m, k }.lowered_within()
}
