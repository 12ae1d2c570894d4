// The long path: the f64 nearest to any decimal, however many digits it has and however far its exponent goes, by whole numbers alone.
//
// m * 10^k is m * 5^k * 2^k, and a power of two moves nothing but the place. So m is multiplied by 5^13 again and again, or divided by it, and
// whatever is left of a division is noted; the leading digits and that note tell the nearest f64. Every f64, and every number half-way between two,
// is a whole multiple of 2^-1075 and so of 10^-1075: digits beyond that place decide nothing but by being 0 or not. So fixed memory is enough
// for any number of digits, and no number of the host's is ever rounded.
//
// Crate `wide_reals` has a `raised` and a `lowered` with the same answers: they are the fast ones, and call these where they are in doubt.
#![tactic(auto)]

ghost use Rattle.std.specs.Prelude.{◌≡◌, ◌⊎◌, ◌+◌, ◌-◌, ◌*◌, ◌/◌, ◌≤◌, ◌<◌, ◌^◌, min, length, take, drop};
ghost use Rattle.std.specs.Float.{binary64};
ghost use Rattle.std.specs.Float.Ieee.{to_bits};
ghost use Rattle.nearest.specs.PatternUnits.{infinity};
ghost use Rattle.nearest.specs.Near.{near};
ghost use Rattle.nearest.specs.Nearest.{signed};
ghost use Rattle.nearest.specs.Power.{near_by};
ghost use Rattle.limbs.specs.Worth.{worth};
ghost use Rattle.f64_rounding.specs.Window.{RoundsAs, spare_of};
ghost use Rattle.long_reals.specs.Digits.{digits_in, FirstAt, ReadAt};
ghost use Rattle.long_reals.specs.Number.{number_in};
ghost use Rattle.long_reals.specs.RoomFraction.{Lowered, LowersTo, RaisesTo};

// The powers of five up to 5^27, the last that 63 binary digits hold.
static POWERS_OF_FIVE: [u64; 28] = [
    1,
    5,
    25,
    125,
    625,
    3125,
    15625,
    78125,
    390625,
    1953125,
    9765625,
    48828125,
    244140625,
    1220703125,
    6103515625,
    30517578125,
    152587890625,
    762939453125,
    3814697265625,
    19073486328125,
    95367431640625,
    476837158203125,
    2384185791015625,
    11920928955078125,
    59604644775390625,
    298023223876953125,
    1490116119384765625,
    7450580596923828125,
];

// 5^k, or 5^27 where k is more.
pub fn power_of_five(k: usize) -> u64
    ensures { result ≡ 5 ^ min k 27 }
{
    POWERS_OF_FIVE[k.min(27)]
}

// 5^k as a digit of 32 binary digits.
fn small_power(k: usize) -> u32
    requires { k < 14 }
    ensures { result ≡ 5 ^ k }
{
    power_of_five(k) as u32
}

// Divides by 5^k, and tells whether anything is left. What is left of the whole division is 0 just where each step leaves nothing.
fn lower(a: &mut [u32], k: usize) -> bool
    ensures { Lowered (worth a.old) (5 ^ k) (worth a.new) result }
{
    let mut more = false;
    for _step in 0..k / 13 {
        more = more | (limbs::divide(a, 1220703125) != 0);
    }
    more | (limbs::divide(a, small_power(k % 13)) != 0)
}

// Infinity, with its sign.
fn endless(neg: bool) -> f64
    ensures { to_bits binary64 result ≡ signed neg infinity }
{
    f64_rounding::with_sign(neg, 0x7ff0_0000_0000_0000)
}

// How many of w's binary digits are dropped: so many that 53 are left, and one at least, which is the half of the least f64.
fn spare(w: u64) -> u32
    ensures { result ≡ spare_of w }
{
    let free = u64::leading_zeros(w);
    if 10 < free {
        return 1;
    }
    11 - free
}

// The f64 nearest to w units of 2^(y - 1075), `more` or not, with its sign.
fn rounded(neg: bool, w: u64, more: bool, y: usize) -> f64
    requires { (y ≡ 0) ⊎ (2 ^ 63 ≤ w) }
    ensures { RoundsAs neg w more y (to_bits binary64 result) }
{
    // From here on it is 2^1024 or more.
    if 2036 <= y {
        return endless(neg);
    }
    let drop = spare(w);
    let pattern = (y as u64 + drop as u64 - 1) * 0x10_0000_0000_0000
        + f64_rounding::rounded_off(w, more, drop);
    f64_rounding::with_sign(neg, pattern)
}

// The number in a, which was moved up by s binary digits, divided by 10^k; `more` says whether digits below it were left out.
fn lowered_in(neg: bool, a: &mut [u32], s: usize, k: usize, more: bool) -> f64
    requires { (s + k ≤ 1075) × ((s + k ≡ 1075) ⊎ (5 ^ k * 2 ^ 64 ≤ worth a.old)) × (length a.old ≤ 192) }
    ensures { LowersTo neg (worth a.old) s k more (to_bits binary64 result) }
{
    let left = lower(a, k);
    let t = limbs::top(a);
    rounded(
        neg,
        t.digits,
        t.more | left | more,
        32 * t.limbs + t.bits as usize + (1075 - s - k),
    )
}

// Multiplies the first `used` digits by `by` and adds `add`; what no longer fits becomes the next digit.
// Kept: `a` and `used` go together here and in `raise`, `raised_in` and `put_held`. A struct of both is no plainer: `put` and `Digits::lowered_whole` push once,
// from a count of their own into a room that they go on with, so it would be built for one call, hold the room as a `&mut`, and give the count back.
fn push(a: &mut [u32], used: usize, by: u32, add: u32)
    requires { used < length a.old }
    ensures { worth (take (used + 1) a.new) ≡ worth (take used a.old) * by + add }
{
    let carry = limbs::scale(&mut a[..used], by, add);
    a[used] = carry;
}

// Multiplies the first `used` digits by 5^k, and answers how many are used then: one more for each step.
fn raise(a: &mut [u32], used: usize, k: usize) -> usize
    requires { used + k / 13 + 1 ≤ length a.old }
    ensures { (worth (take result a.new) ≡ worth (take used a.old) * 5 ^ k) × (result ≡ used + k / 13 + 1) }
{
    let steps = k / 13;
    for i in 0..steps {
        push(a, used + i, 1220703125, 0);
    }
    push(a, used + steps, small_power(k % 13), 0);
    used + steps + 1
}

// The first `used` digits of a, whose number was moved up by 64 binary digits, times 10^k.
fn raised_in(neg: bool, a: &mut [u32], used: usize, k: usize) -> f64
    requires { (used + k / 13 + 1 ≤ length a.old) × (k ≤ 308) × (2 ^ 64 ≤ worth (take used a.old)) × (length a.old ≤ 192) }
    ensures { RaisesTo neg (worth (take used a.old)) k (to_bits binary64 result) }
{
    let n = raise(a, used, k);
    let t = limbs::top(&a[..n]);
    rounded(
        neg,
        t.digits,
        t.more,
        32 * t.limbs + t.bits as usize + (1011 + k),
    )
}

// Puts m, moved up by s binary digits, into digits that are all 0.
fn put(a: &mut [u32], m: u64, s: usize)
    requires { (worth a.old ≡ 0) × (s / 32 + 3 ≤ length a.old) }
    ensures { worth (take (s / 32 + 3) a.new) ≡ m * 2 ^ s }
{
    let c = s / 32;
    a[c] = (m % 0x1_0000_0000) as u32;
    a[c + 1] = (m / 0x1_0000_0000) as u32;
    push(a, c + 2, 1u32 << (s % 32), 0)
}

// By how many binary digits a number is moved up before it is divided by 5^k: 5^k is at most 2^(3 k), so that 64 or more are left of it; but by no more
// than reach to 2^-1075, below which nothing decides.
fn ahead(k: usize) -> usize
    requires { k ≤ 343 }
    ensures { (result + k ≤ 1075) × ((result + k ≡ 1075) ⊎ (result ≡ 3 * k + 64)) × (result ≤ 832) }
{
    if 252 < k {
        return 1075 - k;
    }
    3 * k + 64
}

// The f64 nearest to m / 10^k, with its sign, which zero has too.
pub fn lowered(neg: bool, m: u64, k: usize) -> f64
    ensures { to_bits binary64 result ≡ signed neg (near m (10 ^ k)) }
{
    // m is below 10^20: so this is below 10^-324.
    if (m == 0) | (343 < k) {
        return f64_rounding::with_sign(neg, 0);
    }
    let s = ahead(k);
    let mut a = [0u32; 32];
    put(&mut a, m, s);
    lowered_in(neg, &mut a[..s / 32 + 3], s, k, false)
}

// The f64 nearest to m * 10^k, with its sign, which zero has too.
pub fn raised(neg: bool, m: u64, k: usize) -> f64
    ensures { to_bits binary64 result ≡ signed neg (near (m * 10 ^ k) 1) }
{
    if m == 0 {
        return f64_rounding::with_sign(neg, 0);
    }
    if 308 < k {
        return endless(neg);
    }
    let mut a = [0u32; 32];
    put(&mut a, m, 64);
    raised_in(neg, &mut a, 5, k)
}

// The place from `from` on of the first digit that is not `0`, or the text's end.
fn first_digit(t: &[u8], from: usize) -> usize
    requires { from ≤ length t.now }
    ensures { FirstAt t.now from result }
{
    for i in from..t.len() {
        let c = t[i];
        if record::is_digit(c) & (c != b'0') {
            return i;
        }
    }
    t.len()
}

// How many digits there are from a place on.
fn count_digits(t: &[u8], from: usize) -> usize
    requires { from ≤ length t.now }
    ensures { (result ≡ digits_in (drop from t.now)) × (result ≤ length t.now) }
{
    let mut n = 0;
    for i in from..t.len() {
        if record::is_digit(t[i]) {
            n += 1;
        }
    }
    n
}

// How many digits of the room are used, and the place in the text after what was read.
#[derive(Clone, Copy)]
struct Filled {
    used: usize,
    next: usize,
}

// Puts the digits that are held, which are fewer than nine, into the room; `next` is the place after them.
fn put_held(a: &mut [u32], used: usize, weight: u32, held: u32, next: usize) -> Filled
    requires { used < length a.old }
    ensures room { worth (take (used + 1) a.new) ≡ worth (take used a.old) * weight + held }
    ensures places { result ≡ record { used = used + 1; next = next } }
{
    push(a, used, weight, held);
    Filled {
        used: used + 1,
        next,
    }
}

// Reads so many digits from a place on, nine at a time; bytes that are no digits are passed over.
fn read_digits(t: &[u8], from: usize, count: usize, a: &mut [u32]) -> Filled
    requires { (from ≤ length t.now) × (count ≤ digits_in (drop from t.now)) × (count / 9 + 2 ≤ length a.old) }
    ensures { ReadAt t.now from count a.new result }
{
    let mut used: usize = 0;
    let mut held: u32 = 0;
    let mut weight: u32 = 1;
    let mut left = count;
    for i in from..t.len() {
        if left == 0 {
            return put_held(a, used, weight, held, i);
        }
        let c = t[i];
        if record::is_digit(c) {
            held = held * 10 + (c - 48) as u32;
            weight = weight * 10;
            left -= 1;
            if weight == 1000000000 {
                push(a, used, weight, held);
                used += 1;
                held = 0;
                weight = 1;
            }
        }
    }
    put_held(a, used, weight, held, t.len())
}

// The digits of a text from the first on that is not `0`: its place, how many there are, and the sign of their number.
#[derive(Clone, Copy)]
struct Digits<'a> {
    neg: bool,
    text: &'a [u8],
    first: usize,
    many: usize,
    ghost within: { first ≤ length text.now },
    ghost counted: { many ≡ digits_in (drop first text.now) },
    ghost same: { number_in 0 (drop first text.now) ≡ number_in 0 text.now },
    ghost leading: { 10 ^ many ≤ 10 * number_in 0 text.now },
    ghost some: { 0 < many },
}

impl<'a> Digits<'a> {
    // Divided by 10^k, all of them of weight. The room is all 0.
    fn lowered_whole(self, k: usize, a: &mut [u32]) -> f64
        requires { (self.many ≤ k + 309) × (k ≤ 1075) × (length a.old ≡ 192) × (worth a.old ≡ 0) }
        ensures { to_bits binary64 result ≡ signed self.entry.neg (near (number_in 0 self.entry.text.now) (10 ^ k)) }
    {
        let s = 1075 - k;
        let c = s / 32;
        let r = read_digits(self.text, self.first, self.many, &mut a[c..]);
        let used = c + r.used;
        push(a, used, 1u32 << (s % 32), 0);
        lowered_in(self.neg, &mut a[..used + 1], s, k, false)
    }

    // Divided by 10^k; those below 10^-1075 are asked only whether all are `0`.
    fn lowered_cut(self, k: usize, a: &mut [u32]) -> f64
        requires { (self.many ≤ k + 309) × (k ≤ self.many + 1075) × (1075 < k) × (length a.old ≡ 192) }
        ensures { to_bits binary64 result ≡ signed self.entry.neg (near (number_in 0 self.entry.text.now) (10 ^ k)) }
    {
        let r = read_digits(self.text, self.first, self.many - (k - 1075), a);
        let more = first_digit(self.text, r.next) < self.text.len();
        lowered_in(self.neg, &mut a[..r.used], 0, 1075, more)
    }

    // Divided by 10^k.
    fn lowered(self, k: usize) -> f64
        ensures { to_bits binary64 result ≡ signed self.entry.neg (near (number_in 0 self.entry.text.now) (10 ^ k)) }
    {
        // Below 10^-324, and from 10^309 on.
        if self.many + 324 <= k {
            return f64_rounding::with_sign(self.neg, 0);
        }
        if k + 309 < self.many {
            return endless(self.neg);
        }
        let mut a = [0u32; 192];
        if k <= 1075 {
            return self.lowered_whole(k, &mut a);
        }
        self.lowered_cut(k, &mut a)
    }

    // Times 10^k. The room is all 0.
    fn raised_whole(self, k: usize, a: &mut [u32]) -> f64
        requires { (self.many + k ≤ 309) × (k ≤ 308) × (length a.old ≡ 64) × (worth a.old ≡ 0) }
        ensures { to_bits binary64 result ≡ signed self.entry.neg (near (number_in 0 self.entry.text.now * 10 ^ k) 1) }
    {
        let r = read_digits(self.text, self.first, self.many, &mut a[2..]);
        raised_in(self.neg, a, 2 + r.used, k)
    }

    // Times 10^k.
    fn raised(self, k: usize) -> f64
        ensures { to_bits binary64 result ≡ signed self.entry.neg (near (number_in 0 self.entry.text.now * 10 ^ k) 1) }
    {
        // From 10^309 on.
        if (309 < self.many) | (308 < k) {
            return endless(self.neg);
        }
        if 309 < self.many + k {
            return endless(self.neg);
        }
        let mut a = [0u32; 64];
        self.raised_whole(k, &mut a)
    }
}

// The f64 nearest to the number of a text's digits, divided by 10^k where `down`, else times 10^k, with its sign, which zero has too.
// Kept: `down` is the sign of `k`; the contract's `near_by` (nearest/specs/Power) takes the two so.
pub fn decimal(neg: bool, t: &[u8], down: bool, k: usize) -> f64
    ensures { to_bits binary64 result ≡ signed neg (near_by down (number_in 0 t.now) k) }
{
    let first = first_digit(t, 0);
    let many = count_digits(t, first);
    if many == 0 {
        return f64_rounding::with_sign(neg, 0);
    }
    let digits = Digits {
        neg,
        text: t,
        first,
        many,
    };
    if down {
        return digits.lowered(k);
    }
    digits.raised(k)
}
