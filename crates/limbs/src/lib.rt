// Whole numbers of any length, with the few steps that reading a long decimal needs.
//
// A number lies in lent 32-bit digits, the lowest first. It is multiplied or divided by a number of 32 binary digits, in place; and its leading
// 64 binary digits are told, with whether anything stands below them. That is all that rounding asks of it.
#![tactic(auto)]

ghost use Rattle.std.specs.Prelude.{◌≡◌, ◌+◌, ◌-◌, ◌*◌, ◌/◌, ◌≤◌, ◌<◌, ◌^◌, length, take, ltb};
ghost use Rattle.limbs.specs.Worth.{worth, Scaled, Divided, Highest, LeadingDigitsOf};

// Multiplies by `by` and adds `add`; the answer is what no longer fits.
pub fn scale(a: &mut [u32], by: u32, add: u32) -> u32
    ensures { Scaled a.old by add a.new result }
{
    let mut carry = add as u64;
    for x in a.iter_mut() {
        let t = *x as u64 * by as u64 + carry;
        *x = (t % 0x1_0000_0000) as u32;
        carry = t / 0x1_0000_0000;
    }
    carry as u32
}

// Divides by `by`, and answers what is left. Nothing is divided by 0: the number stays then, and nothing is left.
pub fn divide(a: &mut [u32], by: u32) -> u32
    ensures { Divided a.old by a.new result }
{
    if by == 0 {
        return 0;
    }
    let mut rest = 0;
    for i in (0..a.len()).rev() {
        let t = rest * 0x1_0000_0000 + a[i] as u64;
        a[i] = (t / by as u64) as u32;
        rest = t % by as u64;
    }
    rest as u32
}

// How many digits there are up to the highest that is not 0.
fn highest(a: &[u32]) -> usize
    ensures { Highest a.now result }
{
    for i in (0..a.len()).rev() {
        if a[i] != 0 {
            return i + 1;
        }
    }
    0
}

// Whether one of the first n digits is not 0.
fn any_below(a: &[u32], n: usize) -> bool
    requires { n ≤ length a.now }
    ensures { result ≡ ltb 0 (worth (take n a.now)) }
{
    a[..n].iter().any(|x| *x != 0)
}

// The leading 64 binary digits of a number, or all of fewer; how many stand below them, which are 32 for each of `limbs` and `bits` besides (their sum
// can be larger than a `usize`), and whether one of those is not 0.
// Kept: `more` says nothing of the other three, so no Option would be plainer.
#[derive(Clone, Copy)]
pub struct LeadingDigits {
    pub digits: u64,
    pub limbs: usize,
    pub bits: u32,
    pub more: bool,
}

// The top of a number of one or two digits, which is the number.
fn short_top(a: &[u32], n: usize) -> u64
    requires { (n ≤ 2) × (n ≤ length a.now) }
    ensures { result ≡ worth (take n a.now) }
{
    match n {
        0 => 0,
        1 => a[0] as u64,
        _ => a[1] as u64 * 0x1_0000_0000 + a[0] as u64,
    }
}

// Of three digits, the first not 0, the leading 64 binary digits: the first has `bits` of them, and so many of the last are left over.
fn joined(high: u32, middle: u32, low: u32, bits: u32) -> u64
    requires { (0 < bits) × (bits ≤ 32) × (high < 2 ^ bits) }
    ensures { result ≡ (high * 2 ^ 32 + middle) * 2 ^ (32 - bits) + low / 2 ^ bits }
{
    let upper = high as u64 * 0x1_0000_0000 + middle as u64;
    (upper << (32 - bits)) + (low as u64 >> bits)
}

// A number's head; no more digits stand below it than there are.
pub fn top(a: &[u32]) -> LeadingDigits
    ensures { LeadingDigitsOf (worth a.now) result × (result.limbs ≤ length a.now) }
{
    let n = highest(a);
    if n < 3 {
        return LeadingDigits {
            digits: short_top(a, n),
            limbs: 0,
            bits: 0,
            more: false,
        };
    }
    let low = a[n - 3];
    let bits = 32 - u32::leading_zeros(a[n - 1]);
    let rest = low as u64 % (1u64 << bits);
    LeadingDigits {
        digits: joined(a[n - 1], a[n - 2], low, bits),
        limbs: n - 3,
        bits,
        more: (rest != 0) | any_below(a, n - 3),
    }
}
