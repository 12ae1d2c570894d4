// Rounding: a number that was cut below some binary digits, with whether anything was left below the cut.
#![tactic(auto)]

ghost use Rattle.std.specs.Prelude.{◌≡◌, ◌/◌, ◌%◌, ◌^◌, min};
ghost use Rattle.std.specs.Float.{binary64};
ghost use Rattle.std.specs.Float.Ieee.{nearest, to_bits};
ghost use Rattle.nearest.specs.Nearest.{signed};
ghost use Rattle.nearest.specs.PatternUnits.{infinity};
ghost use Rattle.f64_rounding.specs.Half.{against};

// Rounds w, of which `drop` modulo 64 binary digits are dropped, to the nearest; `more` says that something is left below w. A tie, which
// is just half of the last digit kept, goes to the even one. The tests are put together before one of them is asked: whether a digit is rounded up is
// chance, and a jump that cannot be foreseen costs more than all of them.
pub fn rounded_off(w: u64, more: bool, drop: u32) -> u64
    ensures { result ≡ nearest (w / 2 ^ (drop % 64)) (against (w % 2 ^ (drop % 64)) (2 ^ (drop % 64)) more) }
{
    let by = drop % 64;
    let unit = 1u64 << by;
    let q = w >> by;
    let low = (w - q * unit) * 2;
    if (unit < low) | ((low == unit) & (more | (q % 2 == 1))) {
        return q + 1;
    }
    q
}

// The f64 of a pattern with its sign, which zero has too. A pattern past infinity's, which a NaN would have, counts as infinity's.
pub fn with_sign(neg: bool, pattern: u64) -> f64
    ensures { to_bits binary64 result ≡ signed neg (min pattern infinity) }
{
    let bits = pattern.min(0x7ff0_0000_0000_0000);
    if neg {
        return f64::from_bits(0x8000_0000_0000_0000 + bits);
    }
    f64::from_bits(bits)
}
