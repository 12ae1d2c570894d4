// The f64 nearest to an exact number, over whole numbers alone, and the language's products and quotients held against it.
//
// What "nearest, ties to even" means is said once, by `IsNearest` of specs/Nearest.antt: no float stands in that definition, only
// bit patterns and whole numbers. `near` of specs/Near.antt computes it. A float is told by its bit pattern, every NaN as one.
#![tactic(auto)]

ghost use Rattle.std.specs.Prelude.{◌≡◌};
ghost use Rattle.std.specs.Float.{binary64};
ghost use Rattle.std.specs.Float.Ieee.{to_bits};
ghost use Rattle.nearest.specs.Product.{product, quotient};

// The bit pattern of every NaN: what a pattern holds beside being a NaN's turns on the machine.
pub const QUIET: u64 = 0x7ff8_0000_0000_0000;

// A float's bit pattern.
pub fn bits(x: f64) -> u64
    ensures { result ≡ to_bits binary64 x }
{
    if x != x {
        return QUIET;
    }
    f64::to_bits(x)
}

// The product, rounded once.
pub fn times(a: f64, b: f64) -> f64
    ensures { to_bits binary64 result ≡ product (to_bits binary64 a) (to_bits binary64 b) }
{
    a * b
}

// The quotient, rounded once.
pub fn over(a: f64, b: f64) -> f64
    ensures { to_bits binary64 result ≡ quotient (to_bits binary64 a) (to_bits binary64 b) }
{
    a / b
}
