// The SI prefixes' factors. As the Rust's si_prefix_factor.
#![tactic(auto)]

ghost use Rattle.std.specs.Prelude.{◌≡◌};
ghost use Rattle.std.specs.Float.{binary64};
ghost use Rattle.std.specs.Float.Ieee.{to_bits};
ghost use Rattle.prefixes.specs.Prefix.{factor_of};
ghost use Rattle.prefixes.specs.Length.{length_factor_of};

// The sixteen SI prefixes, EXA to ATTO as document 01 lists them, and their factors.
const PREFIXES: [(&[u8], f64); 16] = [
    (b"EXA", 1e18),
    (b"PETA", 1e15),
    (b"TERA", 1e12),
    (b"GIGA", 1e9),
    (b"MEGA", 1e6),
    (b"KILO", 1e3),
    (b"HECTO", 1e2),
    (b"DECA", 1e1),
    (b"DECI", 1e-1),
    (b"CENTI", 1e-2),
    (b"MILLI", 1e-3),
    (b"MICRO", 1e-6),
    (b"NANO", 1e-9),
    (b"PICO", 1e-12),
    (b"FEMTO", 1e-15),
    (b"ATTO", 1e-18),
];

// An SI prefix's factor, letters in either case, and for any other name 1.0.
pub fn prefix_factor(name: &[u8]) -> f64
    ensures { to_bits binary64 result ≡ factor_of name.now }
{
    for (word, factor) in PREFIXES {
        if record::is_word(name, word) {
            return factor;
        }
    }
    1.0
}

// Millimetres in a metre with this prefix. The factor is rounded before it is multiplied, as the Rust has it.
pub fn length_factor(name: &[u8]) -> f64
    ensures { to_bits binary64 result ≡ length_factor_of name.now }
{
    nearest::times(1000.0, prefix_factor(name))
}
