// Eight digits of a number at once.
//
// Their bytes are joined to one number of 64 binary digits, in which each byte has a field of eight, the first byte the lowest: just as they stand in
// memory, so that they are loaded at once. Two tests ask all fields whether they are
// digits, and three sums put neighbouring fields together: eight digits to four pairs, to two fours, to one number. So no byte waits for the one
// before it.
#![tactic(auto)]

ghost use Rattle.std.specs.Prelude.{◌≤◌};
ghost use Rattle.eights.specs.Eights.{DigitsTest, Makes};
ghost use Rattle.eights.specs.Told.{EightTold};

// Whether all eight bytes are digits: `0` is 0x30 and `9` is 0x39, so the upper half of each is 3, and is still 3 with 6 added.
fn are_digits(w: u64) -> bool
    ensures { DigitsTest w result }
{
    if w & 0xf0f0_f0f0_f0f0_f0f0 != 0x3030_3030_3030_3030 {
        return false;
    }
    (w + 0x0606_0606_0606_0606) & 0xf0f0_f0f0_f0f0_f0f0 == 0x3030_3030_3030_3030
}

// The number that eight digits make. The digit that stands first is worth most and is in the lowest field, so each field is multiplied and its upper neighbour
// added; then every other field is dropped.
fn value(w: u64) -> u64
    requires { (0x3030_3030_3030_3030 ≤ w) × (w ≤ 0x3939_3939_3939_3939) }
    ensures { Makes w result }
{
    let digits = w - 0x3030_3030_3030_3030;
    let pairs = (digits * 10 + digits / 0x100) & 0x00ff_00ff_00ff_00ff;
    let fours = (pairs * 100 + pairs / 0x1_0000) & 0x0000_ffff_0000_ffff;
    (fours * 10000 + fours / 0x1_0000_0000) % 0x1_0000_0000
}

// The number that eight bytes make, if all are digits.
pub fn number(bytes: &[u8; 8]) -> Option<u64>
    ensures { EightTold bytes.now result }
{
    let w = u64::from_le_bytes(*bytes);
    if are_digits(w) {
        return Some(value(w));
    }
    None
}
