// One real, for hosts in other languages.
ghost use Rattle.std.specs.Prelude.{◌≡◌};
ghost use Rattle.reals.specs.Scalar.{real_of, any_real_of};
ghost use Rattle.reals.specs.Which.{real_by};
ghost use Rattle.export.specs.Reals.{real_code, real_bits};

use reals::{NotRead, Reals};

// Reads a real, of the class or any: what both functions below answer and leave.
fn put_bits(which: Reals, text: &[u8], out: &mut u64) -> u8
    ensures value { result ≡ real_code (real_by which text.now) }
    ensures out_after { out.new ≡ real_bits (real_by which text.now) out.old }
{
    match reals::read_real(which, text) {
        Ok(x) => {
            *out = nearest::bits(x);
            0
        }
        Err(NotRead::Outside) => 13,
        Err(NotRead::NotReal) => 12,
    }
}

// Reads a real: 0, with the bit pattern of its f64 in `out`; or 12 or 13, and `out` as it was.
pub fn hooflift_real(text: &[u8], out: &mut u64) -> u8
    ensures value { result ≡ real_code (real_of text.now) }
    ensures out_after { out.new ≡ real_bits (real_of text.now) out.old }
{
    put_bits(Reals::Class, text, out)
}

// Reads any real, whatever its digits and its exponent: as `hooflift_real`, and never 13.
pub fn hooflift_any_real(text: &[u8], out: &mut u64) -> u8
    ensures value { result ≡ real_code (any_real_of text.now) }
    ensures out_after { out.new ≡ real_bits (any_real_of text.now) out.old }
{
    put_bits(Reals::Any, text, out)
}
