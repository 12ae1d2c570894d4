// One real, for hosts in other languages.
ghost use Rattle.std.specs.Prelude.{◌≡◌};
ghost use Rattle.reals.specs.Scalar.{real_of, any_real_of};
ghost use Rattle.export.specs.Reals.{real_code, real_bits};

// As `export::hooflift_real`.
#[unsafe(no_mangle)]
pub extern "C" fn hooflift_real(text: &[u8], out: &mut u64) -> u8
    ensures value { result ≡ real_code (real_of text.now) }
    ensures out_after { out.new ≡ real_bits (real_of text.now) out.old }
{
    export::hooflift_real(text, out)
}

// As `export::hooflift_any_real`.
#[unsafe(no_mangle)]
pub extern "C" fn hooflift_any_real(text: &[u8], out: &mut u64) -> u8
    ensures value { result ≡ real_code (any_real_of text.now) }
    ensures out_after { out.new ≡ real_bits (any_real_of text.now) out.old }
{
    export::hooflift_any_real(text, out)
}
