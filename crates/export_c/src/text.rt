// One string's text, for hosts in other languages.
ghost use Rattle.std.specs.Prelude.{◌≡◌, min, length};
ghost use Rattle.strings.specs.Answer.{decoded_of, room_after, largest_u64};
ghost use Rattle.strings.specs.Text.{bytes_of};
ghost use Rattle.export.specs.Texts.{text_code, text_place, text_count};

// As `export::hooflift_text`.
#[unsafe(no_mangle)]
pub extern "C" fn hooflift_text(raw: &[u8], out: &mut [u8], place: &mut u64, count: &mut u64) -> u8
    ensures value { result ≡ text_code (decoded_of raw.now (length out.old)) }
    ensures out_after { out.new ≡ room_after raw.now out.old }
    ensures place_after { place.new ≡ text_place (decoded_of raw.now (length out.old)) place.old }
    ensures count_after { count.new ≡ text_count (decoded_of raw.now (length out.old)) (length raw.now) count.old }
{
    export::hooflift_text(raw, out, place, count)
}

// As `export::hooflift_text_length`.
#[unsafe(no_mangle)]
pub extern "C" fn hooflift_text_length(raw: &[u8]) -> usize
    ensures { result ≡ min largest_u64 (length (bytes_of raw.now)) }
{
    export::hooflift_text_length(raw)
}
