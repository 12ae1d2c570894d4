// One string's text, for hosts in other languages.
ghost use Rattle.std.specs.Prelude.{◌≡◌, min, length};
ghost use Rattle.strings.specs.Answer.{decoded_of, room_after, largest_u64};
ghost use Rattle.strings.specs.Text.{bytes_of};
ghost use Rattle.export.specs.Texts.{text_code, text_place, text_count};

use strings::Decoded;

// Finds a string's text: 0, with 0 in `place` where it is the string itself and 1 where it begins `out`, and its length in `count`; or
// 16, and everything as it was.
pub fn hooflift_text(raw: &[u8], out: &mut [u8], place: &mut u64, count: &mut u64) -> u8
    ensures value { result ≡ text_code (decoded_of raw.now (length out.old)) }
    ensures out_after { out.new ≡ room_after raw.now out.old }
    ensures place_after { place.new ≡ text_place (decoded_of raw.now (length out.old)) place.old }
    ensures count_after { count.new ≡ text_count (decoded_of raw.now (length out.old)) (length raw.now) count.old }
{
    let Some(text) = strings::decode_string(raw, out) else {
        return 16;
    };
    match text {
        Decoded::Plain => {
            *place = 0;
            *count = raw.len() as u64;
        }
        Decoded::Written(n) => {
            *place = 1;
            *count = n as u64;
        }
    }
    0
}

// How many bytes a string's text has: what `hooflift_text` needs of `out` at most. 18446744073709551615 stands for more.
pub fn hooflift_text_length(raw: &[u8]) -> usize
    ensures { result ≡ min largest_u64 (length (bytes_of raw.now)) }
{
    strings::text_length(raw)
}
