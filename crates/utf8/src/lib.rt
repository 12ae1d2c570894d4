// UTF-8 (RFC 3629): the character that bytes begin with, whether bytes are UTF-8, the width of a character's encoding, and the
// encoding put into lent room. No function has a `requires`: a number that is no character has an empty encoding.
#![tactic(auto)]

ghost use Rattle.std.specs.Prelude.{◌≡◌, ◌+◌, ◌≤◌, ◌<◌, length, true};
ghost use Rattle.std.proofs.lemmas.List.Edits.{sets};
ghost use Rattle.utf8.specs.Utf8.{scalar, encode, byte_at, tail, second_in_range, lead_two, lead_three, lead_four, lead_of, valid_of};
ghost use Rattle.utf8.specs.Answer.{told_first, put_at, put_width};

// A character, and how many bytes stand for it.
#[derive(Clone, Copy, PartialEq, Eq)]
pub struct FirstCharacter {
    pub code: u32,
    pub used: usize,
}

// How many bytes a character takes; 0 where the number is no character.
pub fn width(code: u32) -> usize
    ensures { result ≡ length (encode code) }
{
    if code < 128 {
        return 1;
    }
    if code < 2048 {
        return 2;
    }
    if (55296 <= code) & (code <= 57343) {
        return 0;
    }
    if code < 65536 {
        return 3;
    }
    if code <= 1114111 {
        return 4;
    }
    0
}

// The byte at k; 256, which no test takes for a byte of a sequence, past the end.
fn byte_at(bytes: &[u8], k: usize) -> u32
    ensures { result ≡ byte_at bytes.now k }
{
    bytes.get(k).map_or(256, |b| u32::from(*b))
}

// `UTF8-tail = %x80-BF`.
fn is_tail(b: u32) -> bool
    ensures { result ≡ tail b }
{
    (128 <= b) & (b <= 191)
}

// Whether b may stand second after the first byte a: no longer form than needed, no surrogate, nothing above 10FFFF.
fn is_second(a: u32, b: u32) -> bool
    ensures { result ≡ second_in_range a b }
{
    let (least, greatest) = match a {
        224 => (160, 191),
        237 => (128, 159),
        240 => (144, 191),
        244 => (128, 143),
        _ => (128, 191),
    };
    (least <= b) & (b <= greatest)
}

// The character of two bytes, whose first is C2 to DF.
fn two(a: u32, b: u32) -> Option<FirstCharacter>
    requires { (194 ≤ a) × (a ≤ 223) }
    ensures { told_first result ≡ lead_two a b }
{
    if is_tail(b) {
        return Some(FirstCharacter {
            code: (a - 192) * 64 + (b - 128),
            used: 2,
        });
    }
    None
}

// The character of three bytes, whose first is E0 to EF.
fn three(a: u32, b: u32, c: u32) -> Option<FirstCharacter>
    requires { (224 ≤ a) × (a ≤ 239) }
    ensures { told_first result ≡ lead_three a b c }
{
    if is_second(a, b) & is_tail(c) {
        return Some(FirstCharacter {
            code: (a - 224) * 4096 + (b - 128) * 64 + (c - 128),
            used: 3,
        });
    }
    None
}

// The character of four bytes, whose first is F0 to F4.
fn four(a: u32, b: u32, c: u32, d: u32) -> Option<FirstCharacter>
    requires { (240 ≤ a) × (a ≤ 244) }
    ensures { told_first result ≡ lead_four a b c d }
{
    if is_second(a, b) & is_tail(c) & is_tail(d) {
        return Some(FirstCharacter {
            code: (a - 240) * 262144 + (b - 128) * 4096 + (c - 128) * 64 + (d - 128),
            used: 4,
        });
    }
    None
}

// The character that the bytes begin with.
pub fn sequence(bytes: &[u8]) -> Option<FirstCharacter>
    ensures { told_first result ≡ lead_of bytes.now }
{
    let a = byte_at(bytes, 0);
    if a < 128 {
        return Some(FirstCharacter { code: a, used: 1 });
    }
    if (194 <= a) & (a <= 223) {
        return two(a, byte_at(bytes, 1));
    }
    if (224 <= a) & (a <= 239) {
        return three(a, byte_at(bytes, 1), byte_at(bytes, 2));
    }
    if (240 <= a) & (a <= 244) {
        return four(a, byte_at(bytes, 1), byte_at(bytes, 2), byte_at(bytes, 3));
    }
    None
}

// Kept: no clause of the library's `encode_utf8` says what the room that it is lent holds, and to copy what it lends back makes the decoder of
// strings 5% slower. The four differ in the bytes that they store.
// Stores the table's first line: the number itself.
fn put_one(out: &mut [u8], at: usize, code: u32)
    requires { (at + 1 ≤ length out.old) × (code < 128) }
    ensures { out.new ≡ sets out.old at (encode code) }
{
    out[at] = code as u8;
}

// Stores its second line: five bits and six.
fn put_two(out: &mut [u8], at: usize, code: u32)
    requires { (at + 2 ≤ length out.old) × (128 ≤ code) × (code < 2048) }
    ensures { out.new ≡ sets out.old at (encode code) }
{
    out[at] = (192 + code / 64) as u8;
    out[at + 1] = (128 + code % 64) as u8;
}

// Stores its third line: four bits, six and six.
fn put_three(out: &mut [u8], at: usize, code: u32)
    requires { (at + 3 ≤ length out.old) × (2048 ≤ code) × (code < 65536) × (scalar code ≡ true) }
    ensures { out.new ≡ sets out.old at (encode code) }
{
    out[at] = (224 + code / 4096) as u8;
    out[at + 1] = (128 + (code / 64) % 64) as u8;
    out[at + 2] = (128 + code % 64) as u8;
}

// Stores its fourth line: three bits, six, six and six.
fn put_four(out: &mut [u8], at: usize, code: u32)
    requires { (at + 4 ≤ length out.old) × (65536 ≤ code) × (code ≤ 1114111) }
    ensures { out.new ≡ sets out.old at (encode code) }
{
    out[at] = (240 + code / 262144) as u8;
    out[at + 1] = (128 + (code / 4096) % 64) as u8;
    out[at + 2] = (128 + (code / 64) % 64) as u8;
    out[at + 3] = (128 + code % 64) as u8;
}

// Puts a character's encoding at a place, where it is a character and fits, and answers its width; else the room is unchanged.
pub fn put(out: &mut [u8], at: usize, code: u32) -> usize
    ensures value { result ≡ put_width at (encode code) out.old }
    ensures out_after { out.new ≡ put_at at (encode code) out.old }
{
    let n = width(code);
    let room = out.len();
    if room < at {
        return 0;
    }
    if room - at < n {
        return 0;
    }
    if n == 1 {
        put_one(out, at, code);
    } else if n == 2 {
        put_two(out, at, code);
    } else if n == 3 {
        put_three(out, at, code);
    } else if n == 4 {
        put_four(out, at, code);
    }
    n
}

// Whether the bytes are UTF-8: one valid sequence after another.
pub fn is_valid(bytes: &[u8]) -> bool
    ensures { result ≡ valid_of bytes.now }
{
    str::from_utf8(bytes).is_ok()
}
