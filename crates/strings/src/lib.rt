// The text of a string: document 01's 'Strings', as the Rust's decode_string, with the code pages of document 02's #109 (crate pages), which
// the Rust reads and forgets.
//
// A text without a quote, a backslash or a high byte is shown as it stands in the file. Any other is put into lent room, in UTF-8: at
// once where the room has twice the string's bytes, which no text exceeds (specs/Ample.antt), and else a first run counts its bytes and a
// second one writes them, so that a room that is too short keeps what it had. Plain bytes are passed a run at a time. A piece of the text
// is read from a slice that starts at it and is not looked at again, but for the groups before a bad one: these are hex digits alone,
// and no directive begins with a backslash and a hex digit, so that they are read twice and no more, and the time grows with the
// length.
#![tactic(auto)]

ghost use Rattle.std.specs.Prelude.{◌≡◌, [], ◌∷◌, true, false, ◌&&◌, ℕ, ◌+◌, ◌*◌, ◌-◌, ◌≤◌, ◌<◌, min, eqb, length, take, drop};
ghost use Rattle.std.proofs.Math.Seq.{paste};
ghost use Rattle.common.specs.Pick.{pick};
ghost use Rattle.utf8.specs.Utf8.{byte_at};
ghost use Rattle.utf8.specs.Encoding.{encode_all};
ghost use Rattle.strings.specs.Text.{hex_digit, hex_value, two_at, two_of, four_at, four_of, group_two, group_four, group_of, closing_taken, plain, character_of_code, surrogates_joined, is, long_of, directive_of, piece_of, page_after, extended, groups_from, bytes_of};
ghost use Rattle.strings.specs.Code.{told_group, short_view, one_view, view_of, PiecePut, PlainPassed, PlainPut, Turned};
ghost use Rattle.strings.specs.Answer.{decoded_of, room_after, shown_of, told_text, answer_of, largest_u64};
ghost use Rattle.strings.specs.Put.{Laid};
ghost use Rattle.strings.specs.PlainRuns.{special};

// The byte at a place, or 256, which is no byte, past the end.
fn byte_at(s: &[u8], k: usize) -> u32
    ensures { result ≡ byte_at s.now k }
{
    s.get(k).map_or(256, |b| u32::from(*b))
}

// Whether a byte is a hex digit.
fn is_hex(b: u32) -> bool
    ensures { result ≡ hex_digit b }
{
    ((48 <= b) & (b <= 57)) | (((65 <= b) & (b <= 70)) | ((97 <= b) & (b <= 102)))
}

// A hex digit's value, without a jump: a processor cannot foresee which digits are letters.
fn hex_value(b: u32) -> u32
    requires { hex_digit b ≡ true }
    ensures { result ≡ hex_value b }
{
    b % 16 + b / 64 * 9
}

// The number of two hex digits.
fn pair_value(a: u32, b: u32) -> u32
    requires { (hex_digit a ≡ true) × (hex_digit b ≡ true) }
    ensures { (result ≡ hex_value a * 16 + hex_value b) × (result < 256) }
{
    hex_value(a) * 16 + hex_value(b)
}

// The number of two hex digits; none where they are not.
fn hex_two(s: &[u8], k: usize) -> Option<u32>
    requires { k ≤ 8 }
    ensures { result ≡ pick (two_at s.now k) (Some (two_of s.now k)) None }
{
    if s.len() < k + 2 {
        return None;
    }
    let a = s[k] as u32;
    let b = s[k + 1] as u32;
    if is_hex(a) & is_hex(b) {
        return Some(pair_value(a, b));
    }
    None
}

// The number of four hex digits; none where they are not: one test tells, once all four are read.
fn hex_four(s: &[u8], k: usize) -> Option<u32>
    requires { k ≤ 4 }
    ensures { result ≡ pick (four_at s.now k) (Some (four_of s.now k)) None }
{
    if s.len() < k + 4 {
        return None;
    }
    let a = s[k] as u32;
    let b = s[k + 1] as u32;
    let c = s[k + 2] as u32;
    let d = s[k + 3] as u32;
    if (is_hex(a) & is_hex(b)) & (is_hex(c) & is_hex(d)) {
        return Some(pair_value(a, b) * 256 + pair_value(c, d));
    }
    None
}

// A character and how many bytes it took.
#[derive(Clone, Copy)]
struct Char {
    code: u32,
    used: usize,
}

// U+FFFD for a number that is no character.
fn shown_code(c: u32) -> u32
    ensures { result ≡ character_of_code c }
{
    if c < 55296 {
        return c;
    }
    if (57344 <= c) & (c <= 1114111) {
        return c;
    }
    65533
}

// The character of two surrogates.
fn joined_code(h: u32, l: u32) -> u32
    requires { (55296 ≤ h) × (h ≤ 56319) }
    ensures { result ≡ surrogates_joined h l }
{
    if (56320 <= l) & (l < 57344) {
        return 65536 + (h - 55296) * 1024 + (l - 56320);
    }
    65533
}

// A group of four hex digits, with a second one after a high surrogate.
fn group_two(s: &[u8]) -> Option<Char>
    ensures { told_group result ≡ group_two s.now }
{
    let a = hex_four(s, 0)?;
    if (55296 <= a) & (a < 56320) {
        let b = hex_four(s, 4)?;
        return Some(Char {
            code: joined_code(a, b),
            used: 8,
        });
    }
    Some(Char {
        code: shown_code(a),
        used: 4,
    })
}

// A group of eight hex digits.
fn group_four(s: &[u8]) -> Option<Char>
    ensures { told_group result ≡ group_four s.now }
{
    let a = hex_four(s, 0)?;
    let b = hex_four(s, 4)?;
    Some(Char {
        code: shown_code(a * 65536 + b),
        used: 8,
    })
}

// How many bytes a `\X0` takes with the byte after it, or 0.
fn closing_len(s: &[u8]) -> usize
    ensures { result ≡ closing_taken s.now }
{
    if (byte_at(s, 0) == 92) & ((byte_at(s, 1) == 88) & (byte_at(s, 2) == 48)) {
        if s.len() < 4 {
            return s.len();
        }
        return 4;
    }
    0
}

// Whether a byte is not the text as it stands: a quote, a backslash or a high byte.
fn is_special(b: u8) -> bool
    ensures { result ≡ special b }
{
    (b == 39) | ((b == 92) | (128 <= b))
}

// Whether one of 64 bytes is not the text as it stands. It only notes one, so that the compiler takes many bytes at a time.
fn block_differs(s: &[u8], at: usize) -> bool
    requires { at + 64 ≤ length s.now }
    ensures { result ≡ false → plain (take at s.now) ≡ true → plain (take (at + 64) s.now) ≡ true }
{
    let mut hit = false;
    for k in 0..64 {
        hit |= is_special(s[at + k]);
    }
    hit
}

// Past the blocks of 64 bytes that are the text as they stand, from a place on.
fn plain_blocks(s: &[u8], from: usize) -> usize
    requires { (from ≤ length s.now) × (plain (take from s.now) ≡ true) }
    ensures { (result ≤ length s.now) × (plain (take result s.now) ≡ true) }
{
    lex::pass_blocks(s, from, (), |at, _| (!block_differs(s, at)).then_some(())).0
}

// Past the bytes that are the text as they stand, one by one from a place up to another.
fn plain_to(s: &[u8], from: usize, to: usize) -> usize
    requires { (from ≤ to) × (to ≤ length s.now) × (plain (take from s.now) ≡ true) }
    ensures { PlainPassed s.now to result }
{
    for i in from..to {
        if is_special(s[i]) {
            return i;
        }
    }
    to
}

// How many bytes from the start on are the text as they stand. A short run is found without the blocks.
fn plain_len(s: &[u8]) -> usize
    ensures { PlainPassed s.now (length s.now) result }
{
    let n = s.len();
    if n < 64 {
        return plain_to(s, 0, n);
    }
    let i = plain_to(s, 0, 16);
    if i < 16 {
        return i;
    }
    plain_to(s, plain_blocks(s, i), n)
}

// Kept: the room and the place in it go apart through the functions below. A struct of both is as fast, but what is lent it may exchange its room
// for another, so that ten contracts and three loops would have to say too that it still lends the same one.
// Copies the first bytes of a part of the file to a place of the room, where they fit.
// Kept: `copy_from_slice` calls `memmove`, which an archive for C then needs from outside, and takes longer for the few bytes that most are.
fn copy(s: &[u8], n: usize, out: &mut [u8], at: usize)
    requires { (n ≤ length s.now) × (at + n ≤ length out.old) }
    ensures { out.new ≡ paste out.old at s.now n }
{
    let mut k = 0;
    while k < n {
        out[at + k] = s[k];
        k += 1;
    }
}

// Puts the first bytes where they fit, and counts them wherever they stand.
fn lay(s: &[u8], n: usize, out: &mut [u8], at: usize) -> usize
    requires { n ≤ length s.now }
    ensures { Laid at out.old (take n s.now) result out.new }
{
    let end = at.saturating_add(n);
    if end <= out.len() {
        copy(s, n, out, at);
        return end;
    }
    end
}

// What follows a backslash while a page is in force, but for a `\P?\` and the directives with groups: one character; none where it is no such
// directive. `\S\` is asked for first: a text on a page is full of it.
fn short(s: &[u8], page: usize) -> Option<Char>
    requires { is s.now 1 80 && is s.now 3 92 ≡ false }
    ensures { short_view s.now result ≡ view_of (directive_of page s.now) }
{
    let x = byte_at(s, 1);
    let y = byte_at(s, 2);
    let z = byte_at(s, 3);
    if (x == 83) & ((y == 92) & (4 <= s.len())) {
        return Some(Char {
            code: pages::code_on(page, z + 128),
            used: 4,
        });
    }
    if x == 92 {
        return Some(Char { code: 92, used: 2 });
    }
    if (x == 78) & (y == 92) {
        return Some(Char { code: 10, used: 3 });
    }
    if (x == 84) & (y == 92) {
        return Some(Char { code: 9, used: 3 });
    }
    if (x == 88) & (y == 92) {
        let v = hex_two(s, 3)?;
        return Some(Char { code: v, used: 5 });
    }
    None
}

// What stands at a byte that is no backslash.
fn ordinary(s: &[u8]) -> Char
    requires { eqb (byte_at s.now 0) 92 ≡ false }
    ensures { (g : ℕ) → one_view result.code result.used ≡ view_of (piece_of g s.now) }
{
    let b = byte_at(s, 0);
    if (b == 39) & (byte_at(s, 1) == 39) {
        return Char { code: 39, used: 2 };
    }
    if b < 128 {
        return Char { code: b, used: 1 };
    }
    match utf8::sequence(s) {
        Some(c) => Char {
            code: c.code,
            used: c.used,
        },
        None => Char { code: b, used: 1 },
    }
}

// Puts a character where it fits, and counts its bytes wherever it stands.
fn put_char(out: &mut [u8], at: usize, code: u32) -> usize
    ensures { Laid at out.old (encode_all (code ∷ [])) result out.new }
{
    let u = utf8::put(out, at, code);
    if u != 0 {
        return at + u;
    }
    at.saturating_add(utf8::width(code))
}

// The bytes counted so far, and how many bytes of the string were read for a piece.
#[derive(Clone, Copy)]
struct Reached {
    at: usize,
    used: usize,
}

// The groups of so many digits of a directive whose four bytes stand at the start, up to their end, each read by `group`; a bad one leaves the characters before it and a
// literal backslash.
// Kept: the loop goes on by the bytes that a group takes, which no `for` counts.
fn groups<F: Fn(&[u8]) -> Option<Char>>(
    s: &[u8],
    width: usize,
    group: F,
    out: &mut [u8],
    at: usize,
) -> Reached
    requires marked { 4 ≤ length s.now }
    requires ready { (t : _) → F.pre group t }
    requires reads { (t : _) (r : _) → F.post group t r → told_group r ≡ group_of width t.now }
    ensures { PiecePut (extended (groups_from width 0 (drop 4 s.now))) at out.old result.at result.used out.new }
{
    let mut i = 4;
    let mut n = at;
    while i < s.len() {
        let t = &s[i..];
        if (t.len() < width) | (byte_at(t, 0) == 92) {
            return Reached {
                at: n,
                used: i + closing_len(t),
            };
        }
        let Some(g) = group(t) else {
            return Reached {
                at: put_char(out, n, 92),
                used: 1,
            };
        };
        n = put_char(out, n, g.code);
        i += g.used;
    }
    Reached { at: n, used: i }
}

// A directive with groups, or a literal backslash.
fn long(s: &[u8], out: &mut [u8], at: usize) -> Reached
    ensures { PiecePut (long_of s.now) at out.old result.at result.used out.new }
{
    let x = byte_at(s, 1);
    let y = byte_at(s, 2);
    let z = byte_at(s, 3);
    if (x == 88) & ((y == 50) & (z == 92)) {
        return groups(s, 4, group_two, out, at);
    }
    if (x == 88) & ((y == 52) & (z == 92)) {
        return groups(s, 8, group_four, out, at);
    }
    Reached {
        at: put_char(out, at, 92),
        used: 1,
    }
}

// The bytes counted so far, how many bytes of the string were read for a piece, and the page then in force.
#[derive(Clone, Copy)]
struct Advance {
    at: usize,
    used: usize,
    page: usize,
}

// A directive, or a literal backslash. What `long` answers is made anew, so that the other answers need not go through memory.
fn directive(s: &[u8], page: usize, out: &mut [u8], at: usize) -> Advance
    requires { is s.now 0 92 ≡ true }
    ensures piece_put { PiecePut (directive_of page s.now) at out.old result.at result.used out.new }
    ensures page_value { result.page ≡ page_after page s.now }
{
    let x = byte_at(s, 1);
    let y = byte_at(s, 2);
    let z = byte_at(s, 3);
    if (x == 80) & (z == 92) {
        return Advance {
            at,
            used: 4,
            page: pages::page_of(y),
        };
    }
    if let Some(c) = short(s, page) {
        return Advance {
            at: put_char(out, at, c.code),
            used: c.used,
            page,
        };
    }
    let g = long(s, out, at);
    Advance {
        at: g.at,
        used: g.used,
        page,
    }
}

// The piece of the text that stands at the start, where a page is in force.
fn step(s: &[u8], page: usize, out: &mut [u8], at: usize) -> Advance
    ensures piece_put { PiecePut (piece_of page s.now) at out.old result.at result.used out.new }
    ensures page_value { result.page ≡ page_after page s.now }
{
    if byte_at(s, 0) == 92 {
        return directive(s, page, out, at);
    }
    let c = ordinary(s);
    let used = c.used;
    Advance {
        at: put_char(out, at, c.code),
        used,
        page,
    }
}

// Copies plain bytes up to one that is not, or so many.
fn follow(s: &[u8], m: usize, out: &mut [u8], at: usize) -> usize
    requires { (m ≤ length s.now) × (m ≤ length out.old - at) }
    ensures { (result ≤ m) × (plain (take result s.now) ≡ true) × (out.new ≡ paste out.old at s.now result) }
{
    for k in 0..m {
        let b = s[k];
        if is_special(b) {
            return k;
        }
        out[at + k] = b;
    }
    m
}

// The plain bytes at the start: copied while they are found, as a run between two pieces is mostly short; where no room is left they are
// found and counted.
fn plain_run(s: &[u8], out: &mut [u8], at: usize) -> Reached
    ensures { PlainPut s.now at out.old result.at result.used out.new }
{
    let m = s.len().min(out.len().saturating_sub(at));
    let k = follow(s, m, out, at);
    if k < m {
        return Reached {
            at: at + k,
            used: k,
        };
    }
    let t = &s[k..];
    let n = plain_len(t);
    Reached {
        at: lay(t, n, out, at + k),
        used: k + n,
    }
}

// A piece of the text and the plain bytes after it.
fn turn(s: &[u8], page: usize, out: &mut [u8], at: usize) -> Advance
    requires { 0 < length s.now }
    ensures turned { Turned page s.now at out.old result.at result.used out.new }
    ensures page_value { result.page ≡ page_after page s.now }
{
    let r = step(s, page, out, at);
    let used = r.used;
    let q = plain_run(&s[used..], out, r.at);
    Advance {
        at: q.at,
        used: used + q.used,
        page: r.page,
    }
}

// Counts the bytes of the text behind so many, and writes them where they fit. It begins on page A.
// Kept: the loop goes on by the bytes that a piece takes, which no `for` counts.
fn turns(s: &[u8], out: &mut [u8], from: usize) -> usize
    ensures { Laid from out.old (bytes_of s.now) result out.new }
{
    let mut at = from;
    let mut i = 0;
    let mut page = 0;
    while i < s.len() {
        let r = turn(&s[i..], page, out, at);
        at = r.at;
        i += r.used;
        page = r.page;
    }
    at
}

// Counts the bytes of the text, whose first bytes are plain, and writes them where they fit.
fn run(raw: &[u8], n: usize, out: &mut [u8]) -> usize
    requires { (n ≤ length raw.now) × (plain (take n raw.now) ≡ true) }
    ensures { Laid 0 out.old (bytes_of raw.now) result out.new }
{
    let at = lay(raw, n, out, 0);
    turns(&raw[n..], out, at)
}

// Where a string's text is: it is the string's bytes, or so many bytes of the lent room.
#[derive(Clone, Copy)]
pub enum Decoded {
    Plain,
    Written(usize),
}

// How many bytes the text has; the largest number for a text that no memory holds.
pub fn text_length(raw: &[u8]) -> usize
    ensures { result ≡ min largest_u64 (length (bytes_of raw.now)) }
{
    let p = plain_len(raw);
    let mut none = [0u8; 1];
    run(raw, p, &mut none)
}

// Finds a string's text, and writes it where it is not the string itself and fits; none where the room is too short.
pub fn decode_string(raw: &[u8], out: &mut [u8]) -> Option<Decoded>
    ensures value { result ≡ decoded_of raw.now (length out.old) }
    ensures out_after { out.new ≡ room_after raw.now out.old }
    ensures result_after { told_text raw.now out.new result ≡ answer_of raw.now (length out.old) }
{
    let p = plain_len(raw);
    if p == raw.len() {
        return Some(Decoded::Plain);
    }
    if raw.len() <= out.len() / 2 {
        let n = run(raw, p, out);
        return Some(Decoded::Written(n));
    }
    let n = text_length(raw);
    if out.len() < n {
        return None;
    }
    run(raw, p, out);
    Some(Decoded::Written(n))
}

// The text itself: a part of the file or a part of the room.
pub fn text<'a>(raw: &'a [u8], out: &'a [u8], answer: Option<Decoded>) -> &'a [u8]
    ensures { result.now ≡ shown_of raw.now out.now answer }
{
    match answer {
        Some(Decoded::Plain) => raw,
        Some(Decoded::Written(n)) => &out[..n.min(out.len())],
        None => &out[..0],
    }
}
