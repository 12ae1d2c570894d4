// A record's text: the section words, and what stands before a record's arguments.
//
// As the second half of the Rust's scan.rs. Each function takes the record's text alone, from its first byte up to its `;`, so
// what a record says cannot depend on what stands around it; places count from the record's start.
#![tactic(auto)]

ghost use Rattle.std.specs.Prelude.{◌≡◌, true, false, ◌≤◌, ◌<◌, min, length, drop};
ghost use Rattle.lex.specs.Byte.{white};
ghost use Rattle.record.specs.Text.{past, trail, keyword, Numbered, KeyedAt};
ghost use Rattle.record.specs.Byte.{digit, upper};
ghost use Rattle.record.specs.Word.{is_word, opens_data, word_in, word_of};
ghost use Rattle.record.specs.Head.{data_head, equal_head, value_head, header_head};

use error::Reason;

// The words of document 01 that a record's text can be.
#[derive(Clone, Copy, PartialEq, Eq)]
pub enum Word {
    Header,
    Data,
    EndSection,
    EndFile,
    Other,
}

// What stands before a data record's arguments: the id and the `(` of a complex record; or the id, the keyword's start and end, and
// the `(`.
#[derive(Clone, Copy, PartialEq, Eq)]
pub enum Head {
    Complex(u32, usize),
    Simple(u32, usize, usize, usize),
}

// What stands before a header record's arguments: the keyword's start and end, and the `(`.
#[derive(Clone, Copy, PartialEq, Eq)]
pub struct Named {
    pub start: usize,
    pub end: usize,
    pub opening: usize,
}

// The place of the first byte from `from` on that is not white, or the text's length.
fn past_space(b: &[u8], from: usize) -> usize
    requires { from ≤ length b.now }
    ensures b_value { drop result b.now ≡ past white (drop from b.now) }
    ensures lower_bound { from ≤ result }
    ensures upper_bound { result ≤ length b.now }
{
    for i in from..b.len() {
        let c = b[i];
        if b' ' < c {
            return i;
        }
        if !lex::is_space(c) {
            return i;
        }
    }
    b.len()
}

// Whether a byte is a digit.
pub fn is_digit(c: u8) -> bool
    ensures { result ≡ digit c }
{
    c.is_ascii_digit()
}

// The id whose digits begin at `from`, and the place after them; none where the number is above the largest id.
pub fn digits_at(b: &[u8], from: usize) -> Option<(u32, usize)>
    ensures { Numbered b.now from result }
{
    let mut n: u64 = 0;
    for i in from..b.len() {
        let c = b[i];
        if !is_digit(c) {
            return Some((n as u32, i));
        }
        n = n * 10 + u64::from(c - b'0');
        if 4294967295 < n {
            return None;
        }
    }
    Some((n as u32, from.max(b.len())))
}

// The first byte from `from` on that may be white or a `(`, or the length: the bytes above `(`, as those of a name, are neither.
fn name_run(b: &[u8], from: usize) -> usize
    requires { from ≤ length b.now }
    ensures b_value { keyword (drop result b.now) ≡ keyword (drop from b.now) }
    ensures lower_bound { (from ≤ result) × (result ≤ length b.now) }
{
    for i in from..b.len() {
        if b[i] <= b'(' {
            return i;
        }
    }
    b.len()
}

// The end of the keyword that begins at `from`, and the place of the `(` after it; none where there is no `(`.
fn keyword_at(b: &[u8], from: usize) -> Option<(usize, usize)>
    requires { from ≤ length b.now }
    ensures { KeyedAt b.now from result }
{
    let mut end = name_run(b, from);
    for i in end..b.len() {
        let c = b[i];
        if c == b'(' {
            return Some((end, i));
        }
        if !lex::is_space(c) {
            end = i + 1;
        }
    }
    None
}

// The place after the last byte from `from` on that is not white, or `from`, or the length where that is less; sought from the end.
pub fn trail_at(b: &[u8], from: usize) -> usize
    ensures b_value { drop result b.now ≡ trail (drop from b.now) }
    ensures lower_bound { (min from (length b.now) ≤ result) × (result ≤ length b.now) }
{
    for last in (from..b.len()).rev() {
        if !lex::is_space(b[last]) {
            return last + 1;
        }
    }
    from.min(b.len())
}

// A small letter as its capital.
pub fn upper_of(c: u8) -> u8
    ensures { result ≡ upper c }
{
    c.to_ascii_uppercase()
}

// Whether a text is a word that is written in capitals, letters in either case.
pub fn is_word(t: &[u8], w: &[u8]) -> bool
    ensures { result ≡ is_word t.now w.now }
{
    if t.len() != w.len() {
        return false;
    }
    for i in 0..t.len() {
        if upper_of(t[i]) != w[i] {
            return false;
        }
    }
    true
}

fn opens_data(t: &[u8]) -> bool
    ensures { result ≡ opens_data t.now }
{
    if t.len() < 4 {
        return false;
    }
    if !is_word(&t[..4], b"DATA") {
        return false;
    }
    let p = past_space(t, 4);
    if p < t.len() {
        return t[p] == b'(';
    }
    t.len() == 4
}

// The word that a trimmed text is.
fn word_in(t: &[u8]) -> Word
    ensures { result ≡ word_in t.now }
{
    if is_word(t, b"ENDSEC") {
        return Word::EndSection;
    }
    if is_word(t, b"HEADER") {
        return Word::Header;
    }
    if opens_data(t) {
        return Word::Data;
    }
    if is_word(t, b"END-ISO-10303-21") {
        return Word::EndFile;
    }
    Word::Other
}

// The word that a record's text is. Nearly every record begins with `#` and is none: its end need not be looked at.
pub fn section_word(b: &[u8]) -> Word
    ensures { result ≡ word_of b.now }
{
    if b.len() == 0 {
        return Word::Other;
    }
    if b[0] == b'#' {
        return Word::Other;
    }
    let a = past_space(b, 0);
    let e = trail_at(b, a);
    word_in(&b[a..e])
}

// What stands from the value on.
fn value_head(b: &[u8], id: u32, from: usize) -> Result<Head, Reason>
    requires { from ≤ length b.now }
    ensures { result ≡ value_head b.now id (past white (drop from b.now)) }
{
    let v = past_space(b, from);
    if b.len() <= v {
        return Err(Reason::NoValue);
    }
    if b[v] == b'(' {
        return Ok(Head::Complex(id, v));
    }
    match keyword_at(b, v) {
        None => Err(Reason::NoParen),
        Some((e, o)) => Ok(Head::Simple(id, v, e, o)),
    }
}

// What stands from the `=` on.
fn equal_head(b: &[u8], id: u32, from: usize) -> Result<Head, Reason>
    requires { from ≤ length b.now }
    ensures { result ≡ equal_head b.now id (past white (drop from b.now)) }
{
    let q = past_space(b, from);
    if b.len() <= q {
        return Err(Reason::NoEqual);
    }
    if b[q] != b'=' {
        return Err(Reason::NoEqual);
    }
    value_head(b, id, q + 1)
}

// The head of a data record's text.
pub fn data_head(b: &[u8]) -> Result<Head, Reason>
    ensures { result ≡ data_head b.now }
{
    if b.len() == 0 {
        return Err(Reason::NoHash);
    }
    if b[0] != b'#' {
        return Err(Reason::NoHash);
    }
    match digits_at(b, 1) {
        None => Err(Reason::LargeId),
        Some((id, at)) => {
            if at == 1 {
                return Err(Reason::NoDigits);
            }
            equal_head(b, id, at)
        }
    }
}

// The head of a header record's text.
pub fn header_head(b: &[u8]) -> Result<Named, Reason>
    ensures { result ≡ header_head b.now }
{
    let v = past_space(b, 0);
    match keyword_at(b, v) {
        None => Err(Reason::NoHeaderParen),
        Some((end, opening)) => Ok(Named {
            start: v,
            end,
            opening,
        }),
    }
}

// How many white bytes a text begins with.
pub fn leading_space(b: &[u8]) -> usize
    ensures b_value { drop result b.now ≡ past white b.now }
    ensures upper_bound { result ≤ length b.now }
{
    past_space(b, 0)
}
