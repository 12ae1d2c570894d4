// What a line asks for: the string's bytes and the room's length.
ghost use Rattle.std.specs.Prelude.{◌≤◌, length, IfOk};

use std::fmt;

// Why a line is not answered.
#[derive(Clone, Copy)]
pub enum Unanswered {
    NoRoom,
    NotHex,
    Long,
}

impl fmt::Display for Unanswered {
    fn fmt<W: fmt::Write>(&self, f: &mut fmt::Formatter<W>) -> fmt::Result {
        match self {
            Unanswered::NoRoom => write!(f, "no room of at most 65536 bytes before the colon"),
            Unanswered::NotHex => write!(f, "not hex digits in pairs"),
            Unanswered::Long => write!(f, "too long for this program"),
        }
    }
}

// The string's bytes, so many of the lent ones, and the length of the room for its text.
#[derive(Clone, Copy)]
pub struct AskedString {
    pub count: usize,
    pub lent: usize,
}

// What a line asks for; the string's bytes are put at its start. A line of n bytes is whole where the room for lines is larger.
pub fn by(line: &mut [u8], n: usize) -> Result<AskedString, Unanswered>
    ensures { IfOk result (λ a. a.count ≤ length line.new) }
{
    if n >= line.len() {
        return Err(Unanswered::Long);
    }
    let text = &mut line[..n];
    let Some(colon) = text.iter().position(|b| *b == b':') else {
        let count = put_pairs(text, 0)?;
        return Ok(AskedString { count, lent: n });
    };
    let lent = room_length(&text[..colon])?;
    let count = put_pairs(text, colon + 1)?;
    Ok(AskedString { count, lent })
}

// A room's length: one to nine digits, of which 65,536 is the most.
fn room_length(t: &[u8]) -> Result<usize, Unanswered> {
    match input::decimal(t) {
        Some(n) if t.len() < 10 && n <= 65536 => Ok(n),
        _ => Err(Unanswered::NoRoom),
    }
}

// Puts the bytes of the pairs of hex digits from a place on at the text's start, and answers how many they are.
fn put_pairs(text: &mut [u8], start: usize) -> Result<usize, Unanswered>
    ensures { IfOk result (λ n. n ≤ length text.new) }
{
    let digits = text.len().saturating_sub(start);
    if digits % 2 != 0 {
        return Err(Unanswered::NotHex);
    }
    let n = digits / 2;
    for k in 0..n {
        // its place is never behind theirs, so that no digit is lost before it is read
        let at = start + 2 * k;
        text[k] = digit(text[at])? * 16 + digit(text[at + 1])?;
    }
    Ok(n)
}

// What a byte is worth as a hex digit.
fn digit(b: u8) -> Result<u8, Unanswered>
    ensures { IfOk result (λ n. n ≤ 15) }
{
    match b {
        b'0'..=b'9' => Ok(b - b'0'),
        b'a'..=b'f' => Ok(b - b'a' + 10),
        b'A'..=b'F' => Ok(b - b'A' + 10),
        _ => Err(Unanswered::NotHex),
    }
}
