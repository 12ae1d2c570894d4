// How bytes and refusals are shown.
ghost use Rattle.io.specs.Counts.{IsPrefixLen};

use error::Fault;
use std::{fmt, str};

// Bytes in hex digits.
#[derive(Clone, Copy)]
pub struct Hex<'a>(pub &'a [u8]);

impl fmt::Display for Hex<'_> {
    fn fmt<W: fmt::Write>(&self, f: &mut fmt::Formatter<W>) -> fmt::Result {
        // many bytes are put at once, since a call for each takes longer than its digits
        let mut room = [0u8; 64];
        for bytes in self.0.chunks(32) {
            let n = put_digits(bytes, &mut room);
            let digits = str::from_utf8(&room[..n]).map_err(|_| fmt::Error)?;
            f.write_str(digits)?;
        }
        Ok(())
    }
}

const DIGITS: &[u8; 16] = b"0123456789abcdef";

// Puts the two digits of each byte that there is room for, and answers how many digits they are.
fn put_digits(bytes: &[u8], room: &mut [u8]) -> usize
    ensures { IsPrefixLen result room.new }
{
    let n = bytes.len().min(room.len() / 2);
    for k in 0..n {
        let b = usize::from(bytes[k]);
        room[2 * k] = DIGITS[b / 16];
        room[2 * k + 1] = DIGITS[b % 16];
    }
    2 * n
}

// A refusal, as `NUMBER/REASON@PLACE`.
#[derive(Clone, Copy)]
pub struct Refusal(pub Fault);

impl fmt::Display for Refusal {
    fn fmt<W: fmt::Write>(&self, f: &mut fmt::Formatter<W>) -> fmt::Result {
        let fault = self.0;
        let number = fault.number();
        let reason = fault.reason();
        let place = fault.place();
        write!(f, "{number}/{reason}@{place}")
    }
}
