// The answer to a string.
use input::Hex;
use std::io;
use std::io::Write;
use strings::Decoded;

// What the room is filled with: a byte that no UTF-8 has.
const MARK: u8 = 255;

// Decodes a string into this room, and puts what it is. The room is changed where a text stands, and nowhere else.
pub fn put_text<W: Write>(
    string: &[u8],
    room: &mut [u8],
    number: u64,
    out: &mut W,
) -> io::Result<()> {
    room.fill(MARK);
    let answer = strings::decode_string(string, room);
    let written = match answer {
        Some(Decoded::Written(n)) => n.min(room.len()),
        _ => 0,
    };
    if room[written..].iter().any(|b| *b != MARK) {
        return writeln!(
            out,
            "line {number}: the room was changed where no text stands"
        );
    }
    match answer {
        Some(Decoded::Plain) => writeln!(out, "plain {}", Hex(string)),
        Some(Decoded::Written(_)) => writeln!(out, "text {}", Hex(&room[..written])),
        None => writeln!(out, "16"),
    }
}
