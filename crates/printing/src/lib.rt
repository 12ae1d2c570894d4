// What the programs print, by way of a lent buffer: one system call for each buffer full and not for each number.
//
// A pen says how far the buffer is used. Each function puts something behind what the buffer holds and answers the pen
// after it; where the buffer is full, what it holds is written to standard output first, which the runtime reaches. No
// contract can say what a system call writes, so the contracts say what the buffer holds.
#![tactic(auto)]

ghost use Rattle.std.specs.Prelude.{◌≡◌, ◌<◌, [], ◌∷◌, length};
ghost use Rattle.printing.specs.Put.{Put, PutNumber};

#[derive(Clone, Copy)]
pub struct Pen {
    // How many bytes of the buffer are used.
    pub used: usize,
    // Whether something could not be written.
    pub lost: bool,
}

// A pen for a buffer that holds nothing yet.
pub fn fresh() -> Pen
    ensures { result.used ≡ 0 }
{
    Pen {
        used: 0,
        lost: false,
    }
}

// Writes out what the buffer holds.
pub fn flush<R: Print>(rt: &R, buffer: &[u8], pen: Pen) -> Pen
    ensures { result.used ≡ 0 }
{
    let n = pen.used.min(buffer.len());
    if rt.write_all(&buffer[..n]).is_ok() {
        return Pen {
            used: 0,
            lost: pen.lost,
        };
    }
    Pen {
        used: 0,
        lost: true,
    }
}

// The pen, after a flush where the buffer is full.
fn with_room<R: Print>(rt: &R, buffer: &[u8], pen: Pen) -> Pen
    ensures { pen.used < length buffer.now → result.used ≡ pen.used }
{
    let used = pen.used;
    if used < buffer.len() {
        return pen;
    }
    flush(rt, buffer, pen)
}

// Puts one byte. A buffer of no bytes loses it.
pub fn byte<R: Print>(rt: &R, buffer: &mut [u8], pen: Pen, b: u8) -> Pen
    ensures { Put buffer.old pen.used (b ∷ []) buffer.new result.used }
{
    let roomy = with_room(rt, buffer, pen);
    let at = roomy.used;
    if at < buffer.len() {
        buffer[at] = b;
        return Pen {
            used: at + 1,
            lost: roomy.lost,
        };
    }
    Pen {
        used: 0,
        lost: true,
    }
}

// Puts bytes, in their order.
pub fn bytes<R: Print>(rt: &R, buffer: &mut [u8], pen: Pen, words: &[u8]) -> Pen
    ensures { Put buffer.old pen.used words.now buffer.new result.used }
{
    let mut last = pen;
    for b in words {
        last = byte(rt, buffer, last, *b);
    }
    last
}

// Puts a number in decimal, with the fewest digits.
pub fn decimal<R: Print>(rt: &R, buffer: &mut [u8], pen: Pen, n: u64) -> Pen
    ensures { PutNumber buffer.old pen.used n buffer.new result.used }
{
    let mut figures = [0u8; 20];
    let k = io::decimal(n, &mut figures);
    bytes(rt, buffer, pen, &figures[..k])
}

// Writes out what the buffer still holds at a program's end, and says so where something could not be written.
pub fn finish<R: Print + Eprint>(rt: &R, buffer: &[u8], pen: Pen) {
    let last = flush(rt, buffer, pen);
    if last.lost {
        let _ = eprintln!(rt; "standard output could not be written whole");
    }
}
