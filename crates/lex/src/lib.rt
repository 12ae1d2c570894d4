// The lexer under the scan: past trivia, to a string's end, to a record's `;`, to the `)` that closes a `(`.
//
// As the first half of the Rust's scan.rs. All searches pass a comment at one go; those for a `;` and a `)` a string too, and plain bytes by
// blocks where there are many. Where a string and a comment end is sought by `text_end` and `comment_end`, for the argument reader too.
// No search has a `requires`: a start past the file's end counts as the end, and so it does for `pass_blocks`, the walk below three of them, which
// asks only that its step answers.
#![tactic(auto)]

ghost use Rattle.std.specs.Prelude.{◌≡◌, ℕ, ◌+◌, ◌≤◌, ◌<◌, ◌^◌, min, true, false, ◌||◌, length, drop, IfSome};
ghost use Rattle.error.specs.Refusal.{told_result};
ghost use Rattle.lex.specs.Byte.{white};
ghost use Rattle.lex.specs.Blocks.{BlocksPassed};
ghost use Rattle.lex.specs.Answer.{Lacks, Stopped, placed, QuoteIs, TextEnds, CommentEnds};
ghost use Rattle.lex.specs.PassedAtOnce.{IsAt, LeavesOrRefused, OutsideAgain, Quiet, BlockCounted};
ghost use Rattle.lex.specs.Search.{record_end, closing, trivia, paren, look_of};

use error::Fault;

// Where the lexer of the definitions stands: outside strings and comments; after a slash there; in a string; after a quote in one; in a
// comment; after a `*` in one.
#[derive(Clone, Copy)]
pub enum Mode {
    Plain,
    Slash,
    Text,
    Quoted,
    Remark,
    Starred,
}

pub fn is_space(b: u8) -> bool
    ensures { result ≡ white b }
{
    (b == 32) | (b == 9) | (b == 10) | (b == 12) | (b == 13)
}

// Whether one of the 64 bytes from `at` on is b. It only notes a hit, so that the compiler looks at many bytes at once.
// Kept: one function for the three that look at a block, over a closure that tests a byte, makes them a tenth slower, and `any` or `filter` and
// `count` sixteen times.
fn block_has(s: &[u8], at: usize, b: u8) -> bool
    requires { at + 64 ≤ length s.now }
    ensures { result ≡ false → Lacks b s.now at (at + 64) }
{
    let mut hit = false;
    for k in 0..64 {
        hit |= s[at + k] == b;
    }
    hit
}

// Past the blocks of 64 bytes, from `from` on, that the step lets pass, with what it makes of a state; it is told where a block begins. Where a
// whole block is left, the step refuses it, so that the place and the state are one where the step's answer is (`blocks_only`).
pub fn pass_blocks<T: Copy, F: Fn(usize, T) -> Option<T>>(
    s: &[u8],
    from: usize,
    first: T,
    step: F,
) -> (usize, T)
    requires ready { (i : ℕ) (t : T) → i + 64 ≤ length s.now → F.pre step i t }
    ensures bounds { (min from (length s.now) ≤ result.0) × (result.0 ≤ length s.now) }
    ensures passed { BlocksPassed (λ i t u. (i + 64 ≤ length s.now) × F.post step i t (Some u)) (min from (length s.now)) first result.0 result.1 }
    ensures stopped { result.0 + 64 ≤ length s.now → F.post step result.0 result.1 None }
{
    let start = from.min(s.len());
    let blocks = (s.len() - start) / 64;
    let mut state = first;
    for k in 0..blocks {
        let at = start + 64 * k;
        let Some(next) = step(at, state) else {
            return (at, state);
        };
        state = next;
    }
    (start + 64 * blocks, state)
}

// Past the bytes that are not b, from `from` on and before `end`.
// Kept: a `for` over the places makes the search for a `;` 6% slower, and `position` this loop 4%.
fn pass_bytes(s: &[u8], from: usize, end: usize, b: u8) -> usize
    requires { (from ≤ end) × (end ≤ length s.now) }
    ensures { Stopped b s.now from end result }
{
    let mut i = from;
    while i < end {
        if s[i] == b {
            return i;
        }
        i += 1;
    }
    i
}

// The first place from `start` on that has the byte b, or the length. Most are near; what is far is sought by blocks.
pub fn find(s: &[u8], start: usize, b: u8) -> usize
    ensures { Stopped b s.now (min start (length s.now)) (length s.now) result }
{
    let from = start.min(s.len());
    let near = (from + 16).min(s.len());
    let i = pass_bytes(s, from, near, b);
    if i < near {
        return i;
    }
    let (far, _) = pass_blocks(s, i, (), |at, _| (!block_has(s, at, b)).then_some(()));
    pass_bytes(s, far, s.len(), b)
}

// Whether the byte b stands at i.
fn is_at(s: &[u8], i: usize, b: u8) -> bool
    ensures { IsAt b s.now i result }
{
    if i < s.len() {
        return s[i] == b;
    }
    false
}

// What a quote in a string is, by what follows it. The quotes after the string's first one are paired off in turn: `''` is a pair and stays inside,
// and a quote that is left over is the string's end. So after the `a` of `'a'''` come a pair and the end: it ends at its last quote.
#[derive(Clone, Copy)]
pub enum Quote {
    Doubled, // `''`.
    Single, // `'` and another byte.
    Last, // `'` and the end of the bytes: the file's, or of the part of it that is read.
}

// What the quote before `after` is, if it is not the second of a pair. That byte itself is not looked at.
pub fn quote_before(s: &[u8], after: usize) -> Quote
    ensures { QuoteIs (drop after s.now) result }
{
    if s.len() <= after {
        return Quote::Last;
    }
    if s[after] == b'\'' {
        return Quote::Doubled;
    }
    Quote::Single
}

// The first quote from i on, or the length. Most strings are short: the compiler puts the look at the first bytes into the loop below, which has
// no call then.
fn next_quote(s: &[u8], i: usize) -> usize
    requires { i ≤ length s.now }
    ensures { Stopped 39 s.now i (length s.now) result }
{
    let near = (i + 8).min(s.len());
    let q = pass_bytes(s, i, near, b'\'');
    if q < near {
        return q;
    }
    find(s, q, b'\'')
}

// Where the string ends whose first quote stands before `from`; what byte stands there is not looked at.
// Kept: the loop leaps from quote to quote, which no `for` counts.
pub fn text_end(s: &[u8], from: usize) -> Option<usize>
    ensures { TextEnds s.now from result }
{
    let mut i = from.min(s.len());
    while i < s.len() {
        if s[i] == b'\'' {
            match quote_before(s, i + 1) {
                Quote::Doubled => i += 2, // `''`: stay inside.
                Quote::Single => return Some(i + 1), // `'` and another byte: the end.
                Quote::Last => return Some(i + 1), // `'` and the file's end: the end.
            }
        } else {
            i = next_quote(s, i + 1);
        }
    }
    None
}

// Past the string whose first quote stands at q.
fn past_text(s: &[u8], q: usize) -> Result<usize, Fault>
    requires { q < length s.now }
    ensures { LeavesOrRefused s.now Mode.Text q (q + 1) result }
{
    text_end(s, q + 1).ok_or(Fault::OpenString(q))
}

// Where the comment ends whose `/*` stands before `from`: after the first `*/`. What bytes stand before `from` is not looked at.
// Kept: the loop leaps from star to star, which no `for` counts.
pub fn comment_end(s: &[u8], from: usize) -> Option<usize>
    ensures { CommentEnds s.now from result }
{
    let mut i = from.min(s.len());
    loop {
        let e = find(s, i, b'*');
        if s.len() <= e {
            return None;
        }
        if is_at(s, e + 1, b'/') {
            return Some(e + 2);
        }
        i = e + 1;
    }
}

// Past the comment whose `/` stands at q and its `*` after it.
fn past_remark(s: &[u8], q: usize) -> Result<usize, Fault>
    requires { q + 2 ≤ length s.now }
    ensures { LeavesOrRefused s.now Mode.Remark q (q + 2) result }
{
    comment_end(s, q + 2).ok_or(Fault::OpenComment(q))
}

// Past what stands at i outside strings and comments: a string, a comment, or a byte.
fn past(s: &[u8], i: usize) -> Result<usize, Fault>
    requires { i < length s.now }
    ensures { OutsideAgain s.now i result }
{
    let c = s[i];
    if c == b'\'' {
        return past_text(s, i);
    }
    if c != b'/' {
        return Ok(i + 1);
    }
    if !is_at(s, i + 1, b'*') {
        return Ok(i + 1);
    }
    past_remark(s, i)
}

// Whether one of the 64 bytes from `at` on is a quote, a slash or a `;`. Each is noted for itself: where all go into one note, the
// compiler does not look at many bytes at once.
fn block_ends(s: &[u8], at: usize) -> bool
    requires { at + 64 ≤ length s.now }
    ensures { result ≡ false → Quiet s.now at (at + 64) }
{
    let mut quote = false;
    let mut slash = false;
    let mut end = false;
    for k in 0..64 {
        let b = s[at + k];
        quote |= b == b'\'';
        slash |= b == b'/';
        end |= b == b';';
    }
    quote | slash | end
}

// Finds the `;` that ends the record that begins at `start`. The bytes are looked at one by one up to `near`, then by blocks while that passes
// any: most records are short.
// Kept: the loop leaps over strings, comments and blocks, which no `for` counts.
pub fn find_record_end(s: &[u8], start: usize) -> Result<usize, Fault>
    ensures { told_result result ≡ placed s.now (record_end (drop start s.now)) }
{
    let from = start.min(s.len());
    let mut i = from;
    let mut near = from + 64;
    while i < s.len() {
        if near <= i {
            i = pass_blocks(s, i, (), |at, _| (!block_ends(s, at)).then_some(())).0;
            near = i + 64;
        } else {
            if s[i] == b';' {
                return Ok(i);
            }
            i = past(s, i)?;
        }
    }
    Err(Fault::NoEnd(from))
}

// How many parentheses are open after a byte outside strings and comments, or none where it closes the one sought.
fn depth_after(depth: usize, b: u8) -> Option<usize>
    requires { depth < 2 ^ 63 }
    ensures { look_of result ≡ paren depth b }
{
    if b == b'(' {
        return Some(depth + 1);
    }
    if b != b')' {
        return Some(depth);
    }
    if depth == 0 {
        return None;
    }
    Some(depth - 1)
}

// How many `(` and `)` some bytes have, and whether one of them is a quote or a slash.
#[derive(Clone, Copy)]
struct Tally {
    quote: bool,
    slash: bool,
    up: u8,
    down: u8,
}

impl Tally {
    // How many parentheses are open after the bytes, where so many are before them; none where a byte is to be looked at by itself, or one of the
    // parentheses may close the one sought.
    fn after(self, depth: usize) -> Option<usize>
        ensures { IfSome result (λ e. ((self.quote || self.slash) ≡ false) × (self.down ≤ depth) × (e + self.down ≡ depth + self.up)) }
    {
        if self.quote | self.slash {
            return None;
        }
        depth
            .checked_sub(usize::from(self.down))?
            .checked_add(usize::from(self.up))
    }
}

// What the 64 bytes from `at` on do to a search for a `)`. The counts are bytes, so that the compiler counts in many of them at once.
fn block_tally(s: &[u8], at: usize) -> Tally
    requires { at + 64 ≤ length s.now }
    ensures up_bound { (result.up ≤ 64) × (result.down ≤ 64) }
    ensures block_counted { (result.quote || result.slash) ≡ false → BlockCounted s.now at (at + 64) result.up result.down }
{
    let mut quote = false;
    let mut slash = false;
    let mut up: u8 = 0;
    let mut down: u8 = 0;
    for k in 0..64 {
        let b = s[at + k];
        quote |= b == b'\'';
        slash |= b == b'/';
        up += u8::from(b == b'(');
        down += u8::from(b == b')');
    }
    Tally {
        quote,
        slash,
        up,
        down,
    }
}

// Finds the `)` that closes the `(` at `opening`; what byte stands there is not looked at. By bytes and blocks as the search for a `;`.
// Kept: the loop leaps as that search does.
pub fn matching_paren(s: &[u8], opening: usize) -> Result<usize, Fault>
    ensures { told_result result ≡ placed s.now (closing (drop opening s.now)) }
{
    let from = opening.min(s.len());
    let mut i = (from + 1).min(s.len());
    let mut depth: usize = 0;
    let mut near = i + 64;
    while i < s.len() {
        if near <= i {
            (i, depth) = pass_blocks(s, i, depth, |at, d| block_tally(s, at).after(d));
            near = i + 64;
        } else {
            let Some(d) = depth_after(depth, s[i]) else {
                return Ok(i);
            };
            i = past(s, i)?;
            depth = d;
        }
    }
    Err(Fault::OpenParen(from))
}

// Goes past whitespace and comments: the place of the first byte that is neither, or the file's end.
// Kept: the loop leaps over comments, which no `for` counts.
pub fn skip_trivia(s: &[u8], start: usize) -> Result<usize, Fault>
    ensures { told_result result ≡ placed s.now (trivia (drop start s.now)) }
{
    let mut i = start.min(s.len());
    while i < s.len() {
        let c = s[i];
        if is_space(c) {
            i += 1;
        } else {
            if c != b'/' {
                return Ok(i);
            }
            if !is_at(s, i + 1, b'*') {
                return Ok(i);
            }
            i = past_remark(s, i)?;
        }
    }
    Ok(i)
}
