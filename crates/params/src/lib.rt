// The argument reader's core: one parameter after another, cut and not yet read.
//
// As `Args` of the Rust's value.rs down to param_span, with the file as a parameter and the reader's place and end in a struct that
// is lent. What is cut is read by the crates above. Nothing past the reader's end is looked at: all works on the bytes up to it, so
// that places are the file's. A refusal leaves the reader where document 01 says.
#![tactic(auto)]

ghost use Rattle.std.specs.Prelude.{◌≡◌, true, false, ◌&&◌, ◌+◌, ◌-◌, ◌≤◌, ◌<◌, ◌^◌, min, Ok, length, take, drop, get_or};
ghost use Rattle.params.specs.ParameterEnd.{cut_of, started};
ghost use Rattle.params.specs.Seek.{Standing, StandingAtByte, ParamStep, search_from, search_at};
ghost use Rattle.error.specs.Refusal.{told_result};
ghost use Rattle.params.specs.Answer.{ended_at, EndedIn, reader_in_file, told_read, NextParamIn, opened_of};
ghost use Rattle.params.specs.Reader.{param_of};
ghost use Rattle.params.specs.Skips.{empty_of, skip_of, skips_of};

use error::Fault;

// Where a reader stands, and up to where it reads.
#[derive(Clone, Copy, PartialEq, Eq)]
pub struct State {
    pub place: usize,
    pub end: usize,
}

// A part of the file, from start up to stop.
#[derive(Clone, Copy, PartialEq, Eq)]
pub struct Span {
    pub start: usize,
    pub stop: usize,
}

// Where a parameter stops, trailing trivia dropped, and where its comma or the end is.
#[derive(Clone, Copy, PartialEq, Eq)]
pub struct Cut {
    pub stop: usize,
    pub bound: usize,
}

// Where the search for a parameter's end stands, outside literals and comments: the place, what the parameter reaches to before it, and
// so many open parentheses.
#[derive(Clone, Copy)]
struct Search {
    at: usize,
    solid: usize,
    depth: usize,
}

impl Search {
    // On to a place, and the parameter reaches to it.
    fn to(self, place: usize) -> Search
        ensures { result ≡ search_at place place self.depth }
    {
        Search {
            at: place,
            solid: place,
            depth: self.depth,
        }
    }

    // On to a place, past trivia.
    fn past(self, place: usize) -> Search
        ensures { result ≡ search_at place self.solid self.depth }
    {
        Search { at: place, ..self }
    }
}

// A quote, which opens a string; its place is the answer where the string never ends.
fn text_step(part: &[u8], s: Search) -> Result<Search, usize>
    requires { StandingAtByte part.now s.at s.solid s.depth 39 }
    ensures { ParamStep part.now s.at s.solid s.depth result }
{
    match tokens::string_end(part, s.at + 1) {
        Some(j) => Ok(s.to(j)),
        None => Err(s.at),
    }
}

// A `"`, which opens a binary literal; its place is the answer where the literal never ends.
fn binary_step(part: &[u8], s: Search) -> Result<Search, usize>
    requires { StandingAtByte part.now s.at s.solid s.depth 34 }
    ensures { ParamStep part.now s.at s.solid s.depth result }
{
    let q = tokens::find_byte(part, s.at + 1, b'"');
    if q == part.len() {
        return Err(s.at);
    }
    Ok(s.to(q + 1))
}

// A slash: it opens a comment, which is no part of the parameter where it ends it, or is a byte of the parameter.
fn slash_step(part: &[u8], s: Search) -> Search
    requires { StandingAtByte part.now s.at s.solid s.depth 47 }
    ensures { ParamStep part.now s.at s.solid s.depth (Ok result) }
{
    if !tokens::is_at(part, s.at + 1, b'*') {
        return s.to(s.at + 1);
    }
    match tokens::comment_end(part, s.at + 2) {
        Some(j) => s.past(j),
        None => s.past(part.len()),
    }
}

// Past the token that stands there, which is no comma at depth 0; or the quote of a literal that is open. What lists are full of is asked first.
fn past_token(part: &[u8], s: Search) -> Result<Search, usize>
    requires standing { Standing part.now s.at s.solid s.depth }
    requires uncut { get_or part.now s.at 0 ≡ 44 → s.depth ≡ 0 → ⊥ }
    ensures { ParamStep part.now s.at s.solid s.depth result }
{
    let b = part[s.at];
    let next = s.to(s.at + 1);
    if b == b',' {
        return Ok(next);
    }
    if b == b'(' {
        let depth = s.depth + 1;
        return Ok(Search { depth, ..next });
    }
    if b == b')' {
        let depth = s.depth.saturating_sub(1);
        return Ok(Search { depth, ..next });
    }
    if b == b'\'' {
        return text_step(part, s);
    }
    if b == b'"' {
        return binary_step(part, s);
    }
    if b == b'/' {
        return Ok(slash_step(part, s));
    }
    if lex::is_space(b) {
        return Ok(s.past(s.at + 1));
    }
    Ok(next)
}

// The place after the bytes above the slash that stand from i on: such a byte is always one of the parameter's own, and most are. A loop
// that seeks nothing else has half the steps a byte.
fn past_plain(part: &[u8], i: usize) -> usize
    requires { i ≤ length part.now }
    ensures { (i ≤ result) × (result ≤ length part.now) × ((d : _) → search_from part.now i i d ≡ search_from part.now result result d) }
{
    for j in i..part.len() {
        if part[j] <= b'/' {
            return j;
        }
    }
    part.len()
}

// Finds where the parameter ends that starts at `start`, or the quote of a literal that is open in it.
pub fn param_end(part: &[u8], start: usize) -> Result<Cut, usize>
    ensures result_value { ended_at part.now result ≡ cut_of (drop start part.now) }
    ensures ended_in { EndedIn (min start (length part.now)) (length part.now) result }
{
    let from = start.min(part.len());
    let mut s = Search {
        at: from,
        solid: from,
        depth: 0,
    };
    // Kept: the token that stands there says where the search goes on, so that no `for` counts the place.
    while s.at < part.len() {
        let b = part[s.at];
        if b > b'/' {
            s = s.to(past_plain(part, s.at + 1));
        } else if (b == b',') & (s.depth == 0) {
            break;
        } else {
            s = past_token(part, s)?;
        }
    }
    Ok(Cut {
        stop: s.solid,
        bound: s.at,
    })
}

// Whether a byte stands here with which no trivia begins: most parameters start at once.
fn is_dark(part: &[u8], place: usize) -> bool
    ensures { result ≡ true → (place < length part.now) × (started (drop place part.now) ≡ drop place part.now) }
{
    if place < part.len() {
        return (part[place] > b' ') & (part[place] != b'/');
    }
    false
}

// The place after the trivia; an open comment runs to the end.
fn past_trivia(part: &[u8], place: usize) -> usize
    requires { place ≤ length part.now }
    ensures part_value { drop result part.now ≡ started (drop place part.now) }
    ensures lower_bound { (place ≤ result) × (result ≤ length part.now) }
{
    if is_dark(part, place) {
        return place;
    }
    lex::skip_trivia(part, place).unwrap_or(part.len())
}

fn in_file(n: usize, place: usize, end: usize) -> bool
    ensures { result ≡ reader_in_file n place end }
{
    (place <= end) & (end <= n)
}

// Cuts the next parameter.
pub fn param_span(file: &[u8], at: &mut State) -> Result<Span, Fault>
    ensures result_value { told_read result at.new ≡ param_of file.now at.old.place at.old.end }
    ensures next_param_in { NextParamIn (length file.now) result }
{
    let end = at.end;
    if !in_file(file.len(), at.place, end) {
        return Err(Fault::OutOfFile);
    }
    let part = &file[..end];
    let start = past_trivia(part, at.place);
    at.place = start;
    if start == end {
        return Err(Fault::NoParameter(end));
    }
    let cut = param_end(part, start).map_err(Fault::OpenLiteral)?;
    // Past the comma, if it is not the end.
    at.place = (cut.bound + 1).min(end);
    Ok(Span {
        start,
        stop: cut.stop,
    })
}

// A reader of the file from a place up to an end.
pub fn new(file: &[u8], place: usize, end: usize) -> Result<State, Fault>
    ensures { told_result result ≡ opened_of file.now place end }
{
    if in_file(file.len(), place, end) {
        return Ok(State { place, end });
    }
    Err(Fault::OutOfFile)
}

// The reader's place.
pub fn offset(at: State) -> usize
    ensures { result ≡ at.place }
{
    at.place
}

// Whether no parameter is left; the reader goes past the trivia.
pub fn is_empty(file: &[u8], at: &mut State) -> Result<bool, Fault>
    ensures { told_read result at.new ≡ empty_of file.now at.old.place at.old.end }
{
    let end = at.end;
    if !in_file(file.len(), at.place, end) {
        return Err(Fault::OutOfFile);
    }
    let start = past_trivia(&file[..end], at.place);
    at.place = start;
    Ok(start == end)
}

// Goes past one parameter.
pub fn skip(file: &[u8], at: &mut State) -> Result<(), Fault>
    ensures { told_read result at.new ≡ skip_of file.now at.old.place at.old.end }
{
    param_span(file, at)?;
    Ok(())
}

// Goes past n parameters, or stops at the first refusal.
pub fn skip_n(file: &[u8], at: &mut State, n: usize) -> Result<(), Fault>
    ensures { told_read result at.new ≡ skips_of n file.now at.old.place at.old.end }
{
    if !in_file(file.len(), at.place, at.end) {
        return Err(Fault::OutOfFile);
    }
    for _i in 0..n {
        skip(file, at)?;
    }
    Ok(())
}
