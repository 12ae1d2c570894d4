// One statement of the file: a section word, a header record, a data record, or a refusal.
//
// As the middle of the Rust's scan.rs: the body of the loop of `scan`, and the records that it reads. A statement is read
// from a place in a section; whether there is a row left for it is for the scan to say.
#![tactic(auto)]

ghost use Rattle.std.specs.Prelude.{◌≡◌, true, false, ◌+◌, ◌-◌, ◌^◌, ◌≤◌, ◌<◌, eqb, length, take, drop, get_or, min, ℕ, option_map};
ghost use Rattle.lex.specs.Byte.{white};
ghost use Rattle.lex.specs.Search.{trivia};
ghost use Rattle.lex.specs.Answer.{at, placed};
ghost use Rattle.error.specs.Refusal.{told_result};
ghost use Rattle.record.specs.Text.{past, Numbered};
ghost use Rattle.record.specs.Form.{Free};
ghost use Rattle.record.specs.Head.{data_head};
ghost use Rattle.record.specs.Within.{HeadWithin};
ghost use Rattle.statement.specs.Rows.{told_row, header_row};
ghost use Rattle.statement.specs.Row.{argued, record_of, header_of, opening_of, row_at};
ghost use Rattle.statement.specs.Answer.{told_record, told_header_read, told_said, Ahead, said_in, noted_tidy, told_tidied};
ghost use Rattle.statement.specs.Statement.{in_section, ended, begun, statement};
ghost use Rattle.statement.specs.Tidy.{unended, tidy, tidy_by, tidy_record, TidyAhead};
ghost use Rattle.statement.specs.Usual.{is_looked_at, is_plain_byte, stops_string, spoken, WalkStep, ClosingFound, Headed, Walked, UsualSaid};

use error::Fault;
use lex::Quote;
use record::{Head, Named, Word};

// Where a statement stands: in the header, in data, or elsewhere, where records are ignored.
#[derive(Clone, Copy, PartialEq, Eq)]
pub enum Section {
    Outside,
    InHeader,
    InData,
}

// A part of the file, from start up to end.
#[derive(Clone, Copy, Default, PartialEq, Eq)]
pub struct Range {
    pub start: usize,
    pub end: usize,
}

// A header record's keyword and arguments.
#[derive(Clone, Copy, Default, PartialEq, Eq)]
pub struct HeaderSpan {
    pub keyword: Range,
    pub args: Range,
}

// A data record's id, keyword and arguments; complex is 1 for a complex record, whose keyword is 0, 0.
#[derive(Clone, Copy, Default, PartialEq, Eq)]
pub struct RecordSpan {
    pub id: u32,
    pub keyword: Range,
    pub args: Range,
    // Kept: a number, as the lent tables and C hold it: a row that is not the reader's own may have any, and is told as it stands (`told_row`).
    pub complex: u32,
}

// What a statement says: the reading ends; the section after it and the place after it; or a row, with the record's start and the
// place after the statement.
#[derive(Clone, Copy, PartialEq, Eq)]
pub enum Said {
    Ends,
    Moves(Section, usize),
    Heads(HeaderSpan, usize, usize),
    Records(RecordSpan, usize, usize),
}

// What a statement says, and whether its first `;` alone would have given that.
// Kept: the flag is no part of `said`, of which `next_statement` has one answer (`said_only`).
#[derive(Clone, Copy, PartialEq, Eq)]
pub struct Noted {
    pub said: Said,
    pub tidy: bool,
}

// The place of the `(` in a data record's head.
fn opening_of(head: Head) -> usize
    ensures { result ≡ opening_of head }
{
    match head {
        Head::Complex(_, o) | Head::Simple(_, _, _, o) => o,
    }
}

// The row of a data record that starts at `start`, by its head and its arguments.
fn row_at(start: usize, head: Head, args: Range) -> RecordSpan
    requires { (n : ℕ) × (start + n < 2 ^ 64) × HeadWithin n (Ok head) }
    ensures { told_row result ≡ row_at start head args.start args.end }
{
    match head {
        Head::Complex(id, _) => RecordSpan {
            id,
            keyword: Range { start: 0, end: 0 },
            args,
            complex: 1,
        },
        Head::Simple(id, a, z, _) => RecordSpan {
            id,
            keyword: Range {
                start: start + a,
                end: start + z,
            },
            args,
            complex: 0,
        },
    }
}

// A keyword and its arguments, by the head of a text that starts at `start`: the arguments run up to the `)` that closes the head's `(`, which is
// sought through the whole file. A header record is such a text, and a part of a complex record. A place past the greatest number counts as that
// one.
pub fn keyed_at(s: &[u8], start: usize, head: Named) -> Result<HeaderSpan, Fault>
    ensures { told_header_read result ≡ argued s.now (drop (min (start + head.opening) 18446744073709551615) s.now)
        (λ q. header_row (min (start + head.start) 18446744073709551615) (min (start + head.end) 18446744073709551615) (min (min (start + head.opening) 18446744073709551615 + 1) 18446744073709551615) q) }
{
    let opening = start.saturating_add(head.opening);
    let close = lex::matching_paren(s, opening)?;
    Ok(HeaderSpan {
        keyword: Range {
            start: start.saturating_add(head.start),
            end: start.saturating_add(head.end),
        },
        args: Range {
            start: opening.saturating_add(1),
            end: close,
        },
    })
}

// A whole record of the file: its text runs from start up to the `;` at end.
#[derive(Clone, Copy)]
struct Record<'a> {
    file: &'a [u8],
    start: usize,
    end: usize,
    ghost ordered: { start ≤ end },
    ghost within: { end < length file.now },
}

impl<'a> Record<'a> {
    // As a data record: its arguments run up to the `)` that closes its `(`.
    fn data(self) -> Result<RecordSpan, Fault>
        ensures { told_record result ≡ record_of self.entry.file.now (drop self.entry.start self.entry.file.now) (take (self.entry.end - self.entry.start) (drop self.entry.start self.entry.file.now)) }
    {
        let head = match record::data_head(&self.file[self.start..self.end]) {
            Ok(head) => head,
            Err(why) => return Err(Fault::BadRecord(why.number(), self.start)),
        };
        let opening = self.start + opening_of(head);
        let close = lex::matching_paren(self.file, opening)?;
        let first = opening + 1;
        let args = Range {
            start: first,
            end: close,
        };
        Ok(row_at(self.start, head, args))
    }

    // As a header record.
    fn header(self) -> Result<HeaderSpan, Fault>
        ensures { told_header_read result ≡ header_of self.entry.file.now (drop self.entry.start self.entry.file.now) (take (self.entry.end - self.entry.start) (drop self.entry.start self.entry.file.now)) }
    {
        match record::header_head(&self.file[self.start..self.end]) {
            Ok(head) => keyed_at(self.file, self.start, head),
            Err(why) => Err(Fault::BadRecord(why.number(), self.start)),
        }
    }

    // What it says that is no section word.
    fn in_section(self, section: Section) -> Result<Said, Fault>
        ensures result_value { told_said self.entry.file.now result ≡ in_section self.entry.file.now (drop self.entry.start self.entry.file.now) (drop self.entry.end self.entry.file.now) section }
        ensures ahead { Ahead self.entry.start (length self.entry.file.now) result }
    {
        Ok(match section {
            Section::Outside => Said::Moves(Section::Outside, self.end + 1),
            Section::InHeader => Said::Heads(self.header()?, self.start, self.end + 1),
            Section::InData => Said::Records(self.data()?, self.start, self.end + 1),
        })
    }

    // What it says.
    fn said(self, section: Section) -> Result<Said, Fault>
        ensures result_value { told_said self.entry.file.now result ≡ ended self.entry.file.now (drop self.entry.start self.entry.file.now) section (at (drop self.entry.end self.entry.file.now)) }
        ensures ahead { Ahead self.entry.start (length self.entry.file.now) result }
    {
        match record::section_word(&self.file[self.start..self.end]) {
            Word::EndSection => Ok(Said::Moves(Section::Outside, self.end + 1)),
            Word::Header => Ok(Said::Moves(Section::InHeader, self.end + 1)),
            Word::Data => Ok(Said::Moves(Section::InData, self.end + 1)),
            Word::EndFile => Ok(Said::Ends),
            Word::Other => self.in_section(section),
        }
    }

    // As a data record by its head alone, with its `)` just before the `;`.
    fn tidied(self) -> Option<(RecordSpan, usize, usize)>
        ensures result_value { told_tidied self.entry.file.now result ≡ tidy_by self.entry.file.now (drop self.entry.start self.entry.file.now) (drop self.entry.end self.entry.file.now) (data_head (take (self.entry.end - self.entry.start) (drop self.entry.start self.entry.file.now))) }
        ensures tidy_ahead { TidyAhead self.entry.start (length self.entry.file.now) result }
    {
        let Ok(head) = record::data_head(&self.file[self.start..self.end]) else {
            return None;
        };
        let args = Range {
            start: self.start + opening_of(head) + 1,
            end: self.end - 1,
        };
        Some((row_at(self.start, head, args), self.start, self.end + 1))
    }
}

// A byte that a walk over a record has to look at: a quote, a parenthesis, a slash, a `;`. One bit of a number answers for each byte
// modulo 64, so some bytes more are looked at, as `g`; none of the five is passed over.
fn is_mark(b: u8) -> bool
    ensures { result ≡ is_looked_at b }
{
    (576605338082476032u64 >> u64::from(b % 64)) % 2 == 1
}

// The first marked place from `from` on, or the length: the last bytes of a file.
// Kept: here and in the searches below `s` and `from` go together, with `from ≤ length s`. Slices from the place on are no plainer: each answer is a place in
// the whole file, so each search would add where it had cut. Nor is a struct of both: the next place is computed from the answer (`close + 1`), so each caller
// would build the struct anew and prove the fact there, as it does now for the clause.
fn last_run(s: &[u8], from: usize) -> usize
    requires { from ≤ length s.now }
    ensures s_value { drop result s.now ≡ past is_plain_byte (drop from s.now) }
    ensures lower_bound { (from ≤ result) × (result ≤ length s.now) }
{
    for i in from..s.len() {
        if is_mark(s[i]) {
            return i;
        }
    }
    s.len()
}

// The first marked place from `from` on, or the length. Four bytes a turn: less is counted, and a processor foresees better where
// such a loop ends.
// Kept: with a turn a byte, as in `last_run`, the scan of a real file takes 17 instructions in a hundred more.
fn plain_run(s: &[u8], from: usize) -> usize
    requires { from ≤ length s.now }
    ensures s_value { drop result s.now ≡ past is_plain_byte (drop from s.now) }
    ensures lower_bound { (from ≤ result) × (result ≤ length s.now) }
{
    let mut i = from;
    while 4 <= s.len() - i {
        if is_mark(s[i]) {
            return i;
        }
        let second = i + 1;
        if is_mark(s[second]) {
            return second;
        }
        let third = second + 1;
        if is_mark(s[third]) {
            return third;
        }
        let fourth = third + 1;
        if is_mark(s[fourth]) {
            return fourth;
        }
        i = fourth + 1;
    }
    last_run(s, i)
}

// A quote or a `;`.
fn is_stop(b: u8) -> bool
    ensures { result ≡ stops_string b }
{
    (b == b'\'') | (b == b';')
}

// Whether one of the 64 bytes from i on is a quote or a `;`. It only notes hits, each of the two for itself: so the compiler looks at many
// bytes at once, which it does not where both go into one note.
// Kept: `has_end` with one note more; one function for both would take the test as a closure, and the two notes be one.
fn block_stops(s: &[u8], i: usize) -> bool
    requires { i + 64 ≤ length s.now }
    ensures { result ≡ false → past spoken (drop (i + 64) s.now) ≡ past spoken (drop i s.now) }
{
    let mut quote = false;
    let mut end = false;
    for k in 0..64 {
        let b = s[i + k];
        quote = quote | (b == b'\'');
        end = end | (b == b';');
    }
    quote | end
}

// Past all blocks of 64 bytes without a quote or a `;`, from `from` on.
// Kept: no range goes by blocks without a measure of its own, and the chunks of a slice tell no place.
fn text_blocks(s: &[u8], from: usize) -> usize
    requires { from ≤ length s.now }
    ensures s_value { past spoken (drop result s.now) ≡ past spoken (drop from s.now) }
    ensures lower_bound { (from ≤ result) × (result ≤ length s.now) }
{
    let mut i = from;
    while s.len() - i >= 64 {
        if block_stops(s, i) {
            return i;
        }
        i += 64;
    }
    i
}

// The first quote or `;` from `from` on and before `end`, or `end`.
fn text_bytes(s: &[u8], from: usize, end: usize) -> usize
    requires { (from ≤ end) × (end ≤ length s.now) }
    ensures s_value { past spoken (drop result s.now) ≡ past spoken (drop from s.now) }
    ensures lower_bound { (from ≤ result) × (result ≤ end) }
    ensures s_value_2 { result < end → drop result s.now ≡ past spoken (drop result s.now) }
{
    for i in from..end {
        if is_stop(s[i]) {
            return i;
        }
    }
    end
}

// The first quote or `;` from `from` on, or the length. Most strings are short; what is far is sought by blocks.
fn text_run(s: &[u8], from: usize) -> usize
    requires { from ≤ length s.now }
    ensures s_value { drop result s.now ≡ past spoken (drop from s.now) }
    ensures lower_bound { (from ≤ result) × (result ≤ length s.now) }
{
    let near = s.len().min(from + 32);
    let i = text_bytes(s, from, near);
    if i < near {
        return i;
    }
    let far = text_blocks(s, i);
    text_bytes(s, far, s.len())
}

// Past the string whose first quote stands at i, where no `;` and no doubled quote is in it, which would not be usual.
fn string_past(s: &[u8], i: usize) -> Option<usize>
    requires { (i < length s.now) × (get_or s.now i 0 ≡ 39) }
    ensures { (d : ℕ) → WalkStep s.now i d (option_map (λ j. (j, d)) result) }
{
    let q = text_run(s, i + 1);
    if s.len() <= q || s[q] != b'\'' {
        return None;
    }
    match lex::quote_before(s, q + 1) {
        Quote::Doubled => None, // `''`: inside still, which is not usual.
        Quote::Single => Some(q + 1), // `'` and another byte: the end.
        Quote::Last => None, // `'` and the file's end: the end, but no `;` follows.
    }
}

// From where a walk goes on after a marked byte with so many open parentheses, and with how many. A slash or a `;` is not usual, nor is a
// `)` where none is open; the bytes from 64 on that share their bits with the five are passed over.
#[inline(always)]
fn mark_step(s: &[u8], i: usize, depth: usize) -> Option<(usize, usize)>
    requires { (i < length s.now) × (depth ≤ i) }
    ensures { WalkStep s.now i depth result }
{
    match s[i] {
        b'(' => Some((i + 1, depth + 1)),
        b')' => Some((i + 1, depth.checked_sub(1)?)),
        b'\'' => Some((string_past(s, i)?, depth)),
        c => {
            if c < 64 {
                return None;
            }
            Some((i + 1, depth))
        }
    }
}

// The `)` that closes the `(` before `from`; none where something unusual is met first.
// Kept: how far a turn goes is what the marked byte says, so no range counts the places.
fn usual_close(s: &[u8], from: usize) -> Option<usize>
    requires { from ≤ length s.now }
    ensures { ClosingFound s.now from result }
{
    let mut i = from;
    let mut depth: usize = 0;
    loop {
        let m = plain_run(s, i);
        if s.len() <= m {
            return None;
        }
        if depth == 0 && s[m] == b')' {
            return Some(m);
        }
        let (next, open) = mark_step(s, m, depth)?;
        i = next;
        depth = open;
    }
}

// What stands from the `=` on, before the `(`.
fn value_before(t: &[u8], id: u32, from: usize) -> Option<Head>
    requires { Free 40 t.now × Numbered t.now 1 (Some (id, from)) × (1 < from) × (get_or t.now 0 0 ≡ 35) }
    ensures { Headed t.now result }
{
    let q = from + record::leading_space(&t[from..]);
    if t.len() <= q || t[q] != b'=' {
        return None;
    }
    let value = q + 1;
    let a = value + record::leading_space(&t[value..]);
    if t.len() <= a {
        return Some(Head::Complex(id, a));
    }
    Some(Head::Simple(id, a, record::trail_at(t, a), t.len()))
}

// The head of a data record by what stands before its first `(`.
fn head_before(t: &[u8]) -> Option<Head>
    requires { Free 40 t.now }
    ensures { Headed t.now result }
{
    if t.len() == 0 || t[0] != b'#' {
        return None;
    }
    let (id, at) = record::digits_at(t, 1)?;
    if at == 1 {
        return None;
    }
    value_before(t, id, at)
}

// The data record that begins at start, read in one walk: to the first `(`, to the `)` that closes it, and to the `;`. With the place after
// it, and whether it is tidy; none where it is not usual.
fn usual_record(s: &[u8], start: usize) -> Option<(RecordSpan, usize, bool)>
    requires { start < length s.now }
    ensures { UsualSaid s.now start Section.InData result }
{
    if s[start] != b'#' {
        return None;
    }
    let opening = plain_run(s, start);
    if s.len() <= opening || s[opening] != b'(' {
        return None;
    }
    let close = usual_close(s, opening + 1)?;
    let end = plain_run(s, close + 1);
    if s.len() <= end || s[end] != b';' {
        return None;
    }
    let head = head_before(&s[start..opening])?;
    let args = Range {
        start: opening + 1,
        end: close,
    };
    Some((row_at(start, head, args), end + 1, close + 1 == end))
}

// The statement that begins at start, where it is a usual data record.
fn usual_at(s: &[u8], start: usize, section: Section) -> Option<(RecordSpan, usize, bool)>
    requires { start < length s.now }
    ensures { UsualSaid s.now start section result }
{
    match section {
        Section::Outside | Section::InHeader => None,
        Section::InData => usual_record(s, start),
    }
}

// What the statement says that begins at start, by a search for its end first.
fn sought_at(s: &[u8], start: usize, section: Section) -> Result<Said, Fault>
    requires { start < length s.now }
    ensures result_value { told_said s.now result ≡ begun s.now section (drop start s.now) }
    ensures ahead { Ahead start (length s.now) result }
{
    let end = lex::find_record_end(s, start)?;
    let found = Record {
        file: s,
        start,
        end,
    };
    found.said(section)
}

// Whether one of the sixteen bytes from i on is a `;`. A loop that only notes a hit is done on all of them at once.
// Kept: with `lex::find` in place of this search, the scan of a real file takes 17 instructions in a hundred more.
fn has_end(s: &[u8], i: usize) -> bool
    requires { i + 16 ≤ length s.now }
    ensures { result ≡ false → past unended (drop (i + 16) s.now) ≡ past unended (drop i s.now) }
{
    let mut hit = false;
    for k in 0..16 {
        hit = hit | (s[i + k] == b';');
    }
    hit
}

// The first `;` from `from` on, or the length, byte by byte.
fn near_end(s: &[u8], from: usize) -> usize
    requires { from ≤ length s.now }
    ensures s_value { drop result s.now ≡ past unended (drop from s.now) }
    ensures lower_bound { (from ≤ result) × (result ≤ length s.now) }
{
    for i in from..s.len() {
        if s[i] == b';' {
            return i;
        }
    }
    s.len()
}

// Whether sixteen bytes follow the place i, none of them a `;`.
fn is_open(s: &[u8], i: usize) -> bool
    requires { i ≤ length s.now }
    ensures { result ≡ true → (i + 16 ≤ length s.now) × (past unended (drop (i + 16) s.now) ≡ past unended (drop i s.now)) }
{
    if s.len() - i < 16 {
        return false;
    }
    !has_end(s, i)
}

// The first `;` from `from` on, or the length.
// Kept: by blocks, as `text_blocks`.
fn first_end(s: &[u8], from: usize) -> usize
    requires { from ≤ length s.now }
    ensures s_value { drop result s.now ≡ past unended (drop from s.now) }
    ensures lower_bound { (from ≤ result) × (result ≤ length s.now) }
{
    let mut i = from;
    while is_open(s, i) {
        i += 16;
    }
    near_end(s, i)
}

// Whether b is the place after a.
fn just_before(a: usize, b: usize) -> bool
    ensures { result ≡ eqb (a + 1) b }
{
    b.saturating_sub(a) == 1
}

// What was said of a statement, and whether it is tidy.
fn note(s: &[u8], said: Said, i: usize) -> Noted
    requires { Ahead i (length s.now) (Ok said) }
    ensures { (result.said ≡ said) × (result.tidy ≡ tidy s.now (told_said s.now (Ok said))) }
{
    let tidy = match said {
        Said::Ends | Said::Moves(_, _) | Said::Heads(_, _, _) => true,
        Said::Records(span, start, next) => {
            let end = first_end(s, start);
            just_before(end, next) & just_before(span.args.end, end)
        }
    };
    Noted { said, tidy }
}

// What the statement says that begins at start, the first byte after trivia. Nearly every one is a usual record.
fn statement_at(s: &[u8], start: usize, section: Section) -> Result<Noted, Fault>
    requires { start < length s.now }
    ensures said_value { told_said s.now (said_in result) ≡ begun s.now section (drop start s.now) }
    ensures ahead { Ahead start (length s.now) (said_in result) }
    ensures tidy_value { noted_tidy result ≡ tidy s.now (begun s.now section (drop start s.now)) }
{
    match usual_at(s, start, section) {
        None => Ok(note(s, sought_at(s, start, section)?, start)),
        Some((span, next, tidy)) => Ok(Noted {
            said: Said::Records(span, start, next),
            tidy,
        }),
    }
}

// Past trivia: in nearly every case whitespace alone, before a byte that opens no comment.
fn lead_past(s: &[u8], i: usize) -> Result<usize, Fault>
    requires { i ≤ length s.now }
    ensures { told_result result ≡ placed s.now (trivia (drop i s.now)) }
{
    let p = i + record::leading_space(&s[i..]);
    if s.len() <= p || s[p] == b'/' {
        return lex::skip_trivia(s, i);
    }
    Ok(p)
}

// What the first statement says from the place i on, in this section; from the file's end on there is none. And whether it is tidy.
pub fn noted_statement(s: &[u8], i: usize, section: Section) -> Result<Noted, Fault>
    ensures said_value { told_said s.now (said_in result) ≡ statement s.now section (drop i s.now) }
    ensures ahead { Ahead i (length s.now) (said_in result) }
    ensures tidy_value { noted_tidy result ≡ tidy s.now (statement s.now section (drop i s.now)) }
{
    let none = Noted {
        said: Said::Ends,
        tidy: true,
    };
    if s.len() <= i {
        return Ok(none);
    }
    let start = lead_past(s, i)?;
    if s.len() <= start {
        return Ok(none);
    }
    statement_at(s, start, section)
}

// The same without the note.
pub fn next_statement(s: &[u8], i: usize, section: Section) -> Result<Said, Fault>
    ensures result_value { told_said s.now result ≡ statement s.now section (drop i s.now) }
    ensures ahead { Ahead i (length s.now) result }
{
    Ok(noted_statement(s, i, section)?.said)
}

// The data record from the place i on, after whitespace, as its first `;` gives it, with its start and the place after it: what the statement
// says where that is tidy. A caller who knows that reads it with nothing tested again.
pub fn tidy_record(s: &[u8], i: usize) -> Option<(RecordSpan, usize, usize)>
    ensures result_value { told_tidied s.now result ≡ tidy_record s.now (drop i s.now) }
    ensures tidy_ahead { TidyAhead i (length s.now) result }
{
    if s.len() <= i {
        return None;
    }
    let start = i + record::leading_space(&s[i..]);
    let end = first_end(s, start);
    if s.len() <= end {
        return None;
    }
    let found = Record {
        file: s,
        start,
        end,
    };
    found.tidied()
}
