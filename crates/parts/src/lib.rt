// The parts of a complex record: `#5=(A(..)B(..));` has the parts A and B.
//
// As `complex_parts` and `complex_part` of the Rust's lib.rs, without its list: a part is asked for from a place on, and the next
// one from the place after its `)`.
#![tactic(auto)]

ghost use Rattle.std.specs.Prelude.{◌≡◌, ◌+◌, ◌-◌, ◌≤◌, ◌<◌, length, take, drop};
ghost use Rattle.record.specs.Text.{past};
ghost use Rattle.statement.specs.Rows.{mapped, header_row_of};
ghost use Rattle.parts.specs.Rules.{separator, told_next, part_is_kind};
ghost use Rattle.parts.specs.Part.{next_part_of, first_of, first_kind, parts_of, part_of};

use error::Fault;
use kinds::Kind;
use statement::HeaderSpan;

// Whether a byte stands between parts: whitespace or a comma.
fn separates(b: u8) -> bool
    ensures { result ≡ separator b }
{
    lex::is_space(b) | (b == b',')
}

// How many bytes stand before the next part's keyword.
fn leading(t: &[u8]) -> usize
    ensures t_value { drop result t.now ≡ past separator t.now }
    ensures upper_bound { result ≤ length t.now }
{
    for i in 0..t.len() {
        if !separates(t[i]) {
            return i;
        }
    }
    t.len()
}

// The next part from the place `at` on, where the arguments end at `end`: whitespace and commas are passed, the keyword runs up to
// the next `(`, its trailing whitespace dropped. 9 where the arguments end outside the file; 3, 4 and 6 where the `)` is sought.
pub fn next_part(s: &[u8], at: usize, end: usize) -> Result<Option<HeaderSpan>, Fault>
    ensures { told_next result ≡ next_part_of s.now at end }
{
    if s.len() < end {
        return Err(Fault::OutOfFile);
    }
    if end <= at {
        return Ok(None);
    }
    let t = &s[at..end];
    let a = leading(t);
    match record::header_head(&t[a..]) {
        Err(_) => Ok(None),
        Ok(head) => Ok(Some(statement::keyed_at(s, at + a, head)?)),
    }
}

// Whether a part is of a kind.
fn part_is(s: &[u8], p: HeaderSpan, kind: Kind) -> bool
    requires { (p.keyword.start ≤ p.keyword.end) × (p.keyword.end ≤ length s.now) }
    ensures { result ≡ part_is_kind s.now kind (header_row_of p) }
{
    let a = p.keyword.start;
    let z = p.keyword.end;
    kinds::intern(&s[a..z]) == kind
}

// The part that was found before, or this one where it is of the kind.
fn first_of(got: Option<HeaderSpan>, p: HeaderSpan, hit: bool) -> Option<HeaderSpan>
    ensures { result ≡ first_of got p hit }
{
    got.or(hit.then_some(p))
}

// The first part of a kind, once all parts have been read, so that a fault behind it refuses.
fn find_part(s: &[u8], start: usize, end: usize, kind: Kind) -> Result<Option<HeaderSpan>, Fault>
    requires { start ≤ length s.now }
    ensures { told_next result ≡ mapped (first_kind s.now kind) (parts_of s.now start end) }
{
    let mut i = start;
    let mut got = None;
    while let Some(p) = next_part(s, i, end)? {
        got = first_of(got, p, part_is(s, p, kind));
        i = p.args.end + 1;
    }
    Ok(got)
}

// Kept: `complex` is the number of a lent table's row and of C, which may be any.
// The first part of a kind of a record whose arguments run from start up to end and whose mark is `complex`; a simple record has
// no parts. 9 where the arguments lie outside the file or run backwards.
pub fn complex_part(
    s: &[u8],
    start: usize,
    end: usize,
    complex: u32,
    kind: Kind,
) -> Result<Option<HeaderSpan>, Fault>
    ensures { told_next result ≡ part_of s.now start end complex kind }
{
    if complex != 1 {
        return Ok(None);
    }
    if s.len() < end || end < start {
        return Err(Fault::OutOfFile);
    }
    find_part(s, start, end, kind)
}
