// What the parameters of a record need of lent memory: the longest text, the most numbers of a list or a grid, and the most rows of a grid.
//
// The arguments are walked as the argument reader walks them, and those of a complex record part by part too. Items are counted whatever
// they read as.
#![tactic(auto)]

ghost use Rattle.std.specs.Prelude.{◌≡◌, max};
ghost use Rattle.argument_sizes.specs.Lengths.{grid_len, sizes_of, args_of, part_sizes_of, record_sizes_of};
ghost use Rattle.argument_sizes.specs.Rules.{text_len, items_len, greater_sizes};

use lists::Kind;
use params::State;

// The bytes of a text, the numbers of a list or a grid, and the rows of a grid.
#[derive(Clone, Copy)]
pub struct Sizes {
    pub text: usize,
    pub items: usize,
    pub rows: usize,
}

// Where nothing is needed.
const NOTHING: Sizes = Sizes {
    text: 0,
    items: 0,
    rows: 0,
};

// The greater of each.
pub fn larger_each(a: Sizes, b: Sizes) -> Sizes
    ensures { result ≡ greater_sizes a b }
{
    Sizes {
        text: a.text.max(b.text),
        items: a.items.max(b.items),
        rows: a.rows.max(b.rows),
    }
}

// The length of a string parameter's text; 0 for any other.
fn string_len(t: &[u8]) -> usize
    ensures { result ≡ text_len t.now }
{
    if t.len() < 2 {
        return 0;
    }
    if t[0] != b'\'' {
        return 0;
    }
    strings::text_length(&t[1..t.len() - 1])
}

// How many items a list has; 0 for what is none.
fn list_len(t: &[u8]) -> usize
    ensures { result ≡ items_len t.now }
{
    match lists::count_list(t, Kind::Any) {
        Ok(n) => n,
        Err(_) => 0,
    }
}

// How many numbers and rows a list of lists has; 0 for what is none.
fn grid_len(t: &[u8]) -> Sizes
    ensures { result ≡ grid_len t.now }
{
    match grids::count_grid(t, Kind::Any) {
        Ok(grid) => Sizes {
            text: 0,
            items: grid.numbers,
            rows: grid.rows,
        },
        Err(_) => NOTHING,
    }
}

// What a parameter needs.
fn sizes_of(t: &[u8]) -> Sizes
    ensures { result ≡ sizes_of t.now }
{
    let alone = Sizes {
        text: string_len(t),
        items: list_len(t),
        rows: 0,
    };
    larger_each(alone, grid_len(t))
}

// What the parameters from a place up to an end need. There are never more than bytes.
fn args_sizes(s: &[u8], place: usize, end: usize) -> Sizes
    ensures { result ≡ args_of s.now place end }
{
    let mut at = place;
    let mut most = NOTHING;
    for i in 0..s.len() {
        let mut reader = State { place: at, end };
        match params::param_span(s, &mut reader) {
            Err(_) => return most,
            Ok(span) => {
                most = larger_each(most, sizes_of(&s[span.start..span.stop]));
                at = reader.place;
            }
        }
    }
    most
}

// What the parts from a place up to an end need.
fn parts_sizes(s: &[u8], place: usize, end: usize) -> Sizes
    ensures { result ≡ part_sizes_of s.now place end }
{
    let mut at = place;
    let mut most = NOTHING;
    for i in 0..s.len() {
        match parts::next_part(s, at, end) {
            Ok(Some(part)) => {
                most = larger_each(most, args_sizes(s, part.args.start, part.args.end));
                at = part.args.end + 1;
            }
            Ok(None) => return most,
            Err(_) => return most,
        }
    }
    most
}

// What a record needs whose arguments run from a place up to an end and whose mark is `complex`.
pub fn record_sizes(s: &[u8], place: usize, end: usize, complex: u32) -> Sizes
    ensures { result ≡ record_sizes_of s.now place end complex }
{
    let whole = args_sizes(s, place, end);
    if complex == 1 {
        return larger_each(whole, parts_sizes(s, place, end));
    }
    whole
}
