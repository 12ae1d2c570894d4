// Header records by keyword, over a lent slice of header span structs.
//
// As `header_args` of the Rust's lib.rs, which goes through a Vec of such structs. What can be said of one struct by value stands in
// `headers`. What it finds is what the search over the number columns of the same records finds.
#![tactic(auto)]

ghost use Rattle.std.specs.Prelude.{◌≡◌, ◌<◌, length};
ghost use Rattle.headers.specs.Header.{header_first};
ghost use Rattle.header_structs.specs.Heads.{head_at};

use statement::HeaderSpan;

// The first header record with this keyword, letters in either case.
pub fn header_row(file: &[u8], heads: &[HeaderSpan], name: &[u8]) -> Option<usize>
    ensures { result ≡ header_first file.now (head_at heads.now) (length heads.now) name.now }
{
    // Kept: `iter().position(..)`, of which the check does not find what it answers, was tried.
    for (i, head) in heads.iter().enumerate() {
        if headers::span_named(file, *head, name) {
            return Some(i);
        }
    }
    None
}
