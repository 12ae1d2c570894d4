// Where a byte is found, and where a string and a comment end: the leaps that a search makes over bytes that mean nothing to it.
//
// As memchr, string_end and find_comment_end of the Rust's scan.rs and value.rs. `lex` seeks them. No function has a `requires`: a start past the
// end counts as the end.
#![tactic(auto)]

ghost use Rattle.std.specs.Prelude.{◌≡◌, ◌+◌, ◌≤◌, min, length, drop};
ghost use Rattle.tokens.specs.TokenRests.{string_rest, comment_rest};
ghost use Rattle.tokens.specs.Answer.{from_byte, heads_with, told_token_end, TokenEndIn};

// The first place from `start` on that has the byte b, or the length.
pub fn find_byte(s: &[u8], start: usize, b: u8) -> usize
    ensures s_value { drop result s.now ≡ from_byte b (drop start s.now) }
    ensures lower_bound { (min start (length s.now) ≤ result) × (result ≤ length s.now) }
{
    lex::find(s, start, b)
}

// Whether the byte b stands at i.
pub fn is_at(s: &[u8], i: usize, b: u8) -> bool
    ensures { result ≡ heads_with b (drop i s.now) }
{
    i < s.len() && s[i] == b
}

// Where the string ends whose first quote stands before `start`: at the first quote that is not one of a pair.
pub fn string_end(s: &[u8], start: usize) -> Option<usize>
    ensures result_value { told_token_end s.now result ≡ string_rest (drop start s.now) }
    ensures token_end_in { TokenEndIn start (length s.now) result }
{
    lex::text_end(s, start)
}

// Where the comment ends whose `/*` stands before `start`: after the first `*/`.
pub fn comment_end(s: &[u8], start: usize) -> Option<usize>
    ensures result_value { told_token_end s.now result ≡ comment_rest (drop start s.now) }
    ensures token_end_in { TokenEndIn start (length s.now) result }
{
    lex::comment_end(s, start)
}
