// A file's tables, for hosts in other languages: what they need of lent memory, opened into it, and looked up by id, by number and by kind.
//
// Each function answers 0 or a refusal's number, and 255 where there is none; what it would have told stays as it was then.
#![tactic(auto)]

mod by_id;
mod by_row;
mod needing;
mod opening;

ghost use Rattle.std.specs.Prelude.{◌≡◌};
ghost use Rattle.error.specs.Refusal.{told_result};
ghost use Rattle.host_numbers.specs.Answers.{Puts, read_code};

pub use by_id::{hooflift_args, hooflift_kind_of, hooflift_require};
pub use by_row::{
    hooflift_args_of, hooflift_by_kind, hooflift_entity, hooflift_intern, hooflift_keyword,
    hooflift_kind, hooflift_len,
};
use error::Fault;
pub use needing::hooflift_needs;
pub use opening::hooflift_open;
use statement::Range;

// Tells where a span stands: 0, or the refusal's number.
fn put_span(r: Result<Range, Fault>, start: &mut usize, stop: &mut usize) -> u8
    ensures value { result ≡ read_code (told_result r) }
    ensures puts { Puts (λ x. x.start) (told_result r) start }
    ensures puts_2 { Puts (λ x. x.end) (told_result r) stop }
{
    match r {
        Ok(span) => {
            *start = span.start;
            *stop = span.end;
            0
        }
        Err(f) => f.number(),
    }
}
