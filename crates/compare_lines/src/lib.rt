// What the programs `answers` and `asks` say about a case, line by line: in the text form by which this reader is compared with the Rust
// original.
#![tactic(auto)]

mod asked;
mod kept;
mod opened;
mod outside;
mod readers;
mod shown;
mod walks;

pub use asked::put_asked;
pub use kept::{put_full, put_kept};
pub use opened::{Opened, put_answers};
pub use walks::put_walks;
