// Header records and their texts, the parts of complex records and kept rows, for hosts in other languages.
//
// Each function answers 0 or a refusal's number, and 255 where there is none; what it would have told stays as it was then.
#![tactic(auto)]

mod header;
mod keeping;
mod pieces;

pub use header::{
    hooflift_file_name, hooflift_header_args, hooflift_header_row, hooflift_originating_system,
};
pub use keeping::{hooflift_keep_rows, hooflift_read_rows};
pub use pieces::{hooflift_complex_part, hooflift_next_part};
