// The argument reader, for hosts in other languages: its place goes in and comes back. Each function answers 0 or a refusal's number, with
// the refusal's place in `fault`; what it would have told stays as it was then.
#![tactic(auto)]

mod arrays;
mod cuts;
mod reading;
mod texts;
mod values;

pub use arrays::{
    hooflift_any_f64_grid, hooflift_f64_grid, hooflift_i64_list, hooflift_ref_grid,
    hooflift_ref_list,
};
pub use cuts::{hooflift_is_empty, hooflift_new, hooflift_param, hooflift_skip_n};
pub use texts::{hooflift_enum, hooflift_str};
pub use values::{
    hooflift_any_f64, hooflift_any_measure, hooflift_any_opt_f64, hooflift_bool, hooflift_f64,
    hooflift_i64, hooflift_measure, hooflift_opt_f64, hooflift_opt_ref, hooflift_ref,
};
