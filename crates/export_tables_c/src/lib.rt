// The functions of `export_tables`, for hosts in C: the library answers each call, and each clause is its own. A static library exports the
// functions of its own files alone, and no crate is built on one.
// Kept: the C interface asks for a function of each name here: an exported function cannot be generic, and a static library is no crate
// that others build on.
#![tactic(auto)]

mod by_id;
mod by_row;
mod needing;
mod opening;
