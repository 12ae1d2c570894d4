// No code: rooms of the sizes that the crate needs tells suffice for every list, grid and text of a file's records, and are no larger than that
// (specs/Enough).

#![tactic(auto)]
