// The order of the records does not matter: demand 3, proved of the definitions that the contracts cite.
//
// It has no code: it stands above the crates whose definitions it speaks of. specs/Order.antt is the statement.

#![tactic(auto)]
