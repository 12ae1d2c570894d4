// The starred examples of document 01, proved of the definitions as one list under one statement: specs/Examples.antt.
//
// It has no code: it stands above the crates whose definitions it speaks of.

#![tactic(auto)]
