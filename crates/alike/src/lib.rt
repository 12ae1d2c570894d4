// Demand 3's unit answer: what the argument readers, the factors and the units answer depends only on the bytes of the arguments, not
// on where in the file they stand: specs/.
//
// It has no code: it stands above the crates whose definitions it speaks of.

#![tactic(auto)]
