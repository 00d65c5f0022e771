// The tree of a volume while blocks of it are written one by one: mathematics only, in specs/ and proofs/. There is no
// code.
#![tactic(auto)]
