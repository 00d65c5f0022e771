// What finds and reads answer while blocks of a volume are written one by one: mathematics only, in specs/ and proofs/.
// There is no code.
#![tactic(auto)]
