// Writes of whole blocks as data, and what an image is after some of them. Mathematics alone, in specs/ and proofs/.
#![tactic(auto)]
