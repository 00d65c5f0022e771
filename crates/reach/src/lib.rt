// The walk over a graph of references and the law that it decides: mathematics only, in specs/ and proofs/. There is
// no code.
#![tactic(auto)]
