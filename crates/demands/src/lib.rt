// No code: what the user asks. Demands 1 and 3 are stated whole in specs/Demand1 and specs/Demand3, and the
// inputs of SCOPE 10.1 in specs/Starred; proofs/ only gathers what the crates below prove.
#![tactic(auto)]
