// No code: how near exp, ln, ln(1 + v) and exp(x) - 1 come, and their special values, stated in
// specs/ and computed in proofs/. A crate of its own, so that an edit of the functions need not wait
// for it.
#![tactic(auto)]
