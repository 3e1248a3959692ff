// No code: what holds of a builder after any list of its calls, and of any call, stated in specs/ and
// proved in proofs/. The crate demands gathers what demands 1 and 3 need of it.
#![tactic(auto)]
