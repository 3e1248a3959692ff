// No code: what holds of the consensus of every list of strings, and the inputs of the scope, worked out.
#![tactic(auto)]
