// No code: that reading a column file and writing its bytes lead back to each other, and the inputs of the
// scope, worked out.
#![tactic(auto)]
