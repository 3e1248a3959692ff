// No code: what holds of every list of steps of writing a column file.
#![tactic(auto)]
