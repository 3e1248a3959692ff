// No code: what holds of the listing of every file.
#![tactic(auto)]
