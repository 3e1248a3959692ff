// No code: what holds of the error sums of every file, beside its listing.
#![tactic(auto)]
