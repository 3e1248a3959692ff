// No code: that the counts of a column's bases name the lane that Kahan's sums name, where the two
// logarithms of an observation are far enough apart.
#![tactic(auto)]
