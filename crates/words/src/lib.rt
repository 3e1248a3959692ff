// No code: the words that all definitions are written in, and what follows from a test, a choice, a claim or a
// list, about anything.
#![tactic(auto)]
