// exp, ln, ln(1 + v) and exp(x) - 1 in f64 operations that are each rounded once, so that every
// result is fixed by the definitions in specs/. Each function stands in a file of its own.
#![tactic(auto)]

mod exp_minus_one;
mod exponential;
mod fma;
mod ln_one_plus;
mod logarithm;

pub use exp_minus_one::exp_m1;
pub use exponential::exp;
pub use ln_one_plus::ln_1p;
pub use logarithm::ln;
