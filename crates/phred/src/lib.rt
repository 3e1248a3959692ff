// Phred levels and natural logarithms of probabilities: phred.rs, function by function, in its order.
// The equations (7) and (10) that it names are those of the note "Accurately computing
// log(1 - exp(-|a|))" by Mächler.
#![tactic(auto)]

ghost use Rattle.std.specs.Prelude.{◌≡◌, ◌<◌, length};
ghost use Rattle.std.specs.Float.Ieee.{eq};
ghost use Rattle.phred.specs.Phred.{phred_to_ln_error_prob, phred_to_ln_correct_prob, ln_prob_to_phred, log1pexp_of, ln_one_minus_exp, ln_a_minus_b, two_trials, ln_error_prob_two_trials, ln_zero, ln_sum_exp, all_ln_zero, lower_of, lowest_from, start_lane, ln_sum_exp_fold, ln_sum_exp_from, ln_sum_exp_array, ln_normalize, ln_not};

mod four_lanes;

pub use four_lanes::ln_sum_exp_lanes;
use std::f64::consts::LN_10;

// ln 2
pub const LN_TWO: f64 = std::f64::consts::LN_2;

// log1pexp(0), which ln_sum_exp adds where both operands are equal
const LOG1PEXP_ZERO: f64 = LN_TWO;

// ln(4/3)
const LN_FOUR_THIRDS: f64 = 0.2876820724517809;

// ln 1
pub const LN_ONE: f64 = 0.0;

// The least level of a call, and the base of a no-call in either case.
pub const MIN_PHRED: u8 = 2;

pub const NO_CALL_BASE: u8 = b'N';

pub const NO_CALL_BASE_LOWER: u8 = b'n';

// The highest level, as SAM has it.
pub const MAX_PHRED: u8 = 93;

// What is added before the floor, so that a level that was computed comes back as itself.
const PHRED_PRECISION: f64 = 0.001;

// phred_to_ln_error_prob(MAX_PHRED)
const MAX_PHRED_AS_LN_ERROR: f64 = -(MAX_PHRED as f64) * LN_10 / 10.0;

// A level. A type of its own, so that none can stand where a logarithm is expected.
#[derive(Clone, Copy, Debug, PartialEq, Eq, PartialOrd, Ord, Hash)]
pub struct PhredScore(pub u8);

// The natural logarithm of a probability.
#[derive(Clone, Copy, Debug, PartialEq, PartialOrd)]
pub struct LogProbability(pub f64);

// The logarithm of the error at a level: 10^(-q/10).
#[tactic(auto, unfolding(crate::specs::Phred::phred_to_ln_error_prob))]
pub fn phred_to_ln_error_prob(phred: PhredScore) -> LogProbability
    ensures { result.0 ≡ phred_to_ln_error_prob phred.0 }
{
    LogProbability(-(phred.0 as f64) * LN_10 / 10.0)
}

// The logarithm of being right at a level.
#[tactic(auto, unfolding(crate::specs::Phred::phred_to_ln_correct_prob))]
pub fn phred_to_ln_correct_prob(phred: PhredScore) -> LogProbability
    ensures { result.0 ≡ phred_to_ln_correct_prob phred.0 }
{
    LogProbability(ln_one_minus_exp(phred_to_ln_error_prob(phred).0))
}

// The level of an error's logarithm, from 2 to 93.
#[tactic(auto, unfolding(crate::specs::Phred::ln_prob_to_phred))]
pub fn ln_prob_to_phred(ln_prob: LogProbability) -> PhredScore
    ensures { result.0 ≡ ln_prob_to_phred ln_prob.0 }
{
    let p = ln_prob.0;
    PhredScore(if p < MAX_PHRED_AS_LN_ERROR {
        MAX_PHRED
    } else if p.is_nan() {
        MIN_PHRED
    } else {
        let level = float::floor_to_u64(-10.0 * p / LN_10 + PHRED_PRECISION);
        (level.min(u64::from(MAX_PHRED)) as u8).max(MIN_PHRED)
    })
}

// ln(1 + exp x), equation (10)
#[tactic(auto, unfolding(crate::specs::Phred::log1pexp_of))]
pub fn log1pexp(x: f64) -> f64
    ensures { result ≡ log1pexp_of x }
{
    if x <= -37.0 {
        elementary::exp(x)
    } else if x <= 18.0 {
        elementary::ln_1p(elementary::exp(x))
    } else if x <= 33.3 {
        x + elementary::exp(-x)
    } else {
        x
    }
}

// ln(1 - exp x), equation (7)
#[tactic(auto, using(float::proofs::Constants::constants), unfolding(crate::specs::Phred::ln_one_minus_exp))]
pub fn ln_one_minus_exp(x: f64) -> f64
    ensures { result ≡ ln_one_minus_exp x }
{
    if x >= 0.0 {
        f64::NEG_INFINITY
    } else if x >= -LN_TWO {
        elementary::ln(-elementary::exp_m1(x))
    } else {
        elementary::ln_1p(-elementary::exp(x))
    }
}

// ln(exp a - exp b); NaN where b is above a by more than rounding.
#[tactic(auto, using(float::proofs::Constants::constants), unfolding(crate::specs::Phred::ln_a_minus_b))]
pub fn ln_a_minus_b(a: f64, b: f64) -> f64
    ensures { result ≡ ln_a_minus_b a b }
{
    if b == f64::NEG_INFINITY {
        a
    } else if float::abs(a - b) < f64::EPSILON {
        f64::NEG_INFINITY
    } else if a < b {
        f64::NAN
    } else {
        a + ln_one_minus_exp(b - a)
    }
}

// The logarithm of an error in either of two trials, or in both unless they agree: with the
// probabilities x and y, x + y - 4/3 * x * y.
pub fn ln_error_prob_two_trials(ln_p1: LogProbability, ln_p2: LogProbability) -> LogProbability
    ensures { result.0 ≡ ln_error_prob_two_trials ln_p1.0 ln_p2.0 }
{
    LogProbability(two_trials_any_order(ln_p1.0, ln_p2.0))
}

// The same on plain numbers: a struct that is returned goes through memory.
#[tactic(auto, unfolding(crate::specs::Phred::ln_error_prob_two_trials))]
fn two_trials_any_order(p: f64, q: f64) -> f64
    ensures { result ≡ ln_error_prob_two_trials p q }
{
    if p < q {
        two_trials(q, p)
    } else {
        two_trials(p, q)
    }
}

// The same, the larger logarithm first. Where it is 6 or more above the other, it is the answer.
#[tactic(auto, unfolding(crate::specs::Phred::two_trials))]
fn two_trials(larger: f64, smaller: f64) -> f64
    ensures { result ≡ two_trials larger smaller }
{
    if larger - smaller >= 6.0 {
        return larger;
    }
    let term1 = ln_sum_exp_f64(larger, smaller);
    let term2 = LN_FOUR_THIRDS + larger + smaller;
    ln_a_minus_b(term1, term2)
}

// ln(exp a + exp b)
pub fn ln_sum_exp(ln_a: LogProbability, ln_b: LogProbability) -> LogProbability
    ensures { result.0 ≡ ln_sum_exp ln_a.0 ln_b.0 }
{
    LogProbability(ln_sum_exp_f64(ln_a.0, ln_b.0))
}

// The same on plain numbers.
#[tactic(auto, using(float::proofs::Constants::constants), unfolding(crate::specs::Phred::ln_sum_exp, crate::specs::Phred::ln_sum_exp_general))]
fn ln_sum_exp_f64(a: f64, b: f64) -> f64
    ensures { result ≡ ln_sum_exp a b }
{
    if a == f64::NEG_INFINITY {
        b
    } else if b == f64::NEG_INFINITY {
        a
    } else if a == b {
        a + LOG1PEXP_ZERO
    } else if b < a {
        b + log1pexp(a - b)
    } else {
        a + log1pexp(b - a)
    }
}

// The logarithm of the sum of all exponentials: from the lowest lane on, the others folded into it
// in their order. A lane of -infinity adds nothing.
#[tactic(auto, using(crate::proofs::Start::ends), unfolding(crate::specs::Phred::ln_sum_exp_array))]
pub fn ln_sum_exp_array(values: &[f64]) -> LogProbability
    ensures { result.0 ≡ ln_sum_exp_array values.now }
{
    LogProbability(if all_ln_zero(values) {
        f64::NEG_INFINITY
    } else {
        ln_sum_exp_from(values, start_lane(values).place)
    })
}

// The lane start, then those before it, then those after it.
fn ln_sum_exp_from(values: &[f64], start: usize) -> f64
    requires { start < length values.now }
    ensures { result ≡ ln_sum_exp_from values.now start }
{
    let before = ln_sum_exp_fold(values[start], &values[..start]);
    ln_sum_exp_fold(before, &values[start + 1..])
}

// Whether x is the logarithm of 0.
#[tactic(auto, using(float::proofs::Constants::minus_infinity))]
fn is_ln_zero(x: f64) -> bool
    ensures { result ≡ eq x ln_zero }
{
    x == f64::NEG_INFINITY
}

// Whether every lane is -infinity, which holds where there is none.
#[tactic(auto, unfolding(crate::specs::Phred::all_ln_zero))]
fn all_ln_zero(values: &[f64]) -> bool
    ensures { result ≡ all_ln_zero values.now }
{
    values.iter().all(|&x| is_ln_zero(x))
}

// The lowest lane so far, by its place and its value.
// kept: no plainer: nothing compares or prints it
#[derive(Clone, Copy)]
pub struct Lowest {
    pub place: usize,
    pub value: f64,
}

#[tactic(auto, using(float::proofs::Constants::constants), unfolding(crate::specs::Phred::start_lane))]
fn start_lane(values: &[f64]) -> Lowest
    ensures { result ≡ start_lane values.now }
{
    let none = Lowest {
        place: 0,
        value: f64::INFINITY,
    };
    lowest_from(none, values)
}

#[tactic(auto, unfolding(crate::specs::Phred::lowest_from))]
fn lowest_from(none: Lowest, values: &[f64]) -> Lowest
    ensures { result ≡ lowest_from none 0 values.now }
{
    values
        .iter()
        .copied()
        .enumerate()
        .fold(none, |least, (i, value)| lower(least, i, value))
}

#[tactic(auto, unfolding(crate::specs::Phred::lower_of))]
fn lower(least: Lowest, i: usize, value: f64) -> Lowest
    ensures { result ≡ lower_of least i value }
{
    if value < least.value {
        Lowest { place: i, value }
    } else {
        least
    }
}

// first and all of the values, in their order
#[tactic(auto, unfolding(crate::specs::Phred::ln_sum_exp_fold))]
fn ln_sum_exp_fold(first: f64, values: &[f64]) -> f64
    ensures { result ≡ ln_sum_exp_fold first values.now }
{
    values
        .iter()
        .fold(first, |total, &x| ln_sum_exp_f64(total, x))
}

// The logarithm of a quotient.
#[tactic(auto, unfolding(crate::specs::Phred::ln_normalize))]
pub fn ln_normalize(ln_value: LogProbability, ln_norm: LogProbability) -> LogProbability
    ensures { result.0 ≡ ln_normalize ln_value.0 ln_norm.0 }
{
    LogProbability(ln_value.0 - ln_norm.0)
}

// The logarithm of the complement.
#[tactic(auto, unfolding(crate::specs::Phred::ln_not))]
pub fn ln_not(x: LogProbability) -> LogProbability
    ensures { result.0 ≡ ln_not x.0 }
{
    LogProbability(ln_one_minus_exp(x.0))
}
