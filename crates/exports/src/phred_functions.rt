// phred.rs, its functions in their order.
ghost use Rattle.std.specs.Prelude.{◌≡◌};
ghost use Rattle.phred.specs.Phred.{phred_to_ln_error_prob, phred_to_ln_correct_prob, ln_prob_to_phred, log1pexp_of, ln_one_minus_exp, ln_a_minus_b, ln_error_prob_two_trials, ln_sum_exp, ln_sum_exp_array, ln_normalize, ln_not};

use phred::{LogProbability, PhredScore};

#[unsafe(no_mangle)]
pub extern "C" fn consensus_phred_to_ln_error_prob(q: u8) -> f64
    ensures { result ≡ phred_to_ln_error_prob q }
{
    phred::phred_to_ln_error_prob(PhredScore(q)).0
}

#[unsafe(no_mangle)]
pub extern "C" fn consensus_phred_to_ln_correct_prob(q: u8) -> f64
    ensures { result ≡ phred_to_ln_correct_prob q }
{
    phred::phred_to_ln_correct_prob(PhredScore(q)).0
}

#[unsafe(no_mangle)]
pub extern "C" fn consensus_ln_prob_to_phred(p: f64) -> u8
    ensures { result ≡ ln_prob_to_phred p }
{
    phred::ln_prob_to_phred(LogProbability(p)).0
}

#[unsafe(no_mangle)]
pub extern "C" fn consensus_log1pexp(x: f64) -> f64
    ensures { result ≡ log1pexp_of x }
{
    phred::log1pexp(x)
}

#[unsafe(no_mangle)]
pub extern "C" fn consensus_ln_one_minus_exp(x: f64) -> f64
    ensures { result ≡ ln_one_minus_exp x }
{
    phred::ln_one_minus_exp(x)
}

#[unsafe(no_mangle)]
pub extern "C" fn consensus_ln_a_minus_b(a: f64, b: f64) -> f64
    ensures { result ≡ ln_a_minus_b a b }
{
    phred::ln_a_minus_b(a, b)
}

#[unsafe(no_mangle)]
pub extern "C" fn consensus_ln_error_prob_two_trials(p: f64, q: f64) -> f64
    ensures { result ≡ ln_error_prob_two_trials p q }
{
    phred::ln_error_prob_two_trials(LogProbability(p), LogProbability(q)).0
}

#[unsafe(no_mangle)]
pub extern "C" fn consensus_ln_sum_exp(a: f64, b: f64) -> f64
    ensures { result ≡ ln_sum_exp a b }
{
    phred::ln_sum_exp(LogProbability(a), LogProbability(b)).0
}

#[unsafe(no_mangle)]
pub extern "C" fn consensus_ln_sum_exp_array(values: &[f64]) -> f64
    ensures { result ≡ ln_sum_exp_array values.now }
{
    phred::ln_sum_exp_array(values).0
}

#[unsafe(no_mangle)]
pub extern "C" fn consensus_ln_normalize(value: f64, norm: f64) -> f64
    ensures { result ≡ ln_normalize value norm }
{
    phred::ln_normalize(LogProbability(value), LogProbability(norm)).0
}

#[unsafe(no_mangle)]
pub extern "C" fn consensus_ln_not(x: f64) -> f64
    ensures { result ≡ ln_not x }
{
    phred::ln_not(LogProbability(x)).0
}
