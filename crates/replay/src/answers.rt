// What our functions give for the numbers of a line.
ghost use Rattle.std.specs.Prelude.{◌≡◌};
ghost use Rattle.replay.specs.Answers.{at_level, at_number, at_pair, level_answer, our_answer_of};

use crate::functions::{Function, LevelFunction, NumberFunction, PairFunction};
use crate::lines::NUMBERS;
use float::{from_pattern, pattern};
use phred::{LogProbability, PhredScore};

// What the function gives for the arguments that the numbers start with: the bit pattern of its value,
// or a level.
// kept: no plainer: a stored line names its function by a letter, and functions of five types stand behind them
pub(crate) fn our_answer(function: Function, numbers: [u64; NUMBERS]) -> Option<u64>
    ensures { result ≡ our_answer_of function numbers }
{
    let x = from_pattern(numbers[0]);
    let y = from_pattern(numbers[1]);
    let z = from_pattern(numbers[2]);
    let w = from_pattern(numbers[3]);
    match function {
        Function::OfLevel(f) => level_answer(f, numbers[0]),
        Function::OfNumber(f) => Some(pattern(at_number(f, x))),
        Function::OfPair(f) => Some(pattern(at_pair(f, x, y))),
        Function::LnSumExpArray => Some(pattern(phred::ln_sum_exp_array(&[x, y, z, w]).0)),
        Function::LnProbToPhred => Some(u64::from(phred::ln_prob_to_phred(LogProbability(x)).0)),
    }
}

// There is no value at a level of more than 8 bits.
fn level_answer(f: LevelFunction, n: u64) -> Option<u64>
    ensures { result ≡ level_answer f n }
{
    let level = u8::try_from(n).ok()?;
    Some(pattern(at_level(f, PhredScore(level))))
}

fn at_level(f: LevelFunction, level: PhredScore) -> f64
    ensures { result ≡ at_level f level.0 }
{
    match f {
        LevelFunction::PhredToLnErrorProb => phred::phred_to_ln_error_prob(level).0,
        LevelFunction::PhredToLnCorrectProb => phred::phred_to_ln_correct_prob(level).0,
    }
}

fn at_number(f: NumberFunction, x: f64) -> f64
    ensures { result ≡ at_number f x }
{
    match f {
        NumberFunction::Exp => elementary::exp(x),
        NumberFunction::Ln => elementary::ln(x),
        NumberFunction::LnOnePlus => elementary::ln_1p(x),
        NumberFunction::ExpMinusOne => elementary::exp_m1(x),
        NumberFunction::LogOnePlusExp => phred::log1pexp(x),
        NumberFunction::LnOneMinusExp => phred::ln_one_minus_exp(x),
        NumberFunction::LnNot => phred::ln_not(LogProbability(x)).0,
    }
}

fn at_pair(f: PairFunction, x: f64, y: f64) -> f64
    ensures { result ≡ at_pair f x y }
{
    match f {
        PairFunction::LnAMinusB => phred::ln_a_minus_b(x, y),
        PairFunction::LnErrorProbTwoTrials => {
            phred::ln_error_prob_two_trials(LogProbability(x), LogProbability(y)).0
        }
        PairFunction::LnSumExp => phred::ln_sum_exp(LogProbability(x), LogProbability(y)).0,
        PairFunction::LnNormalize => phred::ln_normalize(LogProbability(x), LogProbability(y)).0,
    }
}
