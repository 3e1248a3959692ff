// ln_sum_exp_array for four lanes, as they are run: no walk over a slice, and the lane to start from is
// moved to the front by comparisons alone.
// kept: slower: 139 -> 143 ns a sum by ln_sum_exp_array, the best of 400 runs of 4,096 calls from C
ghost use Rattle.std.specs.Prelude.{◌≡◌};
ghost use Rattle.phred.specs.FourLanes.{least_of, first_two, first_three, ln_sum_exp_four};
ghost use Rattle.phred.specs.Phred.{ln_sum_exp_array};

use crate::{LogProbability, ln_sum_exp_f64};

// Two lanes as a sum takes them: the lowest, the one to start from, and the other.
// kept: no plainer: nothing compares or prints it
#[derive(Clone, Copy)]
pub struct FirstTwo {
    pub least: f64,
    pub start: f64,
    pub next: f64,
}

// Three lanes, likewise.
// kept: no plainer: nothing compares or prints it
#[derive(Clone, Copy)]
pub struct FirstThree {
    pub least: f64,
    pub start: f64,
    pub next: f64,
    pub last: f64,
}

#[tactic(auto, unfolding(crate::specs::FourLanes::first_two))]
fn first_two(a: f64, b: f64) -> FirstTwo
    ensures { result ≡ first_two a b }
{
    let least = least_of(a);
    if b < least {
        FirstTwo {
            least: b,
            start: b,
            next: a,
        }
    } else {
        FirstTwo {
            least,
            start: a,
            next: b,
        }
    }
}

// What a lane must be below to be lower than lane 0: lane 0, or +infinity where it is NaN.
#[tactic(auto, using(float::proofs::Constants::constants), unfolding(crate::specs::FourLanes::least_of))]
fn least_of(a: f64) -> f64
    ensures { result ≡ least_of a }
{
    if a < f64::INFINITY { a } else { f64::INFINITY }
}

#[tactic(auto, unfolding(crate::specs::FourLanes::first_three))]
fn first_three(two: FirstTwo, a: f64, b: f64, c: f64) -> FirstThree
    ensures { result ≡ first_three two a b c }
{
    if c < two.least {
        FirstThree {
            least: c,
            start: c,
            next: a,
            last: b,
        }
    } else {
        FirstThree {
            least: two.least,
            start: two.start,
            next: two.next,
            last: c,
        }
    }
}

// in this order
#[tactic(auto, unfolding(crate::specs::FourLanes::ln_sum_exp_four))]
fn ln_sum_exp_four(a: f64, b: f64, c: f64, d: f64) -> f64
    ensures { result ≡ ln_sum_exp_four a b c d }
{
    ln_sum_exp_f64(ln_sum_exp_f64(ln_sum_exp_f64(a, b), c), d)
}

// The logarithm of the sum of four exponentials.
#[tactic(auto, using(crate::proofs::FourLanes::array_of_four), unfolding(crate::specs::FourLanes::ln_sum_exp_lanes))]
pub fn ln_sum_exp_lanes(values: [f64; 4]) -> LogProbability
    ensures { result.0 ≡ ln_sum_exp_array values }
{
    let [a, b, c, d] = values;
    let three = first_three(first_two(a, b), a, b, c);
    LogProbability(if d < three.least {
        ln_sum_exp_four(d, a, b, c)
    } else {
        ln_sum_exp_four(three.start, three.next, three.last, d)
    })
}
