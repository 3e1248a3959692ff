// exp(x) - 1. For a y near 0 it is y + y^2 / 2 and a correction, from a series in y^2 / 2. From
// -3/2 * ln 2 to -1/2 * ln 2 that is taken at y = x + ln 2, as exp(x) - 1 = (exp(y) - 1) / 2 - 1/2.
ghost use Rattle.std.specs.Prelude.{◌≡◌};
ghost use Rattle.elementary.specs.ExpMinusOne.{end_of, correction_of, exact_of, near_zero_of, halved_of, shifted_of, exp_minus_one_of};

use crate::exponential::exp;
use crate::fma::{fma_large_product, fma_small_product};
use crate::ln_one_plus::{LN_2_HI, LN_2_LO};

// 1/2 * ln 2 and 3/2 * ln 2, rounded to few digits.
const HALF_LN_2: f64 = 0.3465735912322998;

const THREE_HALVES_LN_2: f64 = 1.0397205352783203;

// The series of 6 / y * ((exp(y) + 1) / (exp(y) - 1) - 2 / y) in y^2 / 2, from the second term on.
const Q1: f64 = -0.03333333333333313;

const Q2: f64 = 0.0015873015872548146;

const Q3: f64 = -7.93650757867488e-05;

const Q4: f64 = 4.008217827329362e-06;

const Q5: f64 = -2.0109921818362437e-07;

// 2^-55 and 2^-53: more than a product with y / 2, and one with y, loses here when it is rounded.
const H_SLACK: f64 = 2.7755575615628914e-17;

const Y_SLACK: f64 = 1.1102230246251565e-16;

// The numbers beside 1: a product with one of them makes up for what the next product loses.
const UP: f64 = 1.0000000000000002;

const DOWN: f64 = 0.9999999999999999;

// exp(x) - 1: -1 at -infinity.
#[tactic(auto, unfolding(crate::specs::ExpMinusOne::exp_minus_one_of))]
pub fn exp_m1(x: f64) -> f64
    ensures { result ≡ exp_minus_one_of x }
{
    if float::between(-HALF_LN_2, x, HALF_LN_2) {
        near_zero(x, correction_at(x))
    } else if float::between(-THREE_HALVES_LN_2, x, 0.0) {
        let hi = x + LN_2_HI;
        let y = hi + LN_2_LO;
        shifted(y, (hi - y) + LN_2_LO, correction_at(y))
    } else {
        exp(x) - 1.0
    }
}

// y^2 / 2, the series r, and two numbers between which e lies: exp(y) - 1 is y - (e * y - y^2 / 2).
// kept: no plainer: nothing compares or prints it
#[derive(Clone, Copy)]
pub struct Correction {
    pub half: f64,
    pub r: f64,
    pub low: f64,
    pub high: f64,
}

// These for a y, compiled into both places that ask for them.
#[inline(always)]
#[tactic(auto, unfolding(crate::specs::ExpMinusOne::correction_of))]
fn correction_at(y: f64) -> Correction
    ensures { result ≡ correction_of y }
{
    let h = 0.5 * y;
    let half = y * h;
    let h2 = half * half;
    let r = (h2 * h2) * (half * Q5 + Q4) + (h2 * (half * Q3 + Q2) + (half * Q1 + 1.0));
    Correction {
        half,
        r,
        low: end(h - H_SLACK, y + Y_SLACK, r, half),
        high: end(h + H_SLACK, y - Y_SLACK, r, half),
    }
}

// e from h for y / 2 and from y, in operations that round each time.
fn end(h: f64, y: f64, r: f64, half: f64) -> f64
    ensures { result ≡ end_of h y r half }
{
    let n = h * r - 3.0;
    ((r + n) / (y * n + 6.0)) * half
}

// e with one rounding for each product and the sum that it goes into.
fn exact(y: f64, a: Correction) -> f64
    ensures { result ≡ exact_of y a }
{
    let n = fma_small_product(0.5 * y, a.r, -3.0);
    ((a.r + n) / fma_small_product(y, n, 6.0)) * a.half
}

// Where both ends of e lead to one result, that is it.
#[tactic(auto, unfolding(crate::specs::ExpMinusOne::near_zero_of))]
fn near_zero(x: f64, a: Correction) -> f64
    ensures { result ≡ near_zero_of x a }
{
    let y = x - (a.low * (x * UP) - a.half);
    if y == x - (a.high * (x * DOWN) - a.half) {
        y
    } else {
        x - fma_small_product(exact(x, a), x, -a.half)
    }
}

// The same at y = x + ln 2, where c is what y lost when it was rounded.
#[tactic(auto, unfolding(crate::specs::ExpMinusOne::shifted_of))]
fn shifted(y: f64, c: f64, a: Correction) -> f64
    ensures { result ≡ shifted_of y c a }
{
    let r = halved(y, (a.low - c) * (y * UP) - c, a.half);
    if r == halved(y, (a.high - c) * (y * DOWN) - c, a.half) {
        r
    } else {
        halved(y, fma_large_product(exact(y, a) - c, y, -c), a.half)
    }
}

// (y - (s - y^2 / 2)) / 2 - 1/2
fn halved(y: f64, s: f64, half: f64) -> f64
    ensures { result ≡ halved_of y s half }
{
    0.5 * (y - (s - half)) - 0.5
}
