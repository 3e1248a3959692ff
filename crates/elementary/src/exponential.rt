// exp. With x = (128 * k + j) * ln 2 / 128 + r, k and j whole, j below 128 and r at most ln 2 / 256
// either way, exp x is 2^k * 2^(j/128) * exp r: an entry of a table, its exponent raised by k, and
// a short series.
ghost use Rattle.std.specs.Prelude.{◌≡◌, false, ◌<◌};
ghost use Rattle.std.specs.Float.Ieee.{is_nan};
ghost use Rattle.elementary.specs.Exp.{series_of, power_of_two_of, scaled_of, far_of, near_of, exp_of};

use crate::fma::fma_small_product;

// From it on the result is beyond the largest f64.
const HIGHEST: f64 = 710.0;

// Below it the result is less than half of the least f64.
const LOWEST: f64 = -746.0;

// 128 / ln 2
const STEPS: f64 = 184.6649652337873;

// 1.5 * 2^52 + 128 * 1100: a sum with it is a whole number, whose last binary digits hold
// 128 * (k + 1100) + j.
const SHIFT: f64 = 6755399441196544.0;

// The bit patterns of such sums with k = -900 and with k = 900.
const LEAST_SUM: u64 = 0x4338_0000_0000_6400;

const END_OF_SUMS: u64 = 0x4338_0000_0003_e800;

// 1 in the place of an f64's exponent.
const EXPONENT: u64 = 0x10_0000_0000_0000;

// -ln 2 / 128 in two parts: the first has so few digits that its product with 128 * k + j is exact.
const STEP_HI: f64 = -0.005415212348111709;

const STEP_LO: f64 = -1.2864023111638346e-14;

// The series of exp r - 1 from r^2 on.
const C2: f64 = 0.49999999999996786;

const C3: f64 = 0.16666666666665886;

const C4: f64 = 0.0416666808410674;

const C5: f64 = 0.008333335853059549;

// exp x: NaN at NaN alone, and never below 0.
#[tactic(auto, using(crate::proofs::Numbers::ends_of_exp), unfolding(crate::specs::Exp::exp_of))]
pub fn exp(x: f64) -> f64
    ensures { result ≡ exp_of x }
{
    if x < HIGHEST {
        near(x)
    } else if x.is_nan() {
        x
    } else {
        f64::INFINITY
    }
}

// exp x below that limit. For a k from -900 to 899 all numbers are normal, and 2^k goes into the
// exponent of the table's entry at once. No such y is below 0; the test shows it.
// kept: no plainer: four functions ask it of one f64 each; a type for it would be made and opened at every call
#[tactic(auto, using(crate::proofs::Numbers::sums_of_exp), unfolding(crate::specs::Exp::near_of))]
fn near(x: f64) -> f64
    requires { is_nan x ≡ false }
    ensures { result ≡ near_of x }
{
    let m = x * STEPS + SHIFT;
    let n = m.to_bits();
    let whole = m - SHIFT;
    let r = whole * STEP_LO + (whole * STEP_HI + x);
    let e = elementary_tables::exp_row(n % 128);
    let t = series(r, e.tail);
    let k = n % 0x8_0000 / 128;
    if LEAST_SUM <= n && n < END_OF_SUMS {
        let h = f64::from_bits(e.head + k * EXPONENT - 1100 * EXPONENT);
        let y = fma_small_product(h, t, h);
        if y >= 0.0 { y } else { far(x, e.head, t, k) }
    } else {
        far(x, e.head, t, k)
    }
}

// exp r - 1, with tail added to its first term.
#[tactic(auto, unfolding(crate::specs::Exp::series_of))]
fn series(r: f64, tail: f64) -> f64
    ensures { result ≡ series_of r tail }
{
    let r2 = r * r;
    (r2 * r2) * (r * C5 + C4) + (r2 * (r * C3 + C2) + (tail + r))
}

// exp x as h * (1 + t) * 2^(k - 1100), for the h of the pattern head. The last test shows at once
// that no result is below 0 and none is NaN. No argument is known at which it gives 0; that is not proved.
#[tactic(auto, using(float::proofs::Patterns::no_nan), unfolding(crate::specs::Exp::from0_of))]
fn far(x: f64, head: u64, t: f64, k: u64) -> f64
    requires { head < 4611686018427387904 }
    ensures { result ≡ far_of x head t k }
{
    if x < LOWEST {
        return 0.0;
    }
    let h = f64::from_bits(head);
    let y = scaled(fma_small_product(h, t, h), k);
    if y >= 0.0 { y } else { 0.0 }
}

// 2^(n - 1023)
#[tactic(auto, using(float::proofs::Patterns::no_nan), unfolding(crate::specs::Exp::power_of_two_of))]
fn power_of_two(n: u64) -> f64
    requires { n < 2047 }
    ensures { result ≡ power_of_two_of n }
{
    f64::from_bits(n * EXPONENT)
}

// y * 2^(k - 1100), by two factors that are normal numbers, so that the last product alone rounds.
#[tactic(auto, unfolding(crate::specs::Exp::scaled_of))]
fn scaled(y: f64, k: u64) -> f64
    ensures { result ≡ scaled_of y k }
{
    let c = k % 2200;
    let a = c / 2;
    y * power_of_two(a + 473) * power_of_two(c - a + 473)
}
