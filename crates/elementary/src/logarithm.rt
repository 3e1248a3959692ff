// ln. A normal x is m * 2^k with m from 1 to 2. With c from a table, near m, and r = m / c - 1,
// ln x is k * ln 2 + ln c + ln(1 + r): an entry of the table and a short series. From m = 1.375 on
// k is one more, and ln c is that of c / 2, so that it is small either way.
ghost use Rattle.std.specs.Prelude.{◌≡◌, false};
ghost use Rattle.std.specs.Float.Ieee.{is_nan};
ghost use Rattle.elementary.specs.Ln.{ratio_of, normal_of, ln_of};

use crate::fma::fma_small_product;
use crate::ln_one_plus::ln_1p;
use elementary_tables::LnRow;

// From the first to the second the terms with k and c would only cancel.
const BELOW_ONE: f64 = 0.9375;

const ABOVE_ONE: f64 = 1.064697265625;

// 2^52
const TO_NORMAL: f64 = 4503599627370496.0;

// The middle of the first part: 1 + 2^-8.
const MIDDLE: f64 = 1.00390625;

// ln 2 in two parts: the first has so few digits that its product with k is exact.
const LN_2_HI: f64 = 0.6931471805598903;

const LN_2_LO: f64 = 5.497923018708371e-14;

// The series of ln(1 + r) from r^2 on.
const A0: f64 = -0.5000000000000001;

const A1: f64 = 0.33333333331825593;

const A2: f64 = -0.2499999999622955;

const A3: f64 = 0.20000304511814496;

const A4: f64 = -0.16667054827627667;

// ln x: -infinity at 0, and NaN below 0 and of NaN, whatever its bits. Numbers below 1 come first: they are asked for most.
#[tactic(auto, using(crate::proofs::LnRanges::ln_ranges), unfolding(crate::specs::Ln::ln_of))]
pub fn ln(x: f64) -> f64
    ensures { result ≡ ln_of x }
{
    if x < BELOW_ONE {
        if x >= f64::MIN_POSITIVE {
            normal(x, 1023.0)
        } else if x > 0.0 {
            normal(x * TO_NORMAL, 1075.0)
        } else if x == 0.0 {
            f64::NEG_INFINITY
        } else {
            f64::NAN
        }
    } else if x < ABOVE_ONE {
        ln_1p(x - 1.0)
    } else if x <= f64::MAX {
        normal(x, 1023.0)
    } else if x > f64::MAX {
        x
    } else {
        f64::NAN
    }
}

// ln(x * 2^(1023 - bias)) for a normal x.
// kept: no plainer: four functions ask it of one f64 each; a type for it would be made and opened at every call
#[tactic(auto, unfolding(crate::specs::Ln::normal_of))]
fn normal(x: f64, bias: f64) -> f64
    requires { is_nan x ≡ false }
    ensures { result ≡ normal_of x bias }
{
    let n = x.to_bits();
    // the exponent and seven digits, which choose the row; from 48 on, 1.375, the 80 carry
    let first = n / 0x2000_0000_0000;
    let e = elementary_tables::ln_row(first % 128);
    let k = (((first + 80) / 128) as u32 as f64) - bias;
    let t = f64::from_bits(n % 0x2000_0000_0000 + 0x3ff0_0000_0000_0000) - MIDDLE;
    let r = ratio(t, e);
    let w = k * LN_2_HI + e.logarithm;
    let hi = w + r;
    let lo = k * LN_2_LO + ((w - hi) + r);
    let r2 = r * r;
    let q = (r * A4 + A3) * r2 + (r * A2 + A1);
    ((r * r2) * q + (r2 * A0 + lo)) + hi
}

// m / c - 1 with one rounding, for an m that is t above the middle of its part: all but the last
// product and sum are exact.
#[tactic(auto, unfolding(crate::specs::Ln::ratio_of))]
fn ratio(t: f64, e: LnRow) -> f64
    ensures { result ≡ ratio_of t e }
{
    fma_small_product(t, e.tail, t * e.head + e.offset)
}
