// ln(1 + x). 1 + x is (1 + f) * 2^k with 1 + f from about 0.707 to 1.414, so ln(1 + x) is
// k * ln 2 + ln(1 + f), and ln(1 + f) comes from a series in s = f / (2 + f).
ghost use Rattle.std.specs.Prelude.{◌≡◌, true, false};
ghost use Rattle.std.specs.Float.Ieee.{le, eq, is_nan};
ghost use Rattle.float.specs.Ops.{plus_zero};
ghost use Rattle.elementary.specs.LnOnePlus.{reduced_of, expansion_of, rest_of, joined_of, ln_one_plus_of_number, ln_one_plus_of};

use crate::fma::fma_large_product;

// Up to here either way x - x^2 / 2 is exact enough: 2^-29.
const TINY: f64 = 1.862645149230957e-9;

// Between these 1 + x is taken as it is, with k = 0: about sqrt(1/2) - 1 and sqrt 2 - 1.
const LOW: f64 = -0.2928934097290039;

const HIGH: f64 = 0.4142136573791504;

// From HIGH to here k is 1.
const HIGHER: f64 = 1.75;

// ln 2 in two parts: the first has so few digits that its product with k is exact.
pub(crate) const LN_2_HI: f64 = 0.6931471803691238;

pub(crate) const LN_2_LO: f64 = 1.9082149292705877e-10;

// The series of ln((1 + s) / (1 - s)) / s - 2 in s^2.
const L1: f64 = 0.6666666666666735;

const L2: f64 = 0.3999999999940942;

const L3: f64 = 0.2857142874366239;

const L4: f64 = 0.22222198432149784;

const L5: f64 = 0.1818357216161805;

const L6: f64 = 0.15313837699209373;

const L7: f64 = 0.14798198605116586;

// The numbers beside L1.
const L1_BELOW: f64 = 0.6666666666666734;

const L1_ABOVE: f64 = 0.6666666666666736;

// ln(1 + x): -infinity at -1, NaN below, and never below 0 for an x from 0 on. The last test never
// gives 0; it shows that at once.
#[tactic(auto, unfolding(crate::specs::LnOnePlus::ln_one_plus_of))]
pub fn ln_1p(x: f64) -> f64
    ensures { result ≡ ln_one_plus_of x }
{
    if x >= 0.0 {
        let y = from_zero(x);
        if y < 0.0 { 0.0 } else { y }
    } else {
        below_zero(x)
    }
}

// ln(1 + x) for an x from 0 on, before that test.
#[tactic(auto, using(crate::proofs::LnRanges::from_0_ranges), unfolding(crate::specs::LnOnePlus::ln_one_plus_of_number))]
fn from_zero(x: f64) -> f64
    requires { le plus_zero x ≡ true }
    ensures { result ≡ ln_one_plus_of_number x }
{
    if x < HIGH {
        if x < TINY { x - (x * x) * 0.5 } else { near(x) }
    } else if x < HIGHER {
        let u = x + 1.0;
        far(u * 0.5 - 1.0, 1.0, (x - (u - 1.0)) / u)
    } else if x > f64::MAX {
        x
    } else {
        anywhere(x)
    }
}

// The same for an x below 0, and for NaN.
#[tactic(auto, using(crate::proofs::LnRanges::below_0_ranges), unfolding(crate::specs::LnOnePlus::ln_one_plus_of_number))]
fn below_zero(x: f64) -> f64
    requires { le plus_zero x ≡ false }
    ensures { result ≡ ln_one_plus_of_number x }
{
    if x > LOW {
        if x > -TINY {
            x - (x * x) * 0.5
        } else {
            near(x)
        }
    } else if x > -1.0 {
        anywhere(x)
    } else if x == -1.0 {
        f64::NEG_INFINITY
    } else {
        f64::NAN
    }
}

// 1 + x as (1 + f) * 2^k, with c for what 1 + x lost when it was rounded, relative to it.
// kept: no plainer: nothing compares or prints it
#[derive(Clone, Copy)]
pub struct Parts {
    pub f: f64,
    pub k: f64,
    pub c: f64,
}

// These for any x above -1, by the bit pattern of 1 + x.
// kept: no plainer: four functions ask it of one f64 each; a type for it would be made and opened at every call
#[tactic(auto, unfolding(crate::specs::LnOnePlus::reduced_of))]
fn reduced(x: f64) -> Parts
    requires { is_nan x ≡ false }
    ensures { result ≡ reduced_of x }
{
    let u = x + 1.0;
    let w = u - 1.0;
    let c = ((1.0 - (u - w)) + (x - w)) / u;
    let v = u.to_bits() % 0x8000_0000_0000_0000 + 0x0019_5f62_0000_0000;
    let f = f64::from_bits(v % 0x10_0000_0000_0000 + 0x3fe6_a09e_0000_0000) - 1.0;
    Parts {
        f,
        k: ((v / 0x10_0000_0000_0000) as u32 as f64) - 1024.0,
        c,
    }
}

// f^2 / 2, s, s^2, and the terms of the series after the first in pairs.
// kept: no plainer: nothing compares or prints it
#[derive(Clone, Copy)]
pub struct Series {
    pub half: f64,
    pub s: f64,
    pub z: f64,
    pub low: f64,
    pub middle: f64,
    pub top: f64,
}

#[tactic(auto, unfolding(crate::specs::LnOnePlus::expansion_of))]
fn expansion(f: f64) -> Series
    ensures { result ≡ expansion_of f }
{
    let s = f / (2.0 + f);
    let z = s * s;
    let z2 = z * z;
    let z4 = z2 * z2;
    Series {
        half: (0.5 * f) * f,
        s,
        z,
        low: z2 * (z * L3 + L2),
        middle: z4 * (z * L5 + L4),
        top: (z4 * z2) * (z * L7 + L6),
    }
}

// What has to be added to f - f^2 / 2 for ln(1 + f), with low for the first three terms.
fn rest(a: Series, low: f64) -> f64
    ensures { result ≡ rest_of a low }
{
    a.s * (a.half + (a.top + (a.middle + low)))
}

// ln(1 + f). The first term and low are added with one rounding. Their sum lies between those with
// the numbers beside L1, so where these two lead to one result, that is it.
#[tactic(auto, using(crate::proofs::Numbers::zero_equal), unfolding(crate::specs::LnOnePlus::joined_of))]
fn near(f: f64) -> f64
    ensures { result ≡ joined_of (record { f = f; k = plus_zero; c = plus_zero }) }
{
    let a = expansion(f);
    let y = f - (a.half - rest(a, a.z * L1_BELOW + a.low));
    if y == f - (a.half - rest(a, a.z * L1_ABOVE + a.low)) {
        y
    } else {
        f - (a.half - rest(a, fma_large_product(a.z, L1, a.low)))
    }
}

// k * ln 2 + ln(1 + f) + c in the same way.
// kept: no plainer: one function with the sum as a closure has a contract longer than this body
#[tactic(auto, unfolding(crate::specs::LnOnePlus::joined_of))]
fn far(f: f64, k: f64, c: f64) -> f64
    requires { eq k plus_zero ≡ false }
    ensures { result ≡ joined_of (record { f = f; k = k; c = c }) }
{
    let a = expansion(f);
    let hi = k * LN_2_HI;
    let lo = k * LN_2_LO + c;
    let y = hi - ((a.half - (rest(a, a.z * L1_BELOW + a.low) + lo)) - f);
    if y == hi - ((a.half - (rest(a, a.z * L1_ABOVE + a.low) + lo)) - f) {
        y
    } else {
        hi - ((a.half - (rest(a, fma_large_product(a.z, L1, a.low)) + lo)) - f)
    }
}

// ln(1 + x) for any x above -1. Where k is 0, c is left out: it is 0 there but for a number or two,
// at which the C library leaves it out as well.
fn anywhere(x: f64) -> f64
    requires { is_nan x ≡ false }
    ensures { result ≡ joined_of (reduced_of x) }
{
    let t = reduced(x);
    if t.k == 0.0 {
        near(t.f)
    } else {
        far(t.f, t.k, t.c)
    }
}
