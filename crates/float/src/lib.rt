// What a caller of f64 needs beside the library's own methods.
#![tactic(auto)]

ghost use Rattle.std.specs.Prelude.{◌≡◌, to_bits};
ghost use Rattle.std.specs.Float.{binary64};
ghost use Rattle.float.specs.Ops.{bits};
ghost use Rattle.float.specs.Methods.{abs_of, max_of, between_of, floor_of};

// x without its sign, the highest bit of its pattern; a NaN has no pattern to read.
pub fn abs(x: f64) -> f64
    ensures { result ≡ abs_of x }
{
    if x.is_nan() {
        x
    } else {
        f64::from_bits(x.to_bits() % 0x8000_0000_0000_0000)
    }
}

// The larger of x and y, where a NaN counts for nothing.
#[tactic(auto, using(crate::proofs::Order::lt_numbers), unfolding(crate::specs::Methods::max_of))]
pub fn max(x: f64, y: f64) -> f64
    ensures { result ≡ max_of x y }
{
    if x.is_nan() || x < y { y } else { x }
}

// Whether x lies above low and below high; a NaN does not.
#[tactic(auto, unfolding(crate::specs::Methods::between_of))]
pub fn between(low: f64, x: f64, high: f64) -> bool
    ensures { result ≡ between_of low x high }
{
    low < x && x < high
}

// The floor of x, held to the range of u64; a NaN gives 0.
pub fn floor_to_u64(x: f64) -> u64
    ensures { result ≡ floor_of x }
{
    if x > 0.0 {
        if x < 18446744073709551616.0 {
            std::num::truncating_f64_to_u64(x)
        } else {
            u64::MAX
        }
    } else {
        0
    }
}

// The bit pattern of x; all NaN have one.
pub fn pattern(x: f64) -> u64
    ensures { result ≡ to_bits binary64 x }
{
    std::num::f64_to_bits_with_nan(x)
}

// The f64 with a bit pattern, where every pattern of a NaN gives a NaN.
pub fn from_pattern(pattern: u64) -> f64
    ensures { result ≡ bits pattern }
{
    std::num::f64_from_bits_with_nan(pattern)
}
