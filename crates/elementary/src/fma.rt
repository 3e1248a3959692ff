// a * b + c with one rounding, from operations that round each time. The processor's own fused
// operation is not in the language; what it would give decides last digits in the four functions.
ghost use Rattle.std.specs.Prelude.{◌≡◌};
ghost use Rattle.elementary.specs.Fma.{leading_digits, lost_of, product_error_of, fma_small_product_of, fma_large_product_of};

// 2^27 + 1
const SPLITTER: f64 = 134217729.0;

// 1 + 10^-7
const WIDER: f64 = 1.0000001;

// The leading 26 digits of x (Veltkamp).
#[tactic(auto, unfolding(crate::specs::Fma::leading_digits))]
fn head(x: f64) -> f64
    ensures { result ≡ leading_digits x }
{
    let t = SPLITTER * x;
    t - (t - x)
}

// What a product lost when it was rounded to p, its factors given in two parts each (Dekker).
#[tactic(auto, unfolding(crate::specs::Fma::lost_of))]
fn lost(p: f64, ah: f64, al: f64, bh: f64, bl: f64) -> f64
    ensures { result ≡ lost_of p ah al bh bl }
{
    (((ah * bh - p) + ah * bl) + al * bh) + al * bl
}

// What a * b loses when it is rounded.
#[tactic(auto, unfolding(crate::specs::Fma::product_error_of))]
fn product_error(a: f64, b: f64) -> f64
    ensures { result ≡ product_error_of a b }
{
    let ah = head(a);
    let bh = head(b);
    lost(a * b, ah, a - ah, bh, b - bh)
}

// a * b + c, where c outweighs the product or is a multiple of its last digit. The product's own
// error counts only where c + a * b lies half way between two numbers, and that is tested for.
#[tactic(auto, unfolding(crate::specs::Fma::fma_small_product_of))]
pub fn fma_small_product(a: f64, b: f64, c: f64) -> f64
    ensures { result ≡ fma_small_product_of a b c }
{
    let p = a * b;
    let s = c + p;
    let d = p - (s - c);
    if s + d * WIDER == s {
        s
    } else {
        s + (d + product_error(a, b))
    }
}

// a * b + c, where the product outweighs c.
#[tactic(auto, unfolding(crate::specs::Fma::fma_large_product_of))]
pub fn fma_large_product(a: f64, b: f64, c: f64) -> f64
    ensures { result ≡ fma_large_product_of a b c }
{
    let p = a * b;
    let s = p + c;
    let d = c - (s - p);
    s + (d + product_error(a, b))
}
