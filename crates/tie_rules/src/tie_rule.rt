// How a near-tie between the greatest likelihoods is resolved: whether another lane ties with the one that
// leads.
ghost use Rattle.std.specs.Prelude.{◌≡◌, ◌<◌, true, not, ◌||◌, eqb};
ghost use Rattle.tie_rules.specs.declared.tie_rule.TieRule.TheVariants.{FgbioCompat};
ghost use Rattle.tie_rules.specs.Ties.{rule_of, rule_number, fgbio_tie, near_patterns, ulp_tie, fgbio_tested, ties_with, untied as untied_of};

pub const FGBIO_TIE_EPSILON: f64 = f64::EPSILON;

#[derive(Clone, Copy, Debug, PartialEq, Eq)]
pub enum TieRule {
    // A tie is a separation of at most 4 units in the last place.
    UlpRelative,
    // fgbio's rule, the default: 2^-52 at any scale, tested from lane to lane.
    FgbioCompat,
}

// The rule of a number, as files and scripts write it: 0 the default, any other UlpRelative.
impl From<u8> for TieRule {
    ghost from_gives = { λ n r. r ≡ rule_of n };

    fn from(n: u8) -> Self {
        match n {
            0 => TieRule::FgbioCompat,
            _ => TieRule::UlpRelative,
        }
    }
}

// And its number: 0 or 1.
impl From<TieRule> for u8 {
    ghost from_gives = { λ rule n. n ≡ rule_number rule };

    fn from(rule: TieRule) -> Self {
        match rule {
            TieRule::FgbioCompat => 0,
            TieRule::UlpRelative => 1,
        }
    }
}

#[tactic(auto, unfolding(crate::specs::Ties::fgbio_tie))]
pub fn fgbio_tie(x: f64, y: f64) -> bool
    ensures { result ≡ fgbio_tie x y }
{
    float::abs(x - y) <= FGBIO_TIE_EPSILON
}

#[tactic(auto, unfolding(crate::specs::Ties::ulp_tie))]
pub fn ulp_tie(x: f64, y: f64) -> bool
    ensures { result ≡ ulp_tie x y }
{
    x == y || (!x.is_nan() && !y.is_nan() && near_patterns(x.to_bits(), y.to_bits()))
}

// The sign is the highest bit.
#[tactic(auto, unfolding(crate::specs::Ties::near_patterns))]
fn near_patterns(a: u64, b: u64) -> bool
    ensures { result ≡ near_patterns a b }
{
    (0x8000_0000_0000_0000 <= a) == (0x8000_0000_0000_0000 <= b) && a.abs_diff(b) <= 4
}

// Of two lanes, the one and then the other in their order.
#[tactic(auto, unfolding(crate::specs::Ties::fgbio_tested))]
fn fgbio_tested(earlier: f64, later: f64) -> bool
    ensures { result ≡ fgbio_tested earlier later }
{
    !(earlier < later) && fgbio_tie(later, earlier)
}

// Whether lane j, of the value x, ties with lane i, of the value m.
#[tactic(auto, unfolding(crate::specs::Ties::ties_with))]
pub fn ties_with(rule: TieRule, i: usize, m: f64, j: usize, x: f64) -> bool
    ensures { result ≡ ties_with rule i m j x }
{
    match rule {
        TieRule::UlpRelative => ulp_tie(x, m),
        TieRule::FgbioCompat if i < j => fgbio_tested(m, x),
        TieRule::FgbioCompat => fgbio_tested(x, m),
    }
}

// Whether no lane but i, of the value m, ties with it: lane by lane.
#[tactic(auto, unfolding(crate::specs::Ties::untied))]
pub(crate) fn none_ties(rule: TieRule, likelihoods: [f64; 4], i: usize, m: f64) -> bool
    ensures { result ≡ untied_of rule likelihoods i m }
{
    (0..4).all(|j| i == j || !ties_with(rule, i, m, j, likelihoods[j]))
}

// Whether the value m is more than 2^-52 above every lane but i. Then none ties with it by fgbio's rule,
// whichever of the two comes first.
fn clears_others(likelihoods: [f64; 4], i: usize, m: f64) -> bool
    requires { i < 4 }
    ensures { result ≡ true → untied_of FgbioCompat likelihoods i m ≡ true }
{
    FGBIO_TIE_EPSILON < m - likelihoods[(i + 1) % 4]
        && FGBIO_TIE_EPSILON < m - likelihoods[(i + 2) % 4]
        && FGBIO_TIE_EPSILON < m - likelihoods[(i + 3) % 4]
}

// Whether no lane but i, of the value m, ties with it. By fgbio's rule the likely answer comes first.
pub fn untied(rule: TieRule, likelihoods: [f64; 4], i: usize, m: f64) -> bool
    ensures { result ≡ untied_of rule likelihoods i m }
{
    match rule {
        TieRule::FgbioCompat if i < 4 && clears_others(likelihoods, i, m) => true,
        _ => none_ties(rule, likelihoods, i, m),
    }
}
