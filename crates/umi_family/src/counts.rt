// How many of the strings have a base at each place.
ghost use Rattle.std.specs.Prelude.{◌≡◌, ℕ, true, [], ◌∷◌, ◌≤◌, ◌<◌, length, replicate, IfSome};
ghost use Rattle.tie_rules.specs.declared.tie_rule.TieRule.TheVariants.{FgbioCompat};
ghost use Rattle.umi_count_laws.specs.Counts.{logarithms_apart};
ghost use Rattle.umi_family.specs.Counts.{hit_by, Above};

use rate_tables::AdjustedEntry;
use tie_rules::TieRule;

fn are_apart(entry: AdjustedEntry) -> bool
    ensures { result ≡ logarithms_apart entry.correct entry.error_per_alt }
{
    let AdjustedEntry {
        correct,
        error_per_alt,
    } = entry;
    (-32.0 <= error_per_alt) & (correct <= 0.0) & (2.0 <= correct - error_per_alt)
}

// Whether the base that was observed more often than each other is the call. False is never wrong: the
// columns are then summed.
pub(crate) fn counts_decide(rule: TieRule, entry: AdjustedEntry) -> bool
    ensures { result ≡ true → (rule ≡ FgbioCompat) × (logarithms_apart entry.correct entry.error_per_alt ≡ true) }
{
    match rule {
        TieRule::UlpRelative => false,
        TieRule::FgbioCompat => are_apart(entry),
    }
}

// How often A, C, G and T were observed at each place.
// kept: no plainer: nothing compares or prints it
#[derive(Clone, Copy)]
pub struct Counts {
    pub a: [u8; 255],
    pub c: [u8; 255],
    pub g: [u8; 255],
    pub t: [u8; 255],
}

fn hit(byte: u8, upper: u8, lower: u8) -> u8
    ensures one { result ≡ hit_by upper lower byte }
    ensures most { result ≤ 1 }
{
    ((byte == upper) | (byte == lower)) as u8
}

impl Counts {
    ghost use Rattle.umi_family.specs.Counts.{lane_counts, CountsRoom, Counted};

    pub(crate) fn none() -> Self
        ensures { (i : ℕ) → i < 4 → lane_counts result i ≡ replicate 255 0 }
    {
        Self {
            a: [0; 255],
            c: [0; 255],
            g: [0; 255],
            t: [0; 255],
        }
    }

    // The bases of one string, each counted at its place. With no branch, and a byte to a count, it goes by
    // sixteen bytes.
    pub(crate) fn count_row(&mut self, row: &[u8])
        requires { (i : ℕ) → i < 4 → CountsRoom (length row.now) (lane_counts self.old i) }
        ensures { (i : ℕ) → i < 4 → Counted i row.now (lane_counts self.old i) (lane_counts self.new i) }
    {
        for (i, b) in row.iter().enumerate() {
            self.a[i] += hit(*b, b'A', b'a');
            self.c[i] += hit(*b, b'C', b'c');
            self.g[i] += hit(*b, b'G', b'g');
            self.t[i] += hit(*b, b'T', b't');
        }
    }
}

fn above(x: u8, p: u8, q: u8, r: u8) -> bool
    ensures { result ≡ true → (p < x) × (q < x) × (r < x) }
{
    (p < x) & (q < x) & (r < x)
}

// The lane whose count is above each other's. None is never wrong: the column is then summed.
pub(crate) fn leader(a: u8, c: u8, g: u8, t: u8) -> Option<usize>
    ensures { IfSome result (λ i. (i < 4) × Above (a ∷ c ∷ g ∷ t ∷ []) i) }
{
    if above(a, c, g, t) {
        Some(0)
    } else if above(c, a, g, t) {
        Some(1)
    } else if above(g, a, c, t) {
        Some(2)
    } else if above(t, a, c, g) {
        Some(3)
    } else {
        None
    }
}
