// What an observation adds to a lane's logarithm at each quality, for a post-UMI rate.
ghost use Rattle.std.specs.Prelude.{◌≡◌};
ghost use Rattle.rate_tables.specs.Adjusted.{adjusted_error, correct_at, error_per_alt_at, adjusted_tables, entry_at};

use phred::{LogProbability, PhredScore};

#[derive(Clone, Copy, Debug, PartialEq)]
pub struct AdjustedProbabilityTables {
    // The logarithm of being right, for each quality.
    pub correct: [f64; 94],
    // The logarithm of an error to one given base.
    pub error_per_alt: [f64; 94],
}

// The entries of one quality.
#[derive(Clone, Copy, Debug, PartialEq)]
pub struct AdjustedEntry {
    pub correct: f64,
    pub error_per_alt: f64,
}

impl AdjustedProbabilityTables {
    pub fn compute(error_rate_post_umi: PhredScore) -> Self
        ensures { result ≡ adjusted_tables error_rate_post_umi.0 }
    {
        let post = error_rate_post_umi.0;
        Self {
            correct: std::array::from_fn(|q| correct_at(post, q as u8)),
            error_per_alt: std::array::from_fn(|q| error_per_alt_at(post, q as u8)),
        }
    }

    // The entries of one quality. Qualities above 93 use entry 93.
    pub fn entry(&self, qual: PhredScore) -> AdjustedEntry
        ensures { result ≡ entry_at self.now qual.0 }
    {
        let q = usize::from(qual.0.min(93));
        AdjustedEntry {
            correct: self.correct[q],
            error_per_alt: self.error_per_alt[q],
        }
    }
}

// The same with no table built.
pub fn adjusted_entry(error_rate_post_umi: PhredScore, qual: PhredScore) -> AdjustedEntry
    ensures { result ≡ entry_at (adjusted_tables error_rate_post_umi.0) qual.0 }
{
    let post = error_rate_post_umi.0;
    let q = qual.0.min(93);
    AdjustedEntry {
        correct: correct_at(post, q),
        error_per_alt: error_per_alt_at(post, q),
    }
}

#[tactic(auto, unfolding(crate::specs::Adjusted::adjusted_error))]
fn adjusted_error(post: u8, q: u8) -> LogProbability
    ensures { result.0 ≡ adjusted_error post q }
{
    phred::ln_error_prob_two_trials(
        phred::phred_to_ln_error_prob(PhredScore(post)),
        phred::phred_to_ln_error_prob(PhredScore(q)),
    )
}

#[tactic(auto, unfolding(crate::specs::Adjusted::correct_at))]
fn correct_at(post: u8, q: u8) -> f64
    ensures { result ≡ correct_at post q }
{
    phred::ln_not(adjusted_error(post, q)).0
}

#[tactic(auto, unfolding(crate::specs::Adjusted::error_per_alt_at))]
fn error_per_alt_at(post: u8, q: u8) -> f64
    ensures { result ≡ error_per_alt_at post q }
{
    adjusted_error(post, q).0 - elementary::ln(3.0)
}
