// The window of two logarithms, and the windows of two tables.
ghost use Rattle.std.specs.Prelude.{◌≡◌, ◌+◌, ◌<◌, [], get_or};
ghost use Rattle.std.specs.Float.{nan};
ghost use Rattle.tie_rules.specs.Lanes.{lanes};
ghost use Rattle.base_builder.specs.Builder.{entry_of};
ghost use Rattle.observation_windows.specs.Windows.{window_of, window_at, windows_of};

use phred::PhredScore;
use rate_tables::AdjustedProbabilityTables;

// e e e a e e e e: the one logarithm amid the other. From place 3 - k on lie the values of the four lanes
// where lane k was observed, so that no branch chooses them.
#[tactic(auto, unfolding(crate::specs::Windows::window_of))]
pub fn window_of(correct: f64, error: f64) -> [f64; 8]
    ensures { result ≡ window_of correct error }
{
    [error, error, error, correct, error, error, error, error]
}

// The window of each quality.
// kept: no plainer: nothing compares or prints it
#[derive(Clone, Copy)]
pub struct Windows {
    pub rows: [[f64; 8]; 94],
}

impl Windows {
    #[inline(always)]
    pub fn of(tables: &AdjustedProbabilityTables) -> Self
        ensures { result.rows ≡ windows_of tables.now }
    {
        Self {
            rows: std::array::from_fn(
                |q|
                    requires { q < 94 }
                    ensures { result ≡ window_at tables.entry.now q }
                { window_of(tables.correct[q], tables.error_per_alt[q]) },
            ),
        }
    }

    // Four neighbours in the window of a quality, from a place on.
    pub(crate) fn values(&self, qual: PhredScore, from: usize) -> [f64; 4]
        requires { from < 4 }
        ensures { result ≡ lanes (λ i. get_or (get_or self.now.rows (entry_of qual.0) []) (from + i) nan) }
    {
        let window = &self.rows[base_builder::entry(qual)];
        std::array::from_fn(|i| window[from + i])
    }
}
