// Observations, one after another. The loop does not branch on the lane, and has no index into the
// builder that is not a constant: so lanes, compensations and counts stay in registers.
ghost use Rattle.std.specs.Prelude.{◌≡◌, ◌-◌};
ghost use Rattle.base_builder.specs.Builder.{total as total_of, full_count};
ghost use Rattle.observation_windows.specs.Windows.{all_added};

use crate::table::Windows;
use base_builder::{ConsensusBaseBuilder, FULL_COUNT, total};
use phred::PhredScore;
use tie_rules::{is_base, lanes_after};

// How many bases more can be counted.
fn room(observations: [u32; 4]) -> u64
    ensures { result ≡ full_count - total_of observations }
{
    FULL_COUNT.saturating_sub(total(observations))
}

// All observations, base and quality in turn; a byte left over is none.
pub fn add_observations(
    builder: ConsensusBaseBuilder,
    observations: &[u8],
    windows: &Windows,
) -> ConsensusBaseBuilder
    ensures { result ≡ all_added windows.now.rows builder observations.now }
{
    let mut left = room(builder.observations);
    let mut after = builder;
    for pair in observations.chunks_exact(2) {
        let base = pair[0];
        if is_base(base) {
            // A full builder takes no base more.
            if left == 0 {
                return after;
            }
            let start = lanes_after(base);
            let k = 3 - start;
            after = after.observed(windows.values(PhredScore(pair[1]), start), k);
            left -= 1;
        }
    }
    after
}
