// The quality of a unanimous position by the gap between its base and the others, and the tables that
// a pre-UMI rate has of it.
ghost use Rattle.std.specs.Prelude.{◌≡◌, ◌≤◌};
ghost use Rattle.rate_tables.specs.Tables.{levels};
ghost use Rattle.gap_tables.specs.Thresholds.{threshold_with};
ghost use Rattle.gap_tables.specs.Gaps.{unanimous_quality_from_gap, threshold_at, consensus_error, cerr_from, gap_tables};

use crate::thresholds::threshold_with;
use phred::{LogProbability, PhredScore};

// The gap formula.
#[tactic(auto, unfolding(crate::specs::Gaps::unanimous_quality_from_gap))]
pub fn unanimous_quality_from_gap(gap: f64, ln_error_pre_umi: LogProbability) -> PhredScore
    ensures { result.0 ≡ unanimous_quality_from_gap ln_error_pre_umi.0 gap }
{
    let lanes = [0.0, -gap, -gap, -gap];
    let ln_sum = phred::ln_sum_exp_array(&lanes);
    let ln_posterior = phred::ln_normalize(LogProbability(0.0), ln_sum);
    let ln_consensus_error = phred::ln_not(ln_posterior);
    phred::ln_prob_to_phred(phred::ln_error_prob_two_trials(ln_error_pre_umi, ln_consensus_error))
}

// The least gap at which each level is reached. Gap 0 and gap 256 are evaluated once for all levels.
pub fn build_unanimous_gap_thresholds(error_rate_pre_umi: PhredScore) -> [f64; 94]
    ensures { result ≡ levels (threshold_at error_rate_pre_umi.0) }
{
    let pre = phred::phred_to_ln_error_prob(error_rate_pre_umi);
    let least = unanimous_quality_from_gap(0.0, pre).0;
    let most = unanimous_quality_from_gap(256.0, pre).0;
    std::array::from_fn(|level| threshold_with(pre, least, most, level as u8))
}

// The error of a unanimous position by its gap.
#[tactic(auto, unfolding(crate::specs::Gaps::consensus_error))]
pub fn consensus_error(gap: f64) -> f64
    ensures { result ≡ consensus_error gap }
{
    let e = 3.0 * elementary::exp(-gap);
    e / (1.0 + e)
}

#[derive(Clone, Copy, Debug, PartialEq)]
pub struct UnanimousGapTables {
    // The least gap at which each level is reached.
    pub thresholds: [f64; 94],
    // The least error between the thresholds of a level and of the next.
    pub cerr_min: [f64; 94],
    // The highest quality at this rate.
    pub cap: usize,
}

pub fn build_unanimous_gap_tables(error_rate_pre_umi: PhredScore) -> UnanimousGapTables
    ensures { result ≡ gap_tables error_rate_pre_umi.0 }
{
    let thresholds = build_unanimous_gap_thresholds(error_rate_pre_umi);
    let pre = phred::phred_to_ln_error_prob(error_rate_pre_umi);
    let cap = usize::from(phred::ln_prob_to_phred(pre).0);
    let cerr_min = std::array::from_fn(|q| cerr_at(&thresholds, cap, q));
    UnanimousGapTables {
        thresholds,
        cerr_min,
        cap,
    }
}

#[tactic(auto, unfolding(crate::specs::Gaps::cerr_from))]
fn cerr_at(thresholds: &[f64; 94], cap: usize, q: usize) -> f64
    requires { cap ≤ 93 }
    ensures { result ≡ cerr_from thresholds.now cap q }
{
    if q < cap {
        consensus_error(thresholds[q + 1])
    } else {
        0.0
    }
}
