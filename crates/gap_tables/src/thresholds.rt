// The least gap at which each level is reached, found by halving.
ghost use Rattle.std.specs.Prelude.{◌≡◌};
ghost use Rattle.gap_tables.specs.Thresholds.{reaches, halved, halvings, threshold_with};
ghost use Rattle.gap_tables.specs.Gaps.{unanimous_quality_from_gap};

use crate::gaps::unanimous_quality_from_gap;
use phred::LogProbability;

// The ends of a halving: the level is reached at the upper and not at the lower.
// kept: no plainer: nothing compares or prints it
#[derive(Clone, Copy)]
pub struct Ends {
    pub low: f64,
    pub high: f64,
}

// One halving of the gaps for a level at a pre-UMI logarithm.
#[tactic(auto, unfolding(crate::specs::Thresholds::halved, crate::specs::Thresholds::middle))]
fn halve(pre: LogProbability, level: u8, e: Ends) -> Ends
    ensures { result ≡ halved (reaches (unanimous_quality_from_gap pre.0) level) e }
{
    let middle = 0.5 * (e.low + e.high);
    if unanimous_quality_from_gap(middle, pre).0 >= level {
        return Ends { high: middle, ..e };
    }
    Ends { low: middle, ..e }
}

// The upper end after 64 halvings of 0 to 256.
#[tactic(auto, unfolding(crate::specs::Thresholds::halvings))]
fn bisect(pre: LogProbability, level: u8) -> f64
    ensures { result ≡ (halvings (reaches (unanimous_quality_from_gap pre.0) level) 64).high }
{
    let mut e = Ends {
        low: 0.0,
        high: 256.0,
    };
    for _ in 0..64u64 {
        e = halve(pre, level, e);
    }
    e.high
}

// The threshold of a level, where the qualities of gap 0 and of gap 256 are known.
#[tactic(auto, unfolding(crate::specs::Thresholds::threshold_with))]
pub(crate) fn threshold_with(pre: LogProbability, least: u8, most: u8, level: u8) -> f64
    ensures { result ≡ threshold_with (unanimous_quality_from_gap pre.0) least most level }
{
    if level <= least {
        return 0.0;
    }
    if level <= most {
        return bisect(pre, level);
    }
    1.0 / 0.0
}
