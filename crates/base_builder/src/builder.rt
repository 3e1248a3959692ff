// The builder of one position: a running sum of logarithms for each base, and how often each base was
// observed. It goes in by value and comes back.
ghost use Rattle.std.specs.Prelude.{◌≡◌};
ghost use Rattle.std.specs.Result.{result_unwrap_or};
ghost use Rattle.refusals.specs.Result.{judged};
ghost use Rattle.refusals.specs.Refusals.{number_in};
ghost use Rattle.tie_rules.specs.Lanes.{lane};
ghost use Rattle.base_builder.specs.Builder.{total as total_of, cleared as cleared_of, new_at, with_tie_rule, reset_of, observed_by, entry_of, added_by, added, add_answer, refusal_of, contributions_of, observations_for_base};

use lane_sums::{LaneSums, count, moved_lanes, values};
use phred::{LogProbability, PhredScore};
use rate_tables::{AdjustedEntry, AdjustedProbabilityTables};
use refusals::Refusal;
use tie_rules::{TieRule, lane_of};

#[derive(Clone, Copy, Debug, PartialEq)]
pub struct ConsensusBaseBuilder {
    // The logarithm of the likelihood of A, C, G and T, and its compensation.
    pub likelihoods: [f64; 4],
    pub compensations: [f64; 4],
    // How often each was observed.
    pub observations: [u32; 4],
    pub tie_rule: TieRule,
    pub ln_error_pre_umi: LogProbability,
}

// The number of observations that fill a builder.
pub const FULL_COUNT: u64 = 4294967295;

impl ConsensusBaseBuilder {
    // A builder under the default rule. The post-UMI rate is in the tables alone.
    #[tactic(auto, unfolding(crate::specs::Builder::new_at))]
    pub fn new(error_rate_pre_umi: PhredScore) -> Self
        ensures { result ≡ new_at error_rate_pre_umi.0 }
    {
        Self::cleared(
            TieRule::FgbioCompat,
            phred::phred_to_ln_error_prob(error_rate_pre_umi),
        )
    }

    // One that has seen nothing.
    #[tactic(auto, unfolding(crate::specs::Builder::cleared))]
    fn cleared(tie_rule: TieRule, ln_error_pre_umi: LogProbability) -> Self
        ensures { result ≡ cleared_of tie_rule ln_error_pre_umi }
    {
        Self {
            likelihoods: [0.0; 4],
            compensations: [0.0; 4],
            observations: [0; 4],
            tie_rule,
            ln_error_pre_umi,
        }
    }

    #[tactic(auto, unfolding(crate::specs::Builder::with_tie_rule))]
    pub fn with_tie_rule(self, rule: TieRule) -> Self
        ensures { result ≡ with_tie_rule rule self }
    {
        Self {
            tie_rule: rule,
            ..self
        }
    }

    // The same: by value the source's two functions are one.
    pub fn set_tie_rule(self, rule: TieRule) -> Self
        ensures { result ≡ with_tie_rule rule self }
    {
        self.with_tie_rule(rule)
    }

    // The builder for the next position. The rule stays.
    #[tactic(auto, unfolding(crate::specs::Builder::reset_of))]
    pub fn reset(self) -> Self
        ensures { result ≡ reset_of self }
    {
        Self::cleared(self.tie_rule, self.ln_error_pre_umi)
    }

    // The same builder, field by field. A copy of the whole would take the bytes between its fields
    // along, and a loop over observations would wait for them at each turn.
    // kept: slower: 2.9 ns -> 12.7 ns a step of one base by `add_with`, best of 150 runs in turns
    #[tactic(auto, unfolding(crate::specs::Builder::with_tie_rule))]
    fn kept(self) -> Self
        ensures { result ≡ self }
    {
        self.with_tie_rule(self.tie_rule)
    }

    // The builder after one observation: the caller's is as it was where this is refused. The tables
    // are copied at each call: a loop takes `add_with`.
    // kept: rule of the project: the source's own methods take the tables by value
    pub fn add(
        self,
        base: u8,
        qual: PhredScore,
        tables: AdjustedProbabilityTables,
    ) -> Result<Self, Refusal>
        ensures builder { result_unwrap_or result self ≡ added tables.correct tables.error_per_alt base qual.0 self }
        ensures answer { result ≡ judged (add_answer base self) (added tables.correct tables.error_per_alt base qual.0 self) }
        ensures number { number_in result ≡ refusal_of base self }
    {
        self.add_with(base, qual, &tables)
    }

    // The same with the tables borrowed. A loop takes the builder out by `if let` or `match`:
    // `unwrap_or` copies the one before it too.
    #[tactic(auto, unfolding(crate::specs::Builder::added))]
    pub fn add_with(
        self,
        base: u8,
        qual: PhredScore,
        tables: &AdjustedProbabilityTables,
    ) -> Result<Self, Refusal>
        ensures builder { result_unwrap_or result self ≡ added tables.now.correct tables.now.error_per_alt base qual.0 self }
        ensures answer { result ≡ judged (add_answer base self) (added tables.now.correct tables.now.error_per_alt base qual.0 self) }
        ensures number { number_in result ≡ refusal_of base self }
    {
        self.add_entry(base, tables.entry(qual))
    }

    // The same with the two entries of the tables.
    #[tactic(auto, unfolding(crate::specs::Builder::added_by, crate::specs::Builder::add_answer, crate::specs::Builder::refusal_of, crate::specs::Builder::is_full, crate::specs::Builder::observed))]
    pub fn add_entry(self, base: u8, entry: AdjustedEntry) -> Result<Self, Refusal>
        ensures builder { result_unwrap_or result self ≡ added_by entry.correct entry.error_per_alt base self }
        ensures answer { result ≡ judged (add_answer base self) (added_by entry.correct entry.error_per_alt base self) }
        ensures number { number_in result ≡ refusal_of base self }
    {
        let Some(k) = lane_of(base) else {
            return Ok(self.kept());
        };
        if FULL_COUNT <= total(self.observations) {
            return Err(Refusal::FullBuilder);
        }
        Ok(self.observed(values(entry.correct, entry.error_per_alt, k), k))
    }

    // The builder after lane k was observed: each lane moved by its value, and lane k counted.
    pub fn observed(self, values: [f64; 4], k: usize) -> Self
        ensures { result ≡ observed_by (lane values) k self }
    {
        let Self {
            likelihoods,
            compensations,
            observations,
            ..
        } = self;
        let sums = LaneSums {
            likelihoods,
            compensations,
        };
        let LaneSums {
            likelihoods,
            compensations,
        } = moved_lanes(sums, values);
        Self {
            likelihoods,
            compensations,
            observations: std::array::from_fn(|i| count(observations[i], k, i)),
            ..self
        }
    }

    // How many bases contributed.
    // kept: no plainer: a cast must fit, so the count's low 32 bits are taken before it
    #[tactic(auto, unfolding(crate::specs::Builder::contributions_of))]
    pub fn contributions(self) -> u32
        ensures { result ≡ contributions_of self }
    {
        (total(self.observations) % 4294967296) as u32
    }

    // How often a base was observed: 0 for a byte that is none.
    #[tactic(auto, unfolding(crate::specs::Builder::observations_for_base))]
    pub fn observations_for_base(self, base: u8) -> u32
        ensures { result ≡ observations_for_base self base }
    {
        lane_of(base).map_or(0, |k| self.observations[k])
    }

    pub fn all_observations(self) -> [u32; 4]
        ensures { result ≡ self.observations }
    {
        self.observations
    }
}

// All counts together.
// kept: the proof did not close: by `iter().sum()` the goal that each sum fits u64 stayed open
#[tactic(auto, unfolding(crate::specs::Builder::total))]
pub fn total(observations: [u32; 4]) -> u64
    ensures { result ≡ total_of observations }
{
    let [a, c, g, t] = observations;
    u64::from(a) + u64::from(c) + u64::from(g) + u64::from(t)
}

// Qualities above 93 use entry 93.
pub fn entry(qual: PhredScore) -> usize
    ensures { result ≡ entry_of qual.0 }
{
    usize::from(qual.0.min(93))
}
