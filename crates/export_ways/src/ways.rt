// The calls of a builder, by each way.
ghost use Rattle.std.specs.Prelude.{◌≡◌};
ghost use Rattle.std.specs.Result.{result_unwrap_or};
ghost use Rattle.refusals.specs.Result.{judged};
ghost use Rattle.base_builder.specs.Builder.{with_tie_rule, reset_of, added, add_answer};
ghost use Rattle.base_builder.specs.Calls.{unanimous_of, call_of};

use base_builder::ConsensusBaseBuilder;
use gap_tables::UnanimousGapTables;
use lane_calls::Call;
use phred::PhredScore;
use rate_tables::AdjustedProbabilityTables;
use refusals::Refusal;
use tie_rules::TieRule;

// Each clause says what the definitions say, so that all ways give the same. What a way leaves out goes
// by value.
pub trait Way {
    fn add(
        builder: ConsensusBaseBuilder,
        base: u8,
        qual: PhredScore,
        tables: &AdjustedProbabilityTables,
    ) -> Result<ConsensusBaseBuilder, Refusal>
        ensures builder { result_unwrap_or result builder ≡ added tables.now.correct tables.now.error_per_alt base qual.0 builder }
        ensures answer { result ≡ judged (add_answer base builder) (added tables.now.correct tables.now.error_per_alt base qual.0 builder) };

    fn reset(builder: ConsensusBaseBuilder) -> ConsensusBaseBuilder
        ensures { result ≡ reset_of builder }
    {
        builder.reset()
    }

    fn set_tie_rule(builder: ConsensusBaseBuilder, rule: TieRule) -> ConsensusBaseBuilder
        ensures { result ≡ with_tie_rule rule builder }
    {
        builder.set_tie_rule(rule)
    }

    fn try_unanimous_fast_path(
        builder: &ConsensusBaseBuilder,
        tables: &UnanimousGapTables,
    ) -> Option<Call>
        ensures { result ≡ unanimous_of tables.now builder.now }
    {
        builder.try_unanimous_fast_path(*tables)
    }

    fn call(builder: &ConsensusBaseBuilder, tables: &UnanimousGapTables) -> Call
        ensures { result ≡ call_of tables.now builder.now }
    {
        builder.call(*tables)
    }
}

// Tables borrowed at each call.
pub struct LentTables;

impl Way for LentTables {
    fn add(
        builder: ConsensusBaseBuilder,
        base: u8,
        qual: PhredScore,
        tables: &AdjustedProbabilityTables,
    ) -> Result<ConsensusBaseBuilder, Refusal> {
        builder.add_with(base, qual, tables)
    }

    fn try_unanimous_fast_path(
        builder: &ConsensusBaseBuilder,
        tables: &UnanimousGapTables,
    ) -> Option<Call> {
        builder.try_unanimous_fast_path_with(tables)
    }

    fn call(builder: &ConsensusBaseBuilder, tables: &UnanimousGapTables) -> Call {
        builder.call_with(tables)
    }
}

// Tables and builder by value.
pub struct ByValue;

impl Way for ByValue {
    fn add(
        builder: ConsensusBaseBuilder,
        base: u8,
        qual: PhredScore,
        tables: &AdjustedProbabilityTables,
    ) -> Result<ConsensusBaseBuilder, Refusal> {
        builder.add(base, qual, *tables)
    }
}

// Tables by value, and the builder borrowed by &mut.
pub struct LentBuilder;

impl Way for LentBuilder {
    fn add(
        mut builder: ConsensusBaseBuilder,
        base: u8,
        qual: PhredScore,
        tables: &AdjustedProbabilityTables,
    ) -> Result<ConsensusBaseBuilder, Refusal> {
        lent_builder::add(&mut builder, base, qual, *tables)?;
        Ok(builder)
    }

    fn reset(mut builder: ConsensusBaseBuilder) -> ConsensusBaseBuilder {
        lent_builder::reset(&mut builder);
        builder
    }

    fn set_tie_rule(mut builder: ConsensusBaseBuilder, rule: TieRule) -> ConsensusBaseBuilder {
        lent_builder::set_tie_rule(&mut builder, rule);
        builder
    }
}
