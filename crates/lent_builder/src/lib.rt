// The builder borrowed by &mut: three thin functions over the by-value ones of base_builder.
// kept: rule of the project: the three stand by value and, thin over those, on a borrowed builder
#![tactic(auto)]

ghost use Rattle.std.specs.Prelude.{◌≡◌};
ghost use Rattle.refusals.specs.Refusals.{number_in};
ghost use Rattle.base_builder.specs.Builder.{with_tie_rule, reset_of, added, add_answer, refusal_of};

use base_builder::ConsensusBaseBuilder;
use phred::PhredScore;
use rate_tables::AdjustedProbabilityTables;
use refusals::Refusal;
use tie_rules::TieRule;

// One observation. The builder stays as it is where it refuses.
pub fn add(
    builder: &mut ConsensusBaseBuilder,
    base: u8,
    qual: PhredScore,
    tables: AdjustedProbabilityTables,
) -> Result<(), Refusal>
    ensures builder { builder.new ≡ added tables.correct tables.error_per_alt base qual.0 builder.old }
    ensures answer { result ≡ add_answer base builder.old }
    ensures number { number_in result ≡ refusal_of base builder.old }
{
    *builder = (*builder).add(base, qual, tables)?;
    Ok(())
}

// The builder for the next position. The rule stays.
pub fn reset(builder: &mut ConsensusBaseBuilder)
    ensures { builder.new ≡ reset_of builder.old }
{
    *builder = (*builder).reset();
}

// The builder under another rule.
pub fn set_tie_rule(builder: &mut ConsensusBaseBuilder, rule: TieRule)
    ensures { builder.new ≡ with_tie_rule rule builder.old }
{
    *builder = (*builder).set_tie_rule(rule);
}
