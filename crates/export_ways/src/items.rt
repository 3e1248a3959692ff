// An item of a script, by any way.
ghost use Rattle.std.specs.Prelude.{◌≡◌};
ghost use Rattle.std.specs.Result.{result_unwrap_or};
ghost use Rattle.refusals.specs.Result.{judged};
ghost use Rattle.export_scripts.specs.Item.{stepped, answered};
ghost use Rattle.export_scripts.specs.Script.{passed};

use crate::ways::Way;
use base_builder::ConsensusBaseBuilder;
use export_scripts::{Item, Progress};
use rate_tables::AdjustedProbabilityTables;
use refusals::Refusal;

// The builder after an item. The tables are borrowed, as a script has many items.
#[tactic(auto, unfolding(export_scripts::specs::Item::stepped, export_scripts::specs::Item::answered, base_builder::specs::History::step))]
pub fn step<W: Way>(
    item: Item,
    builder: ConsensusBaseBuilder,
    tables: &AdjustedProbabilityTables,
) -> Result<ConsensusBaseBuilder, Refusal>
    ensures builder { result_unwrap_or result builder ≡ stepped tables.now item builder }
    ensures answer { result ≡ judged (answered item builder) (stepped tables.now item builder) }
{
    match item {
        Item::Add(base, qual) => W::add(builder, base, qual, tables),
        Item::Reset => Ok(W::reset(builder)),
        Item::SetTieRule(rule) => Ok(W::set_tie_rule(builder, rule)),
        Item::Question(_) => Ok(builder),
    }
}

// What an item does to a builder and the number of its refusals.
pub fn pass<W: Way>(item: Item, progress: Progress, tables: &AdjustedProbabilityTables) -> Progress
    ensures { result ≡ passed tables.now item progress }
{
    progress.after(step::<W>(item, progress.builder, tables))
}
