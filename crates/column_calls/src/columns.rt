// What is called of a column of a file.
ghost use Rattle.std.specs.Prelude.{◌≡◌};
ghost use Rattle.column_file.specs.Places.{observations_in};
ghost use Rattle.column_calls.specs.Start.{start_of};
ghost use Rattle.column_calls.specs.Tables.{column_call_with};

use base_builder::ConsensusBaseBuilder;
use column_file::Settings;
use gap_tables::{UnanimousGapTables, build_unanimous_gap_tables};
use lane_calls::Call;
use observation_windows::{Windows, add_observations};
use rate_tables::AdjustedProbabilityTables;

// A column's call, and how often A, C, G and T were observed.
#[derive(Clone, Copy, Debug, PartialEq, Eq)]
pub struct ColumnCall {
    pub call: Call,
    pub counts: [u32; 4],
}

// What columns are called with, built once and borrowed.
// kept: no plainer: nothing compares or prints it
#[derive(Clone, Copy)]
pub struct ColumnCaller {
    // The builder that each column starts from.
    pub start: ConsensusBaseBuilder,
    pub windows: Windows,
    pub gaps: UnanimousGapTables,
}

// A new builder at a file's settings.
pub fn start(settings: Settings) -> ConsensusBaseBuilder
    ensures { result ≡ start_of settings }
{
    ConsensusBaseBuilder::new(settings.error_rate_pre_umi).with_tie_rule(settings.tie_rule)
}

// The call of a column from its bytes, base and quality in turn, by any builder, windows and gap tables.
pub fn call_column(
    column: &[u8],
    start: ConsensusBaseBuilder,
    windows: &Windows,
    gaps: &UnanimousGapTables,
) -> ColumnCall
    ensures { result ≡ column_call_with windows.now.rows start gaps.now (observations_in column.now) }
{
    // Field by field: a copy of the whole would take the bytes between its fields along, and wait for them.
    let after = add_observations(start, column, windows);
    let builder = after.with_tie_rule(after.tie_rule);
    ColumnCall {
        call: builder.call_with(gaps),
        counts: builder.observations,
    }
}

impl ColumnCaller {
    ghost use Rattle.column_calls.specs.Columns.{called_column};
    ghost use Rattle.column_calls.specs.Callers.{called_by};

    // That of a file's settings. Inlined, so that the tables are not copied from one frame to the next.
    #[inline(always)]
    pub fn new(settings: Settings) -> Self
        ensures { called_by result ≡ called_column settings }
    {
        let tables = AdjustedProbabilityTables::compute(settings.error_rate_post_umi);
        Self {
            start: start(settings),
            windows: Windows::of(&tables),
            gaps: build_unanimous_gap_tables(settings.error_rate_pre_umi),
        }
    }

    // The call of a column by these.
    #[tactic(auto, unfolding(crate::specs::Callers::called_by))]
    pub fn call(&self, column: &[u8]) -> ColumnCall
        ensures { result ≡ called_by self.now (observations_in column.now) }
    {
        call_column(column, self.start, &self.windows, &self.gaps)
    }
}
