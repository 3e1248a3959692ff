// The call of a position: a shortcut where one replies, and else the long calculation.
ghost use Rattle.std.specs.Prelude.{◌≡◌};
ghost use Rattle.base_builder.specs.Calls.{position_of, unanimous_of, multibase_of, call_full_of, call_of};

use crate::builder::ConsensusBaseBuilder;
use gap_tables::UnanimousGapTables;
use lane_calls::{Call, Position};

impl ConsensusBaseBuilder {
    // What a call takes beside the counts.
    pub fn position(&self) -> Position
        ensures { result ≡ position_of self.now }
    {
        Position {
            likelihoods: self.likelihoods,
            tie_rule: self.tie_rule,
            ln_error_pre_umi: self.ln_error_pre_umi,
        }
    }

    // The shortcut where one base alone was observed. The tables are copied: a loop takes the form
    // that borrows them.
    // kept: rule of the project: the source's own methods take the tables by value
    pub fn try_unanimous_fast_path(self, tables: UnanimousGapTables) -> Option<Call>
        ensures { result ≡ unanimous_of tables self }
    {
        self.try_unanimous_fast_path_with(&tables)
    }

    // The same with the tables borrowed.
    #[tactic(auto, unfolding(crate::specs::Calls::unanimous_of))]
    pub fn try_unanimous_fast_path_with(&self, tables: &UnanimousGapTables) -> Option<Call>
        ensures { result ≡ unanimous_of tables.now self.now }
    {
        unanimous_shortcut::try_unanimous_fast_path(
            self.likelihoods,
            self.observations,
            self.tie_rule,
            tables,
        )
    }

    // The shortcut where two or more bases were observed.
    #[tactic(auto, unfolding(crate::specs::Calls::multibase_of))]
    pub fn try_multibase_fast_path(self) -> Option<Call>
        ensures { result ≡ multibase_of self }
    {
        self.position().try_multibase_fast_path()
    }

    // The long calculation, which asks neither.
    #[tactic(auto, unfolding(crate::specs::Calls::call_full_of))]
    pub fn call_full(self) -> Call
        ensures { result ≡ call_full_of self }
    {
        self.position().call_full()
    }

    // The base and its quality. The tables are copied: a loop takes `call_with`.
    // kept: rule of the project: the source's own methods take the tables by value
    pub fn call(self, tables: UnanimousGapTables) -> Call
        ensures { result ≡ call_of tables self }
    {
        self.call_with(&tables)
    }

    // The same with the tables borrowed. What the first shortcut defers goes the way of the others.
    #[tactic(auto, unfolding(crate::specs::Calls::call_of, crate::specs::Calls::long_way, crate::specs::Calls::multibase_of, crate::specs::Calls::call_full_of))]
    pub fn call_with(&self, tables: &UnanimousGapTables) -> Call
        ensures { result ≡ call_of tables.now self.now }
    {
        if self.contributions() == 0 {
            return Call::none();
        }
        self.try_unanimous_fast_path_with(tables)
            .unwrap_or_else(|| self.position().call_lanes())
    }
}
