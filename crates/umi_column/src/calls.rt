// The builder after a column, and the byte that the column gives.
ghost use Rattle.std.specs.Prelude.{◌≡◌};
ghost use Rattle.umi_column.specs.Calls.{added_all, named_byte};
ghost use Rattle.umi_column.specs.Sums.{byte_by};

use crate::dna::is_dna_base;
use base_builder::ConsensusBaseBuilder;
use lane_sums::LaneSums;
use rate_tables::AdjustedEntry;
use tie_rules::{TieRule, base_of, unique_max_index_with};

// Each byte of the column added to a builder, with the two entries of the tables at the caller's
// quality. Bytes that are no base are ignored.
pub fn add_column(
    builder: ConsensusBaseBuilder,
    entry: AdjustedEntry,
    column: &[u8],
) -> ConsensusBaseBuilder
    ensures { result ≡ added_all entry.correct entry.error_per_alt column.now builder }
{
    let mut after = builder;
    for byte in column {
        if let Ok(next) = after.add_entry(*byte, entry) {
            after = next;
        }
    }
    after
}

// The byte of a column whose first byte is this one, by its lanes. The base of a call after a reset is
// that of the rule's lane, so that neither thresholds nor exponentials are needed.
fn named(likelihoods: [f64; 4], rule: TieRule, first: u8) -> u8
    ensures { result ≡ byte_by likelihoods rule first }
{
    if is_dna_base(first) {
        base_of(unique_max_index_with(likelihoods, rule))
    } else {
        first
    }
}

// The same by the builder after the column.
pub fn consensus_byte(after: ConsensusBaseBuilder, first: u8) -> u8
    ensures { result ≡ named_byte after first }
{
    named(after.likelihoods, after.tie_rule, first)
}

// And by the sums of its lanes alone.
pub fn sums_byte(sums: LaneSums, rule: TieRule, first: u8) -> u8
    ensures { result ≡ byte_by sums.likelihoods rule first }
{
    named(sums.likelihoods, rule, first)
}
