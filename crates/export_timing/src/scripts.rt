// A script that is run many times, for timing: the tables are built once and borrowed, and no report is
// written.
ghost use Rattle.std.specs.Prelude.{◌≡◌, ◌&&◌, nat_le, is_some, unwrap_or, ◌+◌, ◌%◌, ◌^◌};
ghost use Rattle.export_scripts.specs.Script.{items, is_script};
ghost use Rattle.export_scripts.specs.declared.item.Item.TheVariants.{Question};
ghost use Rattle.export_timing.specs.Times.{amount_at, amounts, times_of};

use crate::amounts::{amount, repeated};
use base_builder::ConsensusBaseBuilder;
use export_scripts::{Item, Items, is_script};
use export_ways::{LentTables, step};
use gap_tables::UnanimousGapTables;
use phred::PhredScore;
use rate_tables::AdjustedProbabilityTables;
use tie_rules::TieRule;

// What a question adds: question 3 the call's amount, any other the long calculation's.
#[tactic(auto, unfolding(crate::specs::Times::amount_at))]
fn amount_at(kind: u8, builder: &ConsensusBaseBuilder, gaps: &UnanimousGapTables) -> u64
    ensures { result ≡ amount_at gaps.now (Question kind) builder.now }
{
    if kind == 3 {
        amount(builder.call_with(gaps))
    } else {
        amount(builder.call_full())
    }
}

// One run, added to a sum. A question does not touch the builder: a copy of it would cost as much as a
// call.
fn add_run(
    sum: u64,
    start: ConsensusBaseBuilder,
    script: &[u8],
    adjusted: &AdjustedProbabilityTables,
    gaps: &UnanimousGapTables,
) -> u64
    ensures { result ≡ (sum + amounts adjusted.now gaps.now (items script.now) start) % 2 ^ 64 }
{
    let mut builder = start;
    let mut total = sum;
    for item in Items(script) {
        if let Item::Question(kind) = item {
            total = total.wrapping_add(amount_at(kind, &builder, gaps));
        } else if let Ok(after) = step::<LentTables>(item, builder, adjusted) {
            builder = after;
        }
    }
    total
}

// All bases and qualities that the runs call, added up; none where rule or script is bad.
// kept: C's interface: the rule is a byte, as one that is neither 0 nor 1 is refused
#[tactic(auto, unfolding(crate::specs::Times::times_of))]
pub fn times(pre: PhredScore, post: PhredScore, rule: u8, script: &[u8], times: u32) -> Option<u64>
    ensures reply { unwrap_or result 0 ≡ times_of pre.0 post.0 rule script.now times }
    ensures some { is_some result ≡ (nat_le rule 1 && is_script 4 script.now) }
{
    if 1 < rule || !is_script(4, script) {
        return None;
    }
    let adjusted = AdjustedProbabilityTables::compute(post);
    let gaps = gap_tables::build_unanimous_gap_tables(pre);
    let start = ConsensusBaseBuilder::new(pre).with_tie_rule(TieRule::from(rule));
    Some(repeated(times, |sum| {
        add_run(sum, start, script, &adjusted, &gaps)
    }))
}
