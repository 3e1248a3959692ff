// A script run from its first item to its last, and what it writes.
ghost use Rattle.std.specs.Prelude.{◌≡◌, is_some, unwrap_or};
ghost use Rattle.rate_tables.specs.Adjusted.{adjusted_tables};
ghost use Rattle.gap_tables.specs.Gaps.{gap_tables};
ghost use Rattle.lent_bytes.specs.Buffer.{length_written, written};
ghost use Rattle.lent_text.specs.Printed.{Printed};
ghost use Rattle.export_scripts.specs.Script.{items};
ghost use Rattle.export_reports.specs.Runs.{reports, script_bytes, is_answered, history_bytes};

use crate::report::put_report;
use base_builder::ConsensusBaseBuilder;
use export_scripts::{Item, Items, Progress, is_script, questions_in};
use export_ways::{LentTables, Way, pass};
use gap_tables::UnanimousGapTables;
use lent_text::Printer;
use phred::PhredScore;
use rate_tables::AdjustedProbabilityTables;
use tie_rules::TieRule;

// The reports of all items, one after another. The tables are borrowed: a copy at each item would cost
// more than the item. Ways that take them by value copy them, as that is what they are here to run. A
// question does not touch what the builder has been through: a copy of it would cost as much as an event.
// kept: no plainer: that the printer is at its start is asked by two loops and what lies between, no more
fn put_reports<W: Way>(
    p: &mut Printer,
    start: Progress,
    script: &[u8],
    adjusted: &AdjustedProbabilityTables,
    gaps: &UnanimousGapTables,
)
    requires { p.old.at ≡ 0 }
    ensures { Printed p.old p.new (reports adjusted.now gaps.now (items script.now) start) }
{
    let mut progress = start;
    for item in Items(script) {
        if let Item::Question(_) = item {
            put_report::<W>(p, &progress, gaps);
        } else {
            progress = pass::<W>(item, progress, adjusted);
        }
    }
}

// The same with the tables of two rates, which are built once for the script.
fn put_script<W: Way>(
    p: &mut Printer,
    pre: PhredScore,
    post: PhredScore,
    start: Progress,
    script: &[u8],
)
    requires { p.old.at ≡ 0 }
    ensures { Printed p.old p.new (reports (adjusted_tables post.0) (gap_tables pre.0) (items script.now) start) }
{
    let adjusted = AdjustedProbabilityTables::compute(post);
    let gaps = gap_tables::build_unanimous_gap_tables(pre);
    put_reports::<W>(p, start, script, &adjusted, &gaps);
}

// A script run on a builder, and how many bytes it writes: none where the rule or the script is bad, or the
// buffer can't hold all reports.
// kept: C's interface: the rule is a byte, as one that is neither 0 nor 1 is refused
pub(crate) fn run<W: Way>(
    builder: ConsensusBaseBuilder,
    pre: PhredScore,
    post: PhredScore,
    rule: u8,
    script: &[u8],
    out: &mut [u8],
) -> Option<usize>
    ensures reply { unwrap_or result 0 ≡ length_written (script_bytes pre.0 post.0 rule script.now builder) out.old }
    ensures some { is_some result ≡ is_answered rule script.now (script_bytes pre.0 post.0 rule script.now builder) out.old }
    ensures lent { out.new ≡ written (script_bytes pre.0 post.0 rule script.now builder) out.old }
{
    if 1 < rule || !is_script(3, script) {
        return None;
    }
    let n = questions_in(script);
    // The room is divided, as 91 * n may not fit 64 bits.
    if out.len() / 91 < n {
        return None;
    }
    let start = Progress {
        builder: builder.with_tie_rule(TieRule::from(rule)),
        refused: 0,
    };
    let mut p = Printer { out, at: 0 };
    put_script::<W>(&mut p, pre, post, start, script);
    Some(91 * n)
}

// A script run on a new builder of two rates, by any way: all write the same.
// kept: C's interface: the rule is a byte, and the rates come apart
#[tactic(auto, unfolding(crate::specs::Runs::history_bytes))]
pub fn history_by<W: Way>(
    pre: PhredScore,
    post: PhredScore,
    rule: u8,
    script: &[u8],
    out: &mut [u8],
) -> Option<usize>
    ensures reply { unwrap_or result 0 ≡ length_written (history_bytes pre.0 post.0 rule script.now) out.old }
    ensures some { is_some result ≡ is_answered rule script.now (history_bytes pre.0 post.0 rule script.now) out.old }
    ensures lent { out.new ≡ written (history_bytes pre.0 post.0 rule script.now) out.old }
{
    run::<W>(ConsensusBaseBuilder::new(pre), pre, post, rule, script, out)
}

// With the tables borrowed.
// kept: C's interface: the rule is a byte, and the rates come apart
pub fn history(
    pre: PhredScore,
    post: PhredScore,
    rule: u8,
    script: &[u8],
    out: &mut [u8],
) -> Option<usize>
    ensures reply { unwrap_or result 0 ≡ length_written (history_bytes pre.0 post.0 rule script.now) out.old }
    ensures some { is_some result ≡ is_answered rule script.now (history_bytes pre.0 post.0 rule script.now) out.old }
    ensures lent { out.new ≡ written (history_bytes pre.0 post.0 rule script.now) out.old }
{
    history_by::<LentTables>(pre, post, rule, script, out)
}
