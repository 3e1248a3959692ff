// A script of a builder's calls: the reports that it asks for, or how long it takes; and what a builder
// has counted.
// kept: C's interface: bytes, slices and numbers alone, so a rule is a byte and the rates come apart
ghost use Rattle.std.specs.Prelude.{◌≡◌};
ghost use Rattle.lent_bytes.specs.Buffer.{length_written, written};
ghost use Rattle.export_reports.specs.Runs.{history_bytes};
ghost use Rattle.export_reports.specs.State.{builder_script_bytes};
ghost use Rattle.export_timing.specs.Times.{times_of};
ghost use Rattle.export_observations.specs.Observations.{observation_count_bytes};

use crate::reply;
use export_ways::{ByValue, LentBuilder};
use phred::PhredScore;

// On a new builder of two rates.
#[unsafe(no_mangle)]
pub extern "C" fn consensus_history(
    pre: u8,
    post: u8,
    rule: u8,
    script: &[u8],
    out: &mut [u8],
) -> u64
    ensures reply { result ≡ length_written (history_bytes pre post rule script.now) out.old }
    ensures lent { out.new ≡ written (history_bytes pre post rule script.now) out.old }
{
    reply(export_reports::history(PhredScore(pre), PhredScore(post), rule, script, out))
}

// The same by the functions that take tables by value.
#[unsafe(no_mangle)]
pub extern "C" fn consensus_history_by_value(
    pre: u8,
    post: u8,
    rule: u8,
    script: &[u8],
    out: &mut [u8],
) -> u64
    ensures reply { result ≡ length_written (history_bytes pre post rule script.now) out.old }
    ensures lent { out.new ≡ written (history_bytes pre post rule script.now) out.old }
{
    reply(export_reports::history_by::<ByValue>(
        PhredScore(pre),
        PhredScore(post),
        rule,
        script,
        out,
    ))
}

// The same by those that are borrowed the builder by &mut.
#[unsafe(no_mangle)]
pub extern "C" fn consensus_history_lent(
    pre: u8,
    post: u8,
    rule: u8,
    script: &[u8],
    out: &mut [u8],
) -> u64
    ensures reply { result ≡ length_written (history_bytes pre post rule script.now) out.old }
    ensures lent { out.new ≡ written (history_bytes pre post rule script.now) out.old }
{
    reply(export_reports::history_by::<LentBuilder>(
        PhredScore(pre),
        PhredScore(post),
        rule,
        script,
        out,
    ))
}

// On a builder of 80 given bytes.
#[unsafe(no_mangle)]
pub extern "C" fn consensus_builder(
    pre: u8,
    post: u8,
    rule: u8,
    state: &[u8],
    script: &[u8],
    out: &mut [u8],
) -> u64
    ensures reply { result ≡ length_written (builder_script_bytes pre post rule state.now script.now) out.old }
    ensures lent { out.new ≡ written (builder_script_bytes pre post rule state.now script.now) out.old }
{
    reply(export_reports::from_state(PhredScore(pre), PhredScore(post), rule, state, script, out))
}

// For timing: a number of runs, each on a new builder.
#[unsafe(no_mangle)]
pub extern "C" fn consensus_history_times(
    pre: u8,
    post: u8,
    rule: u8,
    script: &[u8],
    times: u32,
) -> u64
    ensures { result ≡ times_of pre post rule script.now times }
{
    export_timing::times(PhredScore(pre), PhredScore(post), rule, script, times).unwrap_or(0)
}

// The counts of a builder of 80 given bytes, by the functions that say them.
#[unsafe(no_mangle)]
pub extern "C" fn consensus_observations(state: &[u8], out: &mut [u8]) -> u64
    ensures reply { result ≡ length_written (observation_count_bytes state.now) out.old }
    ensures lent { out.new ≡ written (observation_count_bytes state.now) out.old }
{
    reply(export_observations::observations(state, out))
}
