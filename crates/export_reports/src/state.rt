// A builder of 80 given bytes: reaches what no history gives.
ghost use Rattle.std.specs.Prelude.{◌≡◌, ◌&&◌, eqb, length, is_some, unwrap_or};
ghost use Rattle.float.specs.Ops.{bits};
ghost use Rattle.lent_bytes.specs.Buffer.{length_written, written};
ghost use Rattle.lent_bytes.specs.Bytes.{number_at};
ghost use Rattle.export_reports.specs.Runs.{is_answered};
ghost use Rattle.export_reports.specs.State.{builder_of, builder_script_bytes};

use crate::runs::run;
use base_builder::ConsensusBaseBuilder;
use export_ways::LentTables;
use lent_bytes::{bytes_at, four_at};
use phred::PhredScore;
use tie_rules::TieRule;

// The f64 whose bit pattern is at a place, the low byte first.
fn number_at(state: &[u8], at: usize) -> f64
    ensures { result ≡ bits (number_at state.now 8 at) }
{
    float::from_pattern(u64::from_le_bytes(bytes_at(state, at)))
}

// The builder of the first 80 bytes; those that are missing are 0.
pub fn builder_of(pre: PhredScore, state: &[u8]) -> ConsensusBaseBuilder
    ensures { result ≡ builder_of pre.0 state.now }
{
    ConsensusBaseBuilder {
        likelihoods: std::array::from_fn(|i| number_at(state, 8 * i)),
        compensations: std::array::from_fn(|i| number_at(state, 32 + 8 * i)),
        observations: std::array::from_fn(|i| four_at(state, 64 + 4 * i)),
        tie_rule: TieRule::FgbioCompat,
        ln_error_pre_umi: phred::phred_to_ln_error_prob(pre),
    }
}

// A script run on a given builder.
// kept: C's interface: the rule is a byte, and the rates come apart
pub fn from_state(
    pre: PhredScore,
    post: PhredScore,
    rule: u8,
    state: &[u8],
    script: &[u8],
    out: &mut [u8],
) -> Option<usize>
    ensures reply { unwrap_or result 0 ≡ length_written (builder_script_bytes pre.0 post.0 rule state.now script.now) out.old }
    ensures some { is_some result ≡ (eqb (length state.now) 80 && is_answered rule script.now (builder_script_bytes pre.0 post.0 rule state.now script.now) out.old) }
    ensures lent { out.new ≡ written (builder_script_bytes pre.0 post.0 rule state.now script.now) out.old }
{
    if state.len() != 80 {
        return None;
    }
    run::<LentTables>(builder_of(pre, state), pre, post, rule, script, out)
}
