// What a builder of 80 given bytes has counted, by its three public functions that say so: what a driver
// in C or Rust compares.
#![tactic(auto)]

ghost use Rattle.std.specs.Prelude.{◌≡◌, ◌≤◌, ◌&&◌, eqb, leb, length, is_some, unwrap_or};
ghost use Rattle.words.specs.Lists.{listed};
ghost use Rattle.base_builder.specs.Builder.{observations_for_base};
ghost use Rattle.lent_bytes.specs.Buffer.{length_written, written};
ghost use Rattle.lent_bytes.specs.Bytes.{joined, four_bytes};
ghost use Rattle.lent_text.specs.Printed.{Printed, last_place};
ghost use Rattle.export_observations.specs.Observations.{observation_counts, observation_count_bytes};

use base_builder::ConsensusBaseBuilder;
use export_reports::{builder_of, put_counts};
use lent_text::Printer;
use phred::PhredScore;

// How often each of the 256 bytes was observed. Inlined, so that the printer stays in registers.
#[inline(always)]
fn put_bases(p: &mut Printer, builder: ConsensusBaseBuilder)
    requires { p.old.at ≤ last_place }
    ensures { Printed p.old p.new (joined four_bytes (listed (observations_for_base builder) 0 256)) }
{
    for base in 0..256_u16 {
        p.four(builder.observations_for_base(base as u8));
    }
}

#[inline(always)]
fn put_all(p: &mut Printer, builder: ConsensusBaseBuilder)
    ensures { Printed p.old p.new (joined four_bytes (observation_counts builder)) }
{
    p.four(builder.contributions());
    put_bases(p, builder);
    let all = builder.all_observations();
    put_counts(p, &all);
}

// 1,044 bytes, and how many they are; or none, and nothing written, where the state is not 80 bytes or the
// buffer is too short.
pub fn observations(state: &[u8], out: &mut [u8]) -> Option<usize>
    ensures reply { unwrap_or result 0 ≡ length_written (observation_count_bytes state.now) out.old }
    ensures some { is_some result ≡ (eqb (length state.now) 80 && leb 1044 (length out.old)) }
    ensures lent { out.new ≡ written (observation_count_bytes state.now) out.old }
{
    if state.len() != 80 || out.len() < 1044 {
        return None;
    }
    let mut p = Printer { out, at: 0 };
    // No count depends on the rate.
    put_all(&mut p, builder_of(PhredScore(0), state));
    Some(1044)
}
