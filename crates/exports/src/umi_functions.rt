// The DNA test, and the consensus of UMI strings by the number of the function.
// kept: C's interface: bytes, slices and numbers alone, so a function is a number and the rates come apart
ghost use Rattle.std.specs.Prelude.{◌≡◌};
ghost use Rattle.lent_bytes.specs.Buffer.{length_written, written};
ghost use Rattle.umi_column.specs.Dna.{is_dna_base};
ghost use Rattle.simple_consensus.specs.Consensus.{caller_at};
ghost use Rattle.export_umi.specs.Codes.{bit};
ghost use Rattle.export_umi.specs.Numbered.{umi_reply, umi_buffer};
ghost use Rattle.export_umi.specs.Sent.{caller_reply, caller_buffer};
ghost use Rattle.export_umi_sets.specs.Answers.{umi_sets_bytes};

use crate::reply;
use phred::PhredScore;
use simple_consensus::SimpleConsensusCaller;

// 1 for A, C, G, T and N in either case, 0 for the other bytes.
#[unsafe(no_mangle)]
pub extern "C" fn consensus_is_dna_base(b: u8) -> u8
    ensures { result ≡ bit (is_dna_base b) }
{
    u8::from(SimpleConsensusCaller::is_dna_base(b))
}

// At the defaults.
#[unsafe(no_mangle)]
pub extern "C" fn consensus_umi(which: u8, set: &[u8], out: &mut [u8]) -> u64
    ensures reply { result ≡ umi_reply which set.now out.old }
    ensures lent { out.new ≡ umi_buffer which set.now out.old }
{
    export_umi::umi(which, set, out).unwrap_or(0)
}

// Of a new caller, with its builder afterwards.
#[unsafe(no_mangle)]
pub extern "C" fn consensus_umi_caller(
    pre: u8,
    post: u8,
    quality: u8,
    which: u8,
    set: &[u8],
    out: &mut [u8],
) -> u64
    ensures reply { result ≡ caller_reply which (caller_at pre post quality) set.now out.old }
    ensures lent { out.new ≡ caller_buffer which (caller_at pre post quality) set.now out.old }
{
    export_umi::umi_caller(
        PhredScore(pre),
        PhredScore(post),
        PhredScore(quality),
        which,
        set,
        out,
    )
    .unwrap_or(0)
}

// Of a new caller, set by set.
#[unsafe(no_mangle)]
pub extern "C" fn consensus_umi_sets(
    pre: u8,
    post: u8,
    quality: u8,
    which: u8,
    sets: &[u8],
    out: &mut [u8],
) -> u64
    ensures reply { result ≡ length_written (umi_sets_bytes pre post quality which sets.now) out.old }
    ensures lent { out.new ≡ written (umi_sets_bytes pre post quality which sets.now) out.old }
{
    reply(export_umi_sets::umi_sets(
        PhredScore(pre),
        PhredScore(post),
        PhredScore(quality),
        which,
        sets,
        out,
    ))
}
