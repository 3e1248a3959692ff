// The caller of a set whose strings have one length.
// kept: no plainer: what is read and the buffer that is written are two borrows, which a struct would only join
ghost use Rattle.std.specs.Prelude.{◌≡◌, ◌≤◌, IfOk};
ghost use Rattle.std.specs.Result.{result_unwrap_or};
ghost use Rattle.refusals.specs.Refusals.{number_in};
ghost use Rattle.refusals.specs.Result.{map_ok};
ghost use Rattle.umi_column.specs.Dna.{is_dna_base};
ghost use Rattle.umi_groups.specs.Found.{found_length, buffer_after};
ghost use Rattle.simple_consensus.specs.Consensus.{caller_at, default_caller};
ghost use Rattle.simple_consensus.specs.Answers.{call_consensus_in, consensus_umis_in, consensus_of_found, length_of_found, group_consensus_of, caller_after};

use crate::group::{GroupConsensus, alike_consensus};
use base_builder::ConsensusBaseBuilder;
use phred::PhredScore;
use refusals::Refusal;
use string_set::read_places;

// Keeps no tables: those of its rates are meant.
#[derive(Clone, Copy, Debug, PartialEq)]
pub struct SimpleConsensusCaller {
    pub builder: ConsensusBaseBuilder,
    pub error_rate_pre_labeling: PhredScore,
    pub error_rate_post_labeling: PhredScore,
    // The quality of each observation.
    pub q_error: PhredScore,
}

// The caller afterwards, and how long the string in the buffer is.
#[derive(Clone, Copy, Debug, PartialEq)]
pub struct Consensus {
    pub caller: SimpleConsensusCaller,
    pub length: usize,
}

impl SimpleConsensusCaller {
    pub const DEFAULT_ERROR_RATE_PRE: PhredScore = PhredScore(90);

    pub const DEFAULT_ERROR_RATE_POST: PhredScore = PhredScore(90);

    pub const DEFAULT_Q_ERROR: PhredScore = PhredScore(20);

    pub fn new(
        error_rate_pre_labeling: PhredScore,
        error_rate_post_labeling: PhredScore,
        q_error: PhredScore,
    ) -> Self
        ensures { result ≡ caller_at error_rate_pre_labeling.0 error_rate_post_labeling.0 q_error.0 }
    {
        Self {
            builder: ConsensusBaseBuilder::new(error_rate_pre_labeling),
            error_rate_pre_labeling,
            error_rate_post_labeling,
            q_error,
        }
    }

    pub fn default() -> Self
        ensures { result ≡ default_caller }
    {
        Self::new(
            Self::DEFAULT_ERROR_RATE_PRE,
            Self::DEFAULT_ERROR_RATE_POST,
            Self::DEFAULT_Q_ERROR,
        )
    }

    // A, C, G, T and N, in either case.
    pub fn is_dna_base(b: u8) -> bool
        ensures { result ≡ is_dna_base b }
    {
        umi_column::is_dna_base(b)
    }

    // The consensus of a set, into the buffer. A refusal leaves it. Inlined, as each layer would copy the
    // caller in its answer.
    #[inline(always)]
    pub fn call_consensus(self, set: &[u8], out: &mut [u8]) -> Result<Consensus, Refusal>
        ensures answer { result ≡ map_ok (consensus_of_found self) (call_consensus_in self set.now out.old) }
        ensures caller { result_unwrap_or (map_ok (λ (given : Consensus). given.caller) result) self ≡ caller_after self (call_consensus_in self set.now out.old) }
        ensures lent { out.new ≡ buffer_after out.old (call_consensus_in self set.now out.old) }
        ensures short { IfOk result (λ given. given.length ≤ 255) }
        ensures number { number_in result ≡ number_in (call_consensus_in self set.now out.old) }
    {
        let given = call_set(self, set, out)?;
        Ok(Consensus {
            caller: given.caller,
            length: given.length,
        })
    }
}

// The same with the flag.
#[inline(always)]
fn call_set(
    caller: SimpleConsensusCaller,
    set: &[u8],
    out: &mut [u8],
) -> Result<GroupConsensus, Refusal>
    ensures group { result ≡ map_ok (group_consensus_of caller) (call_consensus_in caller set.now out.old) }
    ensures lent { out.new ≡ buffer_after out.old (call_consensus_in caller set.now out.old) }
    ensures few { found_length (call_consensus_in caller set.now out.old) ≤ 255 }
{
    // kept: rule of the project: no heap, and `read` of a set is slower
    let mut places = [0; 255];
    let count = read_places(set, &mut places)?;
    if count == 0 {
        return Err(Refusal::NoStrings);
    }
    alike_consensus(caller, set, &places[..count], out)
}

// How long the consensus of a set at the defaults is, into the buffer. Of no strings it is the empty one.
pub fn consensus_umis(set: &[u8], out: &mut [u8]) -> Result<usize, Refusal>
    ensures answer { result ≡ map_ok length_of_found (consensus_umis_in set.now out.old) }
    ensures lent { out.new ≡ buffer_after out.old (consensus_umis_in set.now out.old) }
    ensures short { IfOk result (λ length. length ≤ 255) }
    ensures number { number_in result ≡ number_in (consensus_umis_in set.now out.old) }
{
    // kept: rule of the project: no heap, and `read` of a set is slower
    let mut places = [0; 255];
    let count = read_places(set, &mut places)?;
    let caller = SimpleConsensusCaller::default();
    let given = alike_consensus(caller, set, &places[..count], out)?;
    Ok(given.length)
}
