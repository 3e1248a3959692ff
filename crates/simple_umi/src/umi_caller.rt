// The wrapper, which refuses less: strings of unequal lengths give the first, and the empty set an empty
// string.
// kept: no plainer: what is read and the buffer that is written are two borrows, which a struct would only join
ghost use Rattle.std.specs.Prelude.{◌≡◌, ◌≤◌, length, IfOk};
ghost use Rattle.std.specs.Result.{result_unwrap_or};
ghost use Rattle.refusals.specs.Refusals.{number_in};
ghost use Rattle.refusals.specs.Result.{and_then, map_ok};
ghost use Rattle.string_set.specs.StringSet.{read_set};
ghost use Rattle.umi_groups.specs.Found.{found_length, buffer_after};
ghost use Rattle.simple_consensus.specs.Consensus.{default_caller, consensus_of};
ghost use Rattle.simple_consensus.specs.Answers.{group_consensus_of, caller_after};
ghost use Rattle.simple_umi.specs.Answers.{consensus_in, duplex_in, flagged_consensus_of, duplex_consensus_of, pair_found};

use crate::duplex::both_strands;
use refusals::Refusal;
use simple_consensus::{GroupConsensus, SimpleConsensusCaller, group_consensus};
use string_set::read_places;
use umi_groups::Strings;

#[derive(Clone, Copy, Debug, PartialEq)]
pub struct SimpleUmiConsensusCaller {
    pub caller: SimpleConsensusCaller,
}

// The caller afterwards, how long the string in the buffer is, and whether a string differs from it.
#[derive(Clone, Copy, Debug, PartialEq)]
pub struct FlaggedConsensus {
    pub caller: SimpleUmiConsensusCaller,
    pub length: usize,
    pub had_errors: bool,
}

// The same, and whether a string of /A and of /B differs from its strand's consensus.
#[derive(Clone, Copy, Debug, PartialEq)]
pub struct DuplexConsensus {
    pub caller: SimpleUmiConsensusCaller,
    pub length: usize,
    pub had_errors_a: bool,
    pub had_errors_b: bool,
}

impl SimpleUmiConsensusCaller {
    pub fn new(caller: SimpleConsensusCaller) -> Self
        ensures { result.caller ≡ caller }
    {
        Self { caller }
    }

    // What the source's new() gives.
    pub fn default() -> Self
        ensures { result.caller ≡ default_caller }
    {
        Self {
            caller: SimpleConsensusCaller::default(),
        }
    }

    // The consensus of a set, into the buffer, and whether a string differs from it. A buffer of 255 bytes
    // is never too short. A refusal leaves it. Inlined, as each layer would copy the caller in its answer.
    #[inline(always)]
    pub fn consensus(self, set: &[u8], out: &mut [u8]) -> Result<FlaggedConsensus, Refusal>
        ensures answer { result ≡ map_ok (flagged_consensus_of self.caller) (consensus_in self.caller set.now out.old) }
        ensures caller { result_unwrap_or (map_ok (λ (given : FlaggedConsensus). given.caller.caller) result) self.caller ≡ caller_after self.caller (consensus_in self.caller set.now out.old) }
        ensures lent { out.new ≡ buffer_after out.old (consensus_in self.caller set.now out.old) }
        ensures short { IfOk result (λ given. given.length ≤ 255) }
        ensures number { number_in result ≡ number_in (consensus_in self.caller set.now out.old) }
        ensures fits { 255 ≤ length out.old → consensus_in self.caller set.now out.old ≡ and_then (read_set set.now) (consensus_of self.caller) }
    {
        let given = set_consensus(self.caller, set, out)?;
        Ok(FlaggedConsensus {
            caller: Self {
                caller: given.caller,
            },
            length: given.length,
            had_errors: given.had_errors,
        })
    }

    // The consensus of the strings that end in /A and of those that end in /B, without these bytes: /A's,
    // or /B's where that is empty.
    pub fn consensus_duplex(self, set: &[u8], out: &mut [u8]) -> Result<DuplexConsensus, Refusal>
        ensures answer { result ≡ map_ok (duplex_consensus_of self.caller) (duplex_in self.caller set.now out.old) }
        ensures caller { result_unwrap_or (map_ok (λ (given : DuplexConsensus). given.caller.caller) result) self.caller ≡ caller_after self.caller (pair_found (duplex_in self.caller set.now out.old)) }
        ensures lent { out.new ≡ buffer_after out.old (pair_found (duplex_in self.caller set.now out.old)) }
        ensures short { IfOk result (λ given. given.length ≤ 255) }
        ensures number { number_in result ≡ number_in (duplex_in self.caller set.now out.old) }
    {
        // kept: rule of the project: no heap, and `read` of a set is slower
        let mut places = [0; 255];
        let count = read_places(set, &mut places)?;
        both_strands(self.caller, set, &places[..count], out)
    }
}

// All strings of a set.
#[inline(always)]
fn set_consensus(
    caller: SimpleConsensusCaller,
    set: &[u8],
    out: &mut [u8],
) -> Result<GroupConsensus, Refusal>
    ensures group { result ≡ map_ok (group_consensus_of caller) (consensus_in caller set.now out.old) }
    ensures lent { out.new ≡ buffer_after out.old (consensus_in caller set.now out.old) }
    ensures few { found_length (and_then (read_set set.now) (consensus_of caller)) ≤ 255 }
{
    // kept: rule of the project: no heap, and `read` of a set is slower
    let mut places = [0; 255];
    let count = read_places(set, &mut places)?;
    let strings = Strings {
        set,
        places: &places[..count],
        trim: 0,
    };
    group_consensus(caller, &strings, out)
}
