// Groups of strings, at places of a set, by a caller.
ghost use Rattle.std.specs.Prelude.{◌≡◌, ◌≤◌};
ghost use Rattle.refusals.specs.Result.{and_then, map_ok};
ghost use Rattle.umi_groups.specs.Found.{room_for, found_length, buffer_after};
ghost use Rattle.simple_consensus.specs.Consensus.{umis_of};
ghost use Rattle.simple_consensus.specs.Answers.{group_consensus_of};
ghost use Rattle.simple_consensus.specs.Places.{Trimmed, strings_at, group_by};

use crate::caller::SimpleConsensusCaller;
use refusals::Refusal;
use umi_groups::{Strings, consensus_group};

// The caller afterwards, how long the string in the buffer is, and whether a string differs from it.
#[derive(Clone, Copy, Debug, PartialEq)]
pub struct GroupConsensus {
    pub caller: SimpleConsensusCaller,
    pub length: usize,
    pub had_errors: bool,
}

// As `consensus` treats them.
pub fn group_consensus(
    caller: SimpleConsensusCaller,
    strings: &Strings,
    out: &mut [u8],
) -> Result<GroupConsensus, Refusal>
    ensures group { result ≡ map_ok (group_consensus_of caller) (and_then (group_by caller strings.now.trim strings.now.set.now strings.now.places.now) (room_for out.old)) }
    ensures lent { out.new ≡ buffer_after out.old (and_then (group_by caller strings.now.trim strings.now.set.now strings.now.places.now) (room_for out.old)) }
    ensures few { found_length (group_by caller strings.now.trim strings.now.set.now strings.now.places.now) ≤ 255 }
{
    let group = consensus_group(
        caller.builder,
        caller.error_rate_post_labeling,
        caller.q_error,
        strings,
        out,
    )?;
    Ok(GroupConsensus {
        caller: SimpleConsensusCaller {
            builder: group.builder,
            ..caller
        },
        length: group.length,
        had_errors: group.had_errors,
    })
}

// Strings of unequal lengths are refused; the others go the way of `consensus`.
pub(crate) fn alike_consensus(
    caller: SimpleConsensusCaller,
    set: &[u8],
    places: &[usize],
    out: &mut [u8],
) -> Result<GroupConsensus, Refusal>
    requires { Trimmed 0 set.now places.now }
    ensures group { result ≡ map_ok (group_consensus_of caller) (and_then (umis_of caller (strings_at 0 set.now places.now)) (room_for out.old)) }
    ensures lent { out.new ≡ buffer_after out.old (and_then (umis_of caller (strings_at 0 set.now places.now)) (room_for out.old)) }
    ensures few { found_length (umis_of caller (strings_at 0 set.now places.now)) ≤ 255 }
{
    let strings = Strings {
        set,
        places,
        trim: 0,
    };
    if !strings.are_alike() {
        return Err(Refusal::LengthsDiffer);
    }
    group_consensus(caller, &strings, out)
}
