// The two strands of a set: strings that end in /A, and in /B.
ghost use Rattle.std.specs.Prelude.{◌≡◌, ◌+◌, ◌≤◌, length, take, IfOk};
ghost use Rattle.words.specs.Lists.{byte_at};
ghost use Rattle.refusals.specs.Result.{and_then, map_ok};
ghost use Rattle.umi_groups.specs.Found.{found_length, buffer_after};
ghost use Rattle.simple_consensus.specs.Consensus.{consensus_of};
ghost use Rattle.simple_consensus.specs.Answers.{group_consensus_of};
ghost use Rattle.simple_consensus.specs.Places.{Trimmed, trimmed_at, strings_at};
ghost use Rattle.simple_umi.specs.Duplex.{ends_in, strand_of, either, duplex_of};
ghost use Rattle.simple_umi.specs.Answers.{room_for_both, duplex_consensus_of, pair_found};

use crate::umi_caller::{DuplexConsensus, SimpleUmiConsensusCaller};
use lent_bytes::write_front;
use refusals::Refusal;
use simple_consensus::{GroupConsensus, SimpleConsensusCaller, group_consensus};
use umi_groups::Strings;

// Whether the string at a place ends in / and the letter.
fn ends_in(set: &[u8], place: usize, letter: u8) -> bool
    requires { place + 1 + byte_at set.now place ≤ length set.now }
    ensures { result ≡ ends_in letter (trimmed_at 0 set.now place) }
{
    let n = usize::from(set[place]);
    if n < 2 {
        return false;
    }
    set[place + n - 1] == b'/' && set[place + n] == letter
}

// The places of a strand's strings, into the borrowed slice, and how many there are.
// kept: no plainer: how many there are is the answer, so it is counted whichever way they are put
fn strand_places(set: &[u8], places: &[usize], letter: u8, kept: &mut [usize]) -> usize
    requires { (length places.now ≤ length kept.old) × Trimmed 0 set.now places.now }
    ensures strings { strings_at 2 set.now (take result kept.new) ≡ strand_of letter (strings_at 0 set.now places.now) }
    ensures inside { (result ≤ length kept.new) × Trimmed 2 set.now (take result kept.new) }
{
    let mut n = 0;
    for place in places {
        if ends_in(set, *place, letter) {
            kept[n] = *place;
            n += 1;
        }
    }
    n
}

// One strand as `consensus` treats a set, with a text that holds any answer.
fn strand_consensus(
    caller: SimpleConsensusCaller,
    set: &[u8],
    places: &[usize],
    letter: u8,
    text: &mut [u8],
) -> Result<GroupConsensus, Refusal>
    requires { (255 ≤ length text.old) × Trimmed 0 set.now places.now }
    ensures group { result ≡ map_ok (group_consensus_of caller) (consensus_of caller (strand_of letter (strings_at 0 set.now places.now))) }
    ensures lent { text.new ≡ buffer_after text.old (consensus_of caller (strand_of letter (strings_at 0 set.now places.now))) }
    ensures few { found_length (consensus_of caller (strand_of letter (strings_at 0 set.now places.now))) ≤ 255 }
{
    // kept: rule of the project: no heap, so a strand's places lie in a fixed array
    let mut kept = [0; 255];
    let n = strand_places(set, places, letter, &mut kept);
    let strings = Strings {
        set,
        places: &kept[..n],
        trim: 2,
    };
    group_consensus(caller, &strings, text)
}

// /A's text, and /B's where that is empty.
fn either<'a>(a: &'a [u8], b: &'a [u8]) -> &'a [u8]
    ensures { result.now ≡ either a.now b.now }
{
    if a.is_empty() { b } else { a }
}

// Both strands, /A first, and /B by the caller as /A leaves it.
pub(crate) fn both_strands(
    caller: SimpleConsensusCaller,
    set: &[u8],
    places: &[usize],
    out: &mut [u8],
) -> Result<DuplexConsensus, Refusal>
    requires { Trimmed 0 set.now places.now }
    ensures pair { result ≡ map_ok (duplex_consensus_of caller) (and_then (duplex_of caller (strings_at 0 set.now places.now)) (room_for_both out.old)) }
    ensures lent { out.new ≡ buffer_after out.old (pair_found (and_then (duplex_of caller (strings_at 0 set.now places.now)) (room_for_both out.old))) }
    ensures short { IfOk result (λ given. given.length ≤ 255) }
{
    // kept: rule of the project: no heap, so each strand's text lies in a fixed array
    let mut text_a = [0; 255];
    let a = strand_consensus(caller, set, places, b'A', &mut text_a)?;
    let mut text_b = [0; 255];
    let b = strand_consensus(a.caller, set, places, b'B', &mut text_b)?;
    let text = either(&text_a[..a.length], &text_b[..b.length]);
    if !write_front(out, text) {
        return Err(Refusal::BufferTooShort);
    }
    Ok(DuplexConsensus {
        caller: SimpleUmiConsensusCaller { caller: b.caller },
        length: text.len(),
        had_errors_a: a.had_errors,
        had_errors_b: b.had_errors,
    })
}
