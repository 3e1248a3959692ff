// A group of strings as `consensus` treats it.
ghost use Rattle.std.specs.Prelude.{◌≡◌, ◌≤◌, ◌<◌, length};
ghost use Rattle.refusals.specs.Result.{and_then, map_ok};
ghost use Rattle.umi_groups.specs.Found.{room_for, found_length, group_of, buffer_after};
ghost use Rattle.umi_groups.specs.Groups.{entry_at, family_at, first_at, group_at};

use crate::strings::Strings;
use base_builder::ConsensusBaseBuilder;
use lent_bytes::write_front;
use phred::PhredScore;
use rate_tables::adjusted_entry;
use refusals::Refusal;
use umi_family::{Called, call_family};
use umi_rows::Family;
use umi_verdicts::family_verdict;

// What a group gives beside the string in the buffer: how long it is, whether a string differs from it, and
// the builder afterwards.
#[derive(Clone, Copy, Debug, PartialEq)]
pub struct Group {
    pub builder: ConsensusBaseBuilder,
    pub length: usize,
    pub had_errors: bool,
}

// Two or more strings of one width.
fn family(
    builder: ConsensusBaseBuilder,
    post: PhredScore,
    q: PhredScore,
    strings: &Strings,
    width: usize,
    out: &mut [u8],
) -> Result<Group, Refusal>
    ensures group { result ≡ map_ok group_of (and_then (family_at (entry_at post.0 q.0) builder width strings.now.set.now strings.now.places.now) (room_for out.old)) }
    ensures lent { out.new ≡ buffer_after out.old (and_then (family_at (entry_at post.0 q.0) builder width strings.now.set.now strings.now.places.now) (room_for out.old)) }
{
    family_verdict(strings.set, strings.places, width)?;
    if out.len() < width {
        return Err(Refusal::BufferTooShort);
    }
    let entry = adjusted_entry(post, q);
    let Called {
        had_errors,
        builder,
    } = call_family(
        builder,
        entry,
        strings.set,
        strings.places,
        &mut out[..width],
    );
    Ok(Group {
        builder,
        length: width,
        had_errors,
    })
}

// The first string alone.
fn first(
    builder: ConsensusBaseBuilder,
    had_errors: bool,
    strings: &Strings,
    width: usize,
    out: &mut [u8],
) -> Result<Group, Refusal>
    requires { 0 < length strings.now.places.now }
    ensures group { result ≡ map_ok group_of (and_then (first_at builder had_errors width strings.now.set.now strings.now.places.now) (room_for out.old)) }
    ensures lent { out.new ≡ buffer_after out.old (and_then (first_at builder had_errors width strings.now.set.now strings.now.places.now) (room_for out.old)) }
{
    let Some(family) = Family::of(strings.set, &strings.places[..1], width) else {
        return Err(Refusal::CutOff);
    };
    if !write_front(out, family.first()) {
        return Err(Refusal::BufferTooShort);
    }
    Ok(Group {
        builder,
        length: width,
        had_errors,
    })
}

// A text that fits goes into the buffer; a refusal leaves it. What strings that do not lie in the set give is
// free: they are refused as cut off.
pub fn consensus_group(
    builder: ConsensusBaseBuilder,
    post: PhredScore,
    q: PhredScore,
    strings: &Strings,
    out: &mut [u8],
) -> Result<Group, Refusal>
    ensures group { result ≡ map_ok group_of (and_then (group_at post.0 q.0 builder strings.now.trim strings.now.set.now strings.now.places.now) (room_for out.old)) }
    ensures lent { out.new ≡ buffer_after out.old (and_then (group_at post.0 q.0 builder strings.now.trim strings.now.set.now strings.now.places.now) (room_for out.old)) }
    ensures few { found_length (group_at post.0 q.0 builder strings.now.trim strings.now.set.now strings.now.places.now) ≤ 255 }
{
    if strings.places.is_empty() {
        return Ok(Group {
            builder,
            length: 0,
            had_errors: false,
        });
    }
    let width = strings.width();
    let alike = strings.are_alike();
    // Both are known here: by `&` the test is one fact.
    if (1 < strings.places.len()) & alike {
        return family(builder, post, q, strings, width, out);
    }
    first(builder, !alike, strings, width, out)
}
