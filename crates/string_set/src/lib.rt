// A string set in its file form: a count byte, then each string after its length byte.
#![tactic(auto)]

ghost use Rattle.std.specs.Prelude.{◌≡◌, ◌≤◌, length, replicate, take, IfOk, IfSome, MatchOption};
ghost use Rattle.std.specs.Option.{ok_or};
ghost use Rattle.refusals.specs.declared.Refusal.TheVariants.{CutOff};
ghost use Rattle.refusals.specs.Refusals.{number_in};
ghost use Rattle.refusals.specs.Result.{map_ok};
ghost use Rattle.string_set.specs.Readers.{taken, short, alone};
ghost use Rattle.string_set.specs.StringSet.{string, string_set, read_set};
ghost use Rattle.string_set.specs.Places.{places_after};

use refusals::Refusal;

// The most bytes that a file, a part of one or a string set may have.
pub const LONGEST_FILE: usize = 65536;

// How many strings a set has, and where each one's length byte is; its bytes follow. From the count on the places are 0.
// kept: no plainer: nothing compares or prints it
#[derive(Clone, Copy)]
// kept: rule of the project: no heap, so the places lie in a fixed array beside their count
pub struct StringSet {
    pub count: usize,
    pub places: [usize; 255],
    ghost few: { count ≤ 255 },
}

impl StringSet {
    // Those of the strings.
    pub fn places(&self) -> &[usize]
        ensures { result.now ≡ take self.now.count self.now.places }
    {
        &self.places[..self.count]
    }
}

// The bytes that a count byte at the front says the number of, and what follows them: a string, or the
// settings of a file. None where they do not reach.
pub fn counted_bytes(bytes: &[u8]) -> Option<(&[u8], &[u8])>
    ensures { MatchOption result (string bytes.now ≡ short) (λ p. string bytes.now ≡ taken p.0.now p.1.now) }
{
    let (n, rest) = bytes.split_first()?;
    rest.split_at_checked(usize::from(*n))
}

// How many strings there are, if the bytes are one set and nothing else.
fn set_count(set: &[u8]) -> Option<usize>
    ensures count { ok_or result CutOff ≡ map_ok length (alone (string_set set.now)) }
    ensures few { IfSome result (λ n. n ≤ 255) }
{
    let (n, mut rest) = set.split_first()?;
    for _ in 0..*n {
        (_, rest) = counted_bytes(rest)?;
    }
    rest.is_empty().then_some(usize::from(*n))
}

// How many strings a lone set has.
pub fn count_strings(set: &[u8]) -> Result<usize, Refusal>
    ensures count { result ≡ map_ok length (read_set set.now) }
    ensures number { number_in result ≡ number_in (read_set set.now) }
    ensures few { IfOk result (λ n. n ≤ 255) }
{
    if LONGEST_FILE < set.len() {
        return Err(Refusal::FileTooLong);
    }
    set_count(set).ok_or(Refusal::CutOff)
}

// Reads a lone set: how many strings there are, and into borrowed places where each is. What lies beyond
// these stays, and so do all of them where the set is refused.
// kept: slower: read_places -> read, 29 -> 63 ns for five strings of 8 bytes, 20 million calls in a loop
pub fn read_places(set: &[u8], places: &mut [usize; 255]) -> Result<usize, Refusal>
    ensures count { result ≡ map_ok length (read_set set.now) }
    ensures lent { places.new ≡ places_after (read_set set.now) places.old }
    ensures number { number_in result ≡ number_in (read_set set.now) }
    ensures few { IfOk result (λ n. n ≤ 255) }
{
    let count = count_strings(set)?;
    let mut at = 1;
    for place in &mut places[..count] {
        *place = at;
        at += 1 + usize::from(set[at]);
    }
    Ok(count)
}

// The same with the places in its answer.
pub fn read(set: &[u8]) -> Result<StringSet, Refusal>
    ensures count { map_ok (λ (s : StringSet). s.count) result ≡ map_ok length (read_set set.now) }
    ensures places { IfOk result (λ s. s.places ≡ places_after (read_set set.now) (replicate 255 0)) }
    ensures number { number_in result ≡ number_in (read_set set.now) }
{
    let mut places = [0; 255];
    let count = read_places(set, &mut places)?;
    Ok(StringSet { count, places })
}
