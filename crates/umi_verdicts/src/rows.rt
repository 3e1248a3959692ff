// The strings one by one.
ghost use Rattle.std.specs.List.{list_all, list_any};
ghost use Rattle.std.specs.Prelude.{◌≡◌, ◌+◌, take, drop};
ghost use Rattle.words.specs.Lists.{byte_at};
ghost use Rattle.umi_rows.specs.Rows.{rows_at, is_high};
ghost use Rattle.umi_verdicts.specs.Likeness.{like_row};

use umi_column::is_dna_base;
use umi_rows::Family;

// Whether a byte is 128 or more. The one way out lets it go by sixteen bytes.
fn high_among(bytes: &[u8]) -> bool
    ensures { result ≡ list_any is_high bytes.now }
{
    let mut high = false;
    for byte in bytes {
        high = high | (128 <= *byte);
    }
    high
}

// The same, 64 bytes at a time, so that a long string is left soon.
pub(crate) fn high_in(bytes: &[u8]) -> bool
    ensures { result ≡ list_any is_high bytes.now }
{
    let mut rest = bytes;
    while let Some((block, after)) = rest.split_first_chunk::<64>() {
        if high_among(block) {
            return true;
        }
        rest = after;
    }
    high_among(rest)
}

// Whether a string has a byte of 128 or more.
pub(crate) fn any_high(family: &Family) -> bool
    ensures { result ≡ list_any (list_any is_high) (rows_at family.now.width family.now.set.now family.now.places.now) }
{
    family.rows().any(|row| high_in(row))
}

// Each byte is the first string's, or both are DNA. The one way out lets it go by sixteen bytes.
fn like_row(first: &[u8], row: &[u8]) -> bool
    ensures { result ≡ like_row first.now row.now }
{
    if first.len() != row.len() {
        return false;
    }
    let mut like = true;
    for (i, b) in row.iter().enumerate() {
        let f = first[i];
        like = like & ((f == *b) | is_dna_base(f) & is_dna_base(*b));
    }
    like
}

// Whether each string is so.
pub(crate) fn rows_like(family: &Family) -> bool
    ensures { result ≡ list_all (like_row (take family.now.width (drop (byte_at family.now.places.now 0 + 1) family.now.set.now))) (rows_at family.now.width family.now.set.now family.now.places.now) }
{
    let first = family.first();
    family.rows().all(|row| like_row(first, row))
}
