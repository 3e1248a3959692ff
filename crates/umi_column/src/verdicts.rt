// What is refused in a column.
ghost use Rattle.std.specs.List.{list_any};
ghost use Rattle.std.specs.Prelude.{◌≡◌};
ghost use Rattle.refusals.specs.Refusals.{number_in};
ghost use Rattle.umi_column.specs.Dna.{is_dna_base};
ghost use Rattle.umi_column.specs.Verdicts.{is_unlike, verdict_of, verdict_number_of};

use crate::dna::is_dna_base;
use lent_bytes::byte_at;
use refusals::Refusal;

fn any_unlike(column: &[u8], first: u8) -> bool
    ensures { result ≡ list_any (is_unlike first) column.now }
{
    column.iter().any(|b| !is_dna_base(*b) && *b != first)
}

fn any_dna(column: &[u8]) -> bool
    ensures { result ≡ list_any is_dna_base column.now }
{
    column.iter().any(|b| is_dna_base(*b))
}

// A non-DNA byte unlike the first is refused before a mixture.
pub fn column_verdict(column: &[u8]) -> Result<(), Refusal>
    ensures verdict { result ≡ verdict_of column.now }
    ensures number { number_in result ≡ verdict_number_of column.now }
{
    let first = byte_at(column, 0);
    if any_unlike(column, first) {
        return Err(Refusal::UnlikeFirst);
    }
    // All non-DNA bytes are like the first, so a mixture needs a first one that is no DNA.
    if !is_dna_base(first) && any_dna(column) {
        return Err(Refusal::Mixed);
    }
    Ok(())
}
