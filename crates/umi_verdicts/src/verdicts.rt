// What is refused in a family.
ghost use Rattle.std.specs.Prelude.{◌≡◌, true, Ok};
ghost use Rattle.refusals.specs.Refusals.{number_in};
ghost use Rattle.refusals.specs.Result.{first_refused};
ghost use Rattle.umi_column.specs.Verdicts.{verdict_of};
ghost use Rattle.umi_rows.specs.Rows.{row_columns_at};
ghost use Rattle.umi_verdicts.specs.FamilyVerdicts.{verdict_within, verdict_at, verdict_number_at};

use crate::rows::{any_high, high_in, rows_like};
use refusals::Refusal;
use umi_column::column_verdict;
use umi_rows::Family;

// Whether the strings one by one show nothing to refuse: only else are the columns looked at.
fn looks_sound(family: &Family) -> bool
    ensures { result ≡ true → verdict_within family.now.width family.now.set.now family.now.places.now ≡ Ok tt }
{
    !high_in(family.first()) && rows_like(family)
}

// What is refused in the first faulty column.
fn columns_verdict(family: &Family) -> Result<(), Refusal>
    ensures { result ≡ first_refused verdict_of (row_columns_at family.now.width family.now.set.now family.now.places.now) }
{
    for at in 0..family.width {
        let column = family.column(at);
        column_verdict(&column[..family.places.len()])?;
    }
    Ok(())
}

// A byte of 128 or more in a string, or else the first faulty column.
fn verdict_within(family: &Family) -> Result<(), Refusal>
    ensures { result ≡ verdict_within family.now.width family.now.set.now family.now.places.now }
{
    if looks_sound(family) {
        return Ok(());
    }
    if any_high(family) {
        return Err(Refusal::NotAscii);
    }
    columns_verdict(family)
}

// The same of strings by their places. Those that do not lie in the set, and no places, are refused as cut off.
// kept: no plainer: the promise is for any set and places, and a `Family` holds those alone that fit
pub fn family_verdict(set: &[u8], places: &[usize], width: usize) -> Result<(), Refusal>
    ensures verdict { result ≡ verdict_at width set.now places.now }
    ensures number { number_in result ≡ verdict_number_at width set.now places.now }
{
    match Family::of(set, places, width) {
        Some(family) => verdict_within(&family),
        None => Err(Refusal::CutOff),
    }
}
