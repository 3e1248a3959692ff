// What a family gives.
ghost use Rattle.std.specs.List.{list_any};
ghost use Rattle.std.specs.Prelude.{◌≡◌};
ghost use Rattle.umi_rows.specs.Rows.{rows_at, differs_from};
ghost use Rattle.umi_family.specs.Family.{text_at, called_at};

use crate::columns::call_columns;
use base_builder::ConsensusBaseBuilder;
use rate_tables::AdjustedEntry;
use umi_rows::Family;

// Whether a string differs from the text, and the builder after the last column.
#[derive(Clone, Copy, Debug, PartialEq)]
pub struct Called {
    pub had_errors: bool,
    pub builder: ConsensusBaseBuilder,
}

fn any_differs(family: &Family, text: &[u8]) -> bool
    ensures { result ≡ list_any (differs_from text.now) (rows_at family.now.width family.now.set.now family.now.places.now) }
{
    family.rows().any(|row| row != text)
}

// Each column's byte into the text. What strings that do not lie in the set give, and no places, is free:
// they leave the text and the builder.
// kept: no plainer: the promise is for any set and places, and a `Family` holds those alone that fit
pub fn call_family(
    builder: ConsensusBaseBuilder,
    entry: AdjustedEntry,
    set: &[u8],
    places: &[usize],
    text: &mut [u8],
) -> Called
    ensures called { result ≡ called_at entry builder set.now places.now text.old }
    ensures text { text.new ≡ text_at entry builder set.now places.now text.old }
{
    let Some(family) = Family::of(set, places, text.len()) else {
        return Called {
            had_errors: false,
            builder,
        };
    };
    let builder = call_columns(builder, entry, &family, text);
    Called {
        had_errors: any_differs(&family, text),
        builder,
    }
}
