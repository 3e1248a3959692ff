// The columns by the sums of their lanes.
ghost use Rattle.std.specs.Prelude.{◌≡◌, ◌≤◌, ◌<◌, length, take};
ghost use Rattle.umi_rows.specs.Rows.{bytes_at, row_columns_at};
ghost use Rattle.umi_family.specs.Family.{byte_summed, bytes_summed};

use tie_rules::TieRule;
use umi_column::{add_base, no_sums, sums_byte};
use umi_rows::Family;

// The byte of the column at one place.
pub(crate) fn summed_byte(rule: TieRule, window: &[f64; 8], family: &Family, at: usize) -> u8
    requires { at < family.now.width }
    ensures { result ≡ byte_summed window.now rule (bytes_at at family.now.set.now family.now.places.now) }
{
    let mut sums = no_sums();
    for place in family.places {
        sums = add_base(sums, window, family.set[*place + 1 + at]);
    }
    sums_byte(sums, rule, family.first()[at])
}

// The bytes of the first columns, one for each place of the text.
pub(crate) fn call_summed(rule: TieRule, window: &[f64; 8], family: &Family, text: &mut [u8])
    requires { length text.old ≤ family.now.width }
    ensures { text.new ≡ take (length text.old) (bytes_summed window.now rule (row_columns_at family.now.width family.now.set.now family.now.places.now)) }
{
    for (at, byte) in text.iter_mut().enumerate() {
        *byte = summed_byte(rule, window, family, at);
    }
}
