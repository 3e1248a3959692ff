// The columns by the counts of their bases.
ghost use Rattle.std.specs.Prelude.{◌≡◌, ℕ, ◌≤◌, ◌<◌, length, take, IfSome};
ghost use Rattle.tie_rules.specs.declared.tie_rule.TieRule.TheVariants.{FgbioCompat};
ghost use Rattle.tie_rules.specs.Ties.{unique_max_index_with};
ghost use Rattle.umi_column.specs.Sums.{no_sums, summed_all};
ghost use Rattle.umi_count_laws.specs.Named.{Faithful};
ghost use Rattle.umi_rows.specs.Rows.{bytes_at, row_columns_at};
ghost use Rattle.umi_family.specs.Counts.{lane_counts, CountsOf};
ghost use Rattle.umi_family.specs.Family.{byte_summed, bytes_summed};

use crate::by_sums::summed_byte;
use crate::counts::{Counts, leader};
use tie_rules::{TieRule, base_of};
use umi_column::is_dna_base;
use umi_rows::Family;

// The byte of a column that a lane leads. Where none does, it is summed.
fn led_byte(lead: Option<usize>, window: &[f64; 8], family: &Family, at: usize) -> u8
    requires inside { at < family.now.width }
    requires named { IfSome lead (λ i. unique_max_index_with (summed_all window.now (bytes_at at family.now.set.now family.now.places.now) no_sums).likelihoods FgbioCompat ≡ i) }
    ensures { result ≡ byte_summed window.now FgbioCompat (bytes_at at family.now.set.now family.now.places.now) }
{
    let first = family.first()[at];
    if !is_dna_base(first) {
        return first;
    }
    match lead {
        Some(_) => base_of(lead),
        None => summed_byte(TieRule::FgbioCompat, window, family, at),
    }
}

// The bytes of the first columns, one for each place of the text, by the counts of A, C, G and T.
fn call_leads(window: &[f64; 8], family: &Family, counts: &Counts, text: &mut [u8])
    requires faithful { Faithful window.now }
    requires inside { length text.old ≤ family.now.width }
    requires short { family.now.width ≤ 255 }
    requires counted { (i : ℕ) → i < 4 → CountsOf i family.now.width family.now.set.now family.now.places.now (lane_counts counts.now i) }
    ensures { text.new ≡ take (length text.old) (bytes_summed window.now FgbioCompat (row_columns_at family.now.width family.now.set.now family.now.places.now)) }
{
    for (at, byte) in text.iter_mut().enumerate() {
        let lead = leader(counts.a[at], counts.c[at], counts.g[at], counts.t[at]);
        *byte = led_byte(lead, window, family, at);
    }
}

// The same, with the counts: string by string, since their bytes lie side by side.
pub(crate) fn call_counted(window: &[f64; 8], family: &Family, text: &mut [u8])
    requires faithful { Faithful window.now }
    requires inside { length text.old ≤ family.now.width }
    requires short { family.now.width ≤ 255 }
    ensures { text.new ≡ take (length text.old) (bytes_summed window.now FgbioCompat (row_columns_at family.now.width family.now.set.now family.now.places.now)) }
{
    let mut counts = Counts::none();
    for row in family.rows() {
        counts.count_row(row);
    }
    call_leads(window, family, &counts, text);
}
