// The columns of a family.
ghost use Rattle.std.specs.Prelude.{◌≡◌, ◌≤◌, length, take};
ghost use Rattle.observation_windows.specs.Windows.{window_of};
ghost use Rattle.umi_rows.specs.Rows.{row_columns_at};
ghost use Rattle.umi_family.specs.Family.{bytes_by, bytes_summed, last_by};

use crate::by_sums::call_summed;
use crate::counts::counts_decide;
use crate::leads::call_counted;
use base_builder::ConsensusBaseBuilder;
use observation_windows::window_of;
use rate_tables::AdjustedEntry;
use tie_rules::TieRule;
use umi_column::{add_column, consensus_byte};
use umi_rows::Family;

// The bytes of the first columns: by counts where these decide and have room, else by sums alone. Counts
// pay from two strings on.
// kept: no plainer: a struct of a family and a text of at most its width is taken apart in each loop
fn call_others(rule: TieRule, entry: AdjustedEntry, family: &Family, text: &mut [u8])
    requires { length text.old ≤ family.now.width }
    ensures { text.new ≡ take (length text.old) (bytes_summed (window_of entry.correct entry.error_per_alt) rule (row_columns_at family.now.width family.now.set.now family.now.places.now)) }
{
    let window = window_of(entry.correct, entry.error_per_alt);
    if family.width <= 255 && counts_decide(rule, entry) {
        call_counted(&window, family, text);
    } else {
        call_summed(rule, &window, family, text);
    }
}

// The last column is added to a builder, since it is to be as that column leaves it.
pub(crate) fn call_columns(
    builder: ConsensusBaseBuilder,
    entry: AdjustedEntry,
    family: &Family,
    text: &mut [u8],
) -> ConsensusBaseBuilder
    requires { length text.old ≡ family.now.width }
    ensures text { text.new ≡ bytes_by entry builder (row_columns_at family.now.width family.now.set.now family.now.places.now) }
    ensures builder { result ≡ last_by entry builder (row_columns_at family.now.width family.now.set.now family.now.places.now) }
{
    if text.is_empty() {
        return builder;
    }
    let last = text.len() - 1;
    call_others(builder.tie_rule, entry, family, &mut text[..last]);
    let column = family.column(last);
    let after = add_column(builder.reset(), entry, &column[..family.places.len()]);
    text[last] = consensus_byte(after, column[0]);
    after
}
