// The columns of a file called many times, for timing.
ghost use Rattle.std.specs.Prelude.{◌≡◌, is_some, unwrap_or, ◌+◌, ◌%◌, ◌^◌};
ghost use Rattle.std.specs.Result.{is_ok};
ghost use Rattle.column_file.specs.Reading.{read_file};
ghost use Rattle.column_file.specs.Places.{columns_at};
ghost use Rattle.column_calls.specs.Callers.{called_by};
ghost use Rattle.export_timing.specs.Columns.{amounts_with, calls_of};

use crate::amounts::{amount, repeated};
use column_calls::ColumnCaller;
use column_file::Columns;

// All columns once, added to a sum.
fn add_round(sum: u64, columns: Columns, caller: &ColumnCaller) -> u64
    ensures { result ≡ (sum + amounts_with (called_by caller.now) (columns_at columns.entry.file.now columns.entry.at columns.entry.left)) % 2 ^ 64 }
{
    let mut total = sum;
    for column in columns {
        total = total.wrapping_add(amount(caller.call(column).call));
    }
    total
}

// All bases and qualities of the columns, called that number of times and added up; none for a refused file.
#[tactic(auto, unfolding(crate::specs::Columns::calls_of))]
pub fn calls(file: &[u8], times: u32) -> Option<u64>
    ensures reply { unwrap_or result 0 ≡ calls_of file.now times }
    ensures some { is_some result ≡ is_ok (read_file file.now) }
{
    let places = column_file::read(file).ok()?;
    let columns = Columns {
        file,
        at: places.columns,
        left: places.count,
    };
    let caller = ColumnCaller::new(places.settings);
    Some(repeated(times, |sum| add_round(sum, columns, &caller)))
}
