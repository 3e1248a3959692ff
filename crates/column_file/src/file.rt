// A whole file.
ghost use Rattle.std.specs.Prelude.{◌≡◌};
ghost use Rattle.refusals.specs.Refusals.{number_in};
ghost use Rattle.refusals.specs.Result.{map_ok};
ghost use Rattle.column_file.specs.Reading.{read_file};
ghost use Rattle.column_file.specs.Places.{places_of};

use crate::columns::walk_columns;
use crate::settings::{Settings, announced};
use refusals::Refusal;

#[derive(Clone, Copy, Debug, PartialEq, Eq)]
pub struct Places {
    pub settings: Settings,
    // Where the first column's count is, how many columns there are, and where the string set is.
    pub columns: usize,
    pub count: usize,
    pub strings: usize,
}

// Reads a file: refused by 1, 2, 3 or 4, the first that holds, or where its parts are.
pub fn read(file: &[u8]) -> Result<Places, Refusal>
    ensures reading { result ≡ map_ok places_of (read_file file.now) }
    ensures number { number_in result ≡ number_in (read_file file.now) }
{
    if string_set::LONGEST_FILE < file.len() {
        return Err(Refusal::FileTooLong);
    }
    let Some((settings, count, columns)) = announced(file) else {
        return Err(Refusal::CutOff);
    };
    let Some((verdict, strings)) = walk_columns(columns, count) else {
        return Err(Refusal::CutOff);
    };
    string_set::count_strings(strings)?;
    let settings = Settings::of(settings)?;
    verdict?;
    Ok(Places {
        settings,
        columns: file.len() - columns.len(),
        count,
        strings: file.len() - strings.len(),
    })
}
