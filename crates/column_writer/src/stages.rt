// The stages of a file that is being written: whose turn it is, and what comes after a part.
ghost use Rattle.std.specs.Prelude.{◌≡◌};
ghost use Rattle.column_writer.specs.Stages.{in_turn, awaits_finish, one_column_less, next_stage};

use column_file::{Settings, read_column, read_settings};
use refusals::Refusal;

// What comes next.
#[derive(Clone, Copy, Debug, PartialEq, Eq)]
pub enum Stage {
    AwaitsSettings,
    // So many columns more, in a file of these settings; after the last of them the string set.
    AwaitsColumns(Settings, usize),
    AwaitsFinish,
    Finished,
}

// The parts of a file that are lent.
#[derive(Clone, Copy, Debug, PartialEq, Eq)]
pub enum PartKind {
    // With the announced number of columns.
    Settings,
    Column,
    Strings,
}

// Whether it is the turn of such a part.
pub(crate) fn in_turn(stage: Stage, kind: PartKind) -> bool
    ensures { result ≡ in_turn stage kind }
{
    match (stage, kind) {
        (Stage::AwaitsSettings, PartKind::Settings) => true,
        (Stage::AwaitsColumns(_, left), PartKind::Column) => left > 0,
        (Stage::AwaitsColumns(_, left), PartKind::Strings) => left == 0,
        _ => false,
    }
}

// Whether it is the turn of the finish.
pub(crate) fn awaits_finish(stage: Stage) -> bool
    ensures { result ≡ awaits_finish stage }
{
    matches!(stage, Stage::AwaitsFinish)
}

// After a column; a stage that awaits none stays.
fn one_column_less(stage: Stage) -> Stage
    ensures { result ≡ one_column_less stage }
{
    match stage {
        Stage::AwaitsColumns(settings, left) => {
            Stage::AwaitsColumns(settings, left.saturating_sub(1))
        }
        _ => stage,
    }
}

// After a part, as the reader judges it.
// kept: no plainer: each of the three kinds has a reader of its own and leads to a stage of its own
pub(crate) fn next_stage(stage: Stage, kind: PartKind, part: &[u8]) -> Result<Stage, Refusal>
    ensures { result ≡ next_stage stage kind part.now }
{
    match kind {
        PartKind::Settings => {
            let (settings, count) = read_settings(part)?;
            Ok(Stage::AwaitsColumns(settings, count))
        }
        PartKind::Column => {
            read_column(part)?;
            Ok(one_column_less(stage))
        }
        PartKind::Strings => {
            string_set::count_strings(part)?;
            Ok(Stage::AwaitsFinish)
        }
    }
}
