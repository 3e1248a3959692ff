// The number of a writer, and the writer of a number.
ghost use Rattle.std.specs.Prelude.{◌≡◌, ◌<◌};
ghost use Rattle.export_writer.specs.Numbers.{most_columns, columns_to_come, stage_codes, stage_code, stage_of, writer_number, writer_of};

use column_file::Settings;
use column_writer::{Stage, Writer};
use phred::PhredScore;
use refusals::Refusal;
use string_set::LONGEST_FILE;
use tie_rules::TieRule;

// The numbers below those of writers are those of refusals.
const FIRST: u64 = 256;

// How many stages there are: three, and one for each pair of rates, rule and number of columns to come.
const STAGE_CODES: u64 = 8_589_934_595;

// As many columns as a count of two bytes does not reach.
const MOST_COLUMNS: usize = 65_536;

// The number of a stage.
#[tactic(auto, unfolding(crate::specs::Numbers::stage_code))]
fn stage_code(stage: Stage) -> u64
    requires { columns_to_come stage < most_columns }
    ensures code { result ≡ stage_code stage }
    ensures few { result < stage_codes }
{
    match stage {
        Stage::AwaitsSettings => 0,
        Stage::AwaitsFinish => 1,
        Stage::Finished => 2,
        Stage::AwaitsColumns(settings, left) => {
            let pre = u64::from(settings.error_rate_pre_umi.0);
            let post = u64::from(settings.error_rate_post_umi.0);
            let rule = u64::from(u8::from(settings.tie_rule));
            3 + rule + (2 * pre + 512 * post) + 131_072 * (left as u64)
        }
    }
}

// The stage of such a number.
#[tactic(auto, unfolding(crate::specs::Numbers::stage_of))]
fn stage_of(code: u64) -> Stage
    requires { code < stage_codes }
    ensures { result ≡ stage_of code }
{
    match code {
        0 => Stage::AwaitsSettings,
        1 => Stage::AwaitsFinish,
        2 => Stage::Finished,
        _ => {
            let rest = code - 3;
            let settings = Settings {
                error_rate_pre_umi: PhredScore((rest / 2 % 256) as u8),
                error_rate_post_umi: PhredScore((rest / 512 % 256) as u8),
                tie_rule: TieRule::from((rest % 2) as u8),
            };
            Stage::AwaitsColumns(settings, (rest / 131_072) as usize)
        }
    }
}

// How many columns are to come.
fn columns_to_come(stage: Stage) -> usize
    ensures { result ≡ columns_to_come stage }
{
    match stage {
        Stage::AwaitsColumns(_, left) => left,
        Stage::AwaitsSettings | Stage::AwaitsFinish | Stage::Finished => 0,
    }
}

// The number of a writer; 13 for one of more bytes or columns than a file has, which no steps lead to.
pub fn number_of(writer: Writer) -> u64
    ensures { result ≡ writer_number writer }
{
    let Writer { stage, written } = writer;
    if LONGEST_FILE < written || MOST_COLUMNS <= columns_to_come(stage) {
        return u64::from(u8::from(Refusal::OutOfTurn));
    }
    FIRST + stage_code(stage) + STAGE_CODES * (written as u64)
}

// The writer whose number it is.
#[tactic(auto, unfolding(crate::specs::Numbers::writer_of))]
pub(crate) fn writer_of(number: u64) -> Result<Writer, Refusal>
    ensures { result ≡ writer_of number }
{
    if number < FIRST {
        return Err(Refusal::OutOfTurn);
    }
    let code = number - FIRST;
    let written = (code / STAGE_CODES) as usize;
    if LONGEST_FILE < written {
        return Err(Refusal::OutOfTurn);
    }
    Ok(Writer {
        stage: stage_of(code % STAGE_CODES),
        written,
    })
}
