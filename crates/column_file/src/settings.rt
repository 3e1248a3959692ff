// The settings of a file, with the number of columns that follow.
ghost use Rattle.std.specs.Prelude.{◌≡◌, MatchOption};
ghost use Rattle.refusals.specs.Refusals.{number_in};
ghost use Rattle.string_set.specs.Readers.{taken, short};
ghost use Rattle.column_file.specs.Format.{announced};
ghost use Rattle.column_file.specs.Reading.{settings_of, read_settings};

use crate::columns::first_word;
use phred::PhredScore;
use refusals::Refusal;
use tie_rules::TieRule;

#[derive(Clone, Copy, Debug, PartialEq, Eq)]
pub struct Settings {
    pub error_rate_pre_umi: PhredScore,
    pub error_rate_post_umi: PhredScore,
    pub tie_rule: TieRule,
}

impl Settings {
    // Of three bytes, with a rule that is one.
    pub(crate) fn of(bytes: &[u8]) -> Result<Settings, Refusal>
        ensures { result ≡ settings_of bytes.now }
    {
        let [pre, post, rule] = bytes else {
            return Err(Refusal::BadSettings);
        };
        if *rule > 1 {
            return Err(Refusal::BadSettings);
        }
        Ok(Settings {
            error_rate_pre_umi: PhredScore(*pre),
            error_rate_post_umi: PhredScore(*post),
            tie_rule: TieRule::from(*rule),
        })
    }
}

// The bytes of the settings at the front, the number of columns, and what follows it.
pub(crate) fn announced(bytes: &[u8]) -> Option<(&[u8], usize, &[u8])>
    ensures { MatchOption result (announced bytes.now ≡ short) (λ p. announced bytes.now ≡ taken (p.0.now, p.1) p.2.now) }
{
    let (settings, rest) = string_set::counted_bytes(bytes)?;
    let (count, rest) = first_word(rest)?;
    Some((settings, count, rest))
}

// Reads settings and the number of columns that follow, alone.
pub fn read_settings(part: &[u8]) -> Result<(Settings, usize), Refusal>
    ensures reading { result ≡ read_settings part.now }
    ensures number { number_in result ≡ number_in (read_settings part.now) }
{
    if string_set::LONGEST_FILE < part.len() {
        return Err(Refusal::FileTooLong);
    }
    let Some((settings, count, rest)) = announced(part) else {
        return Err(Refusal::CutOff);
    };
    if !rest.is_empty() {
        return Err(Refusal::CutOff);
    }
    Ok((Settings::of(settings)?, count))
}
