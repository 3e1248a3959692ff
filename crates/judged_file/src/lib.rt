// A column file judged whole, its strings included: what every output of a file begins with.
#![tactic(auto)]

ghost use Rattle.std.specs.Prelude.{◌≡◌, ◌≤◌, IfOk, take};
ghost use Rattle.refusals.specs.Refusals.{number_in};
ghost use Rattle.refusals.specs.Result.{map_ok};
ghost use Rattle.judged_file.specs.Judged.{judge_file, judged_as};

use column_file::Places;
use refusals::Refusal;
use simple_umi::SimpleUmiConsensusCaller;

// Where the parts of an accepted file are, the consensus of its strings, and whether a string differs
// from it.
#[derive(Clone, Copy, Debug, PartialEq, Eq)]
// kept: rule of the project: no heap, so the text lies in a fixed array beside its length
pub struct JudgedFile {
    pub places: Places,
    // The consensus, which has no more than 255 bytes, and 0 behind it; and how long it is.
    pub text: [u8; 255],
    pub length: usize,
    pub had_errors: bool,
}

impl JudgedFile {
    // The consensus.
    pub fn text(&self) -> &[u8]
        ensures { result.now ≡ take self.now.length self.now.text }
    {
        self.text.get(..self.length).unwrap_or(&self.text)
    }
}

// Refused by 1 to 4 for the file, then by 7 to 9 for its strings.
pub fn judge(file: &[u8]) -> Result<JudgedFile, Refusal>
    ensures judged { result ≡ map_ok judged_as (judge_file file.now) }
    ensures short { IfOk result (λ judged. judged.length ≤ 255) }
    ensures number { number_in result ≡ number_in (judge_file file.now) }
{
    let places = column_file::read(file)?;
    let mut text = [0u8; 255];
    let strings = &file[places.strings..];
    let consensus = SimpleUmiConsensusCaller::default().consensus(strings, &mut text)?;
    Ok(JudgedFile {
        places,
        text,
        length: consensus.length,
        had_errors: consensus.had_errors,
    })
}
