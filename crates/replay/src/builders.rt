// A line of a builder: a script of calls, run from a given builder, and the report at its end.
ghost use Rattle.std.specs.Prelude.{◌≡◌};
ghost use Rattle.replay.specs.Builders.{ours_of, is_report, builder_line};

use crate::fields::read_field;
use phred::PhredScore;

// How many bytes a report has.
const REPORT: usize = 91;

// Whether the script of a line, run from its builder, writes the line's report. The form of a line: a
// letter, four fields, a newline.
#[tactic(auto, unfolding(crate::specs::Builders::builder_line))]
pub(crate) fn builder_line(line: &[u8]) -> Option<bool>
    ensures { result ≡ builder_line line.now }
{
    if line.len() != 450 || line[449] != b'\n' {
        return None;
    }
    let rates = read_field(&line[1..8])?;
    let state: [u8; 80] = read_field(&line[8..169])?;
    let script: [u8; 48] = read_field(&line[169..266])?;
    let report: [u8; REPORT] = read_field(&line[266..449])?;
    is_report(rates, &state, &script, &report)
}

// Whether the script's report is this one; a script that writes none, or more than one, gives no answer.
fn is_report(rates: [u8; 3], state: &[u8], script: &[u8], report: &[u8; REPORT]) -> Option<bool>
    ensures { result ≡ is_report (ours_of rates state.now script.now) report.now }
{
    let [pre, post, rule] = rates;
    // kept: rule of the project: no heap, so our report goes into a fixed array
    let mut ours = [0; REPORT];
    let n = export_reports::from_state(
        PhredScore(pre),
        PhredScore(post),
        rule,
        state,
        script,
        &mut ours,
    )?;
    if n != 91 {
        return None;
    }
    Some(ours == *report)
}
