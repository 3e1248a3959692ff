// Replies in one number, and the functions at the defaults.
ghost use Rattle.std.specs.Prelude.{◌≡◌, ◌||◌, false, eqb, is_some, unwrap_or};
ghost use Rattle.refusals.specs.Result.{map_ok};
ghost use Rattle.umi_groups.specs.Found.{buffer_after};
ghost use Rattle.simple_consensus.specs.Answers.{consensus_umis_in};
ghost use Rattle.export_umi.specs.Asked.{question_of, given_of};
ghost use Rattle.export_umi.specs.Codes.{given_code, code_of};
ghost use Rattle.export_umi.specs.Numbered.{umi_reply, umi_buffer};

use crate::asked::{Question, ask};
use refusals::Refusal;
use simple_umi::{SimpleConsensusCaller, consensus_umis};

// How long a string is, which is at most 255 bytes, and the two flags: false where the function has none.
#[derive(Clone, Copy, Debug, PartialEq, Eq)]
pub struct Given {
    pub length: u8,
    pub had_errors_a: bool,
    pub had_errors_b: bool,
}

impl Given {
    // All in one number, above every refusal's.
    pub fn code(self) -> u64
        ensures { result ≡ given_code self.length self.had_errors_a self.had_errors_b }
    {
        256 + 4 * u64::from(self.length)
            + 2 * u64::from(self.had_errors_b)
            + u64::from(self.had_errors_a)
    }
}

// The code of an answer: the number of a refusal, or that of what is given.
fn code_of(answer: Result<Given, Refusal>) -> u64
    ensures { result ≡ code_of answer }
{
    match answer {
        Ok(given) => given.code(),
        Err(refusal) => u64::from(u8::from(refusal)),
    }
}

// What consensus_umis gives, which has no flag.
fn umis_given(set: &[u8], out: &mut [u8]) -> Result<Given, Refusal>
    ensures given { result ≡ map_ok (λ f. given_of f false false) (consensus_umis_in set.now out.old) }
    ensures lent { out.new ≡ buffer_after out.old (consensus_umis_in set.now out.old) }
{
    let length = consensus_umis(set, out)?;
    Ok(Given {
        length: length as u8,
        had_errors_a: false,
        had_errors_b: false,
    })
}

// 0 call_consensus, 1 consensus, 2 consensus_umis, 3 consensus_duplex; none by another number.
// kept: C's interface: the function by its number
#[tactic(auto, unfolding(crate::specs::Numbered::umi_reply, crate::specs::Numbered::umi_buffer))]
pub fn umi(which: u8, set: &[u8], out: &mut [u8]) -> Option<u64>
    ensures reply { unwrap_or result 0 ≡ umi_reply which set.now out.old }
    ensures some { is_some result ≡ (eqb which 2 || is_some (question_of which)) }
    ensures lent { out.new ≡ umi_buffer which set.now out.old }
{
    if which == 2 {
        return Some(code_of(umis_given(set, out)));
    }
    let question = Question::of(which)?;
    let asked = ask(question, SimpleConsensusCaller::default(), set, out);
    Some(code_of(asked.map(|a| a.given)))
}
