// The functions of a new caller, with its builder afterwards behind the string.
// kept: no plainer: what is read and the buffer that is written are two borrows, which a struct would only join
ghost use Rattle.std.specs.Prelude.{◌≡◌, is_some, unwrap_or};
ghost use Rattle.simple_consensus.specs.Consensus.{caller_at};
ghost use Rattle.export_umi.specs.Asked.{question_of};
ghost use Rattle.export_umi.specs.Sent.{asked_reply, asked_buffer, caller_reply, caller_buffer};

use crate::asked::{Question, ask};
use export_reports::builder_bytes;
use lent_bytes::write_both;
use phred::PhredScore;
use refusals::Refusal;
use simple_umi::SimpleConsensusCaller;

// The string and the builder, and the code; or the number of a refusal, 10 where the buffer can't hold both.
// A string has at most 255 bytes.
fn send_asked(question: Question, caller: SimpleConsensusCaller, set: &[u8], out: &mut [u8]) -> u64
    ensures reply { result ≡ asked_reply question caller set.now out.old }
    ensures lent { out.new ≡ asked_buffer question caller set.now out.old }
{
    // kept: rule of the project: no heap, so the string lies in a fixed array
    let mut text = [0; 255];
    match ask(question, caller, set, &mut text) {
        Ok(asked) => {
            let state = builder_bytes(&asked.caller.builder);
            if write_both(out, &text[..usize::from(asked.given.length)], &state) {
                asked.given.code()
            } else {
                u64::from(u8::from(Refusal::BufferTooShort))
            }
        }
        Err(refusal) => u64::from(u8::from(refusal)),
    }
}

// 0 call_consensus, 1 consensus, 3 consensus_duplex, for a new caller; none by another number.
// kept: C's interface: the function by its number, and the rates apart
#[tactic(auto, unfolding(crate::specs::Sent::caller_reply, crate::specs::Sent::caller_buffer))]
pub fn umi_caller(
    pre: PhredScore,
    post: PhredScore,
    quality: PhredScore,
    which: u8,
    set: &[u8],
    out: &mut [u8],
) -> Option<u64>
    ensures reply { unwrap_or result 0 ≡ caller_reply which (caller_at pre.0 post.0 quality.0) set.now out.old }
    ensures some { is_some result ≡ is_some (question_of which) }
    ensures lent { out.new ≡ caller_buffer which (caller_at pre.0 post.0 quality.0) set.now out.old }
{
    let question = Question::of(which)?;
    let caller = SimpleConsensusCaller::new(pre, post, quality);
    Some(send_asked(question, caller, set, out))
}
