// What the sets are answered, into a borrowed buffer.
// kept: no plainer: what is read and the buffer that is written are two borrows, which a struct would only join
ghost use Rattle.std.specs.Prelude.{◌≡◌, ◌↔◌, ◌<◌, ◌&&◌, length, is_some, MatchOption, IfSome, IsNone, OnSome, unwrap_or};
ghost use Rattle.lent_bytes.specs.Buffer.{length_written, written};
ghost use Rattle.lent_text.specs.Printed.{Printed};
ghost use Rattle.string_set.specs.Readers.{taken, short};
ghost use Rattle.export_umi.specs.Asked.{question_of};
ghost use Rattle.export_umi_sets.specs.Reading.{sized_set, sets_in};
ghost use Rattle.export_umi_sets.specs.Answers.{after_set, set_bytes, answers_to, is_answered, umi_sets_bytes};

use export_reports::builder_bytes;
use export_umi::{Question, ask};
use lent_bytes::four_at;
use lent_text::Printer;
use phred::PhredScore;
use simple_umi::SimpleConsensusCaller;

// The first set, and the bytes after it; none where they do not reach so far as its length says.
fn split_set(sets: &[u8]) -> Option<(&[u8], &[u8])>
    ensures set { MatchOption result (sized_set sets.now ≡ short) (λ p. sized_set sets.now ≡ taken p.0.now p.1.now) }
    ensures fewer { IfSome result (λ p. length p.1.now < length sets.now) }
{
    let (_, rest) = sets.split_at_checked(4)?;
    rest.split_at_checked(four_at(sets, 0) as usize)
}

// One set's answer: the code, the string, the builder; and the caller afterwards. No string has more than
// 255 bytes, so that no set is refused by 10.
#[tactic(auto, unfolding(crate::specs::Answers::set_bytes))]
fn put_set(
    p: &mut Printer,
    question: Question,
    caller: SimpleConsensusCaller,
    set: &[u8],
) -> SimpleConsensusCaller
    ensures put { Printed p.old p.new (set_bytes question caller set.now) }
    ensures caller { result ≡ after_set question caller set.now }
{
    // kept: rule of the project: no heap, so a string lies in a fixed array
    let mut text = [0; 255];
    match ask(question, caller, set, &mut text) {
        Ok(asked) => {
            p.bytes(&asked.given.code().to_le_bytes());
            p.bytes(&text[..usize::from(asked.given.length)]);
            p.bytes(&builder_bytes(&asked.caller.builder));
            asked.caller
        }
        Err(refusal) => {
            p.bytes(&u64::from(u8::from(refusal)).to_le_bytes());
            p.bytes(&builder_bytes(&caller.builder));
            caller
        }
    }
}

// All answers, each by the caller as the set before leaves it. Where the sets are cut off, there is none,
// and what the buffer then holds means nothing.
// kept: no plainer: `?` leaves the loop where a set is cut off, which an iterator of sets could not tell
// from the end
fn put_sets(
    p: &mut Printer,
    question: Question,
    caller: SimpleConsensusCaller,
    sets: &[u8],
) -> Option<()>
    requires { p.old.at ≡ 0 }
    ensures cut { IsNone result ↔ (sets_in sets.now ≡ short) }
    ensures put { OnSome result (Printed p.old p.new (answers_to question caller (sets_in sets.now))) }
{
    let mut current = caller;
    let mut rest = sets;
    while !rest.is_empty() {
        let (set, others) = split_set(rest)?;
        current = put_set(p, question, current, set);
        rest = others;
    }
    Some(())
}

// How many bytes all answers are. They are counted first, with no room at all, so that nothing is written
// where the sets are cut off or the answers do not fit.
fn answer_sets(
    question: Question,
    caller: SimpleConsensusCaller,
    sets: &[u8],
    out: &mut [u8],
) -> Option<usize>
    ensures reply { unwrap_or result 0 ≡ length_written (answers_to question caller (sets_in sets.now)) out.old }
    ensures some { is_some result ≡ is_answered (sets_in sets.now) (answers_to question caller (sets_in sets.now)) out.old }
    ensures lent { out.new ≡ written (answers_to question caller (sets_in sets.now)) out.old }
{
    let mut counter = Printer {
        out: &mut [],
        at: 0,
    };
    put_sets(&mut counter, question, caller, sets)?;
    let n = counter.at;
    if out.len() < n {
        return None;
    }
    let mut p = Printer { out, at: 0 };
    put_sets(&mut p, question, caller, sets);
    Some(n)
}

// The sets stand one after another, each after its length in four bytes, low byte first. 0 call_consensus,
// 1 consensus, 3 consensus_duplex; none by another number.
// kept: C's interface: the function by its number, and the rates apart
#[tactic(auto, unfolding(crate::specs::Answers::umi_sets_bytes))]
pub fn umi_sets(
    pre: PhredScore,
    post: PhredScore,
    quality: PhredScore,
    which: u8,
    sets: &[u8],
    out: &mut [u8],
) -> Option<usize>
    ensures reply { unwrap_or result 0 ≡ length_written (umi_sets_bytes pre.0 post.0 quality.0 which sets.now) out.old }
    ensures some { is_some result ≡ (is_some (question_of which) && is_answered (sets_in sets.now) (umi_sets_bytes pre.0 post.0 quality.0 which sets.now) out.old) }
    ensures lent { out.new ≡ written (umi_sets_bytes pre.0 post.0 quality.0 which sets.now) out.old }
{
    let question = Question::of(which)?;
    let caller = SimpleConsensusCaller::new(pre, post, quality);
    answer_sets(question, caller, sets, out)
}
