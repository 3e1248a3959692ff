// The functions of a caller, each by its name: one answer for all three, with the caller afterwards.
ghost use Rattle.std.specs.Prelude.{◌≡◌, ◌≤◌, IfOk};
ghost use Rattle.umi_groups.specs.Found.{buffer_after};
ghost use Rattle.export_umi.specs.Asked.{question_of, asked_in, asked_found};

use crate::codes::Given;
use refusals::Refusal;
use simple_umi::{SimpleConsensusCaller, SimpleUmiConsensusCaller};

// Which function.
#[derive(Clone, Copy, Debug, PartialEq, Eq)]
pub enum Question {
    CallConsensus,
    Consensus,
    ConsensusDuplex,
}

impl Question {
    // By its number: 0 call_consensus, 1 consensus, 3 consensus_duplex.
    // kept: C's interface: the function by its number
    pub fn of(which: u8) -> Option<Self>
        ensures { result ≡ question_of which }
    {
        match which {
            0 => Some(Self::CallConsensus),
            1 => Some(Self::Consensus),
            3 => Some(Self::ConsensusDuplex),
            _ => None,
        }
    }
}

// What is given beside the string in the buffer, and the caller afterwards.
#[derive(Clone, Copy, Debug, PartialEq)]
pub struct Asked {
    pub given: Given,
    pub caller: SimpleConsensusCaller,
}

// The string goes into the buffer. Inlined, as each layer would copy the caller in its answer.
// kept: no plainer: the three functions answer with three types, so a closure would do the same by case
#[inline(always)]
pub fn ask(
    question: Question,
    caller: SimpleConsensusCaller,
    set: &[u8],
    text: &mut [u8],
) -> Result<Asked, Refusal>
    ensures asked { result ≡ asked_in question caller set.now text.old }
    ensures lent { text.new ≡ buffer_after text.old (asked_found question caller set.now text.old) }
    ensures short { IfOk result (λ a. a.given.length ≤ 255) }
{
    match question {
        Question::CallConsensus => {
            let called = caller.call_consensus(set, text)?;
            Ok(Asked {
                given: Given {
                    length: called.length as u8,
                    had_errors_a: false,
                    had_errors_b: false,
                },
                caller: called.caller,
            })
        }
        Question::Consensus => {
            let called = SimpleUmiConsensusCaller::new(caller).consensus(set, text)?;
            Ok(Asked {
                given: Given {
                    length: called.length as u8,
                    had_errors_a: called.had_errors,
                    had_errors_b: false,
                },
                caller: called.caller.caller,
            })
        }
        Question::ConsensusDuplex => {
            let called = SimpleUmiConsensusCaller::new(caller).consensus_duplex(set, text)?;
            Ok(Asked {
                given: Given {
                    length: called.length as u8,
                    had_errors_a: called.had_errors_a,
                    had_errors_b: called.had_errors_b,
                },
                caller: called.caller.caller,
            })
        }
    }
}
