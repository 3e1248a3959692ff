// The lanes of a position, and what a call of it takes beside them.
ghost use Rattle.std.specs.Prelude.{◌≡◌, ◌<◌, IfSome, unwrap_or};
ghost use Rattle.tie_rules.specs.Ties.{unique_max_index_with};
ghost use Rattle.tie_rules.specs.UniqueMax.{lane_number};
ghost use Rattle.lane_calls.specs.Full.{full_call};
ghost use Rattle.lane_calls.specs.Multibase.{multibase_reply};

use crate::call::Call;
use phred::LogProbability;
use tie_rules::TieRule;

#[derive(Clone, Copy, Debug, PartialEq)]
pub struct Position {
    // The logarithm of the likelihood of A, C, G and T.
    pub likelihoods: [f64; 4],
    pub tie_rule: TieRule,
    pub ln_error_pre_umi: LogProbability,
}

impl Position {
    // The lane that the rule names.
    pub(crate) fn named_lane(&self) -> Option<usize>
        ensures lane { lane_number result ≡ unique_max_index_with self.now.likelihoods self.now.tie_rule }
        ensures inside { IfSome result (λ i. i < 4) }
    {
        tie_rules::unique_max_index_with(self.likelihoods, self.tie_rule)
    }

    // The call: the shortcut, and else the long calculation. Both ask for the rule's lane: it is found
    // once.
    pub fn call_lanes(&self) -> Call
        ensures { result ≡ unwrap_or (multibase_reply self.now.ln_error_pre_umi.0 self.now.likelihoods self.now.tie_rule) (full_call self.now.ln_error_pre_umi.0 self.now.likelihoods self.now.tie_rule) }
    {
        let Some(i) = self.named_lane() else {
            return Call::none();
        };
        let m = self.likelihoods[i];
        match self.reply_of_lane(i, m) {
            Some(short) => short,
            None => Call::of(i, self.full_quality(m)),
        }
    }
}
