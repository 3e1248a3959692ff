// The long calculation, which asks neither shortcut.
ghost use Rattle.std.specs.Prelude.{◌≡◌};
ghost use Rattle.lane_calls.specs.Full.{full_quality, full_call};

use crate::call::Call;
use crate::position::Position;
use phred::LogProbability;

impl Position {
    // The quality of a lane of the value m.
    #[tactic(auto, unfolding(crate::specs::Full::full_quality))]
    pub(crate) fn full_quality(&self, m: f64) -> u8
        ensures { result ≡ full_quality self.now.ln_error_pre_umi.0 self.now.likelihoods m }
    {
        let ln_sum = phred::ln_sum_exp_lanes(self.likelihoods);
        let ln_posterior = phred::ln_normalize(LogProbability(m), ln_sum);
        let ln_consensus_error = phred::ln_not(ln_posterior);
        phred::ln_prob_to_phred(phred::ln_error_prob_two_trials(
            self.ln_error_pre_umi,
            ln_consensus_error,
        )).0
    }

    // The rule's lane with its quality, or N with 2.
    #[tactic(auto, unfolding(crate::specs::Full::full_call))]
    pub fn call_full(&self) -> Call
        ensures { result ≡ full_call self.now.ln_error_pre_umi.0 self.now.likelihoods self.now.tie_rule }
    {
        match self.named_lane() {
            Some(i) => Call::of(i, self.full_quality(self.likelihoods[i])),
            None => Call::none(),
        }
    }
}
