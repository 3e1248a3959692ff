// The shortcut where two or more bases were observed.
ghost use Rattle.std.specs.Prelude.{◌≡◌};
ghost use Rattle.float.specs.Ops.{◌⊖◌, ◌⊗◌, ◌⊘◌};
ghost use Rattle.float.specs.Methods.{max_of};
ghost use Rattle.elementary.specs.Ln.{ln_of};
ghost use Rattle.phred.specs.Phred.{ln_error_prob_two_trials};
ghost use Rattle.lane_calls.specs.Calls.{headroom};
ghost use Rattle.lane_calls.specs.Lane.{reply_of_lane};
ghost use Rattle.lane_calls.specs.Multibase.{rest_below, magnitude_below, least_normal, stable_reply, rest_reply, multibase_reply};

use crate::call::Call;
use crate::margin::{UNANIMOUS_MARGIN_HEADROOM, UNANIMOUS_UNIT_ROUNDOFF};
use crate::position::Position;
use phred::LogProbability;

// The least positive normal f64, 2^-1022.
const MIN_POSITIVE: f64 = 2.2250738585072014e-308;

impl Position {
    // How probable the other lanes are together beside lane i, of the value m.
    #[tactic(auto, unfolding(crate::specs::Multibase::rest_below))]
    fn rest(&self, i: usize, m: f64) -> f64
        ensures { result ≡ rest_below self.now.likelihoods i m 4 }
    {
        let mut r = 0.0;
        for k in 0..4 {
            if k != i {
                r += elementary::exp(self.likelihoods[k] - m);
            }
        }
        r
    }

    // The largest size of a lane.
    #[tactic(auto, unfolding(crate::specs::Multibase::magnitude_below))]
    fn magnitude(&self, m: f64) -> f64
        ensures { result ≡ magnitude_below self.now.likelihoods m 4 }
    {
        let mut largest = float::abs(m);
        for x in &self.likelihoods {
            largest = float::max(largest, float::abs(*x));
        }
        largest
    }

    // The final error's logarithm, where p is ln(1 + r).
    fn final_error(&self, r: f64, p: f64) -> f64
        ensures { result ≡ ln_error_prob_two_trials self.now.ln_error_pre_umi.0 (ln_of r ⊖ p) }
    {
        let error = LogProbability(elementary::ln(r) - p);
        phred::ln_error_prob_two_trials(self.ln_error_pre_umi, error).0
    }

    // What the lanes say of lane i, of the value m. ln(1 + r) is worked out once for both its uses.
    #[tactic(auto, unfolding(crate::specs::Multibase::rest_reply, crate::specs::Multibase::final_error, crate::specs::Multibase::delta_of))]
    fn rest_reply(&self, i: usize, m: f64) -> Option<Call>
        ensures { result ≡ rest_reply self.now.ln_error_pre_umi.0 self.now.likelihoods i m }
    {
        let r = self.rest(i, m);
        let p = elementary::ln_1p(r);
        stable_reply(i, self.final_error(r, p), delta(p, self.magnitude(m)))
    }

    // The shortcut for the lane that the rule names. Of its other tests none can fail there: no lane is
    // above that one, and none ties with it.
    pub(crate) fn reply_of_lane(&self, i: usize, m: f64) -> Option<Call>
        ensures { result ≡ reply_of_lane self.now.ln_error_pre_umi.0 self.now.likelihoods i m }
    {
        if m.is_finite() {
            return self.rest_reply(i, m);
        }
        None
    }

    // The shortcut, for a lane that the rule names.
    pub fn try_multibase_fast_path(&self) -> Option<Call>
        ensures { result ≡ multibase_reply self.now.ln_error_pre_umi.0 self.now.likelihoods self.now.tie_rule }
    {
        let i = self.named_lane()?;
        self.reply_of_lane(i, self.likelihoods[i])
    }
}

// By how much the long calculation may differ: its rounding at this magnitude, divided by the distance
// of the base's probability from 1, as the complement's logarithm magnifies it: p.
fn delta(p: f64, magnitude: f64) -> f64
    ensures { result ≡ headroom ⊗ magnitude ⊘ max_of p least_normal }
{
    UNANIMOUS_MARGIN_HEADROOM * UNANIMOUS_UNIT_ROUNDOFF * magnitude / float::max(p, MIN_POSITIVE)
}

// The quality of the error, where it is the same at delta below and above.
#[tactic(auto, unfolding(crate::specs::Multibase::stable_reply))]
fn stable_reply(i: usize, error: f64, delta: f64) -> Option<Call>
    ensures { result ≡ stable_reply i error delta }
{
    let quality = |e: f64| phred::ln_prob_to_phred(LogProbability(e)).0;
    let qual = quality(error);
    if quality(error - delta) == qual && quality(error + delta) == qual {
        return Some(Call::of(i, qual));
    }
    None
}
