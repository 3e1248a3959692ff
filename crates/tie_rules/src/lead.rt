// A lane that leads, and the scan of the four lanes that looks for it.
ghost use Rattle.std.specs.Prelude.{◌≡◌, ◌<◌, ℕ, Float, IfSome};
ghost use Rattle.tie_rules.specs.declared.tie_rule.TieRule.TheVariants.{FgbioCompat};
ghost use Rattle.tie_rules.specs.Lead.{lead_step};
ghost use Rattle.tie_rules.specs.Scan.{scan, below_every};
ghost use Rattle.tie_rules.specs.Ties.{unique_max_index_with};
ghost use Rattle.tie_rules.specs.UniqueMax.{lane_number, named_lane};

use crate::tie_rule::FGBIO_TIE_EPSILON;

// The highest value so far and its lane, or no lane after a cancellation.
// kept: no plainer: nothing compares or prints it
#[derive(Clone, Copy)]
pub struct Lead {
    pub best: f64,
    pub at: Option<usize>,
}

// Before the first lane: every number is above -infinity.
pub(crate) fn below_every() -> Lead
    ensures { result ≡ below_every }
{
    Lead {
        best: -1.0 / 0.0,
        at: None,
    }
}

// The four lanes, one after the other: what `step` makes of what it knew, a lane and its value.
#[tactic(auto, unfolding(crate::specs::Scan::scan))]
pub(crate) fn scan<S: Copy, F: Fn(S, usize, f64) -> S>(
    step: F,
    start: S,
    likelihoods: [f64; 4],
) -> S
    requires { F.IsAlwaysCallable step }
    ensures { (f : S → ℕ → Float → S) → ((s : S) (k : ℕ) (x : Float) (t : S) → F.post step s k x t → t ≡ f s k x) → result ≡ scan f start likelihoods 4 }
{
    let mut run = start;
    for k in 0..4 {
        run = step(run, k, likelihoods[k]);
    }
    run
}

// One lane of fgbio's rule as it is run. The scan begins at -infinity, so that it need not know whether
// a lane was taken, nor ask for NaN: of a lane of NaN or of -infinity both tests are false. The lane is
// not above the best at the second test, so the difference needs no size taken.
#[tactic(auto, unfolding(crate::specs::Lead::lead_step))]
fn lead_step(lead: Lead, k: usize, x: f64) -> Lead
    ensures { result ≡ lead_step lead k x }
{
    if lead.best < x {
        return Lead {
            best: x,
            at: Some(k),
        };
    }
    if lead.best - x <= FGBIO_TIE_EPSILON {
        return Lead { at: None, ..lead };
    }
    lead
}

// The lane of the maximum under fgbio's rule, but for a winning -infinity.
pub(crate) fn fgbio_lead(likelihoods: [f64; 4]) -> Option<usize>
    ensures answer { result ≡ named_lane (unique_max_index_with likelihoods FgbioCompat) }
    ensures lane { lane_number result ≡ unique_max_index_with likelihoods FgbioCompat }
    ensures inside { IfSome result (λ i. i < 4) }
{
    scan(lead_step, below_every(), likelihoods).at
}
