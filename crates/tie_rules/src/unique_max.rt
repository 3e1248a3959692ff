// The lane of the one maximum, as the source's three functions answer it. A call asks the third.
ghost use Rattle.std.specs.Prelude.{◌≡◌, ◌<◌, IfSome};
ghost use Rattle.tie_rules.specs.Ties.{fgbio_step, ulp_step, fgbio_unique_max_index, unique_max_index, unique_max_index_with};
ghost use Rattle.tie_rules.specs.UniqueMax.{lane_number, named_lane};

use crate::lead::{Lead, below_every, fgbio_lead, scan};
use crate::tie_rule::{TieRule, fgbio_tie, none_ties};

// One lane of fgbio's scan: nothing leads before the first number.
#[tactic(auto, unfolding(crate::specs::Ties::fgbio_step, crate::specs::Ties::fgbio_taken))]
fn fgbio_step(run: Option<Lead>, k: usize, x: f64) -> Option<Lead>
    ensures { result ≡ fgbio_step run k x }
{
    if x.is_nan() {
        return run;
    }
    let takes_over = Some(Lead {
        best: x,
        at: Some(k),
    });
    match run {
        None => takes_over,
        Some(lead) if lead.best < x => takes_over,
        Some(lead) if fgbio_tie(x, lead.best) => Some(Lead { at: None, ..lead }),
        Some(_) => run,
    }
}

// Under fgbio's rule, by the source's scan. No call runs it: under this rule a call asks `fgbio_lead`,
// whose shorter scan leaves out a winning -infinity, as `unique_max_index_with` does.
pub fn fgbio_unique_max_index(likelihoods: [f64; 4]) -> Option<usize>
    ensures answer { result ≡ named_lane (fgbio_unique_max_index likelihoods) }
    ensures lane { lane_number result ≡ fgbio_unique_max_index likelihoods }
    ensures inside { IfSome result (λ i. i < 4) }
{
    scan(fgbio_step, None, likelihoods)?.at
}

// One lane of the search for the maximum.
#[tactic(auto, unfolding(crate::specs::Ties::ulp_step))]
fn ulp_step(lead: Lead, k: usize, x: f64) -> Lead
    ensures { result ≡ ulp_step lead k x }
{
    if lead.best < x {
        return Lead {
            best: x,
            at: Some(k),
        };
    }
    lead
}

// The maximum if it is finite and no other lane is within 4 units in the last place.
pub fn unique_max_index(likelihoods: [f64; 4]) -> Option<usize>
    ensures answer { result ≡ named_lane (unique_max_index likelihoods) }
    ensures lane { lane_number result ≡ unique_max_index likelihoods }
    ensures inside { IfSome result (λ i. i < 4) }
{
    let lead = scan(ulp_step, below_every(), likelihoods);
    let i = lead.at?;
    if lead.best.is_finite() && none_ties(TieRule::UlpRelative, likelihoods, i, lead.best) {
        return Some(i);
    }
    None
}

// By the rule: what every call asks.
pub fn unique_max_index_with(likelihoods: [f64; 4], rule: TieRule) -> Option<usize>
    ensures answer { result ≡ named_lane (unique_max_index_with likelihoods rule) }
    ensures lane { lane_number result ≡ unique_max_index_with likelihoods rule }
    ensures inside { IfSome result (λ i. i < 4) }
{
    match rule {
        TieRule::UlpRelative => unique_max_index(likelihoods),
        TieRule::FgbioCompat => fgbio_lead(likelihoods),
    }
}
