// How far two calculations of the same logarithm may be apart.
ghost use Rattle.std.specs.Prelude.{◌≡◌};
ghost use Rattle.lane_calls.specs.Calls.{unanimous_margin};

// The source's: 16 times the unit of rounding, 2^-53, which is about four times what it observed.
pub const UNANIMOUS_MARGIN_HEADROOM: f64 = 16.0;

pub const UNANIMOUS_UNIT_ROUNDOFF: f64 = 1.1102230246251565e-16;

// As a gap, where the error is at least this. At an error of 0 it is infinite, and no gap clears it.
#[tactic(auto, unfolding(crate::specs::Calls::unanimous_margin))]
pub fn unanimous_margin(winner_ll: f64, loser_ll: f64, cerr_lower_bound: f64) -> f64
    ensures { result ≡ unanimous_margin winner_ll loser_ll cerr_lower_bound }
{
    UNANIMOUS_MARGIN_HEADROOM
        * UNANIMOUS_UNIT_ROUNDOFF
        * (float::abs(winner_ll) + float::abs(loser_ll))
        / cerr_lower_bound
}
