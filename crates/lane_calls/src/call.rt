// What is called.
ghost use Rattle.std.specs.Prelude.{◌≡◌};
ghost use Rattle.lane_calls.specs.Calls.{called as called_of, no_call};

use phred::PhredScore;
use tie_rules::base_of;

// A base with its quality.
#[derive(Clone, Copy, Debug, PartialEq, Eq)]
pub struct Call {
    pub base: u8,
    pub qual: PhredScore,
}

impl Call {
    // The base of a lane with a quality.
    pub fn of(lane: usize, qual: u8) -> Self
        ensures { result ≡ called_of lane qual }
    {
        Self {
            base: base_of(Some(lane)),
            qual: PhredScore(qual),
        }
    }

    // N with 2.
    pub fn none() -> Self
        ensures { result ≡ no_call }
    {
        Self {
            base: base_of(None),
            qual: PhredScore(phred::MIN_PHRED),
        }
    }
}
