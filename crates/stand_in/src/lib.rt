// What stands in for a quality of 255, which SAM calls absent: a quality, or nothing.
#![tactic(auto)]

ghost use Rattle.std.specs.Prelude.{◌≡◌};
ghost use Rattle.stand_in.specs.StandIns.{absent_as};

use phred::PhredScore;

// What a quality of 255 is added as: itself where nothing stands in for it.
pub fn absent_as(stand_in: Option<PhredScore>) -> PhredScore
    ensures { result.0 ≡ absent_as stand_in }
{
    stand_in.unwrap_or(PhredScore(255))
}
