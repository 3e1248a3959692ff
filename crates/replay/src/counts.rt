// How many answers were read, and how many of them are equal to ours, by the letters of their lines.
ghost use Rattle.std.specs.Prelude.{◌≡◌};
ghost use Rattle.replay.specs.Counts.{counted_of};

use crate::lines::LineVerdict;

// The lines of one letter.
#[derive(Clone, Copy, Debug, PartialEq, Eq)]
pub struct Count {
    pub all: u64,
    pub equal: u64,
}

// By the letter.
pub(crate) type Counts = [Count; 256];

pub(crate) const NONE_YET: Count = Count { all: 0, equal: 0 };

// What the verdict on a line adds. A counter has 64 bits.
pub(crate) fn count_line(counts: &mut Counts, verdict: LineVerdict)
    ensures { counts.new ≡ counted_of counts.old verdict }
{
    match verdict {
        LineVerdict::End | LineVerdict::NotAnAnswer => {}
        LineVerdict::Equal(letter) => {
            let Count { all, equal } = counts[usize::from(letter)];
            counts[usize::from(letter)] = Count {
                all: all.wrapping_add(1),
                equal: equal.wrapping_add(1),
            };
        }
        LineVerdict::Differs(letter) => {
            let count = counts[usize::from(letter)];
            counts[usize::from(letter)] = Count {
                all: count.all.wrapping_add(1),
                ..count
            };
        }
    }
}
