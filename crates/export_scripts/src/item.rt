// An item of a script.
ghost use Rattle.std.specs.Prelude.{◌≡◌, slice_index};
ghost use Rattle.export_scripts.specs.Item.{item_of};

use phred::PhredScore;
use tie_rules::TieRule;

// One of a builder's calls, or a question about the builder, by its number.
#[derive(Clone, Copy, Debug, PartialEq, Eq)]
pub enum Item {
    Add(u8, PhredScore),
    Reset,
    SetTieRule(TieRule),
    Question(u8),
}

// The item of three bytes: 0 base quality, 1 _ _, 2 rule _, or a question.
// kept: C's interface: an item is three bytes, the first of them its kind
impl From<[u8; 3]> for Item {
    ghost from_gives = { λ bytes item. item ≡ item_of (slice_index bytes 0) (slice_index bytes 1) (slice_index bytes 2) };

    #[tactic(auto, unfolding(crate::specs::Item::item_of))]
    fn from([kind, a, b]: [u8; 3]) -> Item {
        match kind {
            0 => Item::Add(a, PhredScore(b)),
            1 => Item::Reset,
            2 => Item::SetTieRule(TieRule::from(a)),
            _ => Item::Question(kind),
        }
    }
}
