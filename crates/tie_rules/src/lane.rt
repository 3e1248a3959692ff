// The four lanes, one for each of A, C, G and T, in this order.
ghost use Rattle.std.specs.Prelude.{◌≡◌, true, ◌-◌, ◌<◌, IfSome};
ghost use Rattle.tie_rules.specs.Lanes.{lane_of_byte, is_base, lanes_after, base_of};
ghost use Rattle.tie_rules.specs.UniqueMax.{lane_number, named_lane};

// The lane of a byte: ACGTacgt, and none for any other.
#[tactic(auto, unfolding(crate::specs::Lanes::lane_of_byte, crate::specs::UniqueMax::named_lane))]
pub fn lane_of(base: u8) -> Option<usize>
    ensures answer { result ≡ named_lane (lane_of_byte base) }
    ensures lane { lane_number result ≡ lane_of_byte base }
    ensures inside { IfSome result (λ k. k < 4) }
{
    match base {
        b'A' | b'a' => Some(0),
        b'C' | b'c' => Some(1),
        b'G' | b'g' => Some(2),
        b'T' | b't' => Some(3),
        _ => None,
    }
}

// Whether a byte has a lane: the same answer for all bases, which becomes one test of a bit.
#[tactic(auto, unfolding(crate::specs::Lanes::lane_of_byte))]
pub fn is_base(byte: u8) -> bool
    ensures { result ≡ is_base byte }
{
    matches!(byte, b'A' | b'C' | b'G' | b'T' | b'a' | b'c' | b'g' | b't')
}

// How many lanes come after a base's, by two bits of its byte, with no jump. A byte that is no base gets
// a number, too.
#[tactic(auto, using(crate::proofs::Lanes::after_base), unfolding(crate::specs::Lanes::lanes_after))]
pub fn lanes_after(byte: u8) -> usize
    ensures bits { result ≡ lanes_after byte }
    ensures base { is_base byte ≡ true → result ≡ 3 - lane_of_byte byte }
    ensures inside { result < 4 }
{
    let bits = usize::from(byte / 2 % 4);
    if bits < 2 { 3 - bits } else { bits - 2 }
}

// The base of a lane, and N for none: the source's DNA_BASES.
#[tactic(auto, unfolding(crate::specs::Lanes::base_of))]
pub fn base_of(lane: Option<usize>) -> u8
    ensures { result ≡ base_of (lane_number lane) }
{
    match lane {
        Some(0) => b'A',
        Some(1) => b'C',
        Some(2) => b'G',
        Some(3) => b'T',
        _ => b'N',
    }
}
