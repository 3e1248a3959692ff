// Numbers in hex digits, as a line has them.
ghost use Rattle.std.specs.Prelude.{◌≡◌, ◌<◌, IfSome};
ghost use Rattle.replay.specs.Hex.{digit_of, hex_of};

// The number that digits write, where all of them are digits and there are at most 16.
#[tactic(auto, unfolding(crate::specs::Hex::hex_from))]
pub(crate) fn hex_number(digits: &[u8]) -> Option<u64>
    ensures { result ≡ hex_of digits.now }
{
    if 16 < digits.len() {
        return None;
    }
    let mut n: u64 = 0;
    for b in digits {
        n = 16 * n + u64::from(digit(*b)?);
    }
    Some(n)
}

// The value of a digit. Unlike `char::to_digit`, none of an upper-case letter.
#[tactic(auto, unfolding(crate::specs::Hex::digit_of))]
pub(crate) fn digit(b: u8) -> Option<u8>
    ensures value { result ≡ digit_of b }
    ensures upper_bound { IfSome result (λ d. d < 16) }
{
    match b {
        b'0'..=b'9' => Some(b - b'0'),
        b'a'..=b'f' => Some(b - b'a' + 10),
        _ => None,
    }
}
