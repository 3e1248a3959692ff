// A field of bytes: a space, and two digits for each byte.
ghost use Rattle.std.specs.Prelude.{◌≡◌, ◌+◌, ◌*◌, length};
ghost use Rattle.replay.specs.Fields.{byte_of_digits, field_bytes};

use crate::hex;

// The N bytes of a field, where it is one.
#[tactic(auto, unfolding(crate::specs::Fields::field_bytes, crate::specs::Fields::bytes_of_digits))]
pub(crate) fn read_field<const N: usize>(field: &[u8]) -> Option<[u8; N]>
    requires { length field.now ≡ 2 * N + 1 }
    ensures { result ≡ field_bytes field.now }
{
    let (space, digits) = field.split_first()?;
    if *space != b' ' {
        return None;
    }
    // kept: no plainer: `from_fn` of a closure that may find no digit would need the array of the options first
    let mut bytes = [0; N];
    for (i, b) in bytes.iter_mut().enumerate() {
        *b = byte(digits[2 * i], digits[2 * i + 1])?;
    }
    Some(bytes)
}

fn byte(high: u8, low: u8) -> Option<u8>
    ensures { result ≡ byte_of_digits high low }
{
    Some(16 * hex::digit(high)? + hex::digit(low)?)
}
