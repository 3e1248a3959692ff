// Bytes and numbers read from bytes, and bytes put into a borrowed buffer.
#![tactic(auto)]

ghost use Rattle.std.specs.Prelude.{◌≡◌, ◌++◌, ◌+◌, ◌≤◌, leb, length};
ghost use Rattle.std.proofs.lemmas.List.Edits.{sets};
ghost use Rattle.words.specs.Lists.{byte_at, listed};
ghost use Rattle.lent_bytes.specs.Buffer.{written, written_at};
ghost use Rattle.lent_bytes.specs.Bytes.{number_at};

// The byte at a place, 0 where there is none.
pub fn byte_at(bytes: &[u8], at: usize) -> u8
    ensures { result ≡ byte_at bytes.now at }
{
    bytes.get(at).copied().unwrap_or(0)
}

// The N bytes at a place, 0 for each that is missing.
pub fn bytes_at<const N: usize>(bytes: &[u8], at: usize) -> [u8; N]
    ensures { result ≡ listed (byte_at bytes.now) at N }
{
    let rest = bytes.get(at..).unwrap_or(&[]);
    std::array::from_fn(|i| byte_at(rest, i))
}

// The number of the four bytes at a place, the low byte first; a byte that is missing counts as 0. `four` of
// a printer (lent_text) puts them there.
pub fn four_at(bytes: &[u8], at: usize) -> u32
    ensures { result ≡ number_at bytes.now 4 at }
{
    u32::from_le_bytes(bytes_at(bytes, at))
}

// All bytes from a place on, where they fit: by a loop, as `copy_from_slice` asks a C program for `memmove`.
fn copy_at(out: &mut [u8], at: usize, bytes: &[u8])
    requires { at + length bytes.now ≤ length out.old }
    ensures { out.new ≡ sets out.old at bytes.now }
{
    for (i, byte) in bytes.iter().enumerate() {
        out[at + i] = *byte;
    }
}

// Whether the bytes fit from a place on, and so were put there. A buffer that is too short is left as it
// is.
#[tactic(auto, using(crate::proofs::Buffer::fits_written_at), unfolding(crate::specs::Buffer::written_at))]
pub fn write_at(out: &mut [u8], at: usize, bytes: &[u8]) -> bool
    ensures reply { result ≡ leb (at + length bytes.now) (length out.old) }
    ensures lent { out.new ≡ written_at at bytes.now out.old }
{
    let Some(end) = at.checked_add(bytes.len()) else {
        return false;
    };
    if out.len() < end {
        return false;
    }
    copy_at(out, at, bytes);
    true
}

// The same at its front.
#[tactic(auto, using(crate::proofs::Buffer::written_at_0))]
pub fn write_front(out: &mut [u8], bytes: &[u8]) -> bool
    ensures reply { result ≡ leb (length bytes.now) (length out.old) }
    ensures lent { out.new ≡ written bytes.now out.old }
{
    write_at(out, 0, bytes)
}

// The same with bytes in two parts, one after the other.
pub fn write_both(out: &mut [u8], first: &[u8], second: &[u8]) -> bool
    ensures reply { result ≡ leb (length (first.now ++ second.now)) (length out.old) }
    ensures lent { out.new ≡ written (first.now ++ second.now) out.old }
{
    let at = first.len();
    if out.len() < at + second.len() {
        return false;
    }
    write_front(out, first);
    write_at(out, at, second)
}
