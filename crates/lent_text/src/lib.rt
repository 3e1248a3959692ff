// Text and numbers printed into a borrowed buffer. What lies past the buffer's end is counted and not
// written, so that one function both measures and writes.
#![tactic(auto)]

ghost use Rattle.std.specs.Prelude.{[], ◌∷◌};
ghost use Rattle.lent_bytes.specs.Bytes.{four_bytes};
ghost use Rattle.lent_text.specs.Text.{decimal};
ghost use Rattle.lent_text.specs.Printed.{Put};

use lent_bytes::write_at;

// The methods of a printer are inlined and go through functions of the buffer and the place, so that both stay
// in registers: a buffer behind a printer is looked up again at each byte.
fn put_byte(out: &mut [u8], at: usize, byte: u8) -> usize
    ensures { Put out.old at (byte ∷ []) out.new result }
{
    if at < out.len() {
        out[at] = byte;
        at + 1
    } else {
        at.saturating_add(1)
    }
}

// Bytes that all fit are copied in one go, and past the buffer's end there is nothing but to count.
fn put_bytes(out: &mut [u8], at: usize, bytes: &[u8]) -> usize
    ensures { Put out.old at bytes.now out.new result }
{
    if write_at(out, at, bytes) {
        return at + bytes.len();
    }
    if out.len() <= at {
        return at.saturating_add(bytes.len());
    }
    let mut place = at;
    for byte in bytes {
        place = put_byte(out, place, *byte);
    }
    place
}

fn put_decimal(out: &mut [u8], at: usize, n: u64) -> usize
    ensures { Put out.old at (decimal n) out.new result }
{
    if n < 10 {
        return put_byte(out, at, b'0' + n as u8);
    }
    let place = put_decimal(out, at, n / 10);
    put_byte(out, place, b'0' + (n % 10) as u8)
}

// A borrowed buffer, and the place that is printed to next.
#[derive(Drop)]
pub struct Printer<'a> {
    pub out: &'a mut [u8],
    pub at: usize,
}

impl<'a> Printer<'a> {
    ghost use Rattle.lent_text.specs.Printed.{Printed};

    #[inline(always)]
    pub fn byte(&mut self, byte: u8)
        ensures { Printed self.old self.new (byte ∷ []) }
    {
        self.at = put_byte(self.out, self.at, byte);
    }

    #[inline(always)]
    pub fn bytes(&mut self, bytes: &[u8])
        ensures { Printed self.old self.new bytes.now }
    {
        self.at = put_bytes(self.out, self.at, bytes);
    }

    // A number in decimal. One digit needs no call.
    #[inline(always)]
    pub fn decimal(&mut self, n: u64)
        ensures { Printed self.old self.new (decimal n) }
    {
        if n <= 9 {
            self.byte(b'0' + n as u8);
        } else {
            self.at = put_decimal(self.out, self.at, n);
        }
    }

    // A number in four bytes, the low byte first. `four_at` (lent_bytes) reads it.
    #[inline(always)]
    pub fn four(&mut self, n: u32)
        ensures { Printed self.old self.new (four_bytes n) }
    {
        self.bytes(&n.to_le_bytes());
    }

    // The four low bytes of a longer number.
    #[inline(always)]
    pub fn low_four(&mut self, n: u64)
        ensures { Printed self.old self.new (four_bytes n) }
    {
        self.four((n % 0x1_0000_0000) as u32);
    }
}
