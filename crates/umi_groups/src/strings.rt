// Strings by the places of their length bytes. A place past the set's end counts as one with a 0.
ghost use Rattle.std.specs.List.{list_all};
ghost use Rattle.std.specs.Prelude.{◌≡◌, ◌-◌, ◌≤◌, eqb};
ghost use Rattle.words.specs.Lists.{byte_at};
ghost use Rattle.umi_groups.specs.Groups.{lengths_alike};

use lent_bytes::byte_at;

// Strings of a set, without their last `trim` bytes.
// kept: no plainer: nothing compares or prints it
#[derive(Clone, Copy)]
pub struct Strings<'a> {
    pub set: &'a [u8],
    // Where each string's length byte is.
    pub places: &'a [usize],
    pub trim: usize,
}

fn each_long(set: &[u8], places: &[usize], length: u8) -> bool
    ensures { result ≡ list_all (λ p. eqb (byte_at set.now p) length) places.now }
{
    places.iter().all(|place| byte_at(set, *place) == length)
}

impl<'a> Strings<'a> {
    // The length byte of the first, 0 where there is none.
    fn first_length(&self) -> u8
        ensures { result ≡ byte_at self.now.set.now (byte_at self.now.places.now 0) }
    {
        let first = self.places.first().copied().unwrap_or(0);
        byte_at(self.set, first)
    }

    // How long the first is without its last bytes.
    pub(crate) fn width(&self) -> usize
        ensures width { result ≡ byte_at self.now.set.now (byte_at self.now.places.now 0) - self.now.trim }
        ensures few { result ≤ 255 }
    {
        usize::from(self.first_length()).saturating_sub(self.trim)
    }

    // Whether their length bytes are all like the first.
    pub fn are_alike(&self) -> bool
        ensures { result ≡ lengths_alike self.now.set.now self.now.places.now }
    {
        each_long(self.set, self.places, self.first_length())
    }
}
