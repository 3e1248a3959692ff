// Which strings lie in the set, and their bytes at one place.
ghost use Rattle.std.specs.List.{list_all};
ghost use Rattle.std.specs.Prelude.{◌≡◌, ◌+◌, leb, take, drop, is_some, IfSome};
ghost use Rattle.words.specs.Lists.{byte_at};
ghost use Rattle.umi_rows.specs.Rows.{RowsFit, fitting, gathered_at, rows_at};

use crate::rows::Rows;

// 1 to 255 strings of one width, each within the set.
// kept: no plainer: nothing compares or prints it
#[derive(Clone, Copy)]
pub struct Family<'a> {
    pub set: &'a [u8],
    // Where each string's length byte is.
    pub places: &'a [usize],
    pub width: usize,
    ghost fit: { RowsFit width set.now places.now },
}

impl<'a> Family<'a> {
    // None where there are none or too many, or one of them does not lie in the set.
    pub fn of(set: &'a [u8], places: &'a [usize], width: usize) -> Option<Self>
        ensures fit { is_some result ≡ fitting width set.now places.now }
        ensures same { IfSome result (λ f. (f.width ≡ width) × (f.set.now ≡ set.now) × (f.places.now ≡ places.now)) }
    {
        if fit(set, places, width) {
            Some(Self { set, places, width })
        } else {
            None
        }
    }

    pub fn rows(&self) -> Rows<'a>
        ensures { result ≡ rows_at self.now.width self.now.set.now self.now.places.now }
    {
        Rows {
            set: self.set,
            places: self.places,
            width: self.width,
        }
    }

    pub fn first(&self) -> &'a [u8]
        ensures { result.now ≡ take self.now.width (drop (byte_at self.now.places.now 0 + 1) self.now.set.now) }
    {
        let start = self.places[0] + 1;
        &self.set[start..start + self.width]
    }

    // The bytes that the strings have at one place, and 0 behind them.
    pub fn column(&self, at: usize) -> [u8; 255]
        ensures { result ≡ gathered_at at self.now.set.now self.now.places.now }
    {
        gather(self.set, self.places, at)
    }
}

// The byte at a place of the string after another, 0 where the set ends before it.
fn byte_after(set: &[u8], place: usize, at: usize) -> u8
    ensures { result ≡ byte_at set.now (place + 1 + at) }
{
    if place < set.len() && at < set.len() - place - 1 {
        set[place + 1 + at]
    } else {
        0
    }
}

// The bytes that strings, or the first 255 of them, have at one place, and 0 behind them.
// kept: no plainer: the promise is for any set and places, and a `Family` holds those alone that fit
pub fn gather(set: &[u8], places: &[usize], at: usize) -> [u8; 255]
    ensures { result ≡ gathered_at at set.now places.now }
{
    // kept: rule of the project: no heap, so a column is gathered into a fixed array
    let mut column = [0; 255];
    let first = &places[..places.len().min(255)];
    for (k, place) in first.iter().enumerate() {
        column[k] = byte_after(set, *place, at);
    }
    column
}

fn follow(place: usize, width: usize, size: usize) -> bool
    ensures { result ≡ leb (place + 1 + width) size }
{
    place < size && width <= size - place - 1
}

fn all_follow(places: &[usize], width: usize, size: usize) -> bool
    ensures { result ≡ list_all (λ p. leb (p + 1 + width) size) places.now }
{
    places.iter().all(|place| follow(*place, width, size))
}

// Whether there are 1 to 255 strings, and each lies within the set.
#[tactic(auto, unfolding(crate::specs::Rows::fitting))]
fn fit(set: &[u8], places: &[usize], width: usize) -> bool
    ensures { result ≡ fitting width set.now places.now }
{
    if places.is_empty() || 255 < places.len() {
        return false;
    }
    all_follow(places, width, set.len())
}
