// A line of a listing: a column file, and the text that is printed for it.
ghost use Rattle.std.specs.Prelude.{◌≡◌, ◌≤◌, length, option_copied};
ghost use Rattle.column_listing.specs.Listing.{listing_of};
ghost use Rattle.replay.specs.Listings.{held_in, is_listing, listing_line};

use crate::fields::read_field;

// How many bytes the text of a line has at most.
const TEXT: usize = 512;

// Whether the text of a line is the listing of its file. The form of a line: a letter, two fields, a
// newline.
#[tactic(auto, unfolding(crate::specs::Listings::listing_line))]
pub(crate) fn listing_line(line: &[u8]) -> Option<bool>
    ensures { result ≡ listing_line line.now }
{
    if line.len() != 1292 || line[1291] != b'\n' {
        return None;
    }
    let file: [u8; 130] = read_field(&line[1..262])?;
    let text: [u8; 514] = read_field(&line[262..1291])?;
    Some(is_listing(held(&file)?, held(&text)?))
}

// As many bytes of a field as its first two say, the low byte first.
fn held(field: &[u8]) -> Option<&[u8]>
    requires { 2 ≤ length field.now }
    ensures { option_copied result ≡ held_in field.now }
{
    let size = u16::from_le_bytes([field[0], field[1]]);
    field[2..].get(..usize::from(size))
}

// Whether the text is our listing of the file.
fn is_listing(file: &[u8], text: &[u8]) -> bool
    ensures { result ≡ is_listing (listing_of file.now) text.now }
{
    // kept: rule of the project: no heap, so our listing goes into a fixed array
    let mut ours = [0; TEXT];
    let n = column_listing::print(file, &mut ours).unwrap_or(0);
    &ours[..n] == text
}
