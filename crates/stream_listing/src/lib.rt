// The listing of a stream of any length, from the front of it that a room of fixed size holds, into a
// room that holds every listing.
#![tactic(auto)]

ghost use Rattle.std.specs.Prelude.{◌≡◌, List, ℕ, ◌<◌, length, take};
ghost use Rattle.streams.specs.Streams.{FrontOf, onto};
ghost use Rattle.column_listing.specs.Listing.{listing_of};

use streams::{INPUT_ROOM, front};

// Holds every listing.
pub const TEXT_ROOM: usize = 2400000;

// What the program prints for a stream whose first `read` bytes are in the room, and how long that is.
// What follows in the stream changes nothing, and every listing has room.
// kept: no plainer: that a room holds the front of a stream is said of the room and of how much was read
pub fn print_stream(room: &[u8; INPUT_ROOM], read: usize, text: &mut [u8; TEXT_ROOM]) -> usize
    ensures reply { result ≡ length (listing_of (take read room.now)) }
    ensures lent { text.new ≡ onto (listing_of (take read room.now)) text.old }
    ensures whole { (stream : List ℕ) → FrontOf stream read room.now → listing_of stream ≡ listing_of (take read room.now) }
    ensures some { 0 < result }
{
    column_listing::print(front(room, read), text).unwrap_or(0)
}
