// The error sums of a stream of any length, from the front of it that a room of fixed size holds, into a
// room that holds every text.
ghost use Rattle.std.specs.Prelude.{◌≡◌, List, ℕ, length, take};
ghost use Rattle.streams.specs.Streams.{FrontOf, onto};
ghost use Rattle.column_errors.specs.ErrorSums.{error_sums_of};

use crate::sums::print;
use streams::{INPUT_ROOM, front};

// Holds every text.
pub const TEXT_ROOM: usize = 700000;

// What the program prints for a stream whose first `read` bytes are in the room, and how long that is.
// What follows in the stream changes nothing, and every text has room.
// kept: no plainer: that a room holds the front of a stream is said of the room and of how much was read
pub fn print_stream(room: &[u8; INPUT_ROOM], read: usize, text: &mut [u8; TEXT_ROOM]) -> usize
    ensures reply { result ≡ length (error_sums_of (take read room.now)) }
    ensures lent { text.new ≡ onto (error_sums_of (take read room.now)) text.old }
    ensures whole { (stream : List ℕ) → FrontOf stream read room.now → error_sums_of stream ≡ error_sums_of (take read room.now) }
{
    print(front(room, read), text).unwrap_or(0)
}
