// What a room of fixed size holds of a stream of any length, and of a text.
#![tactic(auto)]

ghost use Rattle.std.specs.Prelude.{◌≡◌, take};

// One byte more than a file may have, so that a longer one is seen to be.
pub const INPUT_ROOM: usize = string_set::LONGEST_FILE + 1;

// What came in of a stream: a room's first bytes, or all where it has no more.
pub fn front(room: &[u8], read: usize) -> &[u8]
    ensures { result.now ≡ take read room.now }
{
    room.get(..read).unwrap_or(room)
}
