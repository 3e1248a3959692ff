// Lists the column file on standard input. A refused file has its line on standard output.
#![tactic(auto)]

ghost use Rattle.column_listing.specs.Listing.{listing_of};

use std::process::ExitCode;
use stream_listing::TEXT_ROOM;
use stream_program::Program;
use streams::INPUT_ROOM;

struct Listing;

impl Program<TEXT_ROOM> for Listing {
    ghost said = { λ p s. listing_of s };

    const NAME: &'static str = "listing";

    fn print(&self, room: &[u8; INPUT_ROOM], read: usize, text: &mut [u8; TEXT_ROOM]) -> usize {
        stream_listing::print_stream(room, read, text)
    }
}

// Made in a function of its own, so that no proof meets that many zeros.
fn text_room() -> [u8; TEXT_ROOM] {
    [0; TEXT_ROOM]
}

fn main(rt: HostRuntime) -> ExitCode {
    stream_program::run(&rt, &mut rt.stdin(), &Listing, &mut text_room())
}
