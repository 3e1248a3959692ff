// Prints the error sum of each column of the file on standard input. A refused file has its line on
// standard output.
#![tactic(auto)]

ghost use Rattle.column_errors.specs.ErrorSums.{error_sums_of};

use column_errors::TEXT_ROOM;
use std::process::ExitCode;
use stream_program::Program;
use streams::INPUT_ROOM;

struct ErrorSums;

impl Program<TEXT_ROOM> for ErrorSums {
    ghost said = { λ p s. error_sums_of s };

    const NAME: &'static str = "error_sums";

    fn print(&self, room: &[u8; INPUT_ROOM], read: usize, text: &mut [u8; TEXT_ROOM]) -> usize {
        column_errors::print_stream(room, read, text)
    }
}

// Made in a function of its own, so that no proof meets that many zeros.
fn text_room() -> [u8; TEXT_ROOM] {
    [0; TEXT_ROOM]
}

fn main(rt: HostRuntime) -> ExitCode {
    stream_program::run(&rt, &mut rt.stdin(), &ErrorSums, &mut text_room())
}
