// A program that prints a text for the stream on its standard input. That a read or a write failed is said
// on standard error, and there alone, and by the exit status 1.
#![tactic(auto)]

ghost use Rattle.std.specs.Prelude.{◌≡◌, ◌≤◌, ℕ, List, length, take};
ghost use Rattle.streams.specs.Streams.{onto};
ghost use Rattle.std.specs.Process.{exit_status};

use std::io;
use std::io::Read;
use std::process::ExitCode;
use streams::INPUT_ROOM;

pub trait Program<const TEXT: usize> {
    // The text for a stream.
    ghost said: { Self → List ℕ → List ℕ };

    // What the program calls itself on standard error.
    const NAME: &'static str;

    // kept: no plainer: that a room holds the front of a stream is said of the room and of how much was read
    // The text for a stream whose first `read` bytes are in the room, and how long it is.
    fn print(&self, room: &[u8; INPUT_ROOM], read: usize, text: &mut [u8; TEXT]) -> usize
        ensures reply { result ≡ length (said self.now (take read room.now)) }
        ensures lent { text.new ≡ onto (said self.now (take read room.now)) text.old };
}

// Made in a function of its own, so that no proof meets that many zeros.
fn input_room() -> [u8; INPUT_ROOM]
    ensures { INPUT_ROOM ≡ length result }
{
    [0; INPUT_ROOM]
}

// Reads until the room is full or the input ends, and counts the bytes. A read that fails is not its end.
// kept: no plainer: `read_exact` does not say how many bytes came before the input ended
fn read_input<R: Read>(input: &mut R, room: &mut [u8]) -> io::Result<usize> {
    let mut done = 0;
    while done < room.len() {
        match input.read(&mut room[done..])? {
            0 => break,
            more => done += more,
        }
    }
    Ok(done)
}

// Where standard error takes no line either, the status alone says that something failed.
fn fail(rt: &impl Eprint, name: &str, what: &str) -> ExitCode
    ensures { exit_status result ≡ 1 }
{
    let _ = eprintln!(rt; "{name}: {what}");
    ExitCode::FAILURE
}

// A text that is cut must not pass for a whole one.
fn write_text(rt: &(impl Print + Eprint), name: &str, text: &[u8]) -> ExitCode
    ensures { exit_status result ≤ 1 }
{
    match rt.write_all(text) {
        Ok(()) => ExitCode::SUCCESS,
        Err(_) => fail(rt, name, "not all of the text could be written"),
    }
}

// The status is 0, or 1 where something failed.
pub fn run<const TEXT: usize, P: Program<TEXT>, R: Read>(
    rt: &(impl Print + Eprint),
    input: &mut R,
    program: &P,
    text: &mut [u8; TEXT],
) -> ExitCode
    ensures { exit_status result ≤ 1 }
{
    let mut room = input_room();
    let Ok(read) = read_input(input, &mut room) else {
        return fail(rt, P::NAME, "standard input could not be read");
    };
    let n = program.print(&room, read, text);
    write_text(rt, P::NAME, streams::front(text, n))
}
