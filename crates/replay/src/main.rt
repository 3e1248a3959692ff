// Replays a stored list of answers: reads each line from standard input, works its answer out anew
// and compares the two, bit for bit. The counts at the end say how many answers were compared.
#![tactic(auto)]

mod answers;
mod builders;
mod counts;
mod fields;
mod functions;
mod hex;
mod lines;
mod listings;

ghost use Rattle.std.specs.Prelude.{◌≡◌, ◌≤◌, length, take};
ghost use Rattle.replay.specs.Functions.{longest_line};

use counts::{Count, Counts, NONE_YET};
use functions::LONGEST_LINE;
use lines::LineVerdict;
use std::io;
use std::io::Read;
use std::process::ExitCode;

// A proved loop has to end, and nothing says that an input does. No stored list is this long.
const MOST_LINES: u64 = 1_000_000;

// What is counted, each with the letter of its lines, in the order in which the counts are printed.
const COUNTED: [(&str, u8); 17] = [
    ("exp", b'e'),
    ("ln", b'l'),
    ("ln_1p", b'p'),
    ("exp_m1", b'm'),
    ("phred_to_ln_error_prob", b'q'),
    ("phred_to_ln_correct_prob", b'r'),
    ("ln_prob_to_phred", b'f'),
    ("log1pexp", b'g'),
    ("ln_one_minus_exp", b'c'),
    ("ln_a_minus_b", b'd'),
    ("ln_error_prob_two_trials", b't'),
    ("ln_sum_exp", b's'),
    ("ln_sum_exp_array", b'a'),
    ("ln_normalize", b'z'),
    ("ln_not", b'n'),
    ("builder", b'b'),
    ("listing", b'x'),
];

// What could not be written ends it with the exit status 1.
fn main(rt: HostRuntime) -> ExitCode {
    match replay(&rt, &mut rt.stdin()) {
        Ok(()) => ExitCode::SUCCESS,
        Err(_) => ExitCode::FAILURE,
    }
}

// Every line of the list, and then the counts.
fn replay<P: Print, R: Read>(rt: &P, input: &mut R) -> io::Result<()> {
    let mut counts = [NONE_YET; 256];
    for line in 1..=MOST_LINES {
        let verdict = next_line(rt, input)?;
        match verdict {
            LineVerdict::End => break,
            LineVerdict::NotAnAnswer => return println!(rt; "not an answer: line {line}"),
            LineVerdict::Equal(_) | LineVerdict::Differs(_) => {
                counts::count_line(&mut counts, verdict);
            }
        }
    }
    print_all(rt, &counts)
}

// Reads a line and judges it. A line that differs is written out.
fn next_line<P: Print, R: Read>(rt: &P, input: &mut R) -> io::Result<LineVerdict> {
    // kept: rule of the project: no heap, so a line is read into a fixed array
    let mut room = [0u8; LONGEST_LINE];
    let n = read_line(input, &mut room);
    let verdict = lines::judge_line(&room[..n]);
    if let LineVerdict::Differs(_) = verdict {
        rt.write_all(b"differs: ")?;
        rt.write_all(&room[..n])?;
    }
    Ok(verdict)
}

// Reads a line to the start of room, and answers how many bytes came: the letter and the space, and
// then as many as a line with that letter has. No bytes are the end of the list.
fn read_line<R: Read>(input: &mut R, room: &mut [u8]) -> usize
    requires { longest_line ≤ length room.old }
    ensures bound { result ≤ length room.new }
    ensures front { result ≡ length (take result room.new) }
{
    let start = read_full(input, &mut room[..2]);
    if start < 2 {
        return start;
    }
    let end = functions::line_length(room[0]);
    2 + read_full(input, &mut room[2..end])
}

// Reads until the room is full, the input ends or a read fails, and answers how many bytes came.
// kept: no plainer: `read_exact` does not say how many bytes came before the input ended
fn read_full<R: Read>(input: &mut R, room: &mut [u8]) -> usize
    ensures bound { result ≤ length room.new }
    ensures front { result ≡ length (take result room.new) }
{
    let mut done = 0;
    while done < room.len() {
        match input.read(&mut room[done..]) {
            Ok(0) | Err(_) => break,
            Ok(more) => done += more,
        }
    }
    done
}

fn print_all<P: Print>(rt: &P, counts: &Counts) -> io::Result<()> {
    for (name, letter) in COUNTED {
        let Count { all, equal } = counts[usize::from(letter)];
        println!(rt; "{name}: {equal} of {all} equal")?;
    }
    Ok(())
}
