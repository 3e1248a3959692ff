// What a line of the stored list says of its function, of a builder or of a listing.
ghost use Rattle.std.specs.Prelude.{◌≡◌, ◌≤◌, length};
ghost use Rattle.replay.specs.Lines.{field_of, numbers_of, answer_line, line_verdict_of};

use crate::functions::{Function, LineKind};
use crate::{answers, builders, functions, hex, listings};

// No line has more numbers.
pub(crate) const NUMBERS: usize = 5;

#[derive(Clone, Copy, Debug, PartialEq, Eq)]
pub enum LineVerdict {
    // No line is left.
    End,
    // The letter of the line, whose answer is equal to ours or not.
    Equal(u8),
    Differs(u8),
    NotAnAnswer,
}

// Works the answer of a line out anew, and compares.
#[tactic(auto, unfolding(crate::specs::Lines::line_verdict_of))]
pub(crate) fn judge_line(line: &[u8]) -> LineVerdict
    ensures { result ≡ line_verdict_of line.now }
{
    let Some(&letter) = line.first() else {
        return LineVerdict::End;
    };
    let equal = match functions::kind_of(letter) {
        Some(LineKind::FunctionLine(function)) => answer_line(function, line),
        Some(LineKind::BuilderLine) => builders::builder_line(line),
        Some(LineKind::ListingLine) => listings::listing_line(line),
        None => None,
    };
    match equal {
        Some(true) => LineVerdict::Equal(letter),
        Some(false) => LineVerdict::Differs(letter),
        None => LineVerdict::NotAnAnswer,
    }
}

// Whether the result of a line is what its function gives for the arguments, where it is such a line.
fn answer_line(function: Function, line: &[u8]) -> Option<bool>
    ensures { result ≡ answer_line function line.now }
{
    let last = function.arguments();
    let read = numbers(line, last + 1)?;
    let ours = answers::our_answer(function, read)?;
    Some(ours == read[last])
}

// The numbers of a line, and zeros after them, where the line is in the form: a letter, a field for each
// number, a newline. The fields are read from the last to the first.
#[tactic(auto, unfolding(crate::specs::Lines::numbers_of, crate::specs::Lines::fields_from))]
fn numbers(line: &[u8], count: usize) -> Option<[u64; NUMBERS]>
    requires { count ≤ 5 }
    ensures { result ≡ numbers_of count line.now }
{
    let end = 17 * count + 1;
    if line.len() != end + 1 || line[end] != b'\n' {
        return None;
    }
    // kept: no plainer: `from_fn` of a closure that may find no field would need the array of the options first
    let mut numbers = [0; NUMBERS];
    for k in (0..count).rev() {
        let start = 17 * k + 1;
        numbers[k] = field(&line[start..start + 17])?;
    }
    Some(numbers)
}

// A space and 16 digits.
#[tactic(auto, unfolding(crate::specs::Lines::field_of))]
fn field(bytes: &[u8]) -> Option<u64>
    requires { length bytes.now ≡ 17 }
    ensures { result ≡ field_of bytes.now }
{
    if bytes[0] != b' ' {
        return None;
    }
    hex::hex_number(&bytes[1..])
}
