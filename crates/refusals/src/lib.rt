// All numbered conditions (SCOPE 7) under which something is refused: a column file or a part of one, a string set, a base, a step of
// writing.
#![tactic(auto)]

ghost use Rattle.std.specs.Prelude.{◌≡◌, ◌++◌, codes, Some};
ghost use Rattle.std.specs.Fmt.{decimal};
ghost use Rattle.refusals.specs.Refusals.{number_of};

use std::error::Error;
use std::fmt;

// In the order of their numbers, each with the definition that says where it holds.
#[derive(Clone, Copy, Debug, PartialEq, Eq)]
pub enum Refusal {
    // 1, over 65,536 bytes: `lone` in string_set/specs/Readers.
    FileTooLong = 1,
    // 2, a count is missing, cut off or reaches past the end, or bytes remain: `alone` in string_set/specs/Readers.
    CutOff = 2,
    // 3, the settings are not three, or the tie rule is neither 0 nor 1: `settings_of` in column_file/specs/Reading.
    BadSettings = 3,
    // 4, a quality of 255: `observation_verdict` in column_file/specs/Reading.
    AbsentQuality = 4,
    // 5, there are no strings: `call_verdict` in simple_consensus/specs/Verdicts.
    NoStrings = 5,
    // 6, the strings' lengths differ: `umis_verdict` in simple_consensus/specs/Verdicts.
    LengthsDiffer = 6,
    // 7, a byte of 128 or more: `family_verdict` in simple_consensus/specs/Verdicts.
    NotAscii = 7,
    // 8, a non-DNA byte unlike the first string's: `verdict_of` in umi_column/specs/Verdicts.
    UnlikeFirst = 8,
    // 9, DNA and non-DNA in one column: `verdict_of` in umi_column/specs/Verdicts.
    Mixed = 9,
    // 10, the answer buffer is shorter than the answer: `room_for` in umi_groups/specs/Found, `room_for_text` in column_listing/specs/Answers.
    BufferTooShort = 10,
    // 11, a base meets a builder that has counted 4,294,967,295 or more: `add_answer` in base_builder/specs/Builder.
    FullBuilder = 11,
    // 12, the buffer has no room for a part of the file: `room_for_part` in column_writer/specs/Writing.
    NoRoomForPart = 12,
    // 13, a step of writing out of turn: `in_turn` and `awaits_finish` in column_writer/specs/Stages.
    OutOfTurn = 13,
}

// The number of a condition.
impl From<Refusal> for u8 {
    ghost from_gives = { λ r n. n ≡ number_of r };

    fn from(refusal: Refusal) -> u8 {
        refusal as u8
    }
}

// The number behind a word, as the programs print it on a line of its own.
impl fmt::Display for Refusal {
    ghost output = { λ r. Some (codes "refused " ++ decimal (number_of r)) };

    fn fmt<W: fmt::Write>(&self, f: &mut fmt::Formatter<W>) -> fmt::Result {
        let number = u8::from(*self);
        write!(f, "refused {number}")
    }
}

impl Error for Refusal {}
