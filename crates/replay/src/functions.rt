// The functions whose answers are compared, and the kinds of lines: what the letter that a line
// starts with says of it. A further function is a variant of the functions with its arguments, a case
// of kind_of and of its value, and a line of what is printed; a further kind of line is a case of
// LineKind, its length and its judge.
ghost use Rattle.std.specs.Prelude.{◌≡◌, ◌≤◌};
ghost use Rattle.replay.specs.Functions.{longest_line, kind_of, length_by, arguments_of};

// No line has more bytes.
pub(crate) const LONGEST_LINE: usize = 1292;

// By their arguments.
#[derive(Clone, Copy, Debug, PartialEq, Eq)]
pub enum Function {
    OfLevel(LevelFunction),
    OfNumber(NumberFunction),
    OfPair(PairFunction),
    // Of four numbers.
    LnSumExpArray,
    // Of a number, and gives a level.
    LnProbToPhred,
}

#[derive(Clone, Copy, Debug, PartialEq, Eq)]
pub enum LevelFunction {
    PhredToLnErrorProb,
    PhredToLnCorrectProb,
}

#[derive(Clone, Copy, Debug, PartialEq, Eq)]
pub enum NumberFunction {
    Exp,
    Ln,
    LnOnePlus,
    ExpMinusOne,
    LogOnePlusExp,
    LnOneMinusExp,
    LnNot,
}

#[derive(Clone, Copy, Debug, PartialEq, Eq)]
pub enum PairFunction {
    LnAMinusB,
    LnErrorProbTwoTrials,
    LnSumExp,
    LnNormalize,
}

#[derive(Clone, Copy, Debug, PartialEq, Eq)]
pub enum LineKind {
    // The function's arguments and its result.
    FunctionLine(Function),
    // A builder, a script of calls, and the report at its end.
    BuilderLine,
    // A column file and its listing.
    ListingLine,
}

#[tactic(auto, unfolding(crate::specs::Functions::kind_of))]
pub(crate) fn kind_of(letter: u8) -> Option<LineKind>
    ensures { result ≡ kind_of letter }
{
    let function = match letter {
        b'b' => return Some(LineKind::BuilderLine),
        b'x' => return Some(LineKind::ListingLine),
        b'e' => Function::OfNumber(NumberFunction::Exp),
        b'l' => Function::OfNumber(NumberFunction::Ln),
        b'p' => Function::OfNumber(NumberFunction::LnOnePlus),
        b'm' => Function::OfNumber(NumberFunction::ExpMinusOne),
        b'q' => Function::OfLevel(LevelFunction::PhredToLnErrorProb),
        b'r' => Function::OfLevel(LevelFunction::PhredToLnCorrectProb),
        b'f' => Function::LnProbToPhred,
        b'g' => Function::OfNumber(NumberFunction::LogOnePlusExp),
        b'c' => Function::OfNumber(NumberFunction::LnOneMinusExp),
        b'd' => Function::OfPair(PairFunction::LnAMinusB),
        b't' => Function::OfPair(PairFunction::LnErrorProbTwoTrials),
        b's' => Function::OfPair(PairFunction::LnSumExp),
        b'a' => Function::LnSumExpArray,
        b'z' => Function::OfPair(PairFunction::LnNormalize),
        b'n' => Function::OfNumber(NumberFunction::LnNot),
        _ => return None,
    };
    Some(LineKind::FunctionLine(function))
}

// How many bytes a line with this letter has. Where the letter is unknown, no more is read than it
// and the space.
pub(crate) fn line_length(letter: u8) -> usize
    ensures value { result ≡ length_by (kind_of letter) }
    ensures lower_bound { (2 ≤ result) × (result ≤ longest_line) }
{
    match kind_of(letter) {
        Some(LineKind::FunctionLine(function)) => 17 * function.arguments() + 19,
        Some(LineKind::BuilderLine) => 450,
        Some(LineKind::ListingLine) => 1292,
        None => 2,
    }
}

impl Function {
    // How many arguments the function takes.
    pub(crate) fn arguments(self) -> usize
        ensures value { result ≡ arguments_of self }
        ensures upper_bound { result ≤ 4 }
    {
        match self {
            Function::OfLevel(_) | Function::OfNumber(_) | Function::LnProbToPhred => 1,
            Function::OfPair(_) => 2,
            Function::LnSumExpArray => 4,
        }
    }
}
