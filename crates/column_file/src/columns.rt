// The columns of a file: one off the front, by its place, or one after another, and the first faulty
// observation.
ghost use Rattle.std.specs.Prelude.{if◌then◌else◌};
ghost use Rattle.std.specs.Prelude.{Err, Ok, List, ◌≡◌, ◌+◌, ◌*◌, ◌<◌, length, Some, None, MatchOption};
ghost use Rattle.std.specs.Iterator.{YieldsFirstBy, item_count};
ghost use Rattle.std.specs.Option.{ok_or};
ghost use Rattle.refusals.specs.declared.Refusal.TheVariants.{CutOff, AbsentQuality};
ghost use Rattle.refusals.specs.Refusals.{number_in};
ghost use Rattle.refusals.specs.Result.{map_ok};
ghost use Rattle.string_set.specs.Readers.{taken, short, word, many};
ghost use Rattle.column_file.specs.Format.{Observation, column};
ghost use Rattle.column_file.specs.Reading.{column_verdict, columns_verdict, read_column};
ghost use Rattle.column_file.specs.Places.{column_at, column_number_at, columns_at, observations_in};

use refusals::Refusal;

// Where the first observation of a column is, and how many there are.
#[derive(Clone, Copy, Debug, PartialEq, Eq)]
pub struct ColumnPlace {
    pub start: usize,
    pub count: usize,
}

// The count in the two bytes at the front, the low byte first, and what follows it.
pub(crate) fn first_word(bytes: &[u8]) -> Option<(usize, &[u8])>
    ensures { MatchOption result (word bytes.now ≡ short) (λ p. (word bytes.now ≡ taken p.0 p.1.now) × (p.0 < 65536)) }
{
    let (count, rest) = bytes.split_first_chunk()?;
    Some((usize::from(u16::from_le_bytes(*count)), rest))
}

// The bytes of the observations in the column at the front, and what follows it; none where they do not
// reach.
fn first_column(bytes: &[u8]) -> Option<(&[u8], &[u8])>
    ensures { MatchOption result (column bytes.now ≡ short)
        (λ p. (column bytes.now ≡ taken (observations_in p.0.now) p.1.now)
        × (length p.0.now ≡ 2 * length (observations_in p.0.now))) }
{
    let (count, rest) = first_word(bytes)?;
    rest.split_at_checked(2 * count)
}

// The column whose count is at a place.
pub fn column_at(file: &[u8], at: usize) -> Option<ColumnPlace>
    ensures place { result ≡ column_at file.now at }
    ensures number { number_in (ok_or result CutOff) ≡ column_number_at file.now at }
{
    let (column, _) = first_column(file.get(at..)?)?;
    Some(ColumnPlace {
        start: at + 2,
        count: column.len() / 2,
    })
}

// The columns that are left of those from a place on, each as the bytes of its observations. It ends where
// the bytes do not reach.
// kept: no plainer: nothing compares or prints it
#[derive(Clone, Copy)]
pub struct Columns<'a> {
    pub file: &'a [u8],
    pub at: usize,
    pub left: usize,
}

impl<'a> Iterator for Columns<'a> {
    type Item = &'a [u8];

    ghost next_gives = { YieldsFirstBy (λ c. observations_in c.now) (λ s. columns_at s.file.now s.at s.left) };

    ghost remaining = { item_count (λ s. columns_at s.file.now s.at s.left) };

    fn next(&mut self) -> Option<&'a [u8]> {
        if self.left == 0 {
            return None;
        }
        let (column, _) = first_column(self.file.get(self.at..)?)?;
        self.at += 2 + column.len();
        self.left -= 1;
        Some(column)
    }
}

// Whether a quality is 255. The one way out lets it go by many bytes at a time.
fn any_absent(observations: &[u8]) -> bool
    ensures { column_verdict (observations_in observations.now) ≡ (if result then Err AbsentQuality else Ok tt) }
{
    let (pairs, _) = observations.as_chunks::<2>();
    let mut absent = false;
    for pair in pairs {
        absent = absent | (pair[1] == 255);
    }
    absent
}

// The first faulty one of a column's observations: 32 at a time, so that a long column is left soon.
fn column_verdict(column: &[u8]) -> Result<(), Refusal>
    ensures { result ≡ column_verdict (observations_in column.now) }
{
    let mut rest = column;
    while let Some((block, after)) = rest.split_first_chunk::<64>() {
        if any_absent(block) {
            return Err(Refusal::AbsentQuality);
        }
        rest = after;
    }
    if any_absent(rest) {
        return Err(Refusal::AbsentQuality);
    }
    Ok(())
}

// What follows the n columns at the front, and the first faulty observation of theirs.
pub(crate) fn walk_columns(bytes: &[u8], n: usize) -> Option<(Result<(), Refusal>, &[u8])>
    ensures { MatchOption result (many column n bytes.now ≡ short)
        (λ p. (cs : List (List Observation)) × (many column n bytes.now ≡ taken cs p.1.now) × (p.0 ≡ columns_verdict cs)) }
{
    let mut rest = bytes;
    let mut verdict = Ok(());
    for _ in 0..n {
        let (column, after) = first_column(rest)?;
        verdict = verdict.and(column_verdict(column));
        rest = after;
    }
    Some((verdict, rest))
}

// Reads one column, alone.
pub fn read_column(part: &[u8]) -> Result<usize, Refusal>
    ensures reading { result ≡ map_ok length (read_column part.now) }
    ensures number { number_in result ≡ number_in (read_column part.now) }
{
    if string_set::LONGEST_FILE < part.len() {
        return Err(Refusal::FileTooLong);
    }
    let Some((column, rest)) = first_column(part) else {
        return Err(Refusal::CutOff);
    };
    if !rest.is_empty() {
        return Err(Refusal::CutOff);
    }
    column_verdict(column)?;
    Ok(column.len() / 2)
}
