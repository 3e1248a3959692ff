// The listing of a file, into a borrowed buffer.
// kept: no plainer: what is read and the buffer that is written are two borrows, which a struct would only join
ghost use Rattle.std.specs.Prelude.{◌≡◌, ◌+◌, ◌*◌, ◌≤◌, ◌<◌, length};
ghost use Rattle.lent_bytes.specs.Buffer.{written, written_length};
ghost use Rattle.refusals.specs.Refusals.{number_in};
ghost use Rattle.refusals.specs.Result.{map_ok};
ghost use Rattle.string_set.specs.Readers.{longest_file};
ghost use Rattle.column_file.specs.Places.{columns_at};
ghost use Rattle.column_calls.specs.Callers.{called_by};
ghost use Rattle.listing_lines.specs.Tables.{text_with};
ghost use Rattle.column_listing.specs.Listing.{listed_file, listing_of};
ghost use Rattle.column_listing.specs.Answers.{listed_in, listing_buffer};

use column_calls::ColumnCaller;
use column_file::Columns;
use judged_file::judge;
use lent_text::Printer;
use listing_lines::put_text;
use refusal_text::print_refusal;
use refusals::Refusal;
use whole_text::{Text, put_whole};

// What a text is printed from, and that a line of a column has at most 70 bytes.
// kept: no plainer: nothing compares or prints it
#[derive(Clone, Copy)]
struct Listed<'a> {
    caller: &'a ColumnCaller,
    columns: Columns<'a>,
    text: &'a [u8],
    had_errors: bool,
    ghost few: { columns.left < longest_file },
    ghost longest: { length (text_with (called_by caller.now) (columns_at columns.file.now columns.at columns.left) text.now had_errors) ≤ 300 + 70 * columns.left },
}

impl Text for Listed<'_> {
    ghost text = { λ l. text_with (called_by l.caller.now) (columns_at l.columns.file.now l.columns.at l.columns.left) l.text.now l.had_errors };

    fn longest(&self) -> usize {
        300 + 70 * self.columns.left
    }

    fn put(&self, p: &mut Printer) {
        put_text(p, self.caller, self.columns, self.text, self.had_errors);
    }
}

// How long the text of an accepted file is, where it fits.
fn write(file: &[u8], out: &mut [u8]) -> Result<Option<usize>, Refusal>
    ensures reply { result ≡ map_ok (λ t. written_length t out.old) (listed_file file.now) }
    ensures lent { out.new ≡ listing_buffer out.old (listed_in file.now out.old) }
{
    let judged = judge(file)?;
    let places = judged.places;
    let caller = ColumnCaller::new(places.settings);
    let listed = Listed {
        caller: &caller,
        columns: Columns {
            file,
            at: places.columns,
            left: places.count,
        },
        text: judged.text(),
        had_errors: judged.had_errors,
    };
    Ok(put_whole(&listed, out))
}

// How long the listing of a file is, or the number by which it is refused: 10 where the buffer is too
// short, which is then left as it is.
pub fn list(file: &[u8], out: &mut [u8]) -> Result<usize, Refusal>
    ensures answer { result ≡ map_ok length (listed_in file.now out.old) }
    ensures lent { out.new ≡ listing_buffer out.old (listed_in file.now out.old) }
    ensures number { number_in result ≡ number_in (listed_in file.now out.old) }
{
    write(file, out)?.ok_or(Refusal::BufferTooShort)
}

// How long what the program prints for a file is, the line of a refused one included; none where the
// buffer is too short, which is then left as it is.
pub fn print(file: &[u8], out: &mut [u8]) -> Option<usize>
    ensures reply { result ≡ written_length (listing_of file.now) out.old }
    ensures lent { out.new ≡ written (listing_of file.now) out.old }
{
    match write(file, out) {
        Ok(n) => n,
        Err(refusal) => print_refusal(refusal, out),
    }
}
