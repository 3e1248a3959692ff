// The error sums of a file, into a borrowed buffer.
// kept: no plainer: what is read and the buffer that is written are two borrows, which a struct would only join
ghost use Rattle.std.specs.Prelude.{◌≡◌, ◌<◌};
ghost use Rattle.lent_bytes.specs.Buffer.{written, written_length};
ghost use Rattle.lent_text.specs.Printed.{Printed};
ghost use Rattle.string_set.specs.Readers.{longest_file};
ghost use Rattle.column_file.specs.Places.{columns_at, observations_in};
ghost use Rattle.column_errors.specs.ErrorSums.{error_sums_of};
ghost use Rattle.column_errors.specs.Tables.{sum_line_with, sum_lines_with};

use column_file::Columns;
use expected_errors::{error_table, errors_with};
use lent_text::Printer;
use refusal_text::print_refusal;
use whole_text::{Text, put_whole};

// Inlined, as is what prints a line for each column, so that the printer stays in registers.
#[inline(always)]
fn put_sum(p: &mut Printer, column: &[u8], errors: &[u64; 256])
    ensures { Printed p.old p.new (sum_line_with errors.now (observations_in column.now)) }
{
    p.decimal(errors_with(column, errors));
    p.byte(b'\n');
}

// What a text is printed from: a line for each column.
// kept: no plainer: nothing compares or prints it
#[derive(Clone, Copy)]
struct Sums<'a> {
    columns: Columns<'a>,
    errors: &'a [u64; 256],
    ghost few: { columns.left < longest_file },
}

impl Text for Sums<'_> {
    ghost text = { λ s. sum_lines_with s.errors.now (columns_at s.columns.file.now s.columns.at s.columns.left) };

    // A line has at most 21 bytes.
    fn longest(&self) -> usize {
        21 * self.columns.left
    }

    #[inline(always)]
    fn put(&self, p: &mut Printer) {
        // Read once, so that the proof knows its range.
        let _from = p.at;
        for column in self.columns {
            put_sum(p, column, self.errors);
        }
    }
}

// How long what the program prints for a file is, the line of a refused one included; none where the
// buffer is too short, which is then left as it is. A file without columns has an empty text.
pub fn print(file: &[u8], out: &mut [u8]) -> Option<usize>
    ensures reply { result ≡ written_length (error_sums_of file.now) out.old }
    ensures lent { out.new ≡ written (error_sums_of file.now) out.old }
{
    match column_file::read(file) {
        Ok(places) => {
            let sums = Sums {
                columns: Columns {
                    file,
                    at: places.columns,
                    left: places.count,
                },
                errors: error_table(),
            };
            put_whole(&sums, out)
        }
        Err(refusal) => print_refusal(refusal, out),
    }
}
