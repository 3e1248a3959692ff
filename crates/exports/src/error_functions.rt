// The expected errors of a read: the number of a quality, their sum over a column's bytes, and the sums of
// a file's columns as text.
ghost use Rattle.std.specs.Prelude.{◌≡◌, ◌%◌, ◌^◌, ◌≤◌, length};
ghost use Rattle.lent_bytes.specs.Buffer.{length_written, written};
ghost use Rattle.column_file.specs.Places.{observations_in};
ghost use Rattle.expected_errors.specs.Table.{error_of};
ghost use Rattle.expected_errors.specs.Sums.{error_sum};
ghost use Rattle.expected_errors.specs.Laws.{most_qualities};
ghost use Rattle.column_errors.specs.ErrorSums.{error_sums_of};

use crate::reply;

#[unsafe(no_mangle)]
pub extern "C" fn consensus_error_entry(quality: u8) -> u64
    ensures { result ≡ error_of quality }
{
    expected_errors::error_entry(quality)
}

// Over base and quality in turn, whatever the bases; exact up to 65,535 of them.
#[unsafe(no_mangle)]
pub extern "C" fn consensus_error_sum(observations: &[u8]) -> u64
    ensures sum { result ≡ error_sum (observations_in observations.now) % 2 ^ 64 }
    ensures exact { length (observations_in observations.now) ≤ most_qualities → result ≡ error_sum (observations_in observations.now) }
{
    expected_errors::error_sum(observations)
}

// The text that the program prints, and its length; 0 where the buffer is too short, and for the empty
// text of a file without columns.
#[unsafe(no_mangle)]
pub extern "C" fn consensus_error_sums(file: &[u8], out: &mut [u8]) -> u64
    ensures reply { result ≡ length_written (error_sums_of file.now) out.old }
    ensures lent { out.new ≡ written (error_sums_of file.now) out.old }
{
    reply(column_errors::print(file, out))
}
