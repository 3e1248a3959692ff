// Sums over the qualities of a column.
ghost use Rattle.std.specs.Prelude.{◌≡◌, ◌%◌, ◌^◌, ◌≤◌, length};
ghost use Rattle.column_file.specs.Places.{observations_in};
ghost use Rattle.expected_errors.specs.Sums.{errors_with, error_sum};
ghost use Rattle.expected_errors.specs.Laws.{most_qualities};

use crate::table::error_table;

// What a table gives for the qualities of a column's bytes, base and quality in turn, whatever the bases.
// In 64 bits: what goes beyond is lost.
pub fn errors_with(observations: &[u8], errors: &[u64; 256]) -> u64
    ensures { result ≡ errors_with errors.now (observations_in observations.now) % 2 ^ 64 }
{
    let mut sum = 0u64;
    for observation in observations.chunks_exact(2) {
        sum = sum.wrapping_add(errors[usize::from(observation[1])]);
    }
    sum
}

// The same by the table of error probabilities; up to 65,535 qualities nothing is lost.
pub fn error_sum(observations: &[u8]) -> u64
    ensures sum { result ≡ error_sum (observations_in observations.now) % 2 ^ 64 }
    ensures exact { length (observations_in observations.now) ≤ most_qualities → result ≡ error_sum (observations_in observations.now) }
{
    errors_with(observations, error_table())
}
