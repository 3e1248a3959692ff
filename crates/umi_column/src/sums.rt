// Kahan's sums of a column's four lanes with no counts: all that the column's byte needs.
ghost use Rattle.std.specs.Prelude.{◌≡◌};
ghost use Rattle.umi_column.specs.Sums.{no_sums, summed_by};

use lane_sums::{LaneSums, moved_lanes};
use tie_rules::{is_base, lanes_after};

// Before the first byte.
pub fn no_sums() -> LaneSums
    ensures { result ≡ no_sums }
{
    LaneSums {
        likelihoods: [0.0; 4],
        compensations: [0.0; 4],
    }
}

// A byte that is no base leaves the sums as they are.
pub fn add_base(sums: LaneSums, window: &[f64; 8], byte: u8) -> LaneSums
    ensures { result ≡ summed_by window.now byte sums }
{
    if !is_base(byte) {
        return sums;
    }
    let start = lanes_after(byte);
    let values = [
        window[start],
        window[start + 1],
        window[start + 2],
        window[start + 3],
    ];
    moved_lanes(sums, values)
}
