// What a call adds to a sum, and a sum over many rounds.
ghost use Rattle.std.specs.Prelude.{◌≡◌, ℕ, ◌+◌, ◌*◌, ◌%◌, ◌^◌};
ghost use Rattle.export_timing.specs.Amounts.{amount_of};

use lane_calls::Call;

pub(crate) fn amount(call: Call) -> u64
    ensures { result ≡ amount_of call }
{
    u64::from(call.base) + u64::from(call.qual.0)
}

// The sum after that number of rounds: as each round takes the sum of those before it, none can be left
// out.
pub(crate) fn repeated<F: Fn(u64) -> u64>(times: u32, round: F) -> u64
    requires { F.IsAlwaysCallable round }
    ensures { (more : ℕ) → ((sum after : ℕ) → F.post round sum after → after ≡ (sum + more) % 2 ^ 64) → result ≡ times * more % 2 ^ 64 }
{
    let mut sum = 0;
    for done in 0..times {
        sum = round(sum);
    }
    sum
}
