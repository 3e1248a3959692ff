// What one observation does to the lanes.
ghost use Rattle.std.specs.Prelude.{◌≡◌, ◌<◌};
ghost use Rattle.tie_rules.specs.Lanes.{lanes, lane};
ghost use Rattle.lane_sums.specs.Observation.{moved_by, moved_lanes, value_of, count_of};

// A lane's running sum and its compensation.
#[derive(Clone, Copy, Debug, PartialEq)]
pub struct Sum {
    pub lane: f64,
    pub compensation: f64,
}

// Those of the four lanes.
// kept: rule of the project: the builder has two arrays of f64, which go in and out as these
#[derive(Clone, Copy, Debug, PartialEq)]
pub struct LaneSums {
    pub likelihoods: [f64; 4],
    pub compensations: [f64; 4],
}

impl LaneSums {
    ghost use Rattle.lane_sums.specs.Observation.{sum_at};

    fn at(self, i: usize) -> Sum
        requires { i < 4 }
        ensures { result ≡ sum_at self i }
    {
        Sum {
            lane: self.likelihoods[i],
            compensation: self.compensations[i],
        }
    }
}

// Kahan's step.
#[tactic(auto, unfolding(crate::specs::Observation::moved_by))]
fn moved(value: f64, s: Sum) -> Sum
    ensures { result ≡ moved_by value s }
{
    let y = value - s.compensation;
    let t = s.lane + y;
    Sum {
        lane: t,
        compensation: (t - s.lane) - y,
    }
}

// Each lane moved by its value.
pub fn moved_lanes(sums: LaneSums, values: [f64; 4]) -> LaneSums
    ensures { result ≡ moved_lanes (lane values) sums }
{
    let after: [Sum; 4] = std::array::from_fn(|i| moved(values[i], sums.at(i)));
    LaneSums {
        likelihoods: after.map(|s| s.lane),
        compensations: after.map(|s| s.compensation),
    }
}

// What each lane is moved by where lane k was observed.
pub fn values(correct: f64, error: f64, k: usize) -> [f64; 4]
    ensures { result ≡ lanes (value_of correct error k) }
{
    std::array::from_fn(|i| if i == k { correct } else { error })
}

// The count of lane i after lane k was observed.
#[tactic(auto, unfolding(crate::specs::Observation::count_of))]
pub fn count(n: u32, k: usize, i: usize) -> u32
    ensures { result ≡ count_of n k i }
{
    if i == k { n.wrapping_add(1) } else { n }
}
