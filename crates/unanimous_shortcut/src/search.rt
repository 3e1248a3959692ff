// The search in a table of thresholds.
ghost use Rattle.std.specs.Prelude.{◌≡◌, ◌+◌, ◌≤◌};
ghost use Rattle.unanimous_shortcut.specs.Search.{advanced, partition_point};

// The first two steps, of 64 and of 32 entries: where the first is made, the second would leave the table.
// Neither waits for the other.
#[tactic(auto, unfolding(crate::specs::Search::advanced))]
fn first_steps(thresholds: &[f64; 94], gap: f64) -> usize
    ensures steps { result ≡ advanced thresholds.now gap (advanced thresholds.now gap 0 64) 32 }
    ensures held { result ≤ 64 }
{
    if thresholds[63] <= gap {
        return 64;
    }
    if thresholds[31] <= gap { 32 } else { 0 }
}

// A step that stays in the table, s entries further on from p.
#[tactic(auto, unfolding(crate::specs::Search::advanced))]
fn advance(thresholds: &[f64; 94], gap: f64, p: usize, s: usize) -> usize
    requires s_bound { p + s ≤ 94 }
    requires le_s { 1 ≤ s }
    ensures step { result ≡ advanced thresholds.now gap p s }
    ensures held { result ≤ p + s }
{
    if thresholds[p + s - 1] <= gap {
        p + s
    } else {
        p
    }
}

// The last step, of one entry. From 94 on there is none to make, and both ways lead to 94.
fn last_step(thresholds: &[f64; 94], gap: f64, p: usize) -> usize
    requires { p ≤ 94 }
    ensures step { result ≡ advanced thresholds.now gap p 1 }
    ensures held { result ≤ 94 }
{
    let i = p.min(93);
    if thresholds[i] <= gap { i + 1 } else { p }
}

// How many entries, from the first on, are at or below the gap, found by halving. So many steps serve
// any table of 94 entries, and none is a branch.
// kept: rule of the project: the program works `partition_point` out itself.
#[tactic(auto, unfolding(crate::specs::Search::partition_point, crate::specs::Search::searched))]
pub fn partition_point(thresholds: &[f64; 94], gap: f64) -> usize
    ensures point { result ≡ partition_point thresholds.now gap }
    ensures held { result ≤ 94 }
{
    let p = first_steps(thresholds, gap);
    let p = advance(thresholds, gap, p, 16);
    let p = advance(thresholds, gap, p, 8);
    let p = advance(thresholds, gap, p, 4);
    let p = advance(thresholds, gap, p, 2);
    last_step(thresholds, gap, p)
}
