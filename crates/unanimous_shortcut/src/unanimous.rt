// The shortcut where one base alone was observed.
ghost use Rattle.std.specs.Prelude.{◌≡◌, ◌≤◌, ◌<◌, Some, IfSome};
ghost use Rattle.tie_rules.specs.UniqueMax.{lane_number, named_lane};
ghost use Rattle.lane_calls.specs.Calls.{called, outside as outside_of};
ghost use Rattle.unanimous_shortcut.specs.Unanimous.{sole_lane, leads as leads_of, cap_reply, bracket_reply, gap_reply, reply_for_lane, unanimous_reply};

use crate::search::partition_point;
use gap_tables::UnanimousGapTables;
use lane_calls::{Call, unanimous_margin};
use phred::LN_TWO;
use tie_rules::TieRule;

// The lane that alone was observed. By sums: no branch depends on which lane it is.
pub fn sole_lane(observations: [u32; 4]) -> Option<usize>
    ensures answer { result ≡ named_lane (sole_lane observations) }
    ensures lane { lane_number result ≡ sole_lane observations }
    ensures inside { IfSome result (λ i. i < 4) }
{
    let [a, c, g, t] = observations.map(|n| usize::from(0 < n));
    if a + c + g + t == 1 {
        return Some(c + 2 * g + 3 * t);
    }
    None
}

// What a step gives that would read outside the tables.
fn outside() -> Option<Call>
    ensures { result ≡ outside_of }
{
    Some(Call::none())
}

// A lane that alone was observed, with its value and that of the next lane, which stands for the others.
// kept: no plainer: nothing compares or prints it
#[derive(Clone, Copy)]
pub struct Winner {
    pub lane: usize,
    pub winner_ll: f64,
    pub loser_ll: f64,
}

impl Winner {
    // Whether it leads by a finite gap above 2^-52.
    #[tactic(auto, unfolding(crate::specs::Unanimous::leads))]
    fn leads(self) -> bool
        ensures { result ≡ leads_of self.winner_ll self.loser_ll }
    {
        let gap = self.winner_ll - self.loser_ll;
        gap.is_finite() && f64::EPSILON < gap
    }

    // Its base with a level of the tables.
    fn at_level(self, level: usize) -> Option<Call>
        requires { level ≤ 93 }
        ensures { result ≡ Some (called self.lane level) }
    {
        Some(Call::of(self.lane, level as u8))
    }

    // At or above the cap's threshold. Nothing lies above the cap, so the margin is held against what
    // the error can still fall by there.
    #[tactic(auto, unfolding(crate::specs::Unanimous::cap_reply))]
    fn cap_reply(self, tables: &UnanimousGapTables) -> Option<Call>
        requires { tables.now.cap ≤ 93 }
        ensures { result ≡ cap_reply tables.now self.lane self.winner_ll self.loser_ll }
    {
        let cap = tables.cap;
        if cap == 0 {
            return outside();
        }
        let delta = unanimous_margin(self.winner_ll, self.loser_ll, 1.0);
        let cerr_at_cap = tables.cerr_min[cap - 1];
        let above = self.winner_ll - self.loser_ll - tables.thresholds[cap];
        if LN_TWO <= above && delta < 0.5 * cerr_at_cap {
            return self.at_level(cap);
        }
        None
    }

    // Below it, where p entries are at or below the gap.
    #[tactic(auto, unfolding(crate::specs::Unanimous::bracket_reply))]
    fn bracket_reply(self, tables: &UnanimousGapTables, p: usize) -> Option<Call>
        requires { p ≤ 94 }
        ensures { result ≡ bracket_reply tables.now self.lane self.winner_ll self.loser_ll p }
    {
        if p == 0 {
            return outside();
        }
        let gap = self.winner_ll - self.loser_ll;
        let margin = unanimous_margin(self.winner_ll, self.loser_ll, tables.cerr_min[p - 1]);
        if !(margin < gap - tables.thresholds[p - 1]) {
            return None;
        }
        if 93 < p {
            return outside();
        }
        if margin < tables.thresholds[p] - gap {
            return self.at_level(p - 1);
        }
        None
    }

    // What the tables say of it.
    #[tactic(auto, unfolding(crate::specs::Unanimous::gap_reply))]
    fn gap_reply(self, tables: &UnanimousGapTables) -> Option<Call>
        ensures { result ≡ gap_reply tables.now self.lane self.winner_ll self.loser_ll }
    {
        if 93 < tables.cap {
            return outside();
        }
        let gap = self.winner_ll - self.loser_ll;
        if tables.thresholds[tables.cap] <= gap {
            return self.cap_reply(tables);
        }
        self.bracket_reply(tables, partition_point(&tables.thresholds, gap))
    }
}

// The shortcut where lane i alone was observed.
#[tactic(auto, unfolding(crate::specs::Unanimous::reply_for_lane))]
pub fn reply_for_lane(
    likelihoods: [f64; 4],
    i: usize,
    rule: TieRule,
    tables: &UnanimousGapTables,
) -> Option<Call>
    ensures { result ≡ reply_for_lane tables.now likelihoods i rule }
{
    if 4 <= i {
        return None;
    }
    let winner_ll = likelihoods[i];
    let loser_ll = likelihoods[(i + 1) % 4];
    let winner = Winner {
        lane: i,
        winner_ll,
        loser_ll,
    };
    if winner.leads()
        && winner_ll.is_finite()
        && tie_rules::untied(rule, likelihoods, i, winner_ll)
    {
        return winner.gap_reply(tables);
    }
    None
}

// The shortcut, on four lanes with their counts.
// kept: rule of the project: the builder has one array for likelihoods and one for counts
#[tactic(auto, unfolding(crate::specs::Unanimous::unanimous_reply))]
pub fn try_unanimous_fast_path(
    likelihoods: [f64; 4],
    observations: [u32; 4],
    rule: TieRule,
    tables: &UnanimousGapTables,
) -> Option<Call>
    ensures { result ≡ unanimous_reply tables.now likelihoods observations rule }
{
    reply_for_lane(likelihoods, sole_lane(observations)?, rule, tables)
}
