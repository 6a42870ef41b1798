// Decodes an accepted record: the facts of its clause by value. Nothing is tested here: `record` reads.
#![tactic(auto)]

ghost use Rattle.std.specs.Prelude.{◌≡◌, ◌+◌, ◌*◌, ◌<◌, get_or, replicate};
ghost use Rattle.sets.specs.Sets.{goal_limit, variable_limit};
ghost use Rattle.record_fields.specs.Fields as F;
ghost use Rattle.clause.specs.Clause as C;

use graph::Graph;
use record::Record;
use record_fields::{HEADER, Layout};
use sets::Set;

// The facts of a clause. Goal g stands at place g - 1, unused elements are zero.
// An array for each fact, and no array of goals: `clause_facts` and the C interface hand out whole rows, and `C.decoded` has them.
#[derive(Drop)]
pub struct Clause {
    // How many goals, variables and listed pairs it has.
    pub n: usize,
    pub v: usize,
    pub p: usize,
    // The head's variables.
    pub head: u64,
    // The variable set of each goal.
    pub sets: [u64; Graph::MAX],
    // The variables known ground at each goal.
    pub grounds: [u64; Graph::MAX],
    // How many ticks each goal takes.
    pub ticks: [u32; Graph::MAX],
    // Row x has the variables that are listed in a pair with x.
    pub listed: [u64; sets::VARIABLES],
}

// Stores the variable set of each of the n goals, the variables known ground at it, and its ticks. A goal starts at `fixed` + `texts`, what the fixed parts and
// what the texts before it take up: summed apart, so that a goal waits for one length byte and one sum.
#[tactic(auto, using(record::proofs::WellFormed::fine_well_formed, crate::proofs::GoalFacts::facts_zero, crate::proofs::GoalFacts::sets_all, crate::proofs::GoalFacts::grounds_all, crate::proofs::GoalFacts::ticks_all, record::proofs::Limits::goal_there, record::proofs::Limits::place_limit, record_fields::proofs::Facts::length_between, record_fields::proofs::Places::place_zero))]
fn take_goals(
    given: Record<'_>,
    n: usize,
    sets: &mut [u64; Graph::MAX],
    grounds: &mut [u64; Graph::MAX],
    ticks: &mut [u32; Graph::MAX],
)
    requires count { n ≡ F.goal_count given.bytes.now }
    requires empty { (sets.old ≡ replicate goal_limit 0) × (grounds.old ≡ replicate goal_limit 0) × (ticks.old ≡ replicate goal_limit 0) }
    ensures sets_after { sets.new ≡ C.goal_sets goal_limit given.entry.bytes.now }
    ensures grounds_after { grounds.new ≡ C.ground_sets goal_limit given.entry.bytes.now }
    ensures ticks_after { ticks.new ≡ C.goal_ticks goal_limit given.entry.bytes.now }
{
    let b = given.bytes;
    let layout = Layout::of(b);
    let mut fixed = HEADER;
    let mut texts: usize = 0;
    for g in 0..n {
        let at = fixed + texts;
        sets[g] = record_fields::whole_set(b, at);
        grounds[g] = layout.whole_ground(at);
        ticks[g] = layout.ticks_of(at);
        let length = usize::from(b[layout.length_at(at)]);
        fixed = layout.text_at(fixed);
        texts += length;
    }
}

// Row i of `listed`; row `last` is at hand.
fn row_of(listed: &[u64; sets::VARIABLES], i: usize, last: usize, row: u64) -> u64
    requires { (i < variable_limit) × (row ≡ get_or listed.now last 0) }
    ensures { result ≡ get_or listed.now i 0 }
{
    if i == last { row } else { listed[i] }
}

// Stores the p pairs, which stand from `from` on, in the rows of both their variables. The pairs of one lower variable follow each other: its row is kept at
// hand, so that a pair need not wait for the store of the one before it.
#[tactic(auto, using(record::proofs::WellFormed::fine_well_formed, crate::proofs::PairRows::rows_zero, crate::proofs::PairRows::rows_all))]
fn take_pairs(given: Record<'_>, from: usize, p: usize, listed: &mut [u64; sets::VARIABLES])
    requires place { (from ≡ F.pairs_place given.bytes.now) × (p ≡ F.pair_count given.bytes.now) }
    requires empty { listed.old ≡ replicate variable_limit 0 }
    ensures { listed.new ≡ C.pair_rows variable_limit given.entry.bytes.now }
{
    let b = given.bytes;
    let mut last = 0;
    let mut row = 0;
    for k in 0..p {
        let at = from + 2 * k;
        let i = usize::from(b[at]);
        let j = usize::from(b[at + 1]);
        row = row_of(listed, i, last, row).union(u64::single(j));
        listed[i] = row;
        listed[j] = listed[j].union(u64::single(i));
        last = i;
    }
}

// Decodes an accepted record. Its pairs end where it ends: their place does not wait for the goals.
#[tactic(auto, using(record::proofs::WellFormed::fine_well_formed), unfolding(crate::specs::Clause::decoded))]
pub fn decode(given: Record<'_>) -> Clause
    ensures { result ≡ C.decoded given.entry.bytes.now }
{
    let b = given.bytes;
    let n = record_fields::goal_count(b);
    let v = record_fields::var_count(b);
    let p = record_fields::pair_count(b);
    let head = record_fields::whole_set(b, record_fields::HEAD);
    let mut sets = [0u64; Graph::MAX];
    let mut grounds = [0u64; Graph::MAX];
    let mut ticks = [0u32; Graph::MAX];
    take_goals(given, n, &mut sets, &mut grounds, &mut ticks);
    let mut listed = [0u64; sets::VARIABLES];
    take_pairs(given, b.len() - 2 * p, p, &mut listed);
    Clause {
        n,
        v,
        p,
        head,
        sets,
        grounds,
        ticks,
        listed,
    }
}
