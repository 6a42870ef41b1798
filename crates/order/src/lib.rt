// The waiting order of a clause.
#![tactic(auto)]

ghost use Rattle.std.specs.Prelude.{◌≡◌, cond, ◌+◌, ◌<◌, ◌≤◌, length, replicate};
ghost use Rattle.sets.specs.Sets as S;
ghost use Rattle.independence.specs.Ties.{ties_of};
ghost use Rattle.order.specs.Arrays as W;

use clause::Clause;
use graph::{Closed, Graph};
use independence::Halves;
use sets::Set;

// Puts the ties of each goal, the variables that make a later goal wait for it, into two arrays of zeros: the low halves and the high ones. No variable is known
// independent of every other.
fn put_ties(low: &mut [u32; Graph::MAX], high: &mut [u32; Graph::MAX], c: &Clause)
    requires { (c.now.n ≤ S.goal_limit) × (low.old ≡ replicate S.goal_limit 0) × (high.old ≡ replicate S.goal_limit 0) }
    ensures low_after { low.new ≡ W.low_ties S.goal_limit 32 S.variable_limit c.now.n c.now.sets c.now.grounds c.now.listed }
    ensures high_after { high.new ≡ W.high_ties S.goal_limit 32 S.variable_limit c.now.n c.now.sets c.now.grounds c.now.listed }
{
    for i in 0..c.n {
        let ties = Halves::of(independence::ties(c.sets[i], c.grounds[i], 0, &c.listed));
        low[i] = ties.low;
        high[i] = ties.high;
    }
}

// The row with the goals of `one` in it where they are to be added.
fn with(row: u32, one: u32, add: bool) -> u32
    ensures { result ≡ cond add (S.union row one) row }
{
    if add { row.union(one) } else { row }
}

// Puts goals j + 1 and j + 2, of the variable sets `later` and `next`, into the rows of the earlier goals for which they wait. Row by row, so that the rows and
// the ties are each read in sequence, and once for both.
fn put_two(
    rows: &mut [u32; Graph::MAX],
    low: &[u32; Graph::MAX],
    high: &[u32; Graph::MAX],
    later: u64,
    next: u64,
    j: usize,
)
    requires { (j + 1 < S.goal_limit) × (length rows.old ≡ S.goal_limit) }
    ensures { rows.new ≡ W.put_two S.goal_limit rows.old (W.ties_in 32 low.now high.now) later next j }
{
    let one = Graph::single(j + 1);
    let two = Graph::single(j + 2);
    let x = Halves::of(later);
    let y = Halves::of(next);
    for i in 0..j {
        let ties = Halves {
            low: low[i],
            high: high[i],
        };
        let row = with(rows[i], one, independence::waits(ties, x));
        rows[i] = with(row, two, independence::waits(ties, y));
    }
    let ties = Halves {
        low: low[j],
        high: high[j],
    };
    rows[j] = with(rows[j], two, independence::waits(ties, y));
}

// The waits of a clause's goals, before closure: each later goal is judged by every earlier one, with the variables known ground at the earlier one. The last of an
// odd count is put with an empty set, which waits for nothing.
pub fn waits_of(c: &Clause) -> Graph
    requires { c.now.n ≤ S.goal_limit }
    ensures { result ≡ W.wait_rows S.variable_limit c.now.n c.now.sets c.now.grounds c.now.listed }
{
    // Low and high halves apart, so that a processor takes several goals' at once.
    let mut low = [0u32; Graph::MAX];
    let mut high = [0u32; Graph::MAX];
    put_ties(&mut low, &mut high, c);
    let mut waits = Graph::empty(c.n);
    for k in 0..c.n / 2 {
        let j = 2 * k;
        put_two(&mut waits.rows, &low, &high, c.sets[j], c.sets[j + 1], j);
    }
    if c.n % 2 == 1 {
        let j = c.n - 1;
        put_two(&mut waits.rows, &low, &high, c.sets[j], 0, j);
    }
    waits
}

// The order of a clause's goals, which is the closure of their waits, and the number of passes that closing them took.
pub fn closure_of(c: &Clause) -> Closed
    requires { c.now.n ≤ S.goal_limit }
    ensures graph_value { result.graph ≡ W.order_rows S.variable_limit c.now.n c.now.sets c.now.grounds c.now.listed }
    ensures passes_value { result.passes ≡ W.passes_of S.variable_limit c.now.n c.now.sets c.now.grounds c.now.listed }
{
    waits_of(c).closed()
}

// The order alone.
pub fn order_of(c: &Clause) -> Graph
    requires { c.now.n ≤ S.goal_limit }
    ensures { result ≡ W.order_rows S.variable_limit c.now.n c.now.sets c.now.grounds c.now.listed }
{
    closure_of(c).graph
}

// The ties with those of a goal, of this variable set and this ground set, if they are to be added.
fn with_ties(ties: u64, set: u64, grounded: u64, listed: &[u64; sets::VARIABLES], add: bool) -> u64
    ensures { result ≡ cond add (S.union ties (ties_of grounded 0 listed.now S.variable_limit set)) ties }
{
    if add {
        return ties.union(independence::ties(set, grounded, 0, listed));
    }
    ties
}

// Those of a clause's goals that wait for a goal of the set `left`. What ties a later goal to one of several is in the union of their ties, so that one pass over
// the goals tells it.
pub fn waiting_for(c: &Clause, left: u32) -> u32
    requires { c.now.n ≤ S.goal_limit }
    ensures { result ≡ W.waiting_for S.variable_limit c.now.n c.now.sets c.now.grounds c.now.listed left }
{
    let mut ties = 0u64;
    let mut found = 0u32;
    for j in 0..c.n {
        let set = c.sets[j];
        let tied = independence::waits(Halves::of(ties), Halves::of(set));
        found = with(found, Graph::single(j + 1), tied);
        ties = with_ties(ties, set, c.grounds[j], &c.listed, left.has(j));
    }
    found
}
