// The dependency graph of a clause by value: the goal count, and for each goal the set of goals that it is before.
#![tactic(auto)]

ghost use Rattle.std.specs.Prelude.{◌≡◌, cond, true, ◌-◌, ◌≤◌, ◌<◌, get_or};
ghost use Rattle.sets.specs.Sets as S;
ghost use Rattle.graph.specs.Graph as G;
ghost use Rattle.graph.specs.Closure as C;
ghost use Rattle.graph.specs.Passes as P;
ghost use Rattle.graph.specs.PassRows as Q;
ghost use Rattle.graph.specs.Linking.{Linked};

use sets::Set;

// Row g - 1 is the set of the goals that goal g is before, goal h at bit h - 1; rows past the count are zero. An array and a count: a library takes no memory.
#[derive(Drop)]
pub struct Graph {
    pub n: usize,
    pub rows: [u32; Graph::MAX],
}

// A closed graph, and the number of passes that closing it took.
#[derive(Drop)]
pub struct Closed {
    pub graph: Graph,
    pub passes: u32,
}

impl Graph {
    // The most goals that a clause has.
    pub const MAX: usize = sets::GOALS;

    // The most passes that closing a graph takes.
    pub const PASSES: u32 = 6;

    // The graph of n goals without an edge.
    pub fn empty(n: usize) -> Graph
        ensures { result ≡ G.edgeless n }
    {
        let rows = [0u32; Graph::MAX];
        Graph { n, rows }
    }

    // The set of goal g alone.
    pub fn single(g: usize) -> u32
        requires { (1 ≤ g) × (g ≤ S.goal_limit) }
        ensures { result ≡ S.single (g - 1) }
    {
        u32::single(g - 1)
    }

    // The goals that goal g is before.
    pub fn row(self, g: usize) -> u32
        requires { (1 ≤ g) × (g ≤ S.goal_limit) }
        ensures { result ≡ get_or self.rows (g - 1) 0 }
    {
        let i = g - 1;
        self.rows[i]
    }

    // The closure, in passes up to the first that adds none, and their number. The last that there can be adds none.
    pub fn closed(mut self) -> Closed
        requires { C.IsGraph self }
        ensures { result ≡ P.closed_of self }
    {
        let n = self.n;
        let all = u32::below(n);
        // No `for`: the loop is left in its last turn at the latest, and the number of the turn is answered.
        let mut passes = 1u32;
        loop {
            let still = pass(&mut self.rows, n);
            if (still == all) | (passes == Graph::PASSES) {
                let rows = self.rows;
                let graph = Graph { n, rows };
                return Closed { graph, passes };
            }
            passes += 1;
        }
    }
}

// The row with the rows of its goals.
#[tactic(auto, using(crate::proofs::Gathering::gather_turn, crate::proofs::Gathering::gather_over, sets::proofs::Members::step_in))]
fn joined(rows: &[u32; Graph::MAX], row: u32) -> u32
    ensures { result ≡ Q.gather S.goal_limit rows.now row row }
{
    let mut all = row;
    for k in row.members() {
        all = all.union(rows[k]);
    }
    all
}

// The same for a row whose goals are all of `still`: the goals of their rows lead to nothing new, and are passed over.
fn joined_still(rows: &[u32; Graph::MAX], row: u32, still: u32) -> u32
    requires { Q.Still rows.now still × (S.subset row still ≡ true) }
    ensures { result ≡ Q.gather S.goal_limit rows.now row row }
{
    let mut all = row;
    // Not over the members: a turn takes out more than the first.
    let mut left = row;
    while left != 0 {
        let k = left.first();
        let via = rows[k];
        all = all.union(via);
        left = left.without_first().without(via);
    }
    all
}

// The set with goal i + 1 in it, if its row is as it was.
fn kept(still: u32, i: usize, same: bool) -> u32
    requires { i < S.goal_limit }
    ensures { result ≡ cond same (S.union still (S.single i)) still }
{
    if same {
        still.union(u32::single(i))
    } else {
        still
    }
}

// One pass: what a chain of two waits gives is added, all of it by the rows at its start. From the last goal down: where the waits go up, the rows behind tell
// what may be passed over. The new rows stand apart, and take the place of the old ones only if one of them differs. Answers the goals whose rows stay as they
// were.
// Not inlined: a call costs less than the passes written out one after another.
#[inline(never)]
fn pass(rows: &mut [u32; Graph::MAX], n: usize) -> u32
    requires { (n ≤ S.goal_limit) × G.Within S.goal_limit n rows.old }
    ensures { (rows.new ≡ G.rows_of S.goal_limit n (P.pass n (G.ahead rows.old)))
        × (result ≡ Q.same_rows n rows.old rows.new) }
{
    let mut next = [0u32; Graph::MAX];
    let mut still = 0u32;
    for i in (0..n).rev() {
        let row = rows[i];
        let more = if row.subset(still) {
            joined_still(rows, row, still)
        } else {
            joined(rows, row)
        };
        still = kept(still, i, more == row);
        next[i] = more;
    }
    if still != u32::below(n) {
        *rows = next;
    }
    still
}

// Each goal of `front` is before each goal of `later`, beside what the rows have. Only the rows of `front` are touched, and none if there is nothing to put.
#[tactic(auto, using(sets::proofs::Members::step_in))]
pub fn link(rows: &mut [u32; Graph::MAX], front: u32, later: u32)
    requires { G.Words S.goal_limit rows.old }
    ensures { Linked S.goal_limit front later rows.old rows.new }
{
    if later == 0 {
        return;
    }
    for i in front.members() {
        rows[i] |= later;
    }
}
