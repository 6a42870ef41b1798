// Rows of a dependency graph turned round.
#![tactic(auto)]

ghost use Rattle.std.specs.Prelude.{◌≡◌, ◌<◌, ◌≤◌};
ghost use Rattle.sets.specs.Sets as S;
ghost use Rattle.graph.specs.Graph as G;
ghost use Rattle.graph_transpose.specs.Adding.{added};
ghost use Rattle.graph_transpose.specs.Related.{related};

use graph::Graph;
use sets::Set;

// Adds the goals of `one` to the row of each goal of `to`. All rows are gone through, and not the goals of `to` one by one, so that the compiler tests several at
// once; a set without a goal is passed over.
fn add(rows: &mut [u32; Graph::MAX], to: u32, one: u32)
    ensures { rows.new ≡ added S.goal_limit to one rows.old }
{
    if to == 0 {
        return;
    }
    let mut next = [0u32; Graph::MAX];
    for (j, row) in rows.iter().enumerate() {
        next[j] = if to.has(j) { row.union(one) } else { *row };
    }
    *rows = next;
}

// Turns every edge of the rows round: row j has the goals that are before goal j + 1. The new rows stand apart, where the compiler keeps them in registers.
pub fn transpose(rows: &mut [u32; Graph::MAX], n: usize)
    requires { (n ≤ S.goal_limit) × G.Within S.goal_limit n rows.old }
    ensures { rows.new ≡ G.transposed S.goal_limit n rows.old }
{
    let mut turned = [0u32; Graph::MAX];
    for (i, row) in rows[..n].iter().enumerate() {
        let one = u32::single(i);
        add(&mut turned, *row, one);
    }
    *rows = turned;
}

// The rows of an order in both directions: `after` has for each goal the goals that it is before, `prior` those that are before it.
#[derive(Clone, Copy)]
pub struct Directions<'a> {
    pub after: &'a [u32; Graph::MAX],
    pub prior: &'a [u32; Graph::MAX],
}

impl Directions<'_> {
    // The goals that are in order with goal i + 1, either way.
    pub fn related(self, i: usize) -> u32
        requires { i < S.goal_limit }
        ensures { result ≡ related self.entry.after.now self.entry.prior.now i }
    {
        self.after[i].union(self.prior[i])
    }
}
