// The comparison of two orders by their rows: "same", or the first i, then j, for which just one of the two has i before j.
#![tactic(auto)]

ghost use Rattle.std.specs.Prelude.{◌≡◌, ◌≤◌};
ghost use Rattle.sets.specs.Sets as S;
ghost use Rattle.graph.specs.Graph.{ahead};
ghost use Rattle.expression_grammar.specs.Check.{first_differ};
ghost use Rattle.order_compare.specs.Verdicts.{said};

use graph::Graph;
use sets::Set;

// Goals i and j, of which just one of the two orders has i before j.
#[derive(Clone, Copy, Debug, PartialEq, Eq)]
pub struct Pair {
    pub i: usize,
    pub j: usize,
}

// An enum of its own, and no Option of a pair: 01 names a verdict enum.
#[derive(Clone, Copy, Debug, PartialEq, Eq)]
pub enum Verdict {
    Same,
    Differs(Pair),
}

// The goals that are in just one of two rows.
fn odd(goals: u32, p: u32, q: u32) -> u32
    ensures { result ≡ S.meet goals (S.union (S.without p q) (S.without q p)) }
{
    goals.meet(p.without(q).union(q.without(p)))
}

// One row of each order a turn: the goals whose rows differ, of these the first, and the first goal that is in just one of its two rows.
pub fn compare(a: &[u32; Graph::MAX], b: &[u32; Graph::MAX], n: usize) -> Verdict
    requires { n ≤ S.goal_limit }
    ensures { result ≡ said (first_differ n (ahead a.now) (ahead b.now)) }
{
    let goals = u32::below(n);
    let mut uneven: u32 = 0;
    // By index: two arrays are read, up to n, and the index is the goal.
    for k in 0..n {
        if odd(goals, a[k], b[k]) != 0 {
            uneven |= u32::single(k);
        }
    }
    if uneven == 0 {
        return Verdict::Same;
    }
    let row = uneven.first();
    let goal = odd(goals, a[row], b[row]).first();
    Verdict::Differs(Pair {
        i: row + 1,
        j: goal + 1,
    })
}
