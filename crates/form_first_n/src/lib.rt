// The first N of an order: goals a, b, c, d with a before c, b before c, b before d and no other order among the four.
#![tactic(auto)]

ghost use Rattle.std.specs.Prelude.{◌≡◌, ◌<◌, ◌≤◌};
ghost use Rattle.sets.specs.Sets.{goal_limit};
ghost use Rattle.graph.specs.Graph.{ahead, transposed, Within};
ghost use Rattle.expression.specs.Expr.{Goals};
ghost use Rattle.expression.specs.Arrange.{Strict};
ghost use Rattle.expression.specs.Search.{first_n};
ghost use Rattle.form_first_n.specs.FirstN as F;
ghost use Rattle.form_first_n.specs.Candidates as C;

use graph::Graph;
use graph_transpose::Directions;
use sets::Set;

// Four goals, by their numbers from 1 on.
#[derive(Clone, Copy, Debug, PartialEq, Eq)]
pub struct Four {
    pub a: usize,
    pub b: usize,
    pub c: usize,
    pub d: usize,
}

// The goals that are before some goal: what can be a or b.
fn leading(prior: &[u32; Graph::MAX], n: usize) -> u32
    requires { n ≤ goal_limit }
    ensures { result ≡ C.leading prior.now n }
{
    let mut set = 0u32;
    for before in &prior[..n] {
        set = set.union(*before);
    }
    set
}

// The goals that can be b for a: of the leading ones those that are not a and not in order with a.
#[tactic(auto, unfolding(crate::specs::Candidates::seconds))]
fn seconds(order: Directions, lead: u32, a: usize) -> u32
    requires { a < goal_limit }
    ensures { result ≡ C.seconds order.entry.after.now order.entry.prior.now lead a }
{
    let apart = lead.without(order.related(a));
    apart.without(Graph::single(a + 1))
}

// The goals that can be d for a, b and some c: after b, and not in order with a.
#[tactic(auto, unfolding(crate::specs::Candidates::fourths))]
fn fourths(order: Directions, a: usize, b: usize) -> u32
    requires { (a < goal_limit) × (b < goal_limit) }
    ensures { result ≡ C.fourths order.entry.after.now order.entry.prior.now a b }
{
    order.after[b].without(order.related(a))
}

// The goals that can be c for a and b: after both. None if no goal can be d.
#[tactic(auto, unfolding(crate::specs::Candidates::thirds))]
fn thirds(order: Directions, a: usize, b: usize) -> u32
    requires { (a < goal_limit) × (b < goal_limit) }
    ensures { result ≡ C.thirds order.entry.after.now order.entry.prior.now a b }
{
    if fourths(order, a, b) == 0 {
        return 0;
    }
    order.after[a].meet(order.after[b])
}

// The goals that are d for a, b and c: those of the candidates that are not in order with c.
#[tactic(auto, unfolding(crate::specs::Candidates::lasts))]
fn lasts(order: Directions, a: usize, b: usize, c: usize) -> u32
    requires { (a < goal_limit) × (b < goal_limit) × (c < goal_limit) }
    ensures { result ≡ C.lasts order.entry.after.now order.entry.prior.now a b c }
{
    fourths(order, a, b).without(order.related(c))
}

// The first N among the goals 1 to n of a strict order; `prior` is `after` with every edge turned round. Four loops over the goals that can be a, b, c and d, left
// as soon as it is met.
pub fn first_n(order: Directions, n: usize) -> Option<Four>
    requires { (n ≤ goal_limit) × (order.prior.now ≡ transposed goal_limit n order.after.now) × Strict (ahead order.after.now) (Goals n) × Within goal_limit n order.after.now }
    ensures { F.found result ≡ first_n (ahead order.entry.after.now) n }
{
    let mut answer = None;
    let lead = leading(order.prior, n);
    'found: for a in lead.members() {
        for b in seconds(order, lead, a).members() {
            for c in thirds(order, a, b).members() {
                let ds = lasts(order, a, b, c);
                for d in ds.first()..n {
                    if ds.has(d) {
                        answer = Some(Four {
                            a: a + 1,
                            b: b + 1,
                            c: c + 1,
                            d: d + 1,
                        });
                        break 'found;
                    }
                }
            }
        }
    }
    answer
}
