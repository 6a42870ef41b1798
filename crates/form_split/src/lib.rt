// Splitting a set of goals into the members of its house form, and writing the form's text. For any strict order on the goals.
#![tactic(auto)]

ghost use Rattle.std.specs.Prelude.{◌≡◌, suc, ◌+◌, ◌^◌, ◌<◌, length};
ghost use Rattle.sets.specs.Sets.{goal_limit};
ghost use Rattle.graph.specs.Graph.{ahead, behind};
ghost use Rattle.buffer.specs.Text.{Wrote};
ghost use Rattle.expression.specs.Arrange.{Strict};
ghost use Rattle.expression.specs.Split.{Component, Starts};
ghost use Rattle.expression.specs.Text as T;
ghost use Rattle.form_split.specs.Hang as Hang;
ghost use Rattle.form_split.specs.Split.{Has, Turned, Ordered, form_text};

use graph::Graph;
use graph_transpose::Directions;
use sets::Set;

// Whether members follow one another is a truth value `k`, as in `Component` and `mark`: an enum would need a map to it in each of their clauses.

// Those of `left` that hang together with goal i + 1.
#[tactic(auto, unfolding(crate::specs::Hang::hanging))]
fn hanging(order: Directions, k: bool, left: u32, i: usize) -> u32
    requires { i < goal_limit }
    ensures { result ≡ Hang.hanging order.entry.after.now order.entry.prior.now k left i }
{
    let near = order.related(i);
    if k {
        left.without(near)
    } else {
        left.meet(near)
    }
}

// Those of `left` that hang together with a goal of the set.
fn hanging_any(order: Directions, k: bool, left: u32, set: u32) -> u32
    ensures { result ≡ Hang.hanging_any goal_limit order.entry.after.now order.entry.prior.now k left set }
{
    let mut all = 0u32;
    for i in set.members() {
        all = all.union(hanging(order, k, left, i));
    }
    all
}

// What is still to be looked at: nothing once the whole set is in the part.
#[tactic(auto, unfolding(crate::specs::Hang::pending))]
fn pending(todo: u32, left: u32) -> u32
    ensures { result ≡ Hang.pending todo left }
{
    if left == 0 { 0 } else { todo }
}

// The part of the set that hangs together with goal x + 1, step by step: `left` is what is not yet in it, `todo` what came into it with the last step.
fn component(order: Directions, k: bool, set: u32, x: usize) -> u32
    requires { (x < goal_limit) × Has set (suc x) × Turned order.after.now order.prior.now set }
    ensures { Component (ahead order.entry.after.now) k (Has set) (suc x) (Has result) }
{
    let start = Graph::single(x + 1);
    let rest = set.without(start);
    let first = hanging(order, k, rest, x);
    if first == 0 {
        return start;
    }
    let mut left = rest.without(first);
    let mut todo = pending(first, left);
    while todo != 0 {
        let fresh = hanging_any(order, k, left, todo);
        left = left.without(fresh);
        todo = pending(fresh, left);
    }
    set.without(left)
}

// Those of `rest` that are before goal x + 1, if that matters.
#[tactic(auto, unfolding(crate::specs::Hang::earlier))]
fn earlier(prior: &[u32; Graph::MAX], k: bool, rest: u32, x: usize) -> u32
    requires { x < goal_limit }
    ensures { result ≡ Hang.earlier prior.now k rest x }
{
    let before = prior[x];
    if k { before.meet(rest) } else { 0 }
}

// A goal, less one, of the first member: of a group the lowest goal, of a sequence one that no goal comes before.
fn start(prior: &[u32; Graph::MAX], k: bool, rest: u32) -> usize
    requires { Strict (behind prior.now) (Has rest) × ((g : _) × Has rest g) }
    ensures { (result < goal_limit) × Has rest (suc result) × Starts (behind prior.now) k (Has rest) (suc result) }
{
    let mut x = rest.first();
    let mut before = earlier(prior, k, rest, x);
    while before != 0 {
        x = before.first();
        before = earlier(prior, k, rest, x);
    }
    x
}

// A member of a form: a goal, less one, from which it is found, and its goals.
#[derive(Clone, Copy)]
struct FirstMember {
    start: usize,
    goals: u32,
}

// The first member of what is left.
fn member(order: Directions, k: bool, rest: u32) -> FirstMember
    requires { Strict (behind order.prior.now) (Has rest) × Turned order.after.now order.prior.now rest × ((g : _) × Has rest g) }
    ensures start_lt_goal_limit { (result.start < goal_limit) × Has rest (suc result.start) }
    ensures starts { Starts (behind order.entry.prior.now) k (Has rest) (suc result.start) }
    ensures component { Component (ahead order.entry.after.now) k (Has rest) (suc result.start) (Has result.goals) }
{
    let start = start(order.prior, k, rest);
    let goals = component(order, k, rest, start);
    FirstMember { start, goals }
}

// The byte between two members.
fn mark(k: bool) -> u8
    ensures { result ≡ T.mark k }
{
    if k { b',' } else { b'&' }
}

// Writes the text of the set's house form from place `at`: in parentheses if it is nested in another, unless it is a goal. It calls itself on each member.
pub fn put_form(out: &mut [u8], at: usize, order: Directions, set: u32, nested: bool) -> usize
    requires { Ordered order.after.now order.prior.now set × (at + length (form_text goal_limit nested order.after.now set) < 2 ^ 63) }
    ensures { Wrote (form_text goal_limit nested order.entry.after.now set) at out.old result out.new }
{
    let x = set.first();
    if Graph::single(x + 1) == set {
        return buffer::put_number(out, at, x + 1);
    }
    let found = component(order, false, set, x);
    let k = found == set;
    let sep = mark(k);
    let mut o = buffer::put_if(out, at, b'(', nested);
    let mut rest = set;
    while rest != 0 {
        let m = member(order, k, rest);
        let c = m.goals;
        o = put_form(out, o, order, c, true);
        rest = rest.without(c);
        o = buffer::put_if(out, o, sep, rest != 0);
    }
    buffer::put_if(out, o, b')', nested)
}
