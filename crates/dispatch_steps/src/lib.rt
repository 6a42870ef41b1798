// One head's turn in a tick, on values (02, request 4). The row is gone over twice: every head is looked at, and then, if nothing is refused, every head takes a goal if
// it is idle, and works. Both are one pass over the row each: what a head's work changes, no later head's taking reads.
#![tactic(auto)]

ghost use Rattle.std.specs.Prelude.{◌≡◌, cond, ◌≤◌, IsNone, IfSome};
ghost use Rattle.sets.specs.Sets.{goal_limit};
ghost use Rattle.graph.specs.Graph.{has_goal};
ghost use Rattle.logic.specs.Quantifiers.{lowest};
ghost use Rattle.dispatch_rule.specs.Rule.{worked};
ghost use Rattle.dispatch_steps.specs.Steps as S;

use dispatch_rule::Head;
use graph::Graph;
use record_rules::Refusal;
use sets::Set;

// What is done with a head at its turn: it is looked at, it takes a goal and works, it rests since something is refused, it is made idle. With any other number head and
// board stay as they are.
#[derive(Clone, Copy, PartialEq, Eq)]
pub enum Phase {
    Look,
    Go,
    Rest,
    Idle,
    Other(u32),
}

// The phases are numbered from 0.
impl From<u32> for Phase {
    ghost from_gives = { λ n f. f ≡ S.phase_of n };

    fn from(number: u32) -> Phase {
        match number {
            0 => Phase::Look,
            1 => Phase::Go,
            2 => Phase::Rest,
            3 => Phase::Idle,
            _ => Phase::Other(number),
        }
    }
}

// What a tick goes by and no turn changes: how many ticks each goal takes, goal g at place g - 1.
#[derive(Clone, Copy)]
pub struct Plan {
    pub ticks: [u32; Graph::MAX],
}

// What a head's turn goes by and may change.
#[derive(Clone, Copy)]
pub struct Board {
    pub phase: Phase,
    // The goals that a head may have: not ended, their predecessors have all ended, and on no head that has had its turn.
    pub free: u32,
    // The goals that have ended.
    pub done: u32,
}

// What a tick or a start begins with; the refusal is the answer if the heads rest. It stands beside the board and not in `Phase::Rest`: every head's turn copies the board.
#[derive(Drop)]
pub struct Opening {
    pub board: Board,
    pub plan: Plan,
    pub refusal: Refusal,
}

// Head, board and plan are parameters of their own, and no struct of the three: a turn makes a head and a board anew, and not the plan.
#[derive(Drop)]
pub struct Stepped {
    pub head: Head,
    pub board: Board,
}

// Goal g alone as a set; the empty set for a number that is no goal.
fn alone(g: u32) -> u32
    ensures { result ≡ S.alone goal_limit g }
{
    match g {
        1..=32 => Graph::single(g as usize),
        _ => 0,
    }
}

// Goal g is in the set.
fn holds(set: u32, g: u32) -> bool
    requires { (1 ≤ g) × (g ≤ goal_limit) }
    ensures { result ≡ has_goal set g }
{
    let i = (g - 1) as usize;
    set.has(i)
}

// The lowest goal of a set.
fn lowest_of(set: u32) -> Option<u32>
    ensures none { IsNone result → lowest (has_goal set) goal_limit ≡ 0 }
    ensures in_range { IfSome result (λ g. (1 ≤ g) × (g ≤ goal_limit)) }
    ensures value { IfSome result (λ g. g ≡ lowest (has_goal set) goal_limit) }
{
    if set == 0 {
        return None;
    }
    Some(u32::trailing_zeros(set) + 1)
}

// The head may be as it is: idle with no ticks left, or at a free goal with ticks left, no more than the goal takes.
fn fine(h: Head, b: Board, p: Plan) -> bool
    ensures { result ≡ S.is_fine goal_limit b p h }
{
    match h.goal {
        0 => h.left == 0,
        1..=32 => {
            let most = p.ticks[(h.goal - 1) as usize];
            holds(b.free, h.goal) && h.left != 0 && h.left <= most
        }
        _ => false,
    }
}

// The phase, or the heads rest since something is refused.
pub fn kept(ok: bool, phase: Phase) -> Phase
    ensures { result ≡ cond ok phase Phase.Rest }
{
    if ok { phase } else { Phase::Rest }
}

// One head is looked at.
fn look(h: Head, b: Board, p: Plan) -> Board
    ensures { result ≡ S.look_of goal_limit h b p }
{
    let ok = fine(h, b, p);
    let phase = kept(ok, b.phase);
    let one = alone(h.goal);
    let free = b.free.without(one);
    Board { phase, free, ..b }
}

// The head once it has had its turn to take a goal.
fn taken(h: Head, b: Board, p: Plan) -> Head
    ensures { result ≡ S.taking goal_limit h b p }
{
    if h.goal != 0 {
        return h;
    }
    match lowest_of(b.free) {
        None => Head::IDLE,
        Some(goal) => {
            let left = p.ticks[(goal - 1) as usize];
            Head { goal, left }
        }
    }
}

// The head after one tick of work: at 0 left it is idle.
fn worked(h: Head) -> Head
    ensures { result ≡ worked h }
{
    if h.left <= 1 {
        return Head::IDLE;
    }
    let left = h.left - 1;
    Head { goal: h.goal, left }
}

// The goals that have ended once the head has worked.
fn finished(h: Head, done: u32) -> u32
    ensures { result ≡ S.finishing goal_limit h done }
{
    let one = alone(h.goal);
    if h.left <= 1 {
        return done.union(one);
    }
    done
}

// A head takes the lowest free goal, if it is idle. Here and in `work` the board is made field by field: a copy is loaded in wider words than it was stored in, which
// stalls the next turn.
fn take(h: Head, b: Board, p: Plan) -> Stepped
    ensures { result ≡ S.take_of goal_limit h b p }
{
    let head = taken(h, b, p);
    let one = alone(head.goal);
    let others = b.free.without(one);
    let board = Board {
        phase: b.phase,
        free: others,
        done: b.done,
    };
    Stepped { head, board }
}

// A head works one tick, and a goal that it ends is marked.
fn work(h: Head, b: Board) -> Stepped
    ensures { result ≡ S.work_of goal_limit h b }
{
    let done = finished(h, b.done);
    let head = worked(h);
    let board = Board {
        phase: b.phase,
        free: b.free,
        done,
    };
    Stepped { head, board }
}

// One head takes a goal, if it is idle, and then works.
fn go(h: Head, b: Board, p: Plan) -> Stepped
    ensures { result ≡ S.go_of goal_limit h b p }
{
    let first = take(h, b, p);
    work(first.head, first.board)
}

// A head that rests, or is made idle.
fn rested(h: Head, phase: Phase) -> Head
    ensures { result ≡ S.rest_of h phase }
{
    match phase {
        Phase::Idle => Head::IDLE,
        _ => h,
    }
}

// One head's turn. Three arms and no fourth: a match of four is a jump through a table, which at each head is guessed wrong more often than two tests.
#[tactic(auto, unfolding(crate::specs::Steps::step_of))]
pub fn step(h: Head, b: Board, p: Plan) -> Stepped
    ensures { result ≡ S.step_of h b p }
{
    match b.phase {
        Phase::Go => go(h, b, p),
        Phase::Look => {
            let board = look(h, b, p);
            Stepped { head: h, board }
        }
        _ => {
            let head = rested(h, b.phase);
            Stepped { head, board: b }
        }
    }
}

// Between the two times that the row is gone over: the heads go, if none of them was refused.
#[tactic(auto, unfolding(crate::specs::Steps::second_of))]
pub fn second(b: Board) -> Board
    ensures { result ≡ S.second_of b }
{
    match b.phase {
        Phase::Look => Board {
            phase: Phase::Go,
            ..b
        },
        _ => b,
    }
}
