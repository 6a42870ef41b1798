// The stages of the MEL annotation and their checks, by masks over the goals' variable sets. Goals are numbered from 1.
#![tactic(auto)]

ghost use Rattle.std.specs.Prelude.{◌≡◌, ◌+◌, ◌<◌, ◌≤◌, ◌^◌, length, replicate};
ghost use Rattle.sets.specs.Sets.{goal_limit, variable_limit};
ghost use Rattle.mel_stages.specs.Mel as W;
ghost use Rattle.mel_stages.specs.Masks as M;

use sets::Set;

// The variable set of goal g, empty past the last goal.
#[tactic(auto, unfolding(crate::specs::Mel::goal))]
pub fn goal(sets: &[u64], g: usize) -> u64
    requires { 1 ≤ g }
    ensures { result ≡ W.goal sets.now g }
{
    sets.get(g - 1).copied().unwrap_or(0)
}

// A clause has 0 to the most goals: so many counts.
pub const COUNTS: usize = sets::GOALS + 1;

// A clause, as its stages are found and written.
#[derive(Drop)]
pub struct Staged<'a> {
    pub head: u64,
    // The variable set of each goal, and the variables known ground at it.
    pub sets: &'a [u64],
    pub grounds: &'a [u64],
    // Row x has the variables that are listed in a pair with x.
    pub listed: &'a [u64; sets::VARIABLES],
    // At place g the variables of goals 1 to g, up to the last goal.
    pub before: [u64; COUNTS],
    ghost goals_fit: { length sets.now ≤ goal_limit },
    ghost before_is: { before ≡ M.up_to (goal_limit + 1) sets.now },
}

impl<'a> Staged<'a> {
    pub fn new(
        head: u64,
        sets: &'a [u64],
        grounds: &'a [u64],
        listed: &'a [u64; sets::VARIABLES],
    ) -> Staged<'a>
        requires { length sets.now ≤ goal_limit }
        ensures head_is { result.head ≡ head }
        ensures sets_is { result.sets.now ≡ sets.now }
        ensures grounds_is { result.grounds.now ≡ grounds.now }
        ensures listed_is { result.listed.now ≡ listed.now }
    {
        let mut before = [0u64; COUNTS];
        for (g, s) in sets.iter().enumerate() {
            before[g + 1] = before[g].union(*s);
        }
        Staged {
            head,
            sets,
            grounds,
            listed,
            before,
        }
    }

    // The p of goals 1 to q, from q downward.
    pub fn start_of(&self, q: usize) -> usize
        requires { q ≤ length self.now.sets.now }
        ensures { result ≡ W.start variable_limit self.now.head self.now.sets.now q }
    {
        let mut after = 0u64;
        for p in (0..q).rev() {
            let s = self.sets[p];
            let first = s.without(self.head).without(self.before[p]);
            if first.meet(after) != 0 {
                return p + 1;
            }
            after = after.union(s);
        }
        0
    }
}

// A stage: the goals after `after`, up to `last`.
#[derive(Clone, Copy)]
pub struct Stage {
    pub after: usize,
    pub last: usize,
    ghost order: { after ≤ last },
}

// The variables of a stage's goals, and those that are in two or more of them.
#[derive(Clone, Copy)]
pub struct Seen {
    pub once: u64,
    pub twice: u64,
}

impl Seen {
    // The variables that may stand in an independence check of the stage.
    #[tactic(auto, unfolding(crate::specs::Masks::candidates))]
    pub fn candidates(self, met: u64, grounded: u64) -> u64
        ensures { result ≡ M.candidates self.once self.twice met grounded }
    {
        self.once.meet(met).without(self.twice).without(grounded)
    }
}

pub fn counted(sets: &[u64], stage: Stage) -> Seen
    ensures once_is { result.once ≡ M.once sets.now stage.after stage.last }
    ensures twice_is { result.twice ≡ M.twice sets.now stage.after stage.last }
{
    let mut m = 0u64;
    let mut t = 0u64;
    for g in stage.after..stage.last {
        let s = goal(sets, g + 1);
        t = t.union(m.meet(s));
        m = m.union(s);
    }
    Seen { once: m, twice: t }
}

// Stores s at each place of the set m.
#[tactic(auto, using(sets::proofs::Members::step_in))]
fn note(own: &mut [u64; sets::VARIABLES], m: u64, s: u64)
    ensures { M.Noted variable_limit own.old m s own.new }
{
    for x in m.members() {
        own[x] = s;
    }
}

// Stores for each x of k the set of the first of the stage's goals that holds x, and nothing where none does.
pub fn own_goals(own: &mut [u64; sets::VARIABLES], sets: &[u64], stage: Stage, k: u64)
    requires { own.old ≡ replicate variable_limit 0 }
    ensures { M.OwnGoals variable_limit sets.now stage.after stage.last k own.new }
{
    for g in (stage.after..stage.last).rev() {
        let s = goal(sets, g + 1);
        note(own, s.meet(k), s);
    }
}

// Those of the candidates k that stand in a check with x, above it; row has the variables listed with x, own is the set of x's goal.
pub fn partners(k: u64, row: u64, own: u64, x: usize) -> u64
    requires { x < variable_limit }
    ensures { result ≡ M.apart k row own x }
{
    let b = u64::below(x + 1);
    k.without(row).without(own).without(b)
}
