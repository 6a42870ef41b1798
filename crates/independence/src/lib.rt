// Whether a later goal waits for an earlier one. Nothing else compares two goals.
#![tactic(auto)]

ghost use Rattle.std.specs.Prelude.{◌≡◌};
ghost use Rattle.sets.specs.Sets as S;
ghost use Rattle.independence.specs.ByRows as J;
ghost use Rattle.independence.specs.Ties as T;
ghost use Rattle.independence.specs.Halves.{halves, whole};

use sets::Set;

// The variables listed with each variable of the set. Row x of `listed` has those whose pair with x is listed.
#[tactic(auto, using(sets::proofs::Common::common_start, sets::proofs::Common::common_turn, sets::proofs::Common::common_none, sets::proofs::Common::common_end, sets::proofs::Members::step_in))]
fn common(set: u64, listed: &[u64; sets::VARIABLES]) -> u64
    ensures { result ≡ S.common listed.now S.variable_limit set }
{
    let mut all = u64::below(sets::VARIABLES);
    for x in set.members() {
        all = all.meet(listed[x]);
        if all == 0 {
            return 0;
        }
    }
    all
}

// The variables listed with each variable of the set that is neither ground nor independent of every other.
fn apart(set: u64, grounded: u64, free: u64, listed: &[u64; sets::VARIABLES]) -> u64
    ensures { result ≡ J.apart grounded free listed.now S.variable_limit set }
{
    let loose = grounded.union(free);
    common(set.without(loose), listed)
}

// The variables each of which makes a later goal wait for the goal of this variable set: made once for all later goals. `grounded` has the variables known ground
// at this goal, `free` those known independent of every other.
pub fn ties(set: u64, grounded: u64, free: u64, listed: &[u64; sets::VARIABLES]) -> u64
    ensures { result ≡ T.ties_of grounded free listed.now S.variable_limit set }
{
    let apart = apart(set, grounded, free, listed);
    let clear = grounded.union(free.union(apart).without(set));
    u64::below(sets::VARIABLES).without(clear)
}

// A set of variables in two halves: the variables below 32, and those from 32 on, each less 32. Processors that compare several words at once do so for
// words of 32 bits, and not all of them for words of 64.
#[derive(Clone, Copy)]
pub struct Halves {
    pub low: u32,
    pub high: u32,
}

impl Halves {
    pub fn of(set: u64) -> Halves
        ensures { result ≡ halves 32 set }
    {
        let low = (set % 0x1_0000_0000) as u32;
        let high = (set >> 32) as u32;
        Halves { low, high }
    }
}

// The one test of two goals: whether the later goal, of this variable set, waits for the earlier one, whose ties are given. Both are in halves.
pub fn waits(ties: Halves, later: Halves) -> bool
    ensures { result ≡ T.tied (whole 32 ties) (whole 32 later) }
{
    let low = later.low.meet(ties.low);
    let high = later.high.meet(ties.high);
    low.union(high) != 0
}
