// Checks a goal of a record: by plain tests whether anything is refused, and step by step for the refusal.
#![tactic(auto)]

ghost use Rattle.std.specs.Prelude.{◌≡◌, ◌+◌, ◌<◌, ◌≤◌, ◌^◌, true, false, length};
ghost use Rattle.sets.specs.Sets.{below};
ghost use Rattle.record_fields.specs.Fields as F;
ghost use Rattle.record_rules.specs.Reading as R;
ghost use Rattle.record_rules.specs.Fine as D;
ghost use Rattle.record_goals.specs.Text as T;
ghost use Rattle.record_goals.specs.Facts as K;

use record_fields::Layout;
use record_rules::{Refusal, ensure};
use sets::Set;

// The least and the greatest text byte.
const LEAST: u8 = 33;

const GREATEST: u8 = 126;

fn text_byte(x: u8) -> bool
    ensures { result ≡ R.is_text_byte x }
{
    (LEAST <= x) & (x <= GREATEST)
}

// Whether each of the k bytes from `from` on is a text byte. Every byte is tested, so that several are tested at once.
#[tactic(auto, using(crate::proofs::Text::clean_zero))]
fn clean(b: &[u8], from: usize, k: usize) -> bool
    requires { from + k ≤ length b.now }
    ensures { result ≡ T.clean b.now from k }
{
    let mut ok = true;
    for x in &b[from..from + k] {
        ok &= text_byte(*x);
    }
    ok
}

// The first of the k bytes from `from` on that is no text byte, or the place after them.
#[tactic(auto, using(crate::proofs::Text::bad_good, crate::proofs::Text::bad_here, crate::proofs::Text::bad_none))]
fn find_bad(b: &[u8], from: usize, k: usize) -> usize
    requires { from + k < 2 ^ 64 }
    ensures { result ≡ R.first_bad b.now from k }
{
    let end = from + k;
    for at in from..end {
        if !text_byte(buffer::byte(b, at)) {
            return at;
        }
    }
    end
}

// The most bytes that a goal's text has.
const LONGEST: usize = 24;

// Whether a text may have k bytes.
fn length_fine(k: usize) -> bool
    ensures { result ≡ R.between 1 R.text_limit k }
{
    (1 <= k) & (k <= LONGEST)
}

// Whether a ground set keeps the one before it, and has no variable that is not met yet.
fn grows(before: u64, met: u64, grounded: u64) -> bool
    ensures { result ≡ R.grows before met grounded }
{
    before.subset(grounded) & grounded.subset(met)
}

// The most ticks that a goal takes.
const MOST_TICKS: u32 = 60_000;

// Whether a goal may take so many ticks.
fn ticks_fine(ticks: u32) -> bool
    ensures { result ≡ R.between 1 R.tick_limit ticks }
{
    (1 <= ticks) & (ticks <= MOST_TICKS)
}

// Checks the goal that starts at `at`. `before` is the ground set of the goal before it, `met` has the variables of the head and of the goals before it: parameters, and
// no struct with the layout, since all three change with each goal.
#[tactic(auto, using(record_rules::proofs::Must::must_err, record_rules::proofs::Must::must_ok), unfolding(record_rules::specs::Reading::goal))]
pub fn goal(layout: &Layout<'_>, at: usize, v: usize, before: u64, met: u64) -> Result<(), Refusal>
    requires { (at < 2 ^ 32) × (v ≡ F.var_count layout.now.bytes.now) }
    ensures { result ≡ R.goal layout.now.bytes.now at before met (Ok tt) }
{
    let size = layout.bytes.len();
    let at_length = layout.length_at(at);
    let text = layout.text_at(at);
    let k = layout.text_length_at(at);
    let set = record_fields::set_at(layout.bytes, at);
    let grounded = layout.ground_of(at);
    let grown = grows(before, met, grounded);
    let timed = ticks_fine(layout.ticks_of(at));
    let bad = find_bad(layout.bytes, text, k);
    ensure(text <= size, 7, size)?;
    ensure(sets::within(set, v), 8, at)?;
    ensure(grown, 18, at + record_fields::GOAL_GROUND)?;
    ensure(timed, 19, at + record_fields::GOAL_TICKS)?;
    ensure(length_fine(k), 9, at_length)?;
    ensure(text + k <= size, 7, size)?;
    ensure(bad == text + k, 9, bad)
}

// Whether nothing is refused of the facts of a goal whose fixed part is there. Without facts of its own nothing is.
#[tactic(auto, unfolding(crate::specs::Facts::facts_fine))]
fn facts_fine(layout: &Layout<'_>, at: usize, before: u64, met: u64) -> bool
    requires whole { F.text_at layout.now.bytes.now at ≤ length layout.now.bytes.now }
    requires small { at < 2 ^ 32 }
    requires plain { F.own_facts layout.now.bytes.now ≡ false → K.facts_fine layout.now.bytes.now at before met ≡ true }
    ensures { result ≡ K.facts_fine layout.now.bytes.now at before met }
{
    if layout.own {
        let grounded = layout.whole_ground(at);
        return grows(before, met, grounded) & ticks_fine(layout.ticks_of(at));
    }
    true
}

// Whether nothing is refused of the goal that starts at `at` and has k text bytes. `all` has the variables below v.
#[tactic(auto, using(crate::proofs::GoalSteps::goal_whole, crate::proofs::GoalSteps::goal_cut, record_fields::proofs::Facts::length_between))]
pub fn goal_fine(layout: &Layout<'_>, at: usize, all: u64, k: usize, before: u64, met: u64) -> bool
    requires small { at < 2 ^ 32 }
    requires all_below { all ≡ below (F.var_count layout.now.bytes.now) }
    requires length { k ≡ F.text_length_at layout.now.bytes.now at }
    requires short { k < 256 }
    requires plain { F.own_facts layout.now.bytes.now ≡ false → K.facts_fine layout.now.bytes.now at before met ≡ true }
    ensures { result ≡ D.goal_fine layout.now.bytes.now at before met }
{
    let text = layout.text_at(at);
    if text + k <= layout.bytes.len() {
        let set = record_fields::whole_set(layout.bytes, at);
        return set.subset(all)
            & facts_fine(layout, at, before, met)
            & length_fine(k)
            & clean(layout.bytes, text, k);
    }
    false
}
