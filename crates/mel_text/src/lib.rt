// The texts of a clause's stages.
#![tactic(auto)]

ghost use Rattle.std.specs.Prelude.{◌≡◌, true, ◌+◌, ◌^◌, ◌<◌, ◌≤◌, length};
ghost use Rattle.buffer.specs.Text.{Wrote};
ghost use Rattle.mel_stages.specs.Mel as W;
ghost use Rattle.mel_text.specs.StageTexts as X;

use mel_stages::{Stage, Staged};
use sets::Set;

// Writes a stage's goals, `&` between them.
fn put_goals(out: &mut [u8], at: usize, stage: Stage) -> usize
    requires last_bound { stage.last < 100 }
    requires text_fits { at + length (W.goals_text stage.after stage.last) < 2 ^ 63 }
    ensures { Wrote (W.goals_text stage.after stage.last) at out.old result out.new }
{
    let mut o = at;
    for g in stage.after..stage.last {
        o = buffer::put_if(out, o, b'&', stage.after < g);
        o = buffer::put_number(out, o, g + 1);
    }
    o
}

// Writes the arrow after checks, where there are any.
#[tactic(auto, unfolding(mel_stages::specs::Mel::arrow_if))]
fn put_arrow(out: &mut [u8], at: usize, on: bool) -> usize
    requires { at + length (W.arrow_if on) < 2 ^ 63 }
    ensures { Wrote (W.arrow_if on) at out.old result out.new }
{
    if on {
        return buffer::put_bytes(out, at, b"=>");
    }
    at
}

// The variables of the ground checks of a stage, and those that its independence checks are made of.
#[derive(Clone, Copy)]
struct Checks {
    grounded: u64,
    pairs: u64,
}

fn checks_of(clause: &Staged, stage: Stage) -> Checks
    requires { stage.last ≤ length clause.now.sets.now }
    ensures ground_value { result.grounded ≡ X.ground_set clause.now.sets.now clause.now.grounds.now stage.after stage.last }
    ensures pairs_value { result.pairs ≡ X.pair_set clause.now.head clause.now.sets.now clause.now.grounds.now stage.after stage.last }
{
    let grounded = mel_stages::goal(clause.grounds, stage.after + 1);
    let met = clause.head.union(clause.before[stage.after]);
    let seen = mel_stages::counted(clause.sets, stage);
    Checks {
        grounded: seen.twice.without(grounded),
        pairs: seen.candidates(met, grounded),
    }
}

// Writes the checks of a stage, a comma before each.
fn put_checks(out: &mut [u8], at: usize, clause: &Staged, stage: Stage) -> usize
    requires last_in_bounds { stage.last ≤ length clause.now.sets.now }
    requires text_fits { at + length (X.checks_of clause.now true stage.after stage.last) < 2 ^ 63 }
    ensures { Wrote (X.checks_of clause.now true stage.after stage.last) at out.old result out.new }
{
    let c = checks_of(clause, stage);
    let o = mel_checks::put_grounds(out, at, c.grounded);
    mel_checks::put_pairs(out, o, clause.sets, clause.listed, stage, c.pairs)
}

// Writes a stage: a goal's number, or its checks, an arrow where there are any, and its goals. The parenthesis stands in the place of the first check's comma.
fn put_stage(out: &mut [u8], at: usize, clause: &Staged, stage: Stage) -> usize
    requires last_in_bounds { (stage.after < stage.last) × (stage.last ≤ length clause.now.sets.now) }
    requires text_fits { at + length (X.stage_of clause.now stage.after stage.last) < 2 ^ 63 }
    ensures { Wrote (X.stage_of clause.now stage.after stage.last) at out.old result out.new }
{
    if stage.last == stage.after + 1 {
        return buffer::put_number(out, at, stage.last);
    }
    let c = put_checks(out, at, clause, stage);
    let start = buffer::put_byte(out, at, b'(');
    let mut o = put_arrow(out, start.max(c), at < c);
    o = put_goals(out, o, stage);
    buffer::put_byte(out, o, b')')
}

// Writes the stages of goals 1 to q, a comma between them: the last stage is found first and written last.
pub fn put_stages(out: &mut [u8], at: usize, clause: &Staged, q: usize) -> usize
    requires q_in_bounds { (0 < q) × (q ≤ length clause.now.sets.now) }
    requires text_fits { at + length (X.stages_of clause.now q) < 2 ^ 63 }
    ensures { Wrote (X.stages_of clause.now q) at out.old result out.new }
{
    let p = clause.start_of(q);
    let stage = Stage { after: p, last: q };
    if p == 0 {
        return put_stage(out, at, clause, stage);
    }
    let mut o = put_stages(out, at, clause, p);
    o = buffer::put_byte(out, o, b',');
    put_stage(out, o, clause, stage)
}
