// The texts of a stage's checks, a comma before each.
#![tactic(auto)]

ghost use Rattle.std.specs.Prelude.{◌+◌, ◌^◌, ◌<◌, ◌≤◌, length};
ghost use Rattle.std.proofs.Math.Seq as Q;
ghost use Rattle.sets.specs.Sets.{variable_limit};
ghost use Rattle.buffer.specs.Text.{Wrote};
ghost use Rattle.buffer.specs.Decimal.{decimal};
ghost use Rattle.mel_stages.specs.Mel as W;
ghost use Rattle.mel_checks.specs.CheckTexts as C;

use mel_stages::Stage;
use sets::Set;

// Writes a comma and one check of a variable.
fn put_ground(out: &mut [u8], at: usize, x: usize) -> usize
    requires { at + length (C.item (W.Ground x)) < 2 ^ 63 }
    ensures { Wrote (C.item (W.Ground x)) at out.old result out.new }
{
    let mut o = buffer::put_bytes(out, at, b",ground(v");
    o = buffer::put_number(out, o, x);
    buffer::put_byte(out, o, b')')
}

// Writes text with the numbers x and y put into it, x at place 8 and y at place j.
fn put_numbered(out: &mut [u8], at: usize, text: &mut [u8], x: usize, j: usize, y: usize) -> usize
    requires { (x < 100) × (y < 100) × (j < 100) × (at + length text.old < 2 ^ 64) }
    ensures { Wrote (Q.sets (Q.sets text.old 8 (decimal x)) j (decimal y)) at out.old result out.new }
{
    buffer::put_number(text, 8, x);
    buffer::put_number(text, j, y);
    buffer::put_bytes(out, at, text)
}

// Writes a comma and one check of two variables. A long annotation has thousands of them, so each is put in one piece, which asks for room once.
fn put_indep(out: &mut [u8], at: usize, x: usize, y: usize) -> usize
    requires x_bound { (x < 100) × (y < 100) }
    requires y_bound { at + length (C.item (W.Indep x y)) < 2 ^ 63 }
    ensures { Wrote (C.item (W.Indep x y)) at out.old result out.new }
{
    if x < 10 {
        if y < 10 {
            let mut text = *b",indep(v0,v0)";
            return put_numbered(out, at, &mut text, x, 11, y);
        }
        let mut text = *b",indep(v0,v00)";
        return put_numbered(out, at, &mut text, x, 11, y);
    }
    if y < 10 {
        let mut text = *b",indep(v00,v0)";
        return put_numbered(out, at, &mut text, x, 12, y);
    }
    let mut text = *b",indep(v00,v00)";
    put_numbered(out, at, &mut text, x, 12, y)
}

// Writes the check of each variable of the set m, ascending, a comma before each.
pub fn put_grounds(out: &mut [u8], at: usize, m: u64) -> usize
    requires { at + length (C.grounds_text variable_limit m) < 2 ^ 63 }
    ensures { Wrote (C.grounds_text variable_limit m) at out.old result out.new }
{
    let mut o = at;
    for x in m.members() {
        o = put_ground(out, o, x);
    }
    o
}

// Writes the check of x with each variable of the set m, ascending, a comma before each.
#[tactic(auto, using(sets::proofs::Members::step_in))]
fn put_row(out: &mut [u8], at: usize, x: usize, m: u64) -> usize
    requires x_bound { x < 100 }
    requires m_bound { at + length (C.row_text variable_limit x m) < 2 ^ 63 }
    ensures { Wrote (C.row_text variable_limit x m) at out.old result out.new }
{
    let mut o = at;
    for y in m.members() {
        o = put_indep(out, o, x, y);
    }
    o
}

// Writes the check of each candidate with its partners, ascending, a comma before each; own has the set of each candidate's goal.
#[tactic(auto, using(sets::proofs::Members::step_in))]
fn put_rows(
    out: &mut [u8],
    at: usize,
    own: &[u64; sets::VARIABLES],
    listed: &[u64; sets::VARIABLES],
    k: u64,
) -> usize
    requires { at + length (C.rows_text variable_limit own.now listed.now k k) < 2 ^ 63 }
    ensures { Wrote (C.rows_text variable_limit own.now listed.now k k) at out.old result out.new }
{
    let mut o = at;
    for x in k.members() {
        let others = mel_stages::partners(k, listed[x], own[x], x);
        o = put_row(out, o, x, others);
    }
    o
}

// Writes the independence checks of the candidates k of a stage.
pub fn put_pairs(
    out: &mut [u8],
    at: usize,
    sets: &[u64],
    listed: &[u64; sets::VARIABLES],
    stage: Stage,
    k: u64,
) -> usize
    requires { at + length (C.pairs_text variable_limit sets.now listed.now stage.after stage.last k k) < 2 ^ 63 }
    ensures { Wrote (C.pairs_text variable_limit sets.now listed.now stage.after stage.last k k) at out.old result out.new }
{
    if k == 0 {
        return at;
    }
    let mut own = [0u64; sets::VARIABLES];
    mel_stages::own_goals(&mut own, sets, stage, k);
    put_rows(out, at, &own, listed, k)
}
