// The functions of `lfj` for callers in C and in Rust, which link the archive that this crate is built to: each one calls that of the same name in `lfj`, and promises the
// same, word for word.
#![tactic(auto)]

ghost use Rattle.std.specs.Prelude.{◌≡◌};
ghost use Rattle.sets.specs.Sets.{goal_limit, variable_limit};
ghost use Rattle.record_fields.specs.Fields.{head_set};
ghost use Rattle.order.specs.Order.{order};
ghost use Rattle.clause.specs.Clause as C;
ghost use Rattle.form.specs.Form as F;
ghost use Rattle.mel.specs.Annotation as M;
ghost use Rattle.annotator.specs.Answers as P;
ghost use Rattle.record_text.specs.Texts as T;
ghost use Rattle.clause_facts.specs.Facts.{filled};
ghost use Rattle.lfj_words.specs.Words as W;
ghost use Rattle.lfj.specs.Calls as L;

use graph::Graph;

// The version of this interface.
#[unsafe(no_mangle)]
pub extern "C" fn lfj_version() -> u32
    ensures { result ≡ W.version }
{
    lfj::lfj_version()
}

// Reads the record: the goal count.
#[unsafe(no_mangle)]
pub extern "C" fn lfj_read(bytes: &[u8]) -> u64
    ensures { result ≡ W.read_word (P.read bytes.now) }
{
    lfj::lfj_read(bytes)
}

// Fills `rows` with the whole order, row g - 1 with the goals that goal g is before: the goal count.
#[unsafe(no_mangle)]
pub extern "C" fn lfj_order(bytes: &[u8], rows: &mut [u32; Graph::MAX]) -> u64
    ensures value { result ≡ W.read_word (P.read bytes.now) }
    ensures rows_after { rows.new ≡ filled bytes.now (order bytes.now).rows rows.old }
{
    lfj::lfj_order(bytes, rows)
}

// The number of passes in which the graph of waits is closed.
#[unsafe(no_mangle)]
pub extern "C" fn lfj_passes(bytes: &[u8]) -> u64
    ensures { result ≡ W.read_word (P.passes bytes.now) }
{
    lfj::lfj_passes(bytes)
}

// The goals that a goal is before: their set.
#[unsafe(no_mangle)]
pub extern "C" fn lfj_after(bytes: &[u8], goal: u32) -> u64
    ensures { result ≡ W.after_word (L.after bytes.now goal) }
{
    lfj::lfj_after(bytes, goal)
}

// Writes the house form into `out`: its length.
#[unsafe(no_mangle)]
pub extern "C" fn lfj_form(bytes: &[u8], out: &mut [u8]) -> u64
    ensures value { result ≡ W.form_word (F.form_answer bytes.now out.old) (F.shown bytes.now) }
    ensures out_after { out.new ≡ F.form_buffer bytes.now out.old }
{
    lfj::lfj_form(bytes, out)
}

// The form's length.
#[unsafe(no_mangle)]
pub extern "C" fn lfj_form_length(bytes: &[u8]) -> u64
    ensures { result ≡ W.form_word (F.form_length bytes.now) (F.shown bytes.now) }
{
    lfj::lfj_form_length(bytes)
}

// Writes the MEL annotation into `out`: its length.
#[unsafe(no_mangle)]
pub extern "C" fn lfj_mel(bytes: &[u8], out: &mut [u8]) -> u64
    ensures value { result ≡ W.mel_word (M.mel_answer bytes.now out.old) }
    ensures out_after { out.new ≡ M.mel_buffer bytes.now out.old }
{
    lfj::lfj_mel(bytes, out)
}

// Where the text of a goal stands: its place and its length.
#[unsafe(no_mangle)]
pub extern "C" fn lfj_goal_text(bytes: &[u8], goal: u32) -> u64
    ensures { result ≡ L.text_word (T.goal_text bytes.now goal) }
{
    lfj::lfj_goal_text(bytes, goal)
}

// Holds an expression's text against the record's order: 0 for same, else i and j.
#[unsafe(no_mangle)]
pub extern "C" fn lfj_check(bytes: &[u8], text: &[u8]) -> u64
    ensures { result ≡ W.check_word (P.check bytes.now text.now) }
{
    lfj::lfj_check(bytes, text)
}

// Fills `sets` with the variables of the goals, those of goal g at place g - 1: the goal count.
#[unsafe(no_mangle)]
pub extern "C" fn lfj_goal_sets(bytes: &[u8], sets: &mut [u64; Graph::MAX]) -> u64
    ensures value { result ≡ W.read_word (P.read bytes.now) }
    ensures sets_after { sets.new ≡ filled bytes.now (C.goal_sets goal_limit bytes.now) sets.old }
{
    lfj::lfj_goal_sets(bytes, sets)
}

// Fills `sets` with the variables known ground at the goals, those at goal g at place g - 1: the goal count.
#[unsafe(no_mangle)]
pub extern "C" fn lfj_ground_sets(bytes: &[u8], sets: &mut [u64; Graph::MAX]) -> u64
    ensures value { result ≡ W.read_word (P.read bytes.now) }
    ensures sets_after { sets.new ≡ filled bytes.now (C.ground_sets goal_limit bytes.now) sets.old }
{
    lfj::lfj_ground_sets(bytes, sets)
}

// Fills `ticks` with the ticks of the goals, those of goal g at place g - 1: the goal count.
#[unsafe(no_mangle)]
pub extern "C" fn lfj_ticks(bytes: &[u8], ticks: &mut [u32; Graph::MAX]) -> u64
    ensures value { result ≡ W.read_word (P.read bytes.now) }
    ensures ticks_after { ticks.new ≡ filled bytes.now (C.goal_ticks goal_limit bytes.now) ticks.old }
{
    lfj::lfj_ticks(bytes, ticks)
}

// Fills `rows` with the listed pairs, row x with the variables that are listed in a pair with x: the variable count.
#[unsafe(no_mangle)]
pub extern "C" fn lfj_listed(bytes: &[u8], rows: &mut [u64; sets::VARIABLES]) -> u64
    ensures value { result ≡ W.read_word (L.variables bytes.now) }
    ensures rows_after { rows.new ≡ filled bytes.now (C.pair_rows variable_limit bytes.now) rows.old }
{
    lfj::lfj_listed(bytes, rows)
}

// Puts the head's variables into `head`: the variable count.
#[unsafe(no_mangle)]
pub extern "C" fn lfj_head(bytes: &[u8], head: &mut u64) -> u64
    ensures value { result ≡ W.read_word (L.variables bytes.now) }
    ensures head_after { head.new ≡ filled bytes.now (head_set bytes.now) head.old }
{
    lfj::lfj_head(bytes, head)
}
