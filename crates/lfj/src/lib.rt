// The operations as callers in C and Rust have them, thin over `annotator`: one function each, which `lfj_c` exports under its name. Each answers one word (lfj_words)
// and has no precondition; what is lent by `&` cannot change.
#![tactic(auto)]

ghost use Rattle.std.specs.Prelude.{◌≡◌};
ghost use Rattle.sets.specs.Sets.{goal_limit, variable_limit};
ghost use Rattle.record_fields.specs.Fields.{head_set};
ghost use Rattle.order.specs.Order.{order};
ghost use Rattle.clause.specs.Clause as C;
ghost use Rattle.form.specs.Form as F;
ghost use Rattle.mel.specs.Annotation as M;
ghost use Rattle.annotator.specs.Answers as P;
ghost use Rattle.record_rules.specs.Outcome.{accepted, read_then};
ghost use Rattle.record_rules.specs.Reading.{reading};
ghost use Rattle.record_text.specs.Texts as T;
ghost use Rattle.clause_facts.specs.Facts.{filled};
ghost use Rattle.lfj_words.specs.Words as W;
ghost use Rattle.lfj.specs.Calls as L;

use form::FormError;
use graph::Graph;
use record_rules::Refusal;

// The version of this interface.
pub fn lfj_version() -> u32
    ensures { result ≡ W.version }
{
    lfj_words::version()
}

// Reads the record: the goal count.
pub fn lfj_read(bytes: &[u8]) -> u64
    ensures { result ≡ W.read_word (P.read bytes.now) }
{
    match annotator::read(bytes) {
        Ok(n) => n as u64,
        Err(r) => lfj_words::refused(r),
    }
}

// Fills `rows` with the whole order, row g - 1 with the goals that goal g is before: the goal count.
pub fn lfj_order(bytes: &[u8], rows: &mut [u32; Graph::MAX]) -> u64
    ensures value { result ≡ W.read_word (P.read bytes.now) }
    ensures rows_after { rows.new ≡ filled bytes.now (order bytes.now).rows rows.old }
{
    let answer = annotator::order(bytes);
    match answer.reading {
        Ok(n) => {
            let closed = answer.graph.rows;
            *rows = closed;
            n as u64
        }
        Err(r) => lfj_words::refused(r),
    }
}

// The number of passes in which the graph of waits is closed.
pub fn lfj_passes(bytes: &[u8]) -> u64
    ensures { result ≡ W.read_word (P.passes bytes.now) }
{
    let answer = annotator::order(bytes);
    match answer.reading {
        Ok(_) => u64::from(answer.passes),
        Err(r) => lfj_words::refused(r),
    }
}

// The goals that a goal is before: their set.
pub fn lfj_after(bytes: &[u8], goal: u32) -> u64
    ensures { result ≡ W.after_word (L.after bytes.now goal) }
{
    let answer = annotator::order(bytes);
    match answer.reading {
        Ok(n) => {
            let g = goal as usize;
            if record_text::inside(g, n) {
                return u64::from(answer.graph.row(g));
            }
            lfj_words::refused(Refusal {
                number: 14,
                place: 0,
            })
        }
        Err(r) => lfj_words::refused(r),
    }
}

// Writes the house form into `out`: its length.
pub fn lfj_form(bytes: &[u8], out: &mut [u8]) -> u64
    ensures value { result ≡ W.form_word (F.form_answer bytes.now out.old) (F.shown bytes.now) }
    ensures out_after { out.new ≡ F.form_buffer bytes.now out.old }
{
    form_word(annotator::form(bytes, out))
}

// The form's length.
pub fn lfj_form_length(bytes: &[u8]) -> u64
    ensures { result ≡ W.form_word (F.form_length bytes.now) (F.shown bytes.now) }
{
    form_word(annotator::form_length(bytes))
}

// The word of a form's answer.
#[tactic(auto, unfolding(lfj_words::specs::Words::form_word))]
fn form_word(answer: Result<usize, FormError>) -> u64
    ensures { result ≡ W.form_word (F.outcome answer) (F.goals answer) }
{
    match answer {
        Ok(n) => lfj_words::low(n),
        Err(FormError::NoForm(q)) => lfj_words::no_form(q),
        Err(FormError::Refused(r)) => lfj_words::refused(r),
    }
}

// Writes the MEL annotation into `out`: its length.
pub fn lfj_mel(bytes: &[u8], out: &mut [u8]) -> u64
    ensures value { result ≡ W.mel_word (M.mel_answer bytes.now out.old) }
    ensures out_after { out.new ≡ M.mel_buffer bytes.now out.old }
{
    match annotator::mel(bytes, out) {
        Ok(n) => lfj_words::low(n),
        Err(r) => lfj_words::refused(r),
    }
}

// Where the text of a goal stands: its place and its length.
pub fn lfj_goal_text(bytes: &[u8], goal: u32) -> u64
    ensures { result ≡ L.text_word (T.goal_text bytes.now goal) }
{
    match annotator::find_text(bytes, goal) {
        Ok(s) => lfj_words::span(s.place, s.size),
        Err(r) => lfj_words::refused(r),
    }
}

// Holds an expression's text against the record's order: 0 for same, else i and j.
pub fn lfj_check(bytes: &[u8], text: &[u8]) -> u64
    ensures { result ≡ W.check_word (P.check bytes.now text.now) }
{
    match annotator::check(bytes, text) {
        Ok(v) => lfj_words::verdict(v),
        Err(r) => lfj_words::refused(r),
    }
}

// The facts of a clause, for planners.

// The word of a count, where reading refuses nothing.
#[tactic(auto, using(record_rules::proofs::Outcomes::read_err, record_rules::proofs::Outcomes::read_ok), unfolding(lfj_words::specs::Words::read_word))]
fn counted(bytes: &[u8], said: Result<(), Refusal>, count: usize) -> u64
    requires { said ≡ reading bytes.now }
    ensures { result ≡ W.read_word (read_then bytes.now (accepted count)) }
{
    match said {
        Ok(()) => count as u64,
        Err(r) => lfj_words::refused(r),
    }
}

// The word of the goal count.
#[tactic(auto, unfolding(annotator::specs::Answers::read))]
fn goals(bytes: &[u8], said: Result<(), Refusal>) -> u64
    requires { said ≡ reading bytes.now }
    ensures { result ≡ W.read_word (P.read bytes.now) }
{
    counted(bytes, said, record_fields::goal_count(bytes))
}

// Fills `sets` with the variables of the goals, those of goal g at place g - 1: the goal count.
pub fn lfj_goal_sets(bytes: &[u8], sets: &mut [u64; Graph::MAX]) -> u64
    ensures value { result ≡ W.read_word (P.read bytes.now) }
    ensures sets_after { sets.new ≡ filled bytes.now (C.goal_sets goal_limit bytes.now) sets.old }
{
    let said = clause_facts::goal_sets(bytes, sets);
    goals(bytes, said)
}

// Fills `sets` with the variables known ground at the goals, those at goal g at place g - 1: the goal count.
pub fn lfj_ground_sets(bytes: &[u8], sets: &mut [u64; Graph::MAX]) -> u64
    ensures value { result ≡ W.read_word (P.read bytes.now) }
    ensures sets_after { sets.new ≡ filled bytes.now (C.ground_sets goal_limit bytes.now) sets.old }
{
    let said = clause_facts::ground_sets(bytes, sets);
    goals(bytes, said)
}

// Fills `ticks` with the ticks of the goals, those of goal g at place g - 1: the goal count.
pub fn lfj_ticks(bytes: &[u8], ticks: &mut [u32; Graph::MAX]) -> u64
    ensures value { result ≡ W.read_word (P.read bytes.now) }
    ensures ticks_after { ticks.new ≡ filled bytes.now (C.goal_ticks goal_limit bytes.now) ticks.old }
{
    let said = clause_facts::goal_ticks(bytes, ticks);
    goals(bytes, said)
}

// Fills `rows` with the listed pairs, row x with the variables that are listed in a pair with x: the variable count.
#[tactic(auto, unfolding(crate::specs::Calls::variables))]
pub fn lfj_listed(bytes: &[u8], rows: &mut [u64; sets::VARIABLES]) -> u64
    ensures value { result ≡ W.read_word (L.variables bytes.now) }
    ensures rows_after { rows.new ≡ filled bytes.now (C.pair_rows variable_limit bytes.now) rows.old }
{
    let said = clause_facts::listed_pairs(bytes, rows);
    counted(bytes, said, record_fields::var_count(bytes))
}

// Puts the head's variables into `head`: the variable count.
#[tactic(auto, unfolding(crate::specs::Calls::variables))]
pub fn lfj_head(bytes: &[u8], head: &mut u64) -> u64
    ensures value { result ≡ W.read_word (L.variables bytes.now) }
    ensures head_after { head.new ≡ filled bytes.now (head_set bytes.now) head.old }
{
    let said = clause_facts::head(bytes, head);
    counted(bytes, said, record_fields::var_count(bytes))
}
