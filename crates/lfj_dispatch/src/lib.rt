// The dispatcher (02, request 4), a product of its own over the annotator: its two operations, over the row of heads that the caller lends. Neither has a precondition.
// `lfj_dispatch_c` exports both under their names.
//
// `bytes` is the record, which stays as it was; `ended` the set of goals that have ended, goal g at bit g - 1, as the call before gave it back. Reading the record starts both, so
// its refusals, 1 to 11, 18 and 19, come first, then 20. With any refusal the row is as it was and the set is 0, bits 0 to 31 of the word being the place: a caller keeps its own.
//
// operation                      accepted, it answers                           and leaves the row                 refuses      promised by dispatcher: Ticks
// -----------------------------  ---------------------------------------------  ---------------------------------  -----------  -------------------------------
// lfj_start(bytes, heads)        the empty set                                  all idle                           reading, 20  start_answer, start_row
// lfj_tick(bytes, heads, ended)  the set of goals that have ended after a tick  as the rule of a tick leaves it    reading, 20  tick_answer, tick_row
//
// An answer is a word (lfj_words): bits 56 to 63 have the refusal's number, 0 if accepted, bits 0 to 31 its place or the set. The functions here are thin: a head is copied out of
// the row, a step on values is called (dispatch_steps), and the head is stored back. Nothing is decided here.
#![tactic(auto)]

ghost use Rattle.std.specs.Prelude.{◌≡◌};
ghost use Rattle.lfj_words.specs.Words.{tick_word};
ghost use Rattle.dispatch_steps.specs.Steps as S;
ghost use Rattle.dispatcher.specs.Openings as O;
ghost use Rattle.dispatcher.specs.Ticks as T;

use dispatch_rule::Head;
use dispatch_steps::{Board, Opening, Plan};

// Each head in turn, lowest first.
fn sweep(heads: &mut [Head], b: Board, p: Plan) -> Board
    ensures { (result ≡ S.sweep_board p heads.old b) × (heads.new ≡ S.sweep_heads p heads.old b) }
{
    let mut board = b;
    for h in heads.iter_mut() {
        let out = dispatch_steps::step(*h, board, p);
        *h = out.head;
        board = out.board;
    }
    board
}

// The row gone over twice, and the answer word.
fn turn(heads: &mut [Head], o: Opening) -> u64
    ensures { (result ≡ O.turn_word o heads.old) × (heads.new ≡ S.turn_heads o heads.old) }
{
    let board = o.board;
    let plan = o.plan;
    let refusal = o.refusal;
    let seen = sweep(heads, board, plan);
    let next = dispatch_steps::second(seen);
    let last = sweep(heads, next, plan);
    dispatcher::word_of(last, refusal)
}

// One tick: the goals that have ended after it.
pub fn lfj_tick(bytes: &[u8], heads: &mut [Head], ended: u32) -> u64
    ensures { (result ≡ tick_word (T.tick_answer bytes.now heads.old ended)) × (heads.new ≡ T.tick_row bytes.now heads.old ended) }
{
    let o = dispatcher::tick_opening(bytes, heads.len(), ended);
    turn(heads, o)
}

// A start: all heads idle, and no goal has ended.
pub fn lfj_start(bytes: &[u8], heads: &mut [Head]) -> u64
    ensures { (result ≡ tick_word (T.start_answer bytes.now heads.old)) × (heads.new ≡ T.start_row bytes.now heads.old) }
{
    let o = dispatcher::start_opening(bytes, heads.len());
    turn(heads, o)
}
