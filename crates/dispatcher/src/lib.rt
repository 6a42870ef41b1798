// The dispatcher's two operations but for the row of heads (02, request 4): from the record to what a start and a tick begin with, and from what is left on the board to
// the answer word. The crate `lfj_dispatch` goes over the row.
#![tactic(auto)]

ghost use Rattle.std.specs.Prelude.{◌≡◌};
ghost use Rattle.dispatcher.specs.Ticks as T;
ghost use Rattle.dispatcher.specs.Openings as O;

use dispatch_steps::{Board, Opening, Phase, Plan};
use graph::Graph;
use record::Record;
use record_rules::Refusal;
use sets::Set;

// The most heads of a row.
pub const HEADS: usize = 8;

// A row of so many heads is no reason to refuse.
fn few(heads: usize) -> bool
    ensures { result ≡ T.few heads }
{
    (1..=HEADS).contains(&heads)
}

// What refuses a row of heads or a set of ended goals.
fn bad_row() -> Refusal
    ensures { result ≡ O.bad_row }
{
    Refusal {
        number: 20,
        place: 0,
    }
}

// A board on which nothing is free, with a phase, no ticks and a refusal.
fn bare(phase: Phase, refusal: Refusal) -> Opening
    ensures { result ≡ O.bare phase refusal }
{
    Opening {
        board: Board {
            phase,
            free: 0,
            done: 0,
        },
        plan: Plan {
            ticks: [0; Graph::MAX],
        },
        refusal,
    }
}

// Of a refused record: nothing is done with the heads.
#[tactic(auto, unfolding(crate::specs::Openings::shut))]
fn shut(r: Refusal) -> Opening
    ensures { result ≡ O.shut r }
{
    bare(Phase::Rest, r)
}

// Of an accepted record, a start: the heads are made idle.
#[tactic(auto, unfolding(crate::specs::Openings::start_open))]
fn start_open(heads: usize) -> Opening
    ensures { result ≡ O.start_open heads }
{
    bare(dispatch_steps::kept(few(heads), Phase::Idle), bad_row())
}

// Of an accepted record, a tick: the heads are looked at. The goals that have ended are judged here, and which goals wait for one that has not ended. Direct waits
// tell both: where every goal that an ended goal waits for has ended, so has every goal from which a chain of waits leads to it.
fn tick_open(given: Record<'_>, heads: usize, ended: u32) -> Opening
    ensures { result ≡ O.tick_open given.entry.bytes.now heads ended }
{
    let c = clause::decode(given);
    let all = u32::below(c.n);
    let left = all.without(ended);
    let waiting = order::waiting_for(&c, left);
    let ready = all.without(waiting);
    let known = ended.subset(ready);
    let ok = few(heads) & known;
    let phase = dispatch_steps::kept(ok, Phase::Look);
    let free = left.without(waiting);
    let board = Board {
        phase,
        free,
        done: ended,
    };
    let plan = Plan { ticks: c.ticks };
    Opening {
        board,
        plan,
        refusal: bad_row(),
    }
}

// What a start of so many heads begins with.
#[tactic(auto, unfolding(crate::specs::Openings::start_opening))]
pub fn start_opening(bytes: &[u8], heads: usize) -> Opening
    ensures { result ≡ O.start_opening bytes.now heads }
{
    match record::read(bytes) {
        Err(r) => shut(r),
        Ok(()) => start_open(heads),
    }
}

// What a tick of so many heads begins with, where these goals have ended.
#[tactic(auto, unfolding(crate::specs::Openings::tick_opening))]
pub fn tick_opening(bytes: &[u8], heads: usize, ended: u32) -> Opening
    ensures { result ≡ O.tick_opening bytes.now heads ended }
{
    match record::accept(bytes) {
        Err(r) => shut(r),
        Ok(given) => tick_open(given, heads, ended),
    }
}

// The answer word: the refusal if the heads rest, or the goals that have ended.
#[tactic(auto, unfolding(crate::specs::Openings::board_word))]
pub fn word_of(b: Board, r: Refusal) -> u64
    ensures { result ≡ O.board_word b r }
{
    match b.phase {
        Phase::Rest => lfj_words::refused(r),
        _ => u64::from(b.done),
    }
}
