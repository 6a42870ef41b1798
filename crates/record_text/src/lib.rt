// The text of a goal in a lent record.
#![tactic(auto)]

ghost use Rattle.std.specs.Prelude.{◌≡◌, ◌&&◌, leb};
ghost use Rattle.record_rules.specs.Outcome.{outcome};
ghost use Rattle.record_text.specs.Texts as T;
ghost use Rattle.record_text.specs.Part.{PartAt};

use record_fields::Layout;
use record_rules::{Refusal, ensure};

// Where a goal's text stands in the record.
#[derive(Clone, Copy)]
pub struct Span {
    pub place: usize,
    pub size: usize,
}

// Whether g is the number of one of n goals: from 1 to n. It is the test behind 14, open to callers that have a goal count.
pub fn inside(g: usize, n: usize) -> bool
    ensures { result ≡ (leb 1 g && leb g n) }
{
    (1 <= g) & (g <= n)
}

// Where the text of a goal stands, or why there is none.
#[tactic(auto, using(record_rules::proofs::Outcomes::read_err, record_rules::proofs::Outcomes::read_ok, record_rules::proofs::Outcomes::only_err, record_rules::proofs::Outcomes::only_ok), unfolding(crate::specs::Texts::goal_text))]
pub fn find(bytes: &[u8], goal: u32) -> Result<Span, Refusal>
    ensures { outcome result ≡ T.goal_text bytes.now goal }
{
    record::read(bytes)?;
    let g = goal as usize;
    let n = record_fields::goal_count(bytes);
    ensure(inside(g, n), 14, 0)?;
    let layout = Layout::of(bytes);
    let at = layout.goal_place(g);
    Ok(Span {
        place: layout.text_at(at),
        size: layout.text_length_at(at),
    })
}

// The text of a goal, as the part of the lent record that holds it; with any refusal the empty part at the record's start.
pub fn part(bytes: &[u8], goal: u32) -> &[u8]
    ensures { PartAt bytes.entry (T.text_part bytes.now goal).place (T.text_part bytes.now goal).size result }
{
    match find(bytes, goal) {
        Ok(s) => {
            let a = s.place;
            let e = a + s.size;
            &bytes[a..e]
        }
        Err(_) => &bytes[0..0],
    }
}
