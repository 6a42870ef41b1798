// The operations of the paper, each from lent bytes to its whole answer. None has a precondition.
//
// `bytes` is the record. It and `text` are lent by `&` and stay as they were; `out` is lent by `&mut`. Reading the record starts every operation, so
// its refusals, 1 to 11, 18 and 19 ("reading" below), come first, then those of its own in the sequence given. A refusal has its number and place (the
// README's table), 13 also its four goals, and changes no lent byte: it is the `Err` of an answer. Each answer is promised as an outcome, refused or
// accepted (record_rules: Outcome), and one answer has it (specs/Cases.antt).
//
// operation               accepted, it answers                                                 refuses              promised by
// ----------------------  -------------------------------------------------------------------  -------------------  -----------------------------------------------
// read(bytes)             the goal count n                                                     reading              Answers.read
// order(bytes)            n and the closed graph: row g - 1 has the goals that g is before;    reading              Answers.read, Answers.order_graph
//                         the number of passes in which it was closed                                               Answers.order_passes
// form(bytes, out)        the length of the house form's text, which fills the start of `out`  reading, 13, 12      form: Form.form_answer, shown, form_buffer
// form_length(bytes)      the length of the house form's text, exactly                         reading, 13          form: Form.form_length, shown
// mel(bytes, out)         the length of the MEL annotation, which fills the start of `out`     reading, 12          mel: Annotation.mel_answer, mel_buffer
// find_text(bytes, goal)  the place and the length of the goal's text in the record            reading, 14          record_text: Texts.goal_text
// goal_text(bytes, goal)  the part of the lent record that holds this text                     as find_text         record_text: Texts.text_part, Part.PartAt
// check(bytes, text)      "same", or "differs" with the first i, then j                        reading, 15, 16, 17  Answers.check; expression_grammar: Check
//
// The definitions are those of specs/ here, or of the crate named before a colon. Rows past n are empty, and a refused record's graph is the empty one of
// 0 goals, with 0 passes. Behind its text `out` is kept. With any refusal, which find_text names, the part is the empty one at the record's start. For i
// and j just one of the two orders, the record's and the text's, has i before j.
#![tactic(auto)]

ghost use Rattle.std.specs.Prelude.{◌≡◌};
ghost use Rattle.order.specs.Order.{before};
ghost use Rattle.expression_grammar.specs.Check.{checked};
ghost use Rattle.record_fields.specs.Fields as F;
ghost use Rattle.record_rules.specs.Outcome.{outcome};
ghost use Rattle.form.specs.Form as P;
ghost use Rattle.mel.specs.Annotation as M;
ghost use Rattle.record_text.specs.Texts as T;
ghost use Rattle.record_text.specs.Part.{PartAt};
ghost use Rattle.annotator.specs.Answers as W;

use form::FormError;
use graph::Graph;
use order_compare::Verdict;
use record::Record;
use record_rules::Refusal;
use record_text::Span;

// The order: beside the reading's answer the closed graph and the number of passes that closing it took.
// Beside, and not in the answer: `graph_value` and `passes_value` say of a refused record too what they hold, the graph without goals and 0.
#[derive(Drop)]
pub struct OrderAnswer {
    pub reading: Result<usize, Refusal>,
    pub graph: Graph,
    pub passes: u32,
}

// Reads a record: the goal count.
#[tactic(auto, using(record_rules::proofs::Outcomes::read_err, record_rules::proofs::Outcomes::read_ok), unfolding(crate::specs::Answers::read))]
pub fn read(bytes: &[u8]) -> Result<usize, Refusal>
    ensures { outcome result ≡ W.read bytes.now }
{
    record::read(bytes)?;
    Ok(record_fields::goal_count(bytes))
}

// The order of a record's goals.
pub fn order(bytes: &[u8]) -> OrderAnswer
    ensures reading_value { outcome result.reading ≡ W.read bytes.now }
    ensures graph_value { result.graph ≡ W.order_graph bytes.now }
    ensures passes_value { result.passes ≡ W.order_passes bytes.now }
{
    match record::accept(bytes) {
        Ok(given) => {
            let c = clause::decode(given);
            let closed = order::closure_of(&c);
            OrderAnswer {
                reading: Ok(c.n),
                graph: closed.graph,
                passes: closed.passes,
            }
        }
        Err(r) => OrderAnswer {
            reading: Err(r),
            graph: Graph::empty(0),
            passes: 0,
        },
    }
}

// Writes the house form of a record's order into `out`: its length, or a refusal, 13 with its four goals, that leaves `out` as it was.
pub fn form(bytes: &[u8], out: &mut [u8]) -> Result<usize, FormError>
    ensures result_value { P.outcome result ≡ P.form_answer bytes.now out.old }
    ensures result_value_2 { P.goals result ≡ P.shown bytes.now }
    ensures out_after { out.new ≡ P.form_buffer bytes.now out.old }
{
    form::write(bytes, out)
}

// The length of a record's form, or a refusal, 13 with its four goals. A buffer of that length suffices for the form, and one byte less never does.
pub fn form_length(bytes: &[u8]) -> Result<usize, FormError>
    ensures result_value { P.outcome result ≡ P.form_length bytes.now }
    ensures result_value_2 { P.goals result ≡ P.shown bytes.now }
{
    form::length(bytes)
}

// Writes the MEL annotation of a record into `out`: its length, or a refusal that leaves `out` as it was.
pub fn mel(bytes: &[u8], out: &mut [u8]) -> Result<usize, Refusal>
    ensures result_value { outcome result ≡ M.mel_answer bytes.now out.old }
    ensures out_after { out.new ≡ M.mel_buffer bytes.now out.old }
{
    mel::write(bytes, out)
}

// Where the text of a goal stands, or why there is none.
pub fn find_text(bytes: &[u8], goal: u32) -> Result<Span, Refusal>
    ensures { outcome result ≡ T.goal_text bytes.now goal }
{
    record_text::find(bytes, goal)
}

// The text of a goal, as the part of the lent record that holds it; with any refusal the empty part at the record's start.
pub fn goal_text(bytes: &[u8], goal: u32) -> &[u8]
    ensures { PartAt bytes.entry (T.text_part bytes.now goal).place (T.text_part bytes.now goal).size result }
{
    record_text::part(bytes, goal)
}

// Checks an expression's text against the order of an accepted record.
#[tactic(auto, using(record::proofs::WellFormed::fine_well_formed))]
fn check_text(given: Record<'_>, text: &[u8]) -> Result<Verdict, Refusal>
    ensures { W.check_outcome result ≡ (let b = given.entry.bytes.now in checked (F.goal_count b) (before b) text.now) }
{
    let n = record_fields::goal_count(given.bytes);
    let drawn = expression_reading::read_text(text, n)?;
    let c = clause::decode(given);
    let graph = order::order_of(&c);
    Ok(order_compare::compare(&graph.rows, &drawn.graph.rows, n))
}

// Checks an expression's text against the order of a record.
#[tactic(auto, using(record_rules::proofs::Outcomes::read_err, record_rules::proofs::Outcomes::read_ok), unfolding(crate::specs::Answers::check))]
pub fn check(bytes: &[u8], text: &[u8]) -> Result<Verdict, Refusal>
    ensures { W.check_outcome result ≡ W.check bytes.now text.now }
{
    check_text(record::accept(bytes)?, text)
}
