// Writing the house form of a record's order, and its length alone.
#![tactic(auto)]

ghost use Rattle.std.specs.Prelude.{◌≡◌, ◌≤◌, length};
ghost use Rattle.sets.specs.Sets.{goal_limit};
ghost use Rattle.record_rules.specs.Outcome.{accepted, outcome, size_in, buffer_after};
ghost use Rattle.graph.specs.Graph.{ahead, Within};
ghost use Rattle.expression.specs.Expr.{Goals};
ghost use Rattle.expression.specs.Arrange.{Strict, form_any};
ghost use Rattle.expression.specs.Search.{first_n};
ghost use Rattle.expression.specs.Text as T;
ghost use Rattle.form.specs.Form as F;
ghost use Rattle.form.specs.declared.FormError.TheVariants as W;

use form_first_n::Four;
use graph::Graph;
use graph_transpose::Directions;
use record_rules::Refusal;
use sets::Set;
use std::error::Error;
use std::fmt;

// Why there is no text.
#[derive(Clone, Copy, Debug, PartialEq, Eq)]
pub enum FormError {
    // The first four goals that show that no expression has the order: refusal 13.
    NoForm(Four),
    Refused(Refusal),
}

impl fmt::Display for FormError {
    fn fmt<W: fmt::Write>(&self, f: &mut fmt::Formatter<W>) -> fmt::Result {
        match self {
            FormError::NoForm(q) => write!(f, "refused 13 0 {} {} {} {}", q.a, q.b, q.c, q.d),
            FormError::Refused(r) => write!(f, "{r}"),
        }
    }
}

impl Error for FormError {}

impl From<Refusal> for FormError {
    ghost from_gives = { λ r e. e ≡ W.Refused r };

    fn from(r: Refusal) -> FormError {
        FormError::Refused(r)
    }
}

// The length of the longest form of 32 goals.
pub const LONGEST: usize = 146;

// Copies a text to the start of a buffer that holds it, or refuses with 12.
#[tactic(auto, using(record_rules::proofs::Outcomes::only_err), unfolding(buffer::specs::Lent::fits))]
fn copy(text: &[u8], out: &mut [u8]) -> Result<usize, Refusal>
    ensures outcome { outcome result ≡ size_in (accepted text.now) out.old }
    ensures out_after { out.new ≡ buffer_after (accepted text.now) out.old }
{
    let need = text.len();
    record_rules::ensure(need <= out.len(), 12, need)?;
    Ok(buffer::put_bytes(out, 0, text))
}

// Writes the form of the goals 1 to n in the order that the rows say, any strict order, at the start of a buffer that holds every form; or refuses with 13.
fn put_rows(rows: &[u32; Graph::MAX], n: usize, space: &mut [u8]) -> Result<usize, FormError>
    requires { (1 ≤ n) × (n ≤ goal_limit) × Strict (ahead rows.now) (Goals n) × Within goal_limit n rows.now × (T.form_limit ≤ length space.old) }
    ensures outcome { F.outcome result
        ≡ size_in (F.or_thirteen (first_n (ahead rows.now) n) (T.text (form_any (ahead rows.now) n))) space.old }
    ensures goals { F.goals result ≡ first_n (ahead rows.now) n }
    ensures space_after { space.new
        ≡ buffer_after (F.or_thirteen (first_n (ahead rows.now) n) (T.text (form_any (ahead rows.now) n))) space.old }
{
    let mut prior = *rows;
    graph_transpose::transpose(&mut prior, n);
    let order = Directions {
        after: rows,
        prior: &prior,
    };
    if let Some(q) = form_first_n::first_n(order, n) {
        return Err(FormError::NoForm(q));
    }
    let all = u32::below(n);
    let size = form_split::put_form(space, 0, order, all, false);
    Ok(size)
}

// Writes the form of a record at the start of a buffer that holds every form. 01: "the closure is taken first".
fn put(b: &[u8], space: &mut [u8]) -> Result<usize, FormError>
    requires { T.form_limit ≤ length space.old }
    ensures outcome { F.outcome result ≡ F.form_answer b.now space.old }
    ensures goals { F.goals result ≡ F.shown b.now }
    ensures space_after { space.new ≡ F.form_buffer b.now space.old }
{
    let given = record::accept(b)?;
    let c = clause::decode(given);
    let g = order::order_of(&c);
    put_rows(&g.rows, g.n, space)
}

// Writes the form of a record into a lent buffer.
pub fn write(b: &[u8], out: &mut [u8]) -> Result<usize, FormError>
    ensures outcome { F.outcome result ≡ F.form_answer b.now out.old }
    ensures goals { F.goals result ≡ F.shown b.now }
    ensures out_after { out.new ≡ F.form_buffer b.now out.old }
{
    let mut space = [0u8; LONGEST];
    let size = put(b, &mut space)?;
    Ok(copy(&space[..size], out)?)
}

// The length of a record's form: what writing it into a buffer that holds every form answers.
pub fn length(b: &[u8]) -> Result<usize, FormError>
    ensures outcome { F.outcome result ≡ F.form_length b.now }
    ensures goals { F.goals result ≡ F.shown b.now }
{
    let mut space = [0u8; LONGEST];
    put(b, &mut space)
}
