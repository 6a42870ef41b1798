// Writing the annotation of a record.
#![tactic(auto)]

ghost use Rattle.std.specs.Prelude.{◌≡◌, ◌+◌, ◌*◌, ◌<◌, ◌≤◌, length};
ghost use Rattle.sets.specs.Sets.{goal_limit, variable_limit};
ghost use Rattle.record_rules.specs.Outcome.{outcome, accepted, size_in, buffer_after};
ghost use Rattle.mel_text.specs.StageTexts as X;
ghost use Rattle.mel.specs.Annotation as N;

use mel_stages::Staged;
use record_rules::Refusal;

// No annotation of n goals with v variables is longer.
fn most(n: usize, v: u32) -> usize
    requires { (n ≤ goal_limit) × (v ≤ variable_limit) }
    ensures { result ≡ n * (15 * (v + v * v)) + 8 * n }
{
    let w = v as usize;
    let c = 15 * (w + w * w);
    n * c + 8 * n
}

// Writes the annotation of a clause of 1 to 32 goals, or refuses with 12 and the length needed. A buffer that holds every annotation of so many goals and
// variables needs no counting before the text is stored.
fn write_clause(out: &mut [u8], clause: &Staged) -> Result<usize, Refusal>
    requires { 0 < length clause.now.sets.now }
    ensures result_value { outcome result ≡ size_in (accepted (X.mel_of clause.now)) out.old }
    ensures out_after { out.new ≡ buffer_after (accepted (X.mel_of clause.now)) out.old }
{
    let n = clause.sets.len();
    let room = out.len();
    let v = sets::count(clause.before[n]);
    if room < most(n, v) {
        let mut nowhere = [0u8; 0];
        let need = mel_text::put_stages(&mut nowhere, 0, clause, n);
        if room < need {
            return Err(Refusal {
                number: 12,
                place: need,
            });
        }
    }
    let end = mel_text::put_stages(out, 0, clause, n);
    Ok(end)
}

// Writes the annotation of a record, and answers the text's length: the refusals of reading it, then 12.
#[tactic(auto, using(crate::proofs::Record::read_few))]
pub fn write(b: &[u8], out: &mut [u8]) -> Result<usize, Refusal>
    ensures result_value { outcome result ≡ N.mel_answer b.now out.old }
    ensures out_after { out.new ≡ N.mel_buffer b.now out.old }
{
    let given = record::accept(b)?;
    let c = clause::decode(given);
    let clause = Staged::new(c.head, &c.sets[..c.n], &c.grounds, &c.listed);
    write_clause(out, &clause)
}
