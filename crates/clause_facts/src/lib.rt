// The facts of a clause, for planners: each function fills what it is lent with one of them, and says what reading the record says. None has a
// precondition; with a refusal what is lent stays as it was. Reading and decoding are what the five share: one more function, with the fact as a closure, would
// have a contract of its own and each caller a closure with one.
#![tactic(auto, using(crate::proofs::Filled::filled_ok, crate::proofs::Filled::filled_err, record::proofs::WellFormed::read_well_formed), unfolding(clause::specs::Clause::decoded))]

ghost use Rattle.std.specs.Prelude.{◌≡◌};
ghost use Rattle.sets.specs.Sets.{goal_limit, variable_limit};
ghost use Rattle.record_fields.specs.Fields.{head_set};
ghost use Rattle.record_rules.specs.Reading.{reading};
ghost use Rattle.clause.specs.Clause as C;
ghost use Rattle.clause_facts.specs.Facts.{filled};

use graph::Graph;
use record_rules::Refusal;

// Fills `sets` with the variables of the goals, those of goal g at place g - 1.
pub fn goal_sets(bytes: &[u8], sets: &mut [u64; Graph::MAX]) -> Result<(), Refusal>
    ensures value { result ≡ reading bytes.now }
    ensures sets_after { sets.new ≡ filled bytes.now (C.goal_sets goal_limit bytes.now) sets.old }
{
    let facts = clause::decode(record::accept(bytes)?).sets;
    *sets = facts;
    Ok(())
}

// Fills `sets` with the variables known ground at the goals, those at goal g at place g - 1.
pub fn ground_sets(bytes: &[u8], sets: &mut [u64; Graph::MAX]) -> Result<(), Refusal>
    ensures value { result ≡ reading bytes.now }
    ensures sets_after { sets.new ≡ filled bytes.now (C.ground_sets goal_limit bytes.now) sets.old }
{
    let facts = clause::decode(record::accept(bytes)?).grounds;
    *sets = facts;
    Ok(())
}

// Fills `ticks` with the ticks of the goals, those of goal g at place g - 1.
pub fn goal_ticks(bytes: &[u8], ticks: &mut [u32; Graph::MAX]) -> Result<(), Refusal>
    ensures value { result ≡ reading bytes.now }
    ensures ticks_after { ticks.new ≡ filled bytes.now (C.goal_ticks goal_limit bytes.now) ticks.old }
{
    let facts = clause::decode(record::accept(bytes)?).ticks;
    *ticks = facts;
    Ok(())
}

// Fills `rows` with the listed pairs, row x with the variables that are listed in a pair with x.
pub fn listed_pairs(bytes: &[u8], rows: &mut [u64; sets::VARIABLES]) -> Result<(), Refusal>
    ensures value { result ≡ reading bytes.now }
    ensures rows_after { rows.new ≡ filled bytes.now (C.pair_rows variable_limit bytes.now) rows.old }
{
    let facts = clause::decode(record::accept(bytes)?).listed;
    *rows = facts;
    Ok(())
}

// Puts the head's variables into `head`.
pub fn head(bytes: &[u8], head: &mut u64) -> Result<(), Refusal>
    ensures value { result ≡ reading bytes.now }
    ensures head_after { head.new ≡ filled bytes.now (head_set bytes.now) head.old }
{
    record::read(bytes)?;
    *head = record_fields::head_set(bytes);
    Ok(())
}
