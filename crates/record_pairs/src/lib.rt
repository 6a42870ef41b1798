// Checks the pairs of a record and its end.
#![tactic(auto)]

ghost use Rattle.std.specs.Prelude.{◌≡◌, ◌<◌, ◌^◌, ◌+◌, ◌*◌};
ghost use Rattle.record_fields.specs.Fields as F;
ghost use Rattle.record_rules.specs.Reading as R;
ghost use Rattle.record_pairs.specs.Order as O;

use record_rules::{Refusal, ensure};

// Whether a pair is lower then higher, below v, and its key above that of the pair before it.
pub fn pair_fine(low: u32, high: u32, v: usize, last: u32, key: u32) -> bool
    ensures { result ≡ O.pair_fine low high v last key }
{
    (low < high) & ((high as usize) < v) & (last < key)
}

// Checks p pairs from `from` on, one after the other, up to the first of which something is refused.
#[tactic(auto, using(record_rules::proofs::Fine::pairs_start, crate::proofs::PairTurns::last_zero))]
fn pairs(b: &[u8], from: usize, v: usize, p: usize) -> Result<(), Refusal>
    requires { (from < 2 ^ 32) × (p < 256) × (v ≡ F.var_count b.now) × (from ≡ F.pairs_place b.now) }
    ensures { result ≡ R.pairs b.now p (Ok tt) }
{
    let size = b.len();
    let mut last = 0;
    for k in 0..p {
        let at = from + 2 * k;
        ensure(at + 2 <= size, 7, size)?;
        let low = b[at];
        let high = b[at + 1];
        let key = u16::from_be_bytes([low, high]);
        let fine = pair_fine(
            u32::from(low),
            u32::from(high),
            v,
            u32::from(last),
            u32::from(key),
        );
        ensure(fine, 10, at)?;
        last = key;
    }
    Ok(())
}

// Checks the pairs from `from` on, and that nothing follows them.
#[tactic(auto, using(record_rules::proofs::Must::must_err, record_rules::proofs::Must::must_ok), unfolding(record_rules::specs::Reading::ending, record_rules::specs::Reading::end))]
pub fn ending(b: &[u8], from: usize, v: usize) -> Result<(), Refusal>
    requires { (from < 2 ^ 32) × (v ≡ F.var_count b.now) × (from ≡ F.pairs_place b.now) }
    ensures { result ≡ R.ending b.now (Ok tt) }
{
    let p = record_fields::pair_count(b);
    let end = from + 2 * p;
    pairs(b, from, v, p)?;
    ensure(end == b.len(), 11, end)
}
