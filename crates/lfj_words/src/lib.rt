// The answer words of the functions for callers in C and Rust (specs/Words.antt), put together from their parts.
#![tactic(auto)]

ghost use Rattle.std.specs.Prelude.{◌≡◌, ◌%◌, ◌^◌};
ghost use Rattle.std.proofs.Math.Option.{some};
ghost use Rattle.record_rules.specs.Outcome.{refused};
ghost use Rattle.form_first_n.specs.FirstN.{four};
ghost use Rattle.order_compare.specs.Verdicts.{verdict_of};
ghost use Rattle.lfj_words.specs.Words as W;

use form_first_n::Four;
use order_compare::Verdict;
use record_rules::Refusal;

// The version of the interface: major, minor, the number of change requests that have landed, and patch, two digits each.
const VERSION: u32 = 10500;

pub fn version() -> u32
    ensures { result ≡ W.version }
{
    VERSION
}

// A length or a place, at bits 0 to 31.
pub fn low(n: usize) -> u64
    ensures { result ≡ n % 2 ^ 32 }
{
    // `as`, here and below: Rust has no `From` from usize to u64.
    n as u64 % 0x1_0000_0000
}

// The word of a refusal.
#[tactic(auto, unfolding(crate::specs::Words::refusal_word))]
pub fn refused(r: Refusal) -> u64
    ensures { result ≡ W.refusal_word r.number r.place }
{
    let number = u64::from(r.number);
    number * 0x100_0000_0000_0000 + low(r.place)
}

// The word of refusal 13 with its goals.
#[tactic(auto, unfolding(crate::specs::Words::refusal_word, crate::specs::Words::form_word))]
pub fn no_form(q: Four) -> u64
    ensures { result ≡ W.form_word (refused 13 0) (some (four q)) }
{
    let a = q.a as u64 % 0x40;
    let b = q.b as u64 % 0x40;
    let c = q.c as u64 % 0x40;
    let d = q.d as u64 % 0x40;
    let low = a * 0x1_0000_0000 + b * 0x40_0000_0000;
    let high = c * 0x1000_0000_0000 + d * 0x4_0000_0000_0000;
    0xd00_0000_0000_0000 + low + high
}

// The word of a goal's text: its place and its length.
pub fn span(place: usize, size: usize) -> u64
    ensures { result ≡ W.span_word place size }
{
    let length = size as u64 % 0x1_0000;
    low(place) + length * 0x1_0000_0000
}

// The word of a verdict.
pub fn verdict(v: Verdict) -> u64
    ensures { result ≡ W.verdict_word (verdict_of v) }
{
    match v {
        Verdict::Same => 0,
        Verdict::Differs(p) => {
            let i = p.i as u64 % 0x100;
            let j = p.j as u64 % 0x100;
            i + j * 0x100
        }
    }
}
