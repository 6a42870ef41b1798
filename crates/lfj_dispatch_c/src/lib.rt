// The dispatcher's two operations for callers in C and in Rust, which link the archive that this crate is built to: each one calls that of the same name in `lfj_dispatch`, and
// promises the same, word for word.
#![tactic(auto)]

ghost use Rattle.std.specs.Prelude.{◌≡◌};
ghost use Rattle.lfj_words.specs.Words.{tick_word};
ghost use Rattle.dispatcher.specs.Ticks as T;

use dispatch_rule::Head;

// One tick: the goals that have ended after it.
#[unsafe(no_mangle)]
pub extern "C" fn lfj_tick(bytes: &[u8], heads: &mut [Head], ended: u32) -> u64
    ensures { (result ≡ tick_word (T.tick_answer bytes.now heads.old ended)) × (heads.new ≡ T.tick_row bytes.now heads.old ended) }
{
    lfj_dispatch::lfj_tick(bytes, heads, ended)
}

// A start: all heads idle, and no goal has ended.
#[unsafe(no_mangle)]
pub extern "C" fn lfj_start(bytes: &[u8], heads: &mut [Head]) -> u64
    ensures { (result ≡ tick_word (T.start_answer bytes.now heads.old)) × (heads.new ≡ T.start_row bytes.now heads.old) }
{
    lfj_dispatch::lfj_start(bytes, heads)
}
