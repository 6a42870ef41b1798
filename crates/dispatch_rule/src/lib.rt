// The dispatcher's rule (02, request 4): what a tick does to a row of heads, which states it is given, how a run goes on. Definitions in specs/, laws in proofs/.
#![tactic(auto)]

// A head of the row: the goal that it works on and the ticks that are left of it; an idle head has zeros. Two words of 32 bits, the goal first, also for callers in
// C and Rust.
#[repr(C)]
#[derive(Clone, Copy)]
pub struct Head {
    pub goal: u32,
    pub left: u32,
}

impl Head {
    pub const IDLE: Head = Head { goal: 0, left: 0 };
}
