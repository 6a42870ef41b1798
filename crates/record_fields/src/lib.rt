// The fields of a clause record. Every read is total: a byte past the end is 0.
#![tactic(auto)]

ghost use Rattle.std.specs.Prelude.{◌≡◌, ◌+◌, ◌*◌, ◌<◌, ◌≤◌, ◌^◌, length, cond, false};
ghost use Rattle.record_fields.specs.Fields as F;
ghost use Rattle.record_fields.specs.Facts as K;

use buffer::byte;

// The bytes of the header: the first goal starts there.
pub const HEADER: usize = 24;

// Where the head set and the ground set stand in it.
pub const HEAD: usize = 8;

pub const GROUND: usize = 16;

// In a goal of version 2: where its ground set and its ticks stand.
pub const GOAL_GROUND: usize = 8;

pub const GOAL_TICKS: usize = 16;

// Where the version stands, and the versions that are read. Numbers and no enum: a record may name any version, and 3 refuses the others.
const VERSION: usize = 3;

pub const VERSION_ONE: u16 = 1;

pub const VERSION_TWO: u16 = 2;

// The number of the k bytes from `at` on, the most significant first.
#[tactic(auto, using(crate::proofs::Digits::number_zero, crate::proofs::Digits::number_more))]
pub fn number(b: &[u8], at: usize, k: usize) -> u64
    requires { (k ≤ 8) × (at + k < 2 ^ 64) }
    ensures { result ≡ F.number b.now at k }
{
    let mut r: u64 = 0;
    for i in 0..k {
        r = r * 256 + u64::from(byte(b, at + i));
    }
    r
}

// The number of the two bytes from `at` on.
#[tactic(auto, using(crate::proofs::Digits::number_two))]
fn two_bytes(b: &[u8], at: usize) -> u16
    requires { at + 1 < 2 ^ 64 }
    ensures { result ≡ F.number b.now at 2 }
{
    u16::from_be_bytes([byte(b, at), byte(b, at + 1)])
}

// The variable set at `at`, whose bytes are all there: one load.
#[tactic(auto, using(crate::proofs::Digits::number_eight))]
pub fn whole_set(b: &[u8], at: usize) -> u64
    requires { at + 8 ≤ length b.now }
    ensures { result ≡ F.set b.now at }
{
    u64::from_be_bytes([
        b[at],
        b[at + 1],
        b[at + 2],
        b[at + 3],
        b[at + 4],
        b[at + 5],
        b[at + 6],
        b[at + 7],
    ])
}

// The variable set at `at`.
pub fn set_at(b: &[u8], at: usize) -> u64
    requires { at + 8 < 2 ^ 64 }
    ensures { result ≡ F.set b.now at }
{
    if at + 8 <= b.len() {
        return whole_set(b, at);
    }
    number(b, at, 8)
}

// The header's fields.
pub fn version(b: &[u8]) -> u16
    ensures { result ≡ F.version b.now }
{
    two_bytes(b, VERSION)
}

pub fn goal_count(b: &[u8]) -> usize
    ensures value { result ≡ F.goal_count b.now }
    ensures upper_bound { result < 256 }
{
    usize::from(byte(b, 5))
}

pub fn var_count(b: &[u8]) -> usize
    ensures value { result ≡ F.var_count b.now }
    ensures upper_bound { result < 256 }
{
    usize::from(byte(b, 6))
}

pub fn pair_count(b: &[u8]) -> usize
    ensures value { result ≡ F.pair_count b.now }
    ensures upper_bound { result < 256 }
{
    usize::from(byte(b, 7))
}

pub fn head_set(b: &[u8]) -> u64
    ensures { result ≡ F.head_set b.now }
{
    set_at(b, HEAD)
}

pub fn ground_set(b: &[u8]) -> u64
    ensures { result ≡ F.ground_set b.now }
{
    set_at(b, GROUND)
}

// A record with what its header says of every goal, read once for all of them.
#[derive(Clone, Copy)]
pub struct Layout<'a> {
    pub bytes: &'a [u8],
    // Whether each goal has a ground set and ticks of its own: version 2.
    pub own: bool,
    // The header's ground set, which a goal without its own has.
    pub grounded: u64,
    ghost own_is: { own ≡ F.own_facts bytes.now },
    ghost grounded_is: { grounded ≡ F.ground_set bytes.now },
}

impl<'a> Layout<'a> {
    #[tactic(auto, unfolding(crate::specs::Fields::own_facts))]
    pub fn of(bytes: &'a [u8]) -> Layout<'a>
        ensures { result.bytes.now ≡ bytes.now }
    {
        Layout {
            bytes,
            own: version(bytes) == VERSION_TWO,
            grounded: ground_set(bytes),
        }
    }

    // How many bytes of a goal stand before its length byte.
    fn before_length(&self) -> usize
        ensures value { result ≡ cond (F.own_facts self.now.bytes.now) 18 8 }
        ensures upper_bound { result ≤ 18 }
    {
        if self.own { 18 } else { 8 }
    }

    // Of the goal that starts at `at`: where its length byte stands.
    #[tactic(auto, unfolding(crate::specs::Fields::length_at))]
    pub fn length_at(&self, at: usize) -> usize
        requires { at < 2 ^ 32 }
        ensures value { result ≡ F.length_at self.now.bytes.now at }
        ensures upper_bound { result ≤ at + 18 }
    {
        at + self.before_length()
    }

    // Where its text starts: its fixed part ends there.
    pub fn text_at(&self, at: usize) -> usize
        requires { at < 2 ^ 32 }
        ensures value { result ≡ F.text_at self.now.bytes.now at }
        ensures upper_bound { result ≤ at + F.fixed_size }
    {
        self.length_at(at) + 1
    }

    // How many bytes its text has.
    pub fn text_length_at(&self, at: usize) -> usize
        requires { at < 2 ^ 32 }
        ensures value { result ≡ F.text_length_at self.now.bytes.now at }
        ensures upper_bound { result < 256 }
    {
        usize::from(byte(self.bytes, self.length_at(at)))
    }

    // Where it ends.
    pub fn goal_end(&self, at: usize) -> usize
        requires { at < 2 ^ 32 }
        ensures value { result ≡ F.goal_end self.now.bytes.now at }
        ensures upper_bound { result ≤ at + (F.fixed_size + 255) }
    {
        self.text_at(at) + self.text_length_at(at)
    }

    // The variables known ground at it.
    #[tactic(auto, unfolding(crate::specs::Facts::ground_of))]
    pub fn ground_of(&self, at: usize) -> u64
        requires { at < 2 ^ 32 }
        ensures { result ≡ K.ground_of self.now.bytes.now at }
    {
        if self.own {
            set_at(self.bytes, at + GOAL_GROUND)
        } else {
            self.grounded
        }
    }

    // The same for a goal whose fixed part is there: one load, with no test of the length before it.
    #[tactic(auto, unfolding(crate::specs::Facts::ground_of, crate::specs::Fields::length_at))]
    pub fn whole_ground(&self, at: usize) -> u64
        requires { F.text_at self.now.bytes.now at ≤ length self.now.bytes.now }
        ensures { result ≡ K.ground_of self.now.bytes.now at }
    {
        if self.own {
            whole_set(self.bytes, at + GOAL_GROUND)
        } else {
            self.grounded
        }
    }

    // How many ticks it takes.
    #[tactic(auto, unfolding(crate::specs::Facts::ticks_of))]
    pub fn ticks_of(&self, at: usize) -> u32
        requires { at < 2 ^ 32 }
        ensures { result ≡ K.ticks_of self.now.bytes.now at }
    {
        if self.own {
            u32::from(two_bytes(self.bytes, at + GOAL_TICKS))
        } else {
            1
        }
    }

    // Where the first g goals end.
    #[tactic(auto, using(crate::proofs::Places::place_zero, crate::proofs::Places::place_more))]
    pub fn place_after(&self, g: usize) -> usize
        requires { g < 256 }
        ensures value { result ≡ F.place_after self.now.bytes.now g }
        ensures upper_bound { result ≤ F.header_size + (F.fixed_size + 255) * g }
    {
        let mut at = HEADER;
        for _ in 0..g {
            at = self.goal_end(at);
        }
        at
    }

    // Where goal g starts.
    pub fn goal_place(&self, g: usize) -> usize
        requires { (1 ≤ g) × (g ≤ 256) }
        ensures value { result ≡ F.goal_place self.now.bytes.now g }
        ensures upper_bound { result ≤ F.header_size + (F.fixed_size + 255) * 255 }
    {
        self.place_after(g - 1)
    }
}
