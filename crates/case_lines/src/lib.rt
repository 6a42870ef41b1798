// Reading lines of test cases: fields separated by one space, bytes in hexadecimal, numbers in decimal.
#![tactic(auto)]

ghost use Rattle.std.specs.Prelude.{◌≡◌, ◌+◌, ◌<◌, ◌≤◌, ◌^◌, ◌==◌, length, drop, position};
ghost use Rattle.buffer.specs.Text.{Wrote};
ghost use Rattle.case_lines.specs.Line as L;

// The place of the first byte `stop`, if there is one.
fn place(s: &[u8], stop: u8) -> Option<usize>
    ensures { result ≡ position (λ b. b == stop) s.now }
{
    s.iter().position(|b| *b == stop)
}

// The place of the first byte `stop` at or after `from`, or the length where there is none.
pub fn find(s: &[u8], from: usize, stop: u8) -> usize
    requires { from ≤ length s.now }
    ensures value { result ≡ from + L.up_to stop (drop from s.now) }
    ensures lower_bound { (from ≤ result) × (result ≤ length s.now) }
{
    let rest = &s[from..];
    from + place(rest, stop).unwrap_or(rest.len())
}

// The place after the first byte `stop` at or after `from`, or the length where there is none.
pub fn after(s: &[u8], from: usize, stop: u8) -> usize
    requires { from ≤ length s.now }
    ensures s_value { drop result s.now ≡ L.past stop (drop from s.now) }
    ensures lower_bound { (from ≤ result) × (result ≤ length s.now) }
{
    let at = find(s, from, stop);
    if at < s.len() { at + 1 } else { at }
}

// Where field k of a line starts.
fn field_start(s: &[u8], k: usize) -> usize
    ensures s_value { drop result s.now ≡ L.past_fields k s.now }
    ensures upper_bound { result ≤ length s.now }
{
    let mut at: usize = 0;
    for _ in 0..k {
        at = after(s, at, b' ');
    }
    at
}

// Field k of a line, counted from 0; empty where the line has fewer.
pub fn field(s: &[u8], k: usize) -> &[u8]
    ensures { result.now ≡ L.field_of k s.now }
{
    let at = field_start(s, k);
    let end = find(s, at, b' ');
    &s[at..end]
}

// The decimal number of a field, modulo 2 to the power 32.
pub fn number(s: &[u8]) -> u64
    ensures value { result ≡ L.value_of 0 s.now }
    ensures upper_bound { result < 2 ^ 32 }
{
    let mut v: u64 = 0;
    for b in s {
        v = (v * 10 + u64::from(*b) % 16) % 4294967296;
    }
    v
}

// The value of a hexadecimal digit, by arithmetic: the definition has a value for every byte.
fn nibble(b: u8) -> u8
    ensures value { result ≡ L.nibble b }
    ensures upper_bound { result < 16 }
{
    (b % 16 + 9 * (b / 64)) % 16
}

// Stores the bytes of a field in hexadecimal at the start of `out`, those past its end nowhere, and answers how many there are.
pub fn bytes(s: &[u8], out: &mut [u8]) -> usize
    ensures { Wrote (L.bytes_of s.now) 0 out.old result out.new }
{
    let mut o: usize = 0;
    for pair in s.chunks_exact(2) {
        let b = nibble(pair[0]) * 16 + nibble(pair[1]);
        o = buffer::put_byte(out, o, b);
    }
    o
}
