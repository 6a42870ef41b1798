// Reading a byte of a lent buffer, and writing texts into one. A byte past the end is counted and not stored, so the same function measures a text (run on
// an empty buffer) and stores it.
// The place stands beside the buffer and in no writer that holds both: a caller also goes back, as from a stage's checks to the parenthesis before them.
#![tactic(auto)]

ghost use Rattle.std.specs.Prelude.{◌≡◌, [], ◌∷◌, ◌+◌, ◌^◌, ◌<◌, ◌≤◌, length, get_or};
ghost use Rattle.buffer.specs.Text.{Wrote, only};
ghost use Rattle.buffer.specs.Decimal.{decimal};

// The byte at place `at`, or 0 past the end.
pub fn byte(s: &[u8], at: usize) -> u8
    ensures { result ≡ get_or s.now at 0 }
{
    s.get(at).copied().unwrap_or(0)
}

// Writes b at place `at`.
pub fn put_byte(out: &mut [u8], at: usize, b: u8) -> usize
    requires { at + 1 < 2 ^ 64 }
    ensures { Wrote (b ∷ []) at out.old result out.new }
{
    if at < out.len() {
        out[at] = b;
    }
    at + 1
}

// Writes all of s from place `at`. Whether it has room is asked once and not at each byte, unless the buffer ends inside it. There it goes byte by byte: the copy of a
// part whose length is not known would keep a check's text in memory while its digits are put in, and MEL would take up to twice the time.
pub fn put_bytes(out: &mut [u8], at: usize, s: &[u8]) -> usize
    requires { at + length s.now < 2 ^ 64 }
    ensures { Wrote s.now at out.old result out.new }
{
    let end = at + s.len();
    if end <= out.len() {
        out[at..end].copy_from_slice(s);
    } else if at < out.len() {
        for (i, b) in s.iter().enumerate() {
            put_byte(out, at + i, *b);
        }
    }
    end
}

// The digit of x, which is below 10.
fn digit(x: usize) -> u8
    requires { x < 10 }
    ensures { result ≡ 48 + x }
{
    b'0' + x as u8
}

// Writes n in decimal, digit by digit.
fn put_digits(out: &mut [u8], at: usize, n: usize) -> usize
    requires { at + length (decimal n) < 2 ^ 63 }
    ensures { Wrote (decimal n) at out.old result out.new }
{
    if n < 10 {
        return put_byte(out, at, digit(n));
    }
    let o = put_digits(out, at, n / 10);
    put_byte(out, o, digit(n % 10))
}

// Writes n in decimal. Goals and variables have one or two digits, and are written where they are asked for, without a call.
pub fn put_number(out: &mut [u8], at: usize, n: usize) -> usize
    requires { at + length (decimal n) < 2 ^ 63 }
    ensures { Wrote (decimal n) at out.old result out.new }
{
    if n < 10 {
        return put_byte(out, at, digit(n));
    }
    if n < 100 {
        let o = put_byte(out, at, digit(n / 10));
        return put_byte(out, o, digit(n % 10));
    }
    put_digits(out, at, n)
}

// Writes b where `on` holds, and nothing where not.
#[tactic(auto, unfolding(crate::specs::Text::only))]
pub fn put_if(out: &mut [u8], at: usize, b: u8, on: bool) -> usize
    requires { at + 1 < 2 ^ 64 }
    ensures { Wrote (only on b) at out.old result out.new }
{
    if on {
        return put_byte(out, at, b);
    }
    at
}
